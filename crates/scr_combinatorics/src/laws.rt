//! The definitions at lists worked by hand: a call that does nothing, whose contract has the rows.

ghost use Rattle.std.specs.Prelude.{◌≡◌, [], ◌∷◌};
ghost use Rattle.scr_combinatorics.specs.Lists.{pick};
ghost use Rattle.scr_combinatorics.specs.Permutations.{IsPermutation, inverse, parity, factorial, permutation_number};
ghost use Rattle.scr_combinatorics.specs.PlaceSets.{binomial, IsPlaceSet, place_set_number};
ghost use Rattle.scr_combinatorics.specs.Pairings.{IsPairing, pairing_count, pairing_number, pairing_at};
ghost use Rattle.scr_combinatorics.specs.Digits.{AreDigits, mixed_number};
ghost use Rattle.scr_combinatorics.specs.Twists.{IsTwists, twists_number};

/// The definitions at lists worked by hand, and lists that they refuse.
#[tactic(auto, unfolding(crate::specs::Pairings::pairing_number, crate::specs::Pairings::pairing_at))]
pub fn rows()
    // the last and the first of the 24 lists of four numbers; 0 2 3 1 is number 3 and has two pairs in falling order
    ensures permutation_numbers { (permutation_number (3 ∷ 2 ∷ 1 ∷ 0 ∷ []) ≡ 23)
        × (permutation_number (0 ∷ 1 ∷ 2 ∷ 3 ∷ []) ≡ 0) × (permutation_number (0 ∷ 2 ∷ 3 ∷ 1 ∷ []) ≡ 3) }
    ensures parities { (parity (0 ∷ 2 ∷ 3 ∷ 1 ∷ []) ≡ 0) × (parity (1 ∷ 0 ∷ []) ≡ 1) }

    // a cycle of three: its inverse, and the cycle applied twice, are the cycle the other way round
    ensures cycle { (inverse (1 ∷ 2 ∷ 0 ∷ []) ≡ 2 ∷ 0 ∷ 1 ∷ [])
        × (pick (1 ∷ 2 ∷ 0 ∷ []) (1 ∷ 2 ∷ 0 ∷ []) ≡ 2 ∷ 0 ∷ 1 ∷ []) }
    ensures twice_is_none { IsPermutation 3 (1 ∷ 2 ∷ 1 ∷ []) → ⊥ }
    ensures counts { (factorial 12 ≡ 479001600) × (binomial 4 2 ≡ 6) }

    // 01 02 03 12 13 23 are the sets of two of four places
    ensures place_sets { (place_set_number 4 (2 ∷ 3 ∷ []) ≡ 5) × (place_set_number 4 (1 ∷ 2 ∷ []) ≡ 3) }
    ensures falling_is_none { IsPlaceSet 4 2 (2 ∷ 1 ∷ []) → ⊥ }

    // eight places in pairs: the first, one between and the last of the 105
    ensures pairings { (pairing_at 4 0 ≡ 1 ∷ 0 ∷ 3 ∷ 2 ∷ 5 ∷ 4 ∷ 7 ∷ 6 ∷ [])
        × (pairing_number 4 (2 ∷ 3 ∷ 0 ∷ 1 ∷ 6 ∷ 7 ∷ 4 ∷ 5 ∷ []) ≡ 16)
        × (pairing_at 4 104 ≡ 7 ∷ 6 ∷ 5 ∷ 4 ∷ 3 ∷ 2 ∷ 1 ∷ 0 ∷ []) × (pairing_count 4 ≡ 105) }
    ensures own_partner_is_none { IsPairing 2 (0 ∷ 1 ∷ []) → ⊥ }
    ensures cycle_is_none { IsPairing 4 (1 ∷ 2 ∷ 3 ∷ 0 ∷ []) → ⊥ }

    // 2 + 3 * 1, where the last digit is not read; 1 + 2 * (2 + 3 * 3)
    ensures digit_numbers { (twists_number 3 (2 ∷ 1 ∷ 0 ∷ []) ≡ 5)
        × (mixed_number (2 ∷ 3 ∷ 4 ∷ []) (1 ∷ 2 ∷ 3 ∷ []) ≡ 23) }
    ensures other_sum_is_none { IsTwists 3 3 (2 ∷ 1 ∷ 1 ∷ []) → ⊥ }
    ensures too_large_is_none { AreDigits (2 ∷ 3 ∷ []) (2 ∷ 0 ∷ []) → ⊥ }
{}
