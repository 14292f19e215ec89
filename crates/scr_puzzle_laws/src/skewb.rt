//! Laws of the Skewb. The functions do nothing: what each ensures is the law.

ghost use Rattle.std.specs.Prelude.{◌≡◌, ◌*◌, ◌/◌, ◌^◌, List, [], ◌∷◌, length, Some, codes};
ghost use Rattle.scr_combinatorics.specs.Permutations.{factorial};
ghost use Rattle.scr_combinatorics.specs.Numbering.{IsNumbering};
ghost use Rattle.scr_combinatorics.specs.Play.{play, count_in};
ghost use Rattle.scr_combinatorics.specs.Reach.{Needs};
ghost use Rattle.scr_orbit.specs.Orbits.{zeros};
ghost use Rattle.scr_orbit.specs.PowerPuzzles.{IsPowerPuzzle, HaveOrders, word_at, after_letter, power_puzzle};
ghost use Rattle.scr_notation.specs.declared.event.Event.TheVariants.{Skewb};
ghost use Rattle.scr_notation.specs.declared.turn.Turn.{Turn as Letter};
ghost use Rattle.scr_notation.specs.Spelling.{text_of};
ghost use Rattle.scr_notation.specs.Turning.{opposite, turn_merging};
ghost use Rattle.scr_puzzle_laws.specs.Played.{PlaysTurnsOf};
ghost use Rattle.scr_tetra.specs.Skewb.{IsSkewb, skewb_powers, solved_skewb, skewb_numbered};
ghost use Rattle.scr_puzzle_laws.specs.SkewbStickers.{CarriesAll, rotated_piece};
ghost use Rattle.scr_tetra.specs.SkewbKnown.{skewb_orders, after_b_u, after_b_r, rotation, RotatesTurns};

/// The turns are lawful: they keep states valid, and what two come to does what one and then the other do; words are
/// taken back and tidied, and each does to every state what it does to the solved one. What turns reach is valid. A turn
/// by one third has order 3, and each turn has the number that the notation gives it.
pub fn turns()
    ensures { IsPowerPuzzle skewb_powers IsSkewb opposite turn_merging }
{}

/// From each valid state turns lead to a state exactly where each of them is a turn of the event.
pub fn played_where_all_are_turns()
    ensures { PlaysTurnsOf Skewb IsSkewb (after_letter skewb_powers) }
{}

/// Each number below the count is that of exactly one valid state, and each valid state has exactly one.
pub fn numbering()
    ensures one_to_one { IsNumbering skewb_numbered }
    ensures states { skewb_numbered.count ≡ 3 ^ 4 * 3 ^ 2 * (factorial 4 / 2) * (factorial 6 / 2) }
    ensures count { skewb_numbered.count ≡ 3149280 }
{}

/// Every turn counts once. The state after B U needs one at least, and not three.
pub fn minima()
    ensures counts { (w : List Letter) → count_in (power_puzzle skewb_powers).counted w ≡ length w }
    ensures one_needed { Needs (power_puzzle skewb_powers) after_b_u 1 }
    ensures two_enough { Needs (power_puzzle skewb_powers) after_b_u 3 → ⊥ }
{}

/// U L has order 45, U L' 30, U B 9, and R' L R L' 6.
pub fn orders()
    ensures { HaveOrders skewb_powers skewb_orders }
{}

/// The Skewb looks the same turned as a whole about UFR: each turn shows as the one about the next axis.
#[tactic(auto, unfolding(scr_tetra::proofs::SkewbOnLiterals::skewb_on_literals))]
pub fn symmetry()
    ensures whole { CarriesAll rotated_piece rotation }
    ensures turns { RotatesTurns rotation }
{}

/// States that are known from elsewhere.
#[tactic(auto, unfolding(scr_tetra::proofs::SkewbOnLiterals::skewb_on_literals))]
pub fn known_states()
    ensures spelled { text_of (word_at skewb_powers (6 ∷ 0 ∷ [])) ≡ codes "B U" }
    ensures b_u { play (after_letter skewb_powers) solved_skewb (word_at skewb_powers (6 ∷ 0 ∷ [])) ≡ Some after_b_u }
    ensures b_r { play (after_letter skewb_powers) solved_skewb (word_at skewb_powers (6 ∷ 4 ∷ [])) ≡ Some after_b_r }
    ensures first { skewb_numbered.state_at 0 ≡ solved_skewb }
    ensures number_1718795 { skewb_numbered.state_at 1718795 ≡ after_b_u }
    ensures last { skewb_numbered.state_at 3149279 ≡ record {
      four = record { pieces = 3 ∷ 2 ∷ 1 ∷ 0 ∷ []; digits = 2 ∷ 2 ∷ 2 ∷ 2 ∷ [] };
      three = record { pieces = 1 ∷ 2 ∷ 0 ∷ []; digits = 2 ∷ 2 ∷ 2 ∷ [] };
      centres = record { pieces = 5 ∷ 4 ∷ 3 ∷ 2 ∷ 0 ∷ 1 ∷ []; digits = zeros 6 };
    } }
{}
