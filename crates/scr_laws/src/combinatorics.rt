//! Laws of lists, permutations and the numbers of lists. The functions do nothing: what
//! each ensures is the law.

ghost use Rattle.std.specs.Prelude.{◌≡◌, ℕ, ◌+◌, ◌-◌, ◌*◌, ◌/◌, ◌%◌, ◌^◌, ◌<◌, ◌↔◌, List, All, IsTrue, length, replicate, slice_index, take};
ghost use Rattle.scr_combinatorics.specs.Lists.{IsRearranged, ComesBefore, numbers_from, pick, total};
ghost use Rattle.scr_combinatorics.specs.Permutations.{IsPermutation, is_permutation, inverse, parity, factorial, permutation_number, permutation_at, half_at};
ghost use Rattle.scr_combinatorics.specs.PlaceSets.{binomial, IsPlaceSet, place_set_number, place_set_at};
ghost use Rattle.scr_combinatorics.specs.Pairings.{IsPairing, pairing_count, pairing_number, pairing_at};
ghost use Rattle.scr_combinatorics.specs.Digits.{product, AreDigits, mixed_number, mixed_digits};
ghost use Rattle.scr_combinatorics.specs.Twists.{IsTwists, twists_number, twists_at};
ghost use Rattle.scr_combinatorics.specs.Numbering.{IsOneToOne};

/// A list that is picked by a permutation of its places has the same elements and the same sum, and
/// picking twice is picking by the composition.
pub fn picking()
    ensures same_elements { (xs ks : List ℕ)
        → IsPermutation (length xs) ks → IsRearranged (pick xs ks) xs }
    ensures same_sum { (xs ks : List ℕ) → IsPermutation (length xs) ks → total (pick xs ks) ≡ total xs }
    ensures composed { (xs ks ls : List ℕ)
        → All (λ l. l < length ks) ls → pick (pick xs ks) ls ≡ pick xs (pick ks ls) }
    ensures in_order { (xs : List ℕ) → pick xs (numbers_from 0 (length xs)) ≡ xs }
{}

/// The composition of two permutations is a permutation, and its parity is the sum of theirs.
pub fn composition()
    ensures permutation { (n : ℕ) (xs ks : List ℕ)
        → IsPermutation n xs → IsPermutation n ks → IsPermutation n (pick xs ks) }
    ensures parity { (n : ℕ) (xs ks : List ℕ)
        → IsPermutation n xs → IsPermutation n ks → parity (pick xs ks) ≡ (parity xs + parity ks) % 2 }
{}

/// The inverse of a permutation is a permutation of the same parity, and each undoes the other.
pub fn inverses()
    ensures permutation { (n : ℕ) (xs : List ℕ) → IsPermutation n xs → IsPermutation n (inverse xs) }
    ensures after { (n : ℕ) (xs : List ℕ) → IsPermutation n xs → pick xs (inverse xs) ≡ numbers_from 0 n }
    ensures before { (n : ℕ) (xs : List ℕ) → IsPermutation n xs → pick (inverse xs) xs ≡ numbers_from 0 n }
    ensures parity { (n : ℕ) (xs : List ℕ) → IsPermutation n xs → parity (inverse xs) ≡ parity xs }
{}

/// The test tells which lists are permutations.
pub fn permutation_test()
    ensures { (n : ℕ) (xs : List ℕ) → IsTrue (is_permutation n xs) ↔ IsPermutation n xs }
{}

/// Permutations are numbered by the numbers below `n!`, in the order of a dictionary.
pub fn permutations_in_order()
    ensures numbered { (n : ℕ) → IsOneToOne (factorial n) (permutation_at n) permutation_number (IsPermutation n) }
    ensures order { (n : ℕ) (xs ys : List ℕ)
        → IsPermutation n xs → IsPermutation n ys
        → ComesBefore xs ys → permutation_number xs < permutation_number ys }
{}

/// The permutations of one parity, even or odd, are numbered by half their number, from 0 up to `n! / 2`, in the order
/// of a dictionary: of the two numbered `2 * r` and `2 * r + 1`, exactly one is even.
pub fn halves_in_order()
    ensures exactly_one { (n r : ℕ) (xs ys : List ℕ)
        → IsPermutation n xs → IsPermutation n ys
        → permutation_number xs ≡ 2 * r → permutation_number ys ≡ 2 * r + 1 → parity xs + parity ys ≡ 1 }
    ensures numbered { (n odd : ℕ) → 1 < n → odd < 2
        → IsOneToOne (factorial n / 2) (half_at n odd) (λ xs. permutation_number xs / 2)
        (λ xs. IsPermutation n xs × (parity xs ≡ odd)) }
    ensures order { (n : ℕ) (xs ys : List ℕ)
        → IsPermutation n xs → IsPermutation n ys → parity xs ≡ parity ys
        → ComesBefore xs ys → permutation_number xs / 2 < permutation_number ys / 2 }
{}

/// Sets of `k` of `n` places, as increasing lists, are numbered by the numbers below `n` over `k`, in the order of a
/// dictionary.
pub fn place_sets_in_order()
    ensures numbered { (n k : ℕ) → IsOneToOne (binomial n k) (place_set_at n k) (place_set_number n) (IsPlaceSet n k) }
    ensures order { (n k : ℕ) (xs ys : List ℕ)
        → IsPlaceSet n k xs → IsPlaceSet n k ys
        → ComesBefore xs ys → place_set_number n xs < place_set_number n ys }
{}

/// The ways to pair `2 * pairs` places, as the lists of each place's partner, are numbered by the numbers below
/// `1 * 3 * 5 * ..` of so many factors, in the order of a dictionary.
pub fn pairings_in_order()
    ensures numbered { (pairs : ℕ)
        → IsOneToOne (pairing_count pairs) (pairing_at pairs) (pairing_number pairs) (IsPairing (2 * pairs)) }
    ensures order { (pairs : ℕ) (xs ys : List ℕ)
        → IsPairing (2 * pairs) xs → IsPairing (2 * pairs) ys
        → ComesBefore xs ys → pairing_number pairs xs < pairing_number pairs ys }
{}

/// Digits, each below its own base, are numbered by the numbers below the product of the bases: the first digit is the
/// least, and each place has what the number leaves after the bases before it, modulo its own base.
pub fn mixed_by_digits()
    ensures numbered { (bases : List ℕ) → 0 < product bases
        → IsOneToOne (product bases) (mixed_digits bases) (mixed_number bases) (AreDigits bases) }
    ensures place_has_digit { (bases ds : List ℕ)
        → AreDigits bases ds → (k : ℕ) → k < length bases
        → slice_index ds k ≡ mixed_number bases ds / product (take k bases) % slice_index bases k }
{}

/// Digits in one base are numbers below it, and are numbered by the numbers below its power.
pub fn digits_in_one_base()
    ensures each_below { (n base : ℕ) (ds : List ℕ)
        → AreDigits (replicate n base) ds ↔ ((length ds ≡ n) × All (λ d. d < base) ds) }
    ensures count { (n base : ℕ) → product (replicate n base) ≡ base ^ n }
{}

/// Digits in one base whose sum is 0 modulo the base are numbered by the numbers below its power: place `k` has digit
/// `k` of the number, the least first, and the last place is fixed by the sum.
pub fn twists_by_digits()
    ensures numbered { (n base : ℕ) → 0 < n → 0 < base
        → IsOneToOne (base ^ (n - 1)) (twists_at n base) (twists_number base) (IsTwists n base) }
    ensures place_has_digit { (n base : ℕ) (ds : List ℕ)
        → IsTwists n base ds → (k : ℕ) → k < n - 1
        → slice_index ds k ≡ twists_number base ds / base ^ k % base }
{}
