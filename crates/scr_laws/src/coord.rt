//! Laws of projections. The functions do nothing: what each ensures is the law.

ghost use Rattle.std.specs.Prelude.{◌≡◌, ℕ, ◌<◌, Bool, List, [], ◌∷◌, All, length};
ghost use Rattle.scr_combinatorics.specs.Lists.{numbers_from};
ghost use Rattle.scr_combinatorics.specs.Permutations.{permutation_number};
ghost use Rattle.scr_combinatorics.specs.PlaceSets.{IsPlaceSet, place_set_number};
ghost use Rattle.scr_combinatorics.specs.Twists.{twists_number};
ghost use Rattle.scr_orbit.specs.Orbits.{Orbit, IsOrbit, IsZeroSumOrbit, zeros};
ghost use Rattle.scr_positions.specs.SearchSpaces.{positions, Follows};
ghost use Rattle.scr_coord.specs.Projections.{AreTurns, projection, twists_view, pieces_view, place_set_view, marked_places, turned_set, orbit_space};

/// The numbers of an orbit's digits, of its pieces, and of the places at which marked pieces stand go along with turns,
/// so that a search finds the same on them. `marked` marks `k` of the `n` pieces.
pub fn projections()
    ensures twists { (n base : ℕ) (turns : List Orbit) → 0 < n → 0 < base → All (IsZeroSumOrbit n base) turns
        → Follows (orbit_space base turns (IsZeroSumOrbit n base) (λ o. o.digits ≡ zeros n))
        (positions (projection (twists_view n base) turns)) (λ o. twists_number base o.digits) }
    ensures pieces { (n m : ℕ) (turns : List Orbit) → 0 < m → All (IsOrbit n m) turns
        → Follows (orbit_space m turns (IsOrbit n m) (λ o. o.pieces ≡ numbers_from 0 n))
        (positions (projection (pieces_view n) turns)) (λ o. permutation_number o.pieces) }
    ensures place_sets { (n m k : ℕ) (marked : ℕ → Bool) (home : List ℕ) (turns : List Orbit)
        → 0 < m → All (IsOrbit n m) turns
        → IsPlaceSet n k home → length (marked_places marked (numbers_from 0 n)) ≡ k
        → Follows (orbit_space m turns (IsOrbit n m) (λ o. marked_places marked o.pieces ≡ home))
        (positions (projection (place_set_view n k home) turns)) (λ o. place_set_number n (marked_places marked o.pieces)) }
{}

/// The definitions at lists worked by hand, and what they refuse. The turn is a cycle of three places: place 0 gets
/// what stands at place 2, place 1 what stands at 0, and place 2 what stands at 1.
pub fn rows()
    // the digits 1 2 0 are carried to 0 1 2, and 0 1 2 is added to them, modulo 3
    ensures digits { (twists_view 3 3).turned (1 ∷ 2 ∷ 0 ∷ []) (record { pieces = 2 ∷ 0 ∷ 1 ∷ []; digits = 0 ∷ 1 ∷ 2 ∷ [] })
        ≡ 0 ∷ 2 ∷ 1 ∷ [] }
    ensures pieces { (pieces_view 3).turned (1 ∷ 0 ∷ 2 ∷ []) (record { pieces = 2 ∷ 0 ∷ 1 ∷ []; digits = [] })
        ≡ 2 ∷ 1 ∷ 0 ∷ [] }

    // what stands at the places 0 and 1 goes to the places 1 and 2
    ensures set { turned_set (0 ∷ 1 ∷ []) (record { pieces = 2 ∷ 0 ∷ 1 ∷ []; digits = [] }) ≡ 1 ∷ 2 ∷ [] }
    ensures no_turns { AreTurns (λ (turn : ℕ). turn ≡ turn) [] → ⊥ }
{}
