//! Laws of coordinates. The functions do nothing: what each ensures is the law.

ghost use Rattle.std.specs.Prelude.{◌≡◌, ℕ, ◌+◌, ◌*◌, ◌&&◌, Bool, true, false, [], ◌∷◌, Option, Some, None};
ghost use Rattle.scr_positions.specs.Coordinates.{Coordinate, StaysBelow};
ghost use Rattle.scr_positions.specs.SearchSpaces.{positions, tested_space, Follows, FindsTheSame, ShowsSame};
ghost use Rattle.scr_positions.specs.Products.{side_by_side, product_coordinate};
ghost use Rattle.scr_positions.specs.Moves.{moves_coordinate};

/// A search finds the same on coordinates that show the same, as on a move table and what it was made of: the same
/// words to goals, distances and first words. Products of such coordinates show the same too.
pub fn shown_alike()
    ensures searched { (c shown : Coordinate) → StaysBelow c → ShowsSame c shown
        → FindsTheSame (positions c) (positions shown) (λ p. p) }
    ensures products { (low high shown_low shown_high : Coordinate) → high.turns ≡ low.turns
        → ShowsSame low shown_low → ShowsSame high shown_high
        → ShowsSame (product_coordinate low high) (product_coordinate shown_low shown_high) }
{}

/// A search finds the same on any states and on a view of them that goes along with turns, and such views can be taken
/// one after another.
pub fn views<S, R>()
    ensures searched { (valid goal : S → Bool) (after : S → ℕ → Option S) (other : Coordinate) (view : S → ℕ)
        → Follows (tested_space valid after goal) (positions other) view
        → FindsTheSame (tested_space valid after goal) (positions other) view }
    ensures through { (valid goal : S → Bool) (after : S → ℕ → Option S) (valid_part goal_part : R → Bool)
        (after_part : R → ℕ → Option R) (other : Coordinate) (part : S → R) (view : R → ℕ)
        → Follows (tested_space valid after goal) (tested_space valid_part after_part goal_part) part
        → Follows (tested_space valid_part after_part goal_part) (positions other) view
        → Follows (tested_space valid after goal) (positions other) (λ s. view (part s)) }
    ensures products { (valid low_goal high_goal : S → Bool) (after : S → ℕ → Option S) (low high : Coordinate) (v u : S → ℕ)
        → high.turns ≡ low.turns
        → Follows (tested_space valid after low_goal) (positions low) v
        → Follows (tested_space valid after high_goal) (positions high) u
        → Follows (tested_space valid after (λ s. low_goal s && high_goal s)) (positions (product_coordinate low high))
        (λ s. v s + low.count * u s) }
{}

/// The definitions at positions worked by hand.
pub fn rows()
    // position 3 of five and position 2 are 3 + 5 * 2; with a barred turn there is none
    ensures pair { (side_by_side 5 (Some 3) (Some 2) ≡ Some 13) × (side_by_side 5 None (Some 2) ≡ None)
        × (side_by_side 5 (Some 3) None ≡ None) }

    // two positions with two turns each: the second turn of position 0 is barred, and the first of position 1 leads to
    // 0
    ensures table { let entries = 1 ∷ 0 ∷ 4294967295 ∷ 1 ∷ [] in
        let table = moves_coordinate (record { count = 2; turns = 2; targets = entries; goals = true ∷ false ∷ [] }) in
        (table.after 0 1 ≡ None) × (table.after 1 0 ≡ Some 0) × (table.is_goal 0 ≡ true) × (table.is_goal 1 ≡ false) }
{}
