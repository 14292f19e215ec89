//! Which held cubes turns reach: a call that does nothing, whose contract is the law.

ghost use Rattle.std.specs.Prelude.{◌≡◌, ℕ, ◌↔◌, List, Contains, Some};
ghost use Rattle.scr_combinatorics.specs.Play.{play};
ghost use Rattle.scr_combinatorics.specs.Reach.{IsReached, Needs};
ghost use Rattle.scr_orbit.specs.PowerPuzzles.{power_puzzle};
ghost use Rattle.scr_notation.specs.declared.turn.Turn.{Turn as Letter};
ghost use Rattle.scr_cube.specs.Cube333.{cube_powers};
ghost use Rattle.scr_cube.specs.Held.{HeldState, IsHeld, held_cube_after, solved_held, holds, held_puzzle};

/// Turns reach a held cube, from the solved one that is held as it was solved, where they reach the cube, whatever the
/// hold; and it needs as many as the cube.
pub fn held_cubes()
    ensures reached { (s : HeldState)
        → IsReached held_puzzle s ↔ (IsHeld s × IsReached (power_puzzle cube_powers) s.cube) }
    ensures from_solved { (s : HeldState) → IsReached held_puzzle s
        → (w : List Letter) × (play held_cube_after solved_held w ≡ Some s) }
    ensures needs { (s : HeldState) (least : ℕ) → Contains holds s.centres
        → Needs held_puzzle s least ↔ Needs (power_puzzle cube_powers) s.cube least }
{}
