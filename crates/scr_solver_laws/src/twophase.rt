//! Laws of the two parts of a 3x3x3, and of its scrambles for fewest moves. The functions do nothing: what each ensures
//! is the law.

ghost use Rattle.std.specs.Prelude.{◌≡◌, ◌<◌, ◌≤◌, ◌↔◌, ℕ, All, Contains, IsSome, IsTrue, List, [], ◌∷◌, ◌++◌, Some};
ghost use Rattle.std.specs.Prelude.{codes, is_some, length};
ghost use Rattle.std.specs.Option.{option_map};
ghost use Rattle.scr_combinatorics.specs.Back.{back};
ghost use Rattle.scr_combinatorics.specs.Play.{play};
ghost use Rattle.scr_orbit.specs.PowerPuzzles.{after_letter};
ghost use Rattle.scr_notation.specs.declared.turn.Turn.{Turn};
ghost use Rattle.scr_notation.specs.Spelling.{text_of};
ghost use Rattle.scr_notation.specs.Turning.{opposite};
ghost use Rattle.scr_cube.specs.Cube333.{CubeState, IsCube, cube_powers, solved_cube};
ghost use Rattle.scr_combinatorics.specs.Words.{words_of};
ghost use Rattle.scr_twophase.specs.Tables.{prune_lines};
ghost use Rattle.scr_stages.specs.Stages.{domino_turns};
ghost use Rattle.scr_cube.specs.ListedTurns.{turn_numbers};
ghost use Rattle.scr_search.specs.Orderly.{after_turn};
ghost use Rattle.scr_twophase.specs.TwoParts.{is_first_part, first_parts, is_solution, joined, two_parts, IsScramble333};
ghost use Rattle.scr_twophase.specs.Fewest.{frame, between, is_framed, IsFramed};
ghost use Rattle.scr_twophase.specs.SearchTables.{prune_tables};
ghost use Rattle.scr_table.specs.TableStates.{AreLinesOf};

/// The words of n turns in the lists are all lists of n of the 18 turns.
pub fn words()
    ensures { (n : ℕ) (w : List ℕ) → Contains (words_of turn_numbers n) w ↔ (length w ≡ n) × All (λ t. t < 18) w }
{}

/// A first part has at most twelve of the 18 turns, and each word of so many that is such is one.
pub fn first_parts()
    ensures all { (c : CubeState) (w : List ℕ)
        → Contains (first_parts c) w ↔ (length w ≤ 12) × All (λ t. t < 18) w × IsTrue (is_first_part c w) }

    // R F L B, three times, is a first part of the cube that it solves, and one turn more makes a first part of none
    ensures twelve { (c : CubeState)
        → play after_turn c (3 ∷ 6 ∷ 12 ∷ 15 ∷ 3 ∷ 6 ∷ 12 ∷ 15 ∷ 3 ∷ 6 ∷ 12 ∷ 15 ∷ []) ≡ Some solved_cube
        → Contains (first_parts c) (3 ∷ 6 ∷ 12 ∷ 15 ∷ 3 ∷ 6 ∷ 12 ∷ 15 ∷ 3 ∷ 6 ∷ 12 ∷ 15 ∷ []) }
    ensures no_thirteen { (c : CubeState)
        → Contains (first_parts c) (3 ∷ 6 ∷ 12 ∷ 15 ∷ 3 ∷ 6 ∷ 12 ∷ 15 ∷ 3 ∷ 6 ∷ 12 ∷ 15 ∷ 3 ∷ []) → ⊥ }
{}

/// A second part has at most ten of the turns that keep a domino, and there is one wherever a word of so many leads on
/// to solved and is orderly behind the first part.
pub fn second_parts()
    ensures such { (c : CubeState) (first both : List ℕ) → joined c first ≡ Some both
        → (w : List ℕ) × (both ≡ first ++ w) × (length w ≤ 10) × All (Contains domino_turns) w × IsTrue (is_solution c both) }
    ensures some { (c : CubeState) (first w : List ℕ) → length w ≤ 10 → All (Contains domino_turns) w
        → IsTrue (is_solution c (first ++ w)) → IsSome (joined c first) }
{}

/// Where a cube has two parts, its scramble has at most 22 turns: twelve of a first part, and ten of a second.
pub fn few_turns()
    ensures { (c : CubeState) (tries : ℕ) (turns : List Turn) → IsScramble333 tries c turns
        → IsTrue (is_some (two_parts c tries)) → length turns ≤ 22 }
{
    first_parts();
    second_parts();
}

/// The lines by which the tables are built are those of the tables as cubes tell them. From every cube with a number,
/// of those of which a table speaks, a turn leads to one and the same number, that to which the line's coordinate
/// leads; and all of them are at the coordinate's goal, or none. Each number below the table's count is that of such a
/// cube.
pub fn told_by_states()
    ensures { AreLinesOf prune_tables prune_lines }
{}

/// The frame taken back, and then any word that leads from solved to what the frame taken back makes of a cube, leads
/// from solved to the cube that stands between.
pub fn between_by_words()
    ensures { (s : CubeState) (v : List Turn) → IsCube s
        → play (after_letter cube_powers) solved_cube v ≡ play (after_letter cube_powers) s (back opposite frame)
        → play (after_letter cube_powers) solved_cube (back opposite frame ++ v) ≡ Some (between s) }
{}

/// The frame as text, and taken back. Two frames alone leave nothing between; of solved they leave what the frame taken
/// back gives when it is done twice.
pub fn known_frames()
    ensures spelled { text_of frame ≡ codes "R' U' F" }
    ensures taken_back { text_of (back opposite frame) ≡ codes "F' U R" }
    ensures two_frames { option_map between (play (after_letter cube_powers) solved_cube (frame ++ frame))
        ≡ Some solved_cube }
    ensures of_solved { play (after_letter cube_powers) solved_cube (back opposite frame ++ back opposite frame)
        ≡ Some (between solved_cube) }
{}

/// The test of frames passes exactly the turns that stand between two of them, each its own: three turns that are the
/// first and the last at once aren't enough.
pub fn tested_frames()
    ensures { (turns : List Turn) → IsTrue (is_framed turns) ↔ IsFramed turns }
{}
