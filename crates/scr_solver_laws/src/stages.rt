//! What holds of the stages whatever the code: calls that do nothing, whose contracts are the laws.

ghost use Rattle.std.specs.Prelude.{◌≡◌, ◌↔◌, ◌≤◌, List, Some, length};
ghost use Rattle.scr_combinatorics.specs.Lists.{numbers_from};
ghost use Rattle.scr_combinatorics.specs.Play.{play};
ghost use Rattle.scr_combinatorics.specs.Reach.{IsReached};
ghost use Rattle.scr_table.specs.Distances.{Distances};
ghost use Rattle.scr_table.specs.Lines.{AreTablesOf};
ghost use Rattle.scr_orbit.specs.PowerPuzzles.{after_letter, power_puzzle};
ghost use Rattle.scr_notation.specs.declared.turn.Turn.{Turn as Letter};
ghost use Rattle.scr_cube.specs.Cube333.{CubeState, IsCube, cube_powers, solved_cube};
ghost use Rattle.scr_stages.specs.Stages.{IsDomino, IsHalfTurned, IsStageScramble};
ghost use Rattle.scr_stages.specs.Numbers.{tetrads_number};
ghost use Rattle.scr_stages.specs.Tables.{stage_lines};
ghost use Rattle.scr_stages.specs.Tetrads.{corner_index};
ghost use Rattle.scr_stages.specs.SearchTables.{stage_tables};
ghost use Rattle.scr_table.specs.TableStates.{AreLinesOf};

/// Where the four tables are built, each valid cube has a scramble by stages, and so the valid cubes are those that
/// turns reach. With or without tables a cube has no two, and each has at most 52 turns and leads to the cube from
/// solved.
pub fn stages()
    ensures some { (tables : List Distances) → AreTablesOf stage_lines tables
        → (c : CubeState) → IsCube c → (turns : List Letter) × IsStageScramble c turns }
    ensures reached { (tables : List Distances) → AreTablesOf stage_lines tables
        → (c : CubeState) → IsCube c ↔ IsReached (power_puzzle cube_powers) c }
    ensures one { (c : CubeState) (turns other : List Letter) → IsStageScramble c turns → IsStageScramble c other
        → turns ≡ other }
    ensures at_most { (c : CubeState) (turns : List Letter) → IsStageScramble c turns → length turns ≤ 52 }
    ensures leads { (c : CubeState) (turns : List Letter) → IsCube c → IsStageScramble c turns
        → play (after_letter cube_powers) solved_cube turns ≡ Some c }
{}

/// Where the four tables are built, a domino has the index of solved in `tetrads` exactly where half turns lead to it
/// from solved.
pub fn half_turned()
    ensures { (tables : List Distances) → AreTablesOf stage_lines tables → (c : CubeState) → IsCube c → IsDomino c
        → (tetrads_number c ≡ tetrads_number solved_cube) ↔ IsHalfTurned c }
{}

/// The index of the corners of solved.
pub fn known_index()
    ensures { corner_index (numbers_from 0 8) ≡ 138 }
{}

/// The lines by which the tables are built are those of the tables as cubes tell them. From every cube with a number,
/// of those of which a table speaks, a turn leads to one and the same number, that to which the line's coordinate
/// leads; and all of them are at the coordinate's goal, or none. Each number below the table's count is that of such a
/// cube.
pub fn told_by_states()
    ensures { AreLinesOf stage_tables stage_lines }
{}
