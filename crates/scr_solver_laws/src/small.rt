//! Laws of the puzzles that one table solves. The functions do nothing: what each ensures is the law.

ghost use Rattle.std.specs.Prelude.{◌≡◌, ℕ, ◌+◌, ◌/◌, ◌≤◌, ◌↔◌, List, Some, length, slice_index};
ghost use Rattle.scr_combinatorics.specs.Play.{play};
ghost use Rattle.scr_combinatorics.specs.Reach.{IsReached, Needs};
ghost use Rattle.scr_orbit.specs.PowerPuzzles.{after_letter, power_puzzle};
ghost use Rattle.scr_notation.specs.declared.turn.Turn.{Turn as Letter};
ghost use Rattle.scr_positions.specs.Coordinates.{StaysBelow};
ghost use Rattle.scr_positions.specs.Products.{product_coordinate};
ghost use Rattle.scr_positions.specs.SearchSpaces.{ShowsSame};
ghost use Rattle.scr_table.specs.Distances.{Distances, Measures};
ghost use Rattle.scr_table.specs.TableStates.{IsLineOf};
ghost use Rattle.scr_tetra.specs.Pyraminx.{numbered_tetraminx, numbered_pyram, PyramState, IsPyram};
ghost use Rattle.scr_tetra.specs.Pyraminx.{pyram_powers, solved_pyram};
ghost use Rattle.scr_tetra.specs.PyramParts.{turned_count};
ghost use Rattle.scr_small.specs.LawfulPuzzles.{IsNumberedPuzzle};
ghost use Rattle.scr_small.specs.NumberedPuzzles.{numbered_as_puzzle, state_coordinate, IsScrambleOf};
ghost use Rattle.scr_small.specs.StateParts.{MovesByParts, low_part, high_part};
ghost use Rattle.scr_small.specs.Puzzles.{numbered_puzzle_222, numbered_puzzle_skewb, coordinate_tetraminx, IsScramblePyram};
ghost use Rattle.scr_small.specs.Puzzles.{corners_line, pyramid_line, skewb_line};
ghost use Rattle.scr_small.specs.SearchTables.{corners_table, pyramid_table, skewb_table};
ghost use Rattle.scr_solver_laws.specs.SmallRows.{HasRow};

use scr_small::OneTable;

/// Such a puzzle is a numbered one. Turns move the two parts of its states each by itself, so that the coordinates of
/// the parts, side by side, show it.
pub fn shown_by_parts<P: OneTable>()
    ensures numbered { IsNumberedPuzzle P.shown }
    ensures stays { StaysBelow (state_coordinate P.shown) }
    ensures parts { MovesByParts P.shown P.TABLE.low P.TABLE.high }
    ensures shown { let parts = product_coordinate (low_part P.shown P.TABLE.low) (high_part P.shown P.TABLE.low P.TABLE.high) in
        ShowsSame (state_coordinate P.shown) parts }
{
    let _numbers = P::numbers();
}

/// The lines by which the tables are built are those of the tables as their states tell them: turns lead from numbers
/// to numbers as from states to states, and each number is that of a state.
pub fn told_by_states()
    ensures corners { IsLineOf corners_table corners_line }
    ensures pyramid { IsLineOf pyramid_table pyramid_line }
    ensures skewb { IsLineOf skewb_table skewb_line }
{}

/// Where a table measures the coordinate of such a puzzle, its valid states are those that turns reach, a state needs
/// as many turns as its distance and no more, and each valid state has a scramble, which has so many turns and leads to
/// it from solved. With or without a table it has no two.
pub fn measured<P: OneTable>()
    ensures reached { (table : Distances) → Measures (state_coordinate P.shown) table
        → (s : P.State) → P.shown.numbered.IsValid s ↔ IsReached (numbered_as_puzzle P.shown) s }
    ensures needs { (table : Distances) → Measures (state_coordinate P.shown) table
        → (s : P.State) (least : ℕ) → P.shown.numbered.IsValid s
        → (least ≤ slice_index table.distances (P.shown.numbered.number_of s)) ↔ Needs (numbered_as_puzzle P.shown) s least }
    ensures scrambled { (table : Distances) → Measures (state_coordinate P.shown) table
        → (s : P.State) → P.shown.numbered.IsValid s
        → (turns : List Letter) × IsScrambleOf P.shown s turns
        × (length turns ≡ slice_index table.distances (P.shown.numbered.number_of s))
        × (play P.shown.after P.shown.solved turns ≡ Some s) }
    ensures one_scramble { (s : P.State) (some other : List Letter)
        → IsScrambleOf P.shown s some → IsScrambleOf P.shown s other → some ≡ other }
{
    let _numbers = P::numbers();
}

/// Where a table measures the Pyraminx without tips, the valid states of the Pyraminx are those that turns reach; a
/// state needs as many turns as its distance without tips and one for each tip that stands turned, and no more; and
/// each valid state has a scramble, which leads to it from solved and has just so many turns: at most 11 large ones and
/// 4 of tips. With or without a table it has no two. A state's position in the table is its number over 81, rounded
/// down.
pub fn measured_pyram()
    ensures position { (s : PyramState) → IsPyram s
        → numbered_pyram.number_of s / 81 ≡ numbered_tetraminx.number_of s.body }
    ensures reached { (table : Distances) → Measures coordinate_tetraminx table
        → (s : PyramState) → IsPyram s ↔ IsReached (power_puzzle pyram_powers) s }
    ensures needs { (table : Distances) → Measures coordinate_tetraminx table
        → (s : PyramState) (least : ℕ) → IsPyram s
        → (least ≤ slice_index table.distances (numbered_tetraminx.number_of s.body) + turned_count s.tips)
        ↔ Needs (power_puzzle pyram_powers) s least }
    ensures scrambled { (table : Distances) → Measures coordinate_tetraminx table
        → (s : PyramState) → IsPyram s → (turns : List Letter) × IsScramblePyram s turns }
    ensures as_long { (table : Distances) → Measures coordinate_tetraminx table
        → (s : PyramState) (turns : List Letter) → IsPyram s → IsScramblePyram s turns
        → length turns ≡ slice_index table.distances (numbered_tetraminx.number_of s.body) + turned_count s.tips }
    ensures large { (table : Distances) → Measures coordinate_tetraminx table → table.bound ≡ 11
        → (s : PyramState) → IsPyram s → slice_index table.distances (numbered_tetraminx.number_of s.body) ≤ 11 }
    ensures tips { (s : PyramState) → IsPyram s → turned_count s.tips ≤ 4 }
    ensures at_most { (table : Distances) → Measures coordinate_tetraminx table → table.bound ≡ 11
        → (s : PyramState) (turns : List Letter) → IsPyram s → IsScramblePyram s turns → length turns ≤ 15 }
    ensures played { (s : PyramState) (turns : List Letter) → IsPyram s → IsScramblePyram s turns
        → play (after_letter pyram_powers) solved_pyram turns ≡ Some s }
    ensures one_scramble { (s : PyramState) (some other : List Letter)
        → IsScramblePyram s some → IsScramblePyram s other → some ≡ other }
{}

/// The 2x2x2 at worked positions: it has 3,674,160; U leads from solved to number 1574640, and U' back; there is no
/// tenth turn.
#[tactic(auto, unfolding(crate::proofs::SmallOnLiterals::positions_on_literals))]
pub fn rows_222()
    ensures { HasRow (state_coordinate numbered_puzzle_222) (record { count = 3674160; turns = 9; turn = 0; to = 1574640; back = 2 }) }
{}

/// The Pyraminx without tips: it has 933,120; U leads from solved to number 186625, and U' back; there is no ninth
/// turn.
#[tactic(auto, unfolding(crate::proofs::SmallOnLiterals::positions_on_literals))]
pub fn rows_pyram()
    ensures { HasRow coordinate_tetraminx (record { count = 933120; turns = 8; turn = 0; to = 186625; back = 1 }) }
{}

/// The Skewb: it has 3,149,280; B leads from solved to number 9423, B' back, and U on to number 1718795; there is no
/// ninth turn.
#[tactic(auto, unfolding(crate::proofs::SmallOnLiterals::positions_on_literals))]
pub fn rows_skewb()
    ensures row { HasRow (state_coordinate numbered_puzzle_skewb) (record { count = 3149280; turns = 8; turn = 6; to = 9423; back = 7 }) }
    ensures on { (state_coordinate numbered_puzzle_skewb).after 9423 0 ≡ Some 1718795 }
{}
