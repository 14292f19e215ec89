//! Scrambles and distances by a built table.
ghost use Rattle.std.specs.Prelude.{ℕ, ◌≡◌, ◌≤◌, ◌↔◌, nat_le, IsTrue};
ghost use Rattle.scr_combinatorics.specs.Reach.{Needs};
ghost use Rattle.scr_table.specs.Distances.{Measures};
ghost use Rattle.scr_small.specs.NumberedPuzzles.{numbered_as_puzzle, state_coordinate};
ghost use Rattle.scr_small.specs.SolvedByTable.{IsScrambleByTable};
ghost use Rattle.scr_small.specs.Tables.{entry_at};

use crate::one_table::OneTable;
use crate::tables::SmallTables;
use scr_notation::{NumberedWord, Scramble};

/// The scramble of a state: the first word that solves it, taken back. The tables are those of the puzzle's event.
pub fn scramble_of<P: OneTable>(tables: &SmallTables, state: &P::State) -> Scramble
    requires { tables.now.event ≡ P.TABLE.event }
    ensures { IsScrambleByTable P.shown P.TABLE state.now result }
{
    let word = tables.descend(P::number(state));
    NumberedWord::of(P::TABLE.event, &word).taken_back()
}

/// How many turns a state is from solved, and so how many it needs. The tables are those of the puzzle's event.
pub(crate) fn distance_of<P: OneTable>(tables: &SmallTables, state: &P::State) -> u32
    requires { tables.now.event ≡ P.TABLE.event }
    ensures entry { result ≡ entry_at tables.now (P.shown.numbered.number_of state.now) }
    ensures at_most { result ≤ P.TABLE.bound }
    ensures exact { (least : ℕ) → (least ≤ result) ↔ Needs (numbered_as_puzzle P.shown) state.now least }
    ensures measures { Measures (state_coordinate P.shown) tables.now.distances }
{
    tables.only().distance(P::number(state))
}

/// Whether no word of fewer than `least` turns brings a state to solved. The tables are those of the puzzle's event.
pub(crate) fn needs_of<P: OneTable>(tables: &SmallTables, state: &P::State, least: u32) -> bool
    requires { tables.now.event ≡ P.TABLE.event }
    ensures exact { IsTrue result ↔ Needs (numbered_as_puzzle P.shown) state.now least }
    ensures tested { result ≡ nat_le least (entry_at tables.now (P.shown.numbered.number_of state.now)) }
{
    least <= distance_of::<P>(tables, state)
}
