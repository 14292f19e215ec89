//! The 2x2x2: its scrambles, its minima, and how it is drawn.
ghost use Rattle.std.specs.Prelude.{◌≡◌, ◌↔◌, nat_le, IsTrue};
ghost use Rattle.scr_combinatorics.specs.Play.{play};
ghost use Rattle.scr_combinatorics.specs.Reach.{Needs};
ghost use Rattle.scr_orbit.specs.PowerPuzzles.{after_letter, power_puzzle};
ghost use Rattle.scr_notation.specs.declared.event.Event.TheVariants.{C222};
ghost use Rattle.scr_notation.specs.Written.{at_most, IsTheScramble};
ghost use Rattle.scr_cube.specs.Cube222.{powers_222, numbered_222, solved_222};
ghost use Rattle.scr_small.specs.Puzzles.{IsScramble222};
ghost use Rattle.scr_small.specs.Tables.{entry_at};

use crate::one_table::OneTable;
use crate::scrambles::{needs_of, scramble_of};
use crate::small_puzzle::SmallPuzzle;
use crate::state_table::StateTable;
use crate::tables::SmallTables;
use scr_cube::{Corners222, Numbers222};
use scr_notation::{Event, Scramble};
use scr_table::TableName;

/// The 2x2x2 with its built table.
pub type Small222<'a> = SmallPuzzle<'a, Numbers222>;

impl OneTable for Numbers222 {
    ghost use Rattle.std.specs.Prelude.{refl};
    ghost use Rattle.scr_small.specs.Puzzles.{numbered_puzzle_222};
    ghost use Rattle.scr_small.specs.Tables.{state_table_222};

    ghost shown = { numbered_puzzle_222 };

    ghost TABLE = { state_table_222 };

    const TABLE: StateTable = StateTable {
        event: Event::C222,
        name: TableName::Corners,
        bound: 11,
        low: 729,
        high: 5040,
    };

    #[tactic(auto, using(crate::proofs::Lawful222::solved_by_table_222))]
    fn numbers() -> Numbers222 {
        Numbers222
    }

    fn is_valid(state: &Corners222) {
        let [..] = state.twists();
    }

    ghost turned_by = { (refl, refl, refl) };
}

/// The scramble of a 2x2x2, of at most 11 turns: the first word of turns that solves it, taken back. The tables are
/// those of 222.
pub fn scramble_222(tables: &SmallTables, state: &Corners222) -> Scramble
    requires { tables.now.event ≡ C222 }
    ensures { IsTheScramble C222 IsScramble222 (at_most 11) (play (after_letter powers_222) solved_222) state.now result }
{
    scramble_of::<Numbers222>(tables, state)
}

/// Whether no word of fewer than `least` turns brings a 2x2x2 to solved. The tables are those of 222.
pub fn needs_222(tables: &SmallTables, state: &Corners222, least: u32) -> bool
    requires { tables.now.event ≡ C222 }
    ensures exact { IsTrue result ↔ Needs (power_puzzle powers_222) state.now least }
    ensures tested { result ≡ nat_le least (entry_at tables.now (numbered_222.number_of state.now)) }
{
    needs_of::<Numbers222>(tables, state, least)
}
