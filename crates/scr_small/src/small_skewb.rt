//! The Skewb: its scrambles, its minima, and how it is drawn.
ghost use Rattle.std.specs.Prelude.{◌≡◌, ◌↔◌, nat_le, IsTrue};
ghost use Rattle.scr_combinatorics.specs.Play.{play};
ghost use Rattle.scr_combinatorics.specs.Reach.{Needs};
ghost use Rattle.scr_orbit.specs.PowerPuzzles.{after_letter, power_puzzle};
ghost use Rattle.scr_notation.specs.declared.event.Event.TheVariants.{Skewb as EventSkewb};
ghost use Rattle.scr_notation.specs.Written.{at_most, IsTheScramble};
ghost use Rattle.scr_tetra.specs.Skewb.{skewb_powers, skewb_numbered, solved_skewb};
ghost use Rattle.scr_small.specs.Puzzles.{IsScrambleSkewb};
ghost use Rattle.scr_small.specs.Tables.{entry_at};

use crate::one_table::OneTable;
use crate::scrambles::{needs_of, scramble_of};
use crate::small_puzzle::SmallPuzzle;
use crate::state_table::StateTable;
use crate::tables::SmallTables;
use scr_notation::{Event, Scramble};
use scr_table::TableName;
use scr_tetra::{Skewb, SkewbNumbers};

/// The Skewb with its built table.
pub type SmallSkewb<'a> = SmallPuzzle<'a, SkewbNumbers>;

impl OneTable for SkewbNumbers {
    ghost use Rattle.std.specs.Prelude.{refl};
    ghost use Rattle.scr_small.specs.Puzzles.{numbered_puzzle_skewb};
    ghost use Rattle.scr_small.specs.Tables.{state_table_skewb};

    ghost shown = { numbered_puzzle_skewb };

    ghost TABLE = { state_table_skewb };

    const TABLE: StateTable = StateTable {
        event: Event::Skewb,
        name: TableName::Skewb,
        bound: 11,
        low: 8748,
        high: 360,
    };

    #[tactic(auto, using(crate::proofs::LawfulSkewb::solved_by_table_skewb))]
    fn numbers() -> SkewbNumbers {
        SkewbNumbers
    }

    fn is_valid(state: &Skewb) {
        let [..] = state.centres();
    }

    ghost turned_by = { (refl, refl, refl) };
}

/// The scramble of a Skewb, of at most 11 turns: the first word of turns that solves it, taken back. The tables are
/// those of skewb.
pub fn scramble_skewb(tables: &SmallTables, state: &Skewb) -> Scramble
    requires { tables.now.event ≡ EventSkewb }
    ensures { IsTheScramble EventSkewb IsScrambleSkewb (at_most 11) (play (after_letter skewb_powers) solved_skewb) state.now result }
{
    scramble_of::<SkewbNumbers>(tables, state)
}

/// Whether no word of fewer than `least` turns brings a Skewb to solved. The tables are those of skewb.
pub fn needs_skewb(tables: &SmallTables, state: &Skewb, least: u32) -> bool
    requires { tables.now.event ≡ EventSkewb }
    ensures exact { IsTrue result ↔ Needs (power_puzzle skewb_powers) state.now least }
    ensures tested { result ≡ nat_le least (entry_at tables.now (skewb_numbered.number_of state.now)) }
{
    needs_of::<SkewbNumbers>(tables, state, least)
}
