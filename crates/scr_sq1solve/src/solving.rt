//! The scramble of a Square-1, by stages.
ghost use Rattle.scr_combinatorics.specs.Play.{play};
ghost use Rattle.scr_notation.specs.declared.event.Event.TheVariants.{Sq1 as EventSq1};
ghost use Rattle.scr_notation.specs.Written.{IsTheScramble};
ghost use Rattle.scr_sq1.specs.Units.{solved_sq1, sq1_after};
ghost use Rattle.scr_sq1solve.specs.Counts.{IsWithinBounds};
ghost use Rattle.scr_sq1tables.specs.Stages.{IsScrambleSq1};

use crate::short::scramble_sq1_short;
use scr_notation::Scramble;
use scr_sq1::Sq1;
use scr_sq1tables::Sq1Tables;

/// The scramble of a Square-1, of at most 76 twists and 153 turns: its solution by the stages, in which neighbouring
/// turns of the layers and neighbouring twists are merged, taken back. There is no refusal, and no memory is taken.
pub fn scramble_sq1(tables: &Sq1Tables, state: &Sq1) -> Scramble
    ensures { IsTheScramble EventSq1 IsScrambleSq1 IsWithinBounds (play sq1_after solved_sq1) state.now result }
{
    state.is_valid();
    scramble_sq1_short(tables, state, 1)
}
