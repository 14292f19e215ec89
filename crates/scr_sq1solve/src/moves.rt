//! The turns that a search for short words tries.
ghost use Rattle.std.specs.Prelude.{◌≡◌, ◌↔◌, IsTrue};
ghost use Rattle.scr_sq1.specs.Units.{solved_sq1};

use scr_sq1::{Sq1, TURNS, TWIST};
use scr_table::Moves;

/// The turns of the layers and the twist, by their numbers.
pub(crate) struct Sq1Moves;

impl Moves for Sq1Moves {
    ghost use Rattle.scr_sq1solve.specs.Minima.{sq1_moves};

    type State = Sq1;

    ghost moves = { λ _. sq1_moves };

    fn count(&self) -> u32 {
        TURNS
    }

    #[inline]
    fn after(&self, state: &Sq1, turn: u32) -> Option<Sq1> {
        state.turn_at(turn)
    }

    #[inline]
    fn is_solved(&self, state: &Sq1) -> bool {
        !state.equator() && state.units() == Sq1::solved().units()
    }

    #[inline]
    fn is_idle(&self, first: u32, second: u32) -> bool {
        if first == TWIST {
            second == TWIST
        } else {
            second != TWIST
        }
    }
}
