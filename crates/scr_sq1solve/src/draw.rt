//! The Square-1 as states are drawn of it.
ghost use Rattle.std.specs.Prelude.{◌↔◌, ℕ, IsTrue};
ghost use Rattle.std.proofs.Props.{props};
ghost use Rattle.scr_combinatorics.specs.Reach.{Needs};
ghost use Rattle.scr_sq1.specs.Numbers.{sq1_numbered};
ghost use Rattle.scr_sq1.specs.Units.{Sq1State, IsSq1, sq1_puzzle};
ghost use Rattle.scr_sq1solve.specs.Minima.{needs_test_sq1};

use crate::moves::Sq1Moves;
use scr_draw::{NumberedStates, Numbering, Permit};
use scr_sq1::{Sq1, Sq1Numbers};
use scr_table::no_shorter;

/// The Square-1: its states by their numbers, and the test of its minima, which needs no tables.
#[derive(Clone, Copy)]
pub struct DrawSq1 {
    ghost exact: { (s : Sq1State) (least : ℕ) → IsSq1 s
        → IsTrue (needs_test_sq1 s least) ↔ Needs sq1_puzzle s least } by { Prim.hlevel props },
}

impl DrawSq1 {
    /// The Square-1.
    #[tactic(auto, using(crate::proofs::Cited::exact_draw))]
    pub fn new() -> DrawSq1 {
        DrawSq1 {}
    }
}

impl NumberedStates<Sq1> for DrawSq1 {
    ghost numbered = { λ _. sq1_numbered };
}

impl Numbering for DrawSq1 {
    type State = Sq1;

    fn count(&self) -> u128 {
        Sq1Numbers.count()
    }

    fn state_at(&self, number: u128) -> Sq1 {
        Sq1Numbers.state_at(number)
    }

    fn number_of(&self, state: &Sq1) -> u128 {
        Sq1Numbers.number_of(state)
    }
}

impl Permit<Sq1> for DrawSq1 {
    ghost puzzle = { λ _. sq1_puzzle };

    ghost greatest = { λ _. 4 };

    ghost needs = { λ _. needs_test_sq1 };

    fn needs_at_least(&self, state: &Sq1, least: u32) -> bool {
        state.is_valid();
        no_shorter(&Sq1Moves, state, least)
    }

    ghost exact = { λ event s least _ _ valid. event.exact s least valid };
}
