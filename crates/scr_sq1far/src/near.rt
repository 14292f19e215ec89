//! Whether a state needs many turns.
ghost use Rattle.std.specs.Prelude.{◌≤◌, ◌↔◌, IsTrue};
ghost use Rattle.scr_combinatorics.specs.Reach.{Needs};
ghost use Rattle.scr_sq1.specs.Units.{IsSq1, sq1_puzzle};
ghost use Rattle.scr_sq1far.specs.Alternating.{NeedsBy};
ghost use Rattle.std.specs.Bool.{OnTrue, OnFalse};

use crate::levels::Levels;
use scr_outside::NoMemory;
use scr_sq1::{Sq1, TURNS, TWIST};
use std::alloc::Global;

/// What the test goes by: the states near solved. They are built once and lent to each test, since that takes memory,
/// and a test has no answer for want of it.
#[derive(Drop)]
pub struct NearSolved {
    levels: Levels,
}

impl NearSolved {
    /// The states, in 5 megabytes. Only memory can be wanting.
    pub fn build(alloc: Global) -> Result<NearSolved, NoMemory> {
        Ok(NearSolved {
            levels: Levels::build(alloc)?,
        })
    }

    /// Whether a state needs at least so many turns: only words are tried in which turns of the layers and twists take
    /// turns, and whose first turn is a twist or not.
    fn needs_by(&self, state: &Sq1, twists: bool, least: u32) -> bool
        ensures needed { OnTrue result (NeedsBy twists state.now least) }
        ensures refused { OnFalse result (Needs sq1_puzzle state.now least → ⊥) }
        ensures valid { IsSq1 state.now }
    {
        if least <= 7 {
            return self.levels.needs(state, least);
        }
        if !self.levels.needs(state, 7) {
            return false;
        }
        for turn in 0..TURNS {
            if (turn == TWIST) == twists {
                if let Some(next) = state.turn_at(turn) {
                    if !self.needs_by(&next, !twists, least - 1) {
                        return false;
                    }
                }
            }
        }
        true
    }
}

/// Whether no word of fewer than `least` turns, of the layers and twists, brings a Square-1 to solved: a turn of the
/// layers counts one, whether it turns one or both, and so does a twist (WCA Regulations, article 4b3). `least` is at
/// most 11. The states near solved are passed and not made here: to make them takes memory and can fail, where the test
/// can't.
pub fn needs_sq1_far(near: &NearSolved, state: &Sq1, least: u32) -> bool
    requires { least ≤ 11 }
    ensures { IsTrue result ↔ Needs sq1_puzzle state.now least }
{
    near.needs_by(state, false, least) && near.needs_by(state, true, least)
}
