//! A state for each index of the table `shapes`, and where the parts of letters lead from it, as a coordinate.
ghost use Rattle.std.specs.Prelude.{◌≡◌, ◌<◌};
ghost use Rattle.std.proofs.Props.{props};
ghost use Rattle.scr_combinatorics.specs.Play.{play};
ghost use Rattle.scr_positions.specs.Coordinates.{StaysBelow};
ghost use Rattle.scr_positions.specs.Moves.{each_below};
ghost use Rattle.scr_sq1.specs.Units.{sq1_after};
ghost use Rattle.scr_sq1tables.specs.Parts.{shape_part, shape_parts_coordinate};
ghost use Rattle.scr_sq1tables.specs.Tables.{shapes_state};

use crate::indexes::shapes_index;
use scr_draw::Numbering;
use scr_positions::Coord;
use scr_sq1::{Sq1, Sq1Numbers};
use std::alloc::{AllocError, Global};

/// How many indexes there are.
pub(crate) const INDEXES: u32 = 7356;

/// The part that turns the top by nothing.
const STILL_TOP: u32 = 5;

/// The one that turns the bottom by nothing.
const STILL_BOTTOM: u32 = 17;

/// How many lists of eight pieces there are.
const LISTS: u128 = 40_320;

/// The number of the list of eight pieces in which the first two are exchanged.
const EXCHANGED: u128 = 5040;

/// The states that stand for the indexes, so that a step reads no state's number. The turns are the parts of the
/// letters of the first stage.
#[derive(Drop)]
pub(crate) struct ShapeStates {
    states: Vec<Sq1>,
    ghost each: { states.items ≡ each_below shapes_state 7356 },
    ghost stays: { StaysBelow shape_parts_coordinate } by { Prim.hlevel props },
}

impl ShapeStates {
    /// The states. In each the corners are in order, and so are the edges, but for two where the index is odd. Only
    /// memory can be wanting.
    #[tactic(auto, using(crate::proofs::Cited::shape_states_build))]
    pub fn build(alloc: Global) -> Result<ShapeStates, AllocError> {
        let mut states = Vec::with_capacity(alloc, INDEXES as usize)?;
        for index in 0..INDEXES {
            let edges = EXCHANGED * u128::from(index % 2);
            let number = 2 * LISTS * (edges + LISTS * u128::from(index / 2));
            states.push(Sq1Numbers.state_at(number))?;
        }
        Ok(ShapeStates { states })
    }
}

/// A state after a part of a letter of the first stage, or none where it is barred.
#[inline]
#[tactic(auto, using(crate::proofs::Cited::after_part))]
fn after_part(state: &Sq1, part: u32) -> Option<Sq1>
    requires { part < 25 }
    ensures { result ≡ play sq1_after state.now (shape_part part) }
{
    if part < 12 {
        state.turn(part as i8 - 5, 0)
    } else if part < 24 {
        state.turn(0, (part - 12) as i8 - 5)
    } else {
        Some(state.twist())
    }
}

impl Coord for ShapeStates {
    ghost coordinate = { λ _. shape_parts_coordinate };

    fn count(&self) -> u32 {
        INDEXES
    }

    fn turns(&self) -> u32 {
        25
    }

    #[inline]
    #[tactic(auto, using(crate::proofs::Cited::shape_states_after))]
    fn after(&self, position: u32, turn: u32) -> Option<u32> {
        // No state bars these two, which turn nothing: of the states that would be made and numbered here, a sixth is
        // spared.
        if turn == STILL_TOP || turn == STILL_BOTTOM {
            return Some(position);
        }
        let end = after_part(&self.states[position as usize], turn)?;
        Some(shapes_index(&end))
    }

    fn is_goal(&self, _position: u32) -> bool {
        false
    }
}
