//! Where the letters of the first stage lead from the indexes of the table `shapes`, by parts.
ghost use Rattle.std.specs.Prelude.{◌≡◌, ◌<◌, IfSome, pos, ◌-ℤ◌};
ghost use Rattle.std.specs.Option.{option_map};
ghost use Rattle.std.proofs.Props.{props};
ghost use Rattle.scr_combinatorics.specs.Play.{play};
ghost use Rattle.scr_positions.specs.Coordinates.{StaysBelow};
ghost use Rattle.scr_positions.specs.Moves.{moves_coordinate};
ghost use Rattle.scr_positions.specs.SearchSpaces.{ShowsSame};
ghost use Rattle.scr_sq1.specs.Units.{sq1_after};
ghost use Rattle.scr_sq1tables.specs.Parts.{shape_part, shape_parts_coordinate};
ghost use Rattle.scr_sq1tables.specs.Stages.{turn_word};
ghost use Rattle.scr_sq1tables.specs.Tables.{shapes_coordinate, shapes_index, shapes_state};

use crate::shape_states::{INDEXES, ShapeStates};
use scr_outside::NoMemory;
use scr_positions::{Coord, MoveTable};
use std::alloc::Global;

/// The index of the solved state, which is that of all normal ones.
pub const NORMAL: u32 = 2344;

/// The part that twists.
const TWIST: u32 = 24;

/// The moves of the table `shapes`, built of those of 25 parts: a letter turns the top, then the bottom, and twists. So
/// no more than a sixth of the letters' states are made.
#[derive(Drop)]
pub(crate) struct ShapeMoves {
    parts: MoveTable,
    ghost shows: { ShowsSame shape_parts_coordinate (moves_coordinate parts) },
    ghost stays: { StaysBelow shapes_coordinate } by { Prim.hlevel props },
}

impl ShapeMoves {
    /// The moves. Only memory can be wanting.
    #[tactic(auto, using(crate::proofs::Cited::shape_moves_build))]
    pub fn build(alloc: Global) -> Result<ShapeMoves, NoMemory> {
        let states = ShapeStates::build(alloc)?;
        Ok(ShapeMoves {
            parts: MoveTable::build(alloc, &states)?,
        })
    }

    /// The index after a part.
    #[inline]
    #[tactic(auto, using(crate::proofs::Cited::part_of_shape_moves))]
    fn after_part(&self, index: u32, part: u32) -> Option<u32>
        requires index { index < 7356 }
        requires part { part < 25 }
        ensures value { result ≡ option_map shapes_index (play sq1_after (shapes_state index) (shape_part part)) }
        ensures below { IfSome result (λ next. next < 7356) }
    {
        self.parts.after(index, part)
    }

    /// The index after the layers are turned, each by 5 twelfths less than this.
    #[inline]
    #[tactic(auto, using(crate::proofs::Cited::turned))]
    fn turned(&self, index: u32, top: u32, bottom: u32) -> Option<u32>
        requires index { index < 7356 }
        requires top { top < 12 }
        requires bottom { bottom < 12 }
        ensures value { result ≡ option_map shapes_index
            (play sq1_after (shapes_state index) (turn_word (pos top -ℤ pos 5) (pos bottom -ℤ pos 5))) }
        ensures below { IfSome result (λ next. next < 7356) }
    {
        let topped = self.after_part(index, top)?;
        self.after_part(topped, 12 + bottom)
    }
}

impl Coord for ShapeMoves {
    ghost coordinate = { λ _. shapes_coordinate };

    fn count(&self) -> u32 {
        INDEXES
    }

    fn turns(&self) -> u32 {
        144
    }

    #[inline]
    #[tactic(auto, using(crate::proofs::Cited::shape_moves_after))]
    fn after(&self, position: u32, turn: u32) -> Option<u32> {
        let turned = self.turned(position, turn / 12, turn % 12)?;
        self.after_part(turned, TWIST)
    }

    fn is_goal(&self, position: u32) -> bool {
        for number in 0..4 {
            match self.turned(position, 5 - number % 2, 5 + number / 2) {
                Some(end) => {
                    if end == NORMAL {
                        return true;
                    }
                }
                None => {}
            }
        }
        false
    }
}
