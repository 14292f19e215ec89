//! The two parts of a puzzle's states, each as a coordinate, and the table over both side by side.
ghost use Rattle.std.specs.Prelude.{◌≡◌};
ghost use Rattle.scr_positions.specs.Coordinates.{StaysBelow};
ghost use Rattle.scr_small.specs.StateParts.{low_part, high_part};
ghost use Rattle.scr_small.specs.Tables.{table_line};

use crate::one_table::OneTable;
use scr_outside::NoMemory;
use scr_positions::{Coord, MoveTable, Product};
use scr_table::{Line, TableName};
use std::alloc::Global;
use std::marker::PhantomData;

/// The part whose numbers follow each other. A step finds the state, turns it, and numbers it, so that tables of moves
/// are to be made of it.
#[derive(Drop)]
pub(crate) struct LowPart<P: OneTable> {
    puzzle: PhantomData<P>,
    ghost stays: { StaysBelow (low_part P.shown P.TABLE.low) },
    ghost first: { P.shown.numbered.number_of P.shown.solved ≡ 0 },
}

/// The other part. A step does as much.
#[derive(Drop)]
pub(crate) struct HighPart<P: OneTable> {
    puzzle: PhantomData<P>,
    ghost stays: { StaysBelow (high_part P.shown P.TABLE.low P.TABLE.high) },
    ghost first: { P.shown.numbered.number_of P.shown.solved ≡ 0 },
}

impl<P: OneTable> Coord for LowPart<P> {
    ghost coordinate = { λ _. low_part P.shown P.TABLE.low };

    fn count(&self) -> u32 {
        P::TABLE.low
    }

    fn turns(&self) -> u32 {
        P::turns()
    }

    fn after(&self, position: u32, turn: u32) -> Option<u32> {
        let state = P::numbers().state_at(u128::from(position));
        Some(P::number(&P::turned(&state, turn)) % P::TABLE.low)
    }

    fn is_goal(&self, position: u32) -> bool {
        position == 0
    }
}

impl<P: OneTable> Coord for HighPart<P> {
    ghost coordinate = { λ _. high_part P.shown P.TABLE.low P.TABLE.high };

    fn count(&self) -> u32 {
        P::TABLE.high
    }

    fn turns(&self) -> u32 {
        P::turns()
    }

    fn after(&self, position: u32, turn: u32) -> Option<u32> {
        let numbers = P::numbers();
        let state = numbers.state_at(u128::from(P::TABLE.low * position));
        Some(P::number(&P::turned(&state, turn)) / P::TABLE.low)
    }

    fn is_goal(&self, position: u32) -> bool {
        position == 0
    }
}

/// The table of a puzzle's states. Its moves are those of their parts.
pub(crate) struct PartsLine<P: OneTable> {
    puzzle: PhantomData<P>,
}

impl<P: OneTable> Line for PartsLine<P> {
    ghost line = { table_line P.shown P.TABLE };

    fn reach() -> (TableName, u32) {
        let _numbers = P::numbers();
        (P::TABLE.name, P::TABLE.bound)
    }

    type Moves = Product<MoveTable, MoveTable>;

    fn moves(alloc: Global) -> Result<Product<MoveTable, MoveTable>, NoMemory> {
        let _numbers = P::numbers();
        let low = LowPart::<P> {
            puzzle: PhantomData,
        };
        let high = HighPart::<P> {
            puzzle: PhantomData,
        };
        Product::of_moves(alloc, &low, &high)
    }
}
