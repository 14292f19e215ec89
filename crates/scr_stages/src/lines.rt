//! What the tables of the stages are tables of, and the moves by which they are built.

use crate::corner_lists::CornerLists;
use crate::corners::CornerIndexes;
use crate::half_moves::HalfMoves;
use crate::half_parts::{FIRST_EDGES, MIDDLE_EDGES, OUTER_EDGES};
use crate::stage_turns::{
    ALL_TURNS, DOMINO_TURNS, SLICE_TURNS, block_edges_turned, corners_turned, edges_turned,
};
use scr_coord::{PlaceSet, Twists};
use scr_outside::NoMemory;
use scr_positions::{MoveTable, Product};
use scr_table::{Line, TableName};
use std::alloc::Global;

/// The flips.
pub(crate) struct FlipsLine;

impl Line for FlipsLine {
    ghost use Rattle.scr_stages.specs.Tables.{flips_line};

    ghost line = { flips_line };

    fn reach() -> (TableName, u32) {
        (TableName::Flips, 7)
    }

    type Moves = MoveTable;

    fn moves(alloc: Global) -> Result<MoveTable, NoMemory> {
        let edges = edges_turned(&ALL_TURNS);
        MoveTable::build(alloc, &Twists::<12, 2>::new(&edges[..]))
    }
}

/// The twists, which follow each other in its positions, beside the places of the edges of the middle layer.
pub(crate) struct SliceLine;

impl Line for SliceLine {
    ghost use Rattle.scr_stages.specs.Tables.{slice_line};

    ghost line = { slice_line };

    fn reach() -> (TableName, u32) {
        (TableName::Slice, 13)
    }

    type Moves = Product<MoveTable, MoveTable>;

    fn moves(alloc: Global) -> Result<Product<MoveTable, MoveTable>, NoMemory> {
        let corners = corners_turned(&SLICE_TURNS);
        let edges = edges_turned(&SLICE_TURNS);
        let twists = Twists::<8, 3>::new(&corners[..]);
        let middle = PlaceSet::<12, 4>::new(&edges[..], MIDDLE_EDGES);
        Product::of_moves(alloc, &twists, &middle)
    }
}

/// The places of the first edges, which follow each other in its positions, beside the indexes of the corners.
pub(crate) struct TetradsLine;

impl Line for TetradsLine {
    ghost use Rattle.scr_stages.specs.Tables.{tetrads_line};

    ghost line = { tetrads_line };

    fn reach() -> (TableName, u32) {
        (TableName::Tetrads, 15)
    }

    type Moves = Product<MoveTable, MoveTable>;

    fn moves(alloc: Global) -> Result<Product<MoveTable, MoveTable>, NoMemory> {
        let edges = block_edges_turned(&OUTER_EDGES, &DOMINO_TURNS);
        let corners = corners_turned(&DOMINO_TURNS);
        let first = PlaceSet::<8, 4>::new(&edges[..], FIRST_EDGES);
        let indexes = CornerLists::<CornerIndexes>::new(&corners[..]);
        Product::of_moves(alloc, &first, &indexes)
    }
}

/// The cubes that half turns solve.
pub(crate) struct HalvesLine;

impl Line for HalvesLine {
    ghost use Rattle.scr_stages.specs.Tables.{halves_line};

    ghost line = { halves_line };

    fn reach() -> (TableName, u32) {
        (TableName::Halves, 17)
    }

    type Moves = HalfMoves;

    fn moves(alloc: Global) -> Result<HalfMoves, NoMemory> {
        HalfMoves::build(alloc)
    }
}
