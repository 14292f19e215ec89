//! What the tables of the stages are called, what each is a table of, and how far it may reach.

use crate::code_moves::SquareMoves;
use crate::letter_places::{Part, letter_places};
use crate::pairing_lists::PairingLists;
use crate::shape_moves::ShapeMoves;
use crate::stage_letters::StageLetters;
use scr_outside::NoMemory;
use scr_positions::{MoveTable, Product};
use scr_table::{Line, TableName};
use std::alloc::Global;

/// The table of shapes and parities.
pub struct ShapesLine;

impl Line for ShapesLine {
    ghost use Rattle.scr_sq1tables.specs.Tables.{shapes_line};

    ghost line = { shapes_line };

    fn reach() -> (TableName, u32) {
        (TableName::Shapes, 13)
    }

    type Moves = MoveTable;

    fn moves(alloc: Global) -> Result<MoveTable, NoMemory> {
        let moves = ShapeMoves::build(alloc)?;
        MoveTable::build(alloc, &moves)
    }
}

/// The table of the pairings of corners, which follow each other in its positions, beside those of edges.
pub struct PairingsLine;

impl Line for PairingsLine {
    ghost use Rattle.scr_sq1tables.specs.Tables.{pairings_line};

    ghost line = { pairings_line };

    fn reach() -> (TableName, u32) {
        (TableName::Pairings, 20)
    }

    type Moves = Product<MoveTable, MoveTable>;

    fn moves(alloc: Global) -> Result<Product<MoveTable, MoveTable>, NoMemory> {
        let corners = letter_places(StageLetters::OfPairings, Part::Corners);
        let edges = letter_places(StageLetters::OfPairings, Part::Edges);
        Product::of_moves(
            alloc,
            &PairingLists::new(&corners),
            &PairingLists::new(&edges),
        )
    }
}

/// The table of the states in which mates stand opposite to each other.
pub struct SquareLine;

impl Line for SquareLine {
    ghost use Rattle.scr_sq1tables.specs.Tables.{square_line};

    ghost line = { square_line };

    fn reach() -> (TableName, u32) {
        (TableName::Square, 20)
    }

    type Moves = SquareMoves;

    fn moves(alloc: Global) -> Result<SquareMoves, NoMemory> {
        SquareMoves::build(alloc)
    }
}
