//! The pieces of a text that is a sheet.

ghost use Rattle.std.specs.Prelude.{◌≡◌, ◌+◌, ◌-◌, ◌^◌, ◌<◌, List, length};
ghost use Rattle.scr_read.specs.Sheets.{SheetRound, IsSheet};
ghost use Rattle.scr_read.specs.Reading.{pieces_of};
ghost use Rattle.scr_read.specs.Left.{OnlyPieces, OnlyPieces-prop, GivesPiece};

use crate::piece::Piece;
use crate::reader::SheetReader;
use std::marker::Model;

/// The pieces that are left of a text that is a sheet: those of a reader that meets no fault.
#[derive(Drop)]
pub(crate) struct SheetPieces<'t> {
    reader: SheetReader<'t>,
    ghost left: { OnlyPieces reader } by { OnlyPieces-prop reader },
}

impl<'t> Model for SheetPieces<'t> {
    ghost use Rattle.scr_read.specs.Left.{PiecesLeft};

    ghost Value = { PiecesLeft };

    ghost view = { λ s. record { pieces = s.left.0; lines = s.reader.lines } };
}

impl<'t> SheetPieces<'t> {
    /// All pieces of a sheet.
    pub(crate) fn of(text: &'t [u8]) -> SheetPieces<'t>
        requires short { length text.now < 2 ^ 32 - 1 }
        requires sheet { (rounds : List SheetRound) × IsSheet text.now rounds }
        ensures { (rounds : List SheetRound) → IsSheet text.now rounds
            → result ≡ record { pieces = pieces_of rounds; lines = 0 } }
    {
        SheetPieces {
            reader: SheetReader::new(text),
        }
    }

    /// The number of the next line, from 1.
    pub(crate) fn line(&self) -> u32
        ensures { result ≡ self.now.lines + 1 }
    {
        self.reader.line()
    }

    /// Gives the next piece; `None` at the end of the sheet.
    #[tactic(auto, using(crate::proofs::Cited::sheet_pieces_next))]
    pub(crate) fn next(&mut self) -> Option<Piece>
        ensures { GivesPiece self.old self.new result }
    {
        match self.reader.next() {
            Ok(piece) => piece,
            Err(_) => unreachable!("what is left is read to its end"),
        }
    }
}
