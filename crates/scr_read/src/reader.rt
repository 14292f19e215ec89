//! The reader of a sheet.

ghost use Rattle.std.specs.Prelude.{◌≡◌, ◌+◌, ◌-◌, ◌^◌, ◌<◌, List, length, OnOk, IfErr};
ghost use Rattle.scr_read.specs.Sheets.{SheetRound, IsSheet};
ghost use Rattle.scr_read.specs.Faults.{IsFirstFault};
ghost use Rattle.scr_read.specs.declared.piece.Piece.{Piece as Read};
ghost use Rattle.scr_read.specs.Reading.{fresh, IsRead};
ghost use Rattle.scr_read.specs.Steps.{Reads, Gives};

use crate::fault::{SheetCause, SheetFault};
use crate::lines::first_line;
use crate::piece::Piece;
use crate::place::{Stand, is_whole, read_line};
use std::marker::Model;

/// A reader of the text of a sheet, line by line. It takes no memory, and keeps but where it stands.
#[derive(Drop)]
pub struct SheetReader<'a> {
    stand: Stand,
    rest: &'a [u8],
    lines: u32,
}

impl<'a> Model for SheetReader<'a> {
    ghost use Rattle.std.specs.Prelude.{◌+◌, ◌-◌, ◌^◌, ◌<◌, length};
    ghost use Rattle.scr_read.specs.Places.{place_of, IsStand};
    ghost use Rattle.scr_read.specs.Reading.{Reading};

    ghost Value = { Reading };

    ghost view = { λ r. record { place = place_of r.stand; rest = r.rest.now; lines = r.lines } };

    ghost invariant = { λ r. IsStand r.stand × (r.lines + length r.rest.now < 2 ^ 32 - 1) };
}

impl<'a> SheetReader<'a> {
    /// A reader that stands before the first line of a text, which has less than 2^32 - 1 bytes.
    pub fn new(text: &'a [u8]) -> SheetReader<'a>
        requires { length text.now < 2 ^ 32 - 1 }
        ensures { result ≡ fresh text.now }
    {
        SheetReader {
            stand: Stand::Start,
            rest: text,
            lines: 0,
        }
    }

    /// The number of the next line, from 1.
    pub(crate) fn line(&self) -> u32
        ensures { result ≡ self.now.lines + 1 }
    {
        self.lines + 1
    }

    /// Reads the next line; `None` at the end of the sheet. Where no sheet goes on as the text does to the end of its
    /// next line, it tells that line and what is wrong with it, and stays where it is.
    pub fn next(&mut self) -> Result<Option<Piece>, SheetFault>
        ensures reads { Reads self.old self.new result }
        ensures each { (pieces : List Read) → IsRead self.old.place self.old.rest pieces
            → Gives pieces self.new result }
    {
        if self.rest.is_empty() && is_whole(self.stand) {
            return Ok(None);
        }
        let line = self.lines + 1;
        let Some((text, behind)) = first_line(self.rest) else {
            let cause = if self.rest.is_empty() {
                SheetCause::End
            } else {
                SheetCause::LineFeed
            };
            return Err(SheetFault { line, cause });
        };
        match read_line(self.stand, text) {
            Ok(step) => {
                self.stand = step.next;
                self.rest = behind;
                self.lines = line;
                Ok(Some(step.piece))
            }
            Err(cause) => Err(SheetFault { line, cause }),
        }
    }
}

/// Reads a text to its end, which has less than 2^32 - 1 bytes: whether it is a sheet, and else its first line at
/// fault and its cause.
#[tactic(auto, using(crate::proofs::Cited::read))]
pub fn read(text: &[u8]) -> Result<(), SheetFault>
    requires { length text.now < 2 ^ 32 - 1 }
    ensures sheet { OnOk result ((rounds : List SheetRound) × IsSheet text.now rounds) }
    ensures fault { IfErr result (IsFirstFault text.now) }
{
    let mut reader = SheetReader::new(text);
    loop {
        match reader.next() {
            Ok(Some(_piece)) => {}
            Ok(None) => return Ok(()),
            Err(fault) => return Err(fault),
        }
    }
}
