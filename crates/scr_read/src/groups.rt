//! The groups of a sheet, one after another.

ghost use Rattle.std.specs.Prelude.{◌≡◌, ◌-◌, ◌+◌, ◌^◌, ◌<◌, ◌≤◌, ℕ, List, ◌∷◌, length, IfOk, IfErr, IfSome};
ghost use Rattle.scr_notation.specs.Written.{Written};
ghost use Rattle.scr_list.specs.Rounds.{IsRound};
ghost use Rattle.scr_read.specs.declared.piece.Piece.{Piece as Read};
ghost use Rattle.scr_read.specs.declared.piece.Piece.TheVariants as piece;
ghost use Rattle.scr_read.specs.Sheets.{SheetRound, IsSheet};
ghost use Rattle.scr_read.specs.Faults.{IsFirstFault};
ghost use Rattle.scr_read.specs.Reading.{as_round};
ghost use Rattle.scr_read.specs.Groups.{groups_of, IsGroup, GivesFirst};
ghost use Rattle.scr_read.specs.Left.{IsGroupNext};

use crate::fault::SheetFault;
use crate::group::SheetGroup;
use crate::piece::{Head, Piece};
use crate::pieces::SheetPieces;
use crate::reader::read;
use arrayvec::ArrayString;
use scr_notation::{Event, Scramble};
use std::array;
use std::marker::Model;

/// The groups that are left of a text that is a sheet, those of all its rounds in their order. It takes no memory.
#[derive(Drop)]
pub struct SheetGroups<'t> {
    pieces: SheetPieces<'t>,
    begun: u32,
    head: Head,
}

impl<'t> Model for SheetGroups<'t> {
    ghost use Rattle.std.specs.Prelude.{List};
    ghost use Rattle.scr_read.specs.Groups.{GroupOf};
    ghost use Rattle.scr_read.specs.Left.{groups_in, IsLeft};

    ghost Value = { List GroupOf };

    ghost view = { λ g. groups_in g.begun g.head g.pieces.lines g.pieces.pieces };

    ghost invariant = { λ g. IsLeft g.begun g.head g.pieces.pieces };
}

impl<'t> SheetGroups<'t> {
    /// All groups of a text, which has less than 2^32 - 1 bytes; they are at most 6,656. A text that is no sheet is
    /// refused as by [`read`].
    pub fn of(text: &'t [u8]) -> Result<SheetGroups<'t>, SheetFault>
        requires { length text.now < 2 ^ 32 - 1 }
        ensures groups { IfOk result (λ groups. (rounds : List SheetRound) × IsSheet text.now rounds
            × (groups ≡ groups_of rounds)) }
        ensures few { IfOk result (λ groups. length groups ≤ 6656) }
        ensures fault { IfErr result (IsFirstFault text.now) }
    {
        read(text)?;
        Ok(SheetGroups {
            pieces: SheetPieces::of(text),
            begun: 0,
            head: Head {
                event: Event::C222,
                least: 0,
                name: ArrayString::new(),
            },
        })
    }

    /// Gives the next group; `None` where none is left.
    pub fn next(&mut self) -> Option<SheetGroup>
        ensures first { GivesFirst self.old self.new result }
        ensures valid { IfSome result IsGroup }
    {
        let line = self.pieces.line();
        match self.pieces.next()? {
            Piece::Group(number) => {
                let round = self.begun - 1;
                Some(read_group(&mut self.pieces, round, &self.head, number, line))
            }
            Piece::Head(head) => {
                let round = self.begun;
                self.begun += 1;
                self.head = head;
                let line = self.pieces.line();
                let number = read_name(&mut self.pieces);
                Some(read_group(&mut self.pieces, round, &self.head, number, line))
            }
            _ => unreachable!("a group or a round begins here"),
        }
    }
}

/// Reads the name of a group, which comes next: the group's number.
fn read_name(pieces: &mut SheetPieces) -> u32
    requires { (number : ℕ) × (behind : List Read) × (pieces.old.pieces ≡ piece.Group number ∷ behind) }
    ensures pieces { pieces.old.pieces ≡ piece.Group result ∷ pieces.new.pieces }
    ensures lines { pieces.new.lines ≡ pieces.old.lines + 1 }
{
    match pieces.next() {
        Some(Piece::Group(number)) => number,
        _ => unreachable!("a group begins here"),
    }
}

/// Reads a group of a round behind its name, which stands in this line.
#[tactic(auto, using(crate::proofs::SlotLemmas::no_slots))]
fn read_group(
    pieces: &mut SheetPieces,
    round: u32,
    head: &Head,
    number: u32,
    line: u32,
) -> SheetGroup
    requires round { round < 256 }
    requires head { IsRound (as_round head.now) }
    requires number { number < 26 }
    requires group { IsGroupNext head.now.event pieces.old.pieces }
    ensures group { (next : IsGroupNext head.now.event pieces.old.pieces)
        → result ≡ record { round = round; head = head.now; number = number; line = line; scrambles = next.group } }
    ensures behind { (next : IsGroupNext head.now.event pieces.old.pieces)
        → pieces.new ≡ record { pieces = next.behind; lines = pieces.old.lines + (length next.group + 1) } }
    ensures valid { IsGroup result }
{
    let event = head.event;
    let count = usize::from(event.per_group()) + 2;
    let mut scrambles = array::from_fn(|_| Scramble::new(event));
    for slot in 0..count {
        scrambles[slot] = read_slot(pieces);
    }
    let _end = pieces.next();
    SheetGroup::new(round, head.copied(), number, line, scrambles)
}

/// Reads the scramble that comes next.
fn read_slot(pieces: &mut SheetPieces) -> Scramble
    requires { (s : Written) × (behind : List Read) × (pieces.old.pieces ≡ piece.Slot s ∷ behind) }
    ensures pieces { pieces.old.pieces ≡ piece.Slot result ∷ pieces.new.pieces }
    ensures lines { pieces.new.lines ≡ pieces.old.lines + 1 }
{
    match pieces.next() {
        Some(Piece::Slot(scramble)) => scramble,
        _ => unreachable!("a scramble stands here"),
    }
}
