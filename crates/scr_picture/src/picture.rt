//! The picture of a scramble.
ghost use Rattle.std.specs.Prelude.{◌≡◌, ◌+◌, ◌*◌, ◌<◌, ◌≤◌, ◌++◌, flat_map};
ghost use Rattle.std.specs.Option.{option_map};
ghost use Rattle.arrayvec.specs.ArrayString.{array_string_len};
ghost use Rattle.scr_net.specs.Nets.{IsSide};
ghost use Rattle.scr_picture.specs.declared.names.Alphabet.TheVariants.{Hours};
ghost use Rattle.scr_picture.specs.Names.{IsLine, spaced_text};
ghost use Rattle.scr_picture.specs.Pictures.{row_letters, face_letters, net_letters, clock_hours, sq1_letters};
ghost use Rattle.scr_picture.specs.Pictures.{picture, picture_of, net_picture};

use crate::names::{Alphabet, Text, joined, name_in, spaced};
use crate::stickers::played;
use crate::tables::{
    SOLVED_MINX, SOLVED_PYRAM, SOLVED_SKEWB, minx_moves, pyram_moves, skewb_moves,
};
use arrayvec::ArrayString;
use scr_clock::Clock;
use scr_net::Net;
use scr_notation::{Puzzle, Scramble};
use scr_sq1::Sq1;
use std::marker::Model;

/// What the puzzle of an event looks like after a scramble: the letters of its stickers in a fixed order.
#[derive(Drop)]
pub struct Picture {
    letters: Text,
}

// Clauses see the text of the letters, which is one line.
impl Model for Picture {
    ghost use Rattle.std.specs.Prelude.{ℕ, List};
    ghost use Rattle.scr_picture.specs.Names.{IsLine};

    ghost Value = { List ℕ };

    ghost view = { λ p. p.letters.bytes };

    ghost invariant = { λ p. IsLine p.letters.bytes };
}

impl Picture {
    /// The picture of the solved puzzle of an event after a scramble of the event. `None` comes exactly where a turn of
    /// a Square-1 is barred in its place (`laws::shown`).
    pub fn of(scramble: &Scramble) -> Option<Picture>
        ensures { result ≡ picture_of scramble.now.event scramble.now.turns }
    {
        picture_of(scramble.event().puzzle(), scramble)
    }

    /// The text of its letters, which has no line feed.
    pub fn letters(&self) -> &str
        ensures value { result.now ≡ self.now }
        ensures line { IsLine self.now }
    {
        self.letters.as_str()
    }
}

/// The picture of this puzzle after a scramble.
#[tactic(auto, unfolding(crate::specs::Pyraminx::solved_pyram_picture, crate::specs::Skewb::solved_skewb_picture, crate::specs::Megaminx::solved_minx))]
fn picture_of(puzzle: Puzzle, scramble: &Scramble) -> Option<Picture>
    ensures { result ≡ picture puzzle scramble.now.turns }
{
    match puzzle {
        Puzzle::Cube222 => net_picture::<2>(scramble),
        Puzzle::Cube333 | Puzzle::Held333 | Puzzle::Fewest333 => net_picture::<3>(scramble),
        Puzzle::Cube555 => net_picture::<5>(scramble),
        Puzzle::Cube666 => net_picture::<6>(scramble),
        Puzzle::Cube777 => net_picture::<7>(scramble),
        Puzzle::Clock => {
            let clock = Clock::solved().play(scramble)?;
            Some(Picture {
                letters: clock_letters(&clock),
            })
        }
        Puzzle::Megaminx => {
            let letters = played(&SOLVED_MINX, minx_moves(), scramble.turns())?;
            Some(Picture {
                letters: spaced(Alphabet::Megaminx, &letters[..]),
            })
        }
        Puzzle::Pyraminx => {
            let letters = played(&SOLVED_PYRAM, pyram_moves(), scramble.turns())?;
            Some(Picture {
                letters: joined(Alphabet::Pyraminx, &letters[..]),
            })
        }
        Puzzle::Skewb => {
            let letters = played(&SOLVED_SKEWB, skewb_moves(), scramble.turns())?;
            Some(Picture {
                letters: joined(Alphabet::Cube, &letters[..]),
            })
        }
        Puzzle::Square1 => {
            let state = Sq1::solved().play(scramble)?;
            Some(Picture {
                letters: sq1_letters(&state),
            })
        }
    }
}

/// The picture of a cube.
fn net_picture<const SIDE: usize>(scramble: &Scramble) -> Option<Picture>
    requires { IsSide SIDE }
    ensures { result ≡ net_picture SIDE scramble.now.turns }
{
    let net = Net::<SIDE>::solved().play(scramble)?;
    Some(Picture {
        letters: net_letters(&net),
    })
}

/// The letters of a net.
#[tactic(auto, using(crate::proofs::Cited::net_letters))]
fn net_letters<const SIDE: usize>(net: &Net<SIDE>) -> Text
    requires { IsSide SIDE }
    ensures bytes { result.bytes ≡ net_letters SIDE net.now }
    ensures line { IsLine result.bytes }
{
    let mut text = ArrayString::new();
    for face in 0..6 {
        push_face(&mut text, net, face);
    }
    text
}

/// Writes the letters of a face behind a text.
#[tactic(auto, using(crate::proofs::TextLaws::flat_map_behind))]
fn push_face<const SIDE: usize>(text: &mut Text, net: &Net<SIDE>, face: u8)
    requires side { IsSide SIDE }
    requires face { face < 6 }
    requires room { array_string_len text.old ≤ 250 }
    ensures bytes { text.new.bytes ≡ text.old.bytes ++ face_letters SIDE net.now face }
    ensures len { array_string_len text.new ≤ array_string_len text.old + 49 }
{
    for row in 0..SIDE {
        push_row(text, net, face, row as u8);
    }
}

/// Writes the letters of a row of a face behind a text.
#[tactic(auto, using(crate::proofs::TextLaws::flat_map_behind))]
fn push_row<const SIDE: usize>(text: &mut Text, net: &Net<SIDE>, face: u8, row: u8)
    requires side { IsSide SIDE }
    requires face { face < 6 }
    requires row { row < SIDE }
    requires room { array_string_len text.old ≤ 300 }
    ensures bytes { text.new.bytes ≡ text.old.bytes ++ row_letters SIDE net.now face row }
    ensures len { array_string_len text.new ≤ array_string_len text.old + 7 }
{
    for column in 0..SIDE {
        text.push_str(name_in(Alphabet::Cube, net.cell(face, row, column as u8)));
    }
}

/// The letters of a Clock: the hours of its two sides.
#[tactic(auto, unfolding(crate::specs::Pictures::clock_hours))]
fn clock_letters(clock: &Clock) -> Text
    ensures bytes { result.bytes ≡ spaced_text Hours (clock_hours clock.now) }
    ensures line { IsLine result.bytes }
{
    let d = clock.dials();
    let opposite = |hour: u8| (12 - hour) % 12;
    let hours = [
        d[0],
        d[1],
        d[2],
        d[3],
        d[4],
        d[5],
        d[6],
        d[7],
        d[8],
        opposite(d[2]),
        d[9],
        opposite(d[0]),
        d[10],
        d[11],
        d[12],
        opposite(d[8]),
        d[13],
        opposite(d[6]),
    ];
    spaced(Alphabet::Hours, &hours[..])
}

/// The letters of a Square-1: its units and its equator.
#[tactic(auto, unfolding(crate::specs::Pictures::sq1_letters))]
fn sq1_letters(state: &Sq1) -> Text
    ensures bytes { result.bytes ≡ sq1_letters state.now }
    ensures line { IsLine result.bytes }
{
    let units = state.units();
    let mut text = joined(Alphabet::Units, &units[..]);
    text.push_str(if state.equator() { "/" } else { "-" });
    text
}
