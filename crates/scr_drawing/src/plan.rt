//! Where the parts of drawings lie.

ghost use Rattle.std.specs.Prelude.{◌≡◌, ℕ, ◌<◌, ◌≤◌, true};
ghost use Rattle.scr_drawing.specs.Styles.{is_style};

use crate::letters::{HOUR_NAMES, Letters, MEGAMINX_NAMES, letters_of, words_of};
use crate::parts::{clock_part, megaminx_part, net_part, pyraminx_part, skewb_part, square1_part};
use crate::path::PARTS;
use crate::shape::Part;
use crate::style::{self, Style};
use scr_notation::{Event, Puzzle};

/// What is drawn.
#[derive(Clone, Copy)]
pub(crate) enum Plan {
    /// A cube of so many layers.
    Net(u8),
    Skewb,
    Pyraminx,
    Megaminx,
    Square1,
    Clock,
}

impl Plan {
    /// What is drawn of an event's puzzle.
    pub(crate) fn of(event: Event) -> Plan {
        match event.puzzle() {
            Puzzle::Cube222 => Plan::Net(2),
            Puzzle::Cube333 | Puzzle::Held333 | Puzzle::Fewest333 => Plan::Net(3),
            Puzzle::Cube555 => Plan::Net(5),
            Puzzle::Cube666 => Plan::Net(6),
            Puzzle::Cube777 => Plan::Net(7),
            Puzzle::Clock => Plan::Clock,
            Puzzle::Megaminx => Plan::Megaminx,
            Puzzle::Pyraminx => Plan::Pyraminx,
            Puzzle::Skewb => Plan::Skewb,
            Puzzle::Square1 => Plan::Square1,
        }
    }

    /// How it looks.
    pub(crate) fn style(self) -> &'static Style
        ensures { is_style result.now ≡ true }
    {
        match self {
            Plan::Net(2) => &style::CUBE_2,
            Plan::Net(3) => &style::CUBE_3,
            Plan::Net(5) => &style::CUBE_5,
            Plan::Net(6) => &style::CUBE_6,
            Plan::Net(_) => &style::CUBE_7,
            Plan::Skewb => &style::SKEWB,
            Plan::Pyraminx => &style::PYRAMINX,
            Plan::Megaminx => &style::MEGAMINX,
            Plan::Square1 => &style::SQUARE1,
            Plan::Clock => &style::CLOCK,
        }
    }

    /// The letters of its picture.
    pub(crate) fn letters(self, text: &str) -> Letters {
        match self {
            Plan::Net(_) | Plan::Skewb => letters_of(text, b"URFDLB"),
            Plan::Pyraminx => letters_of(text, b"FRLD"),
            Plan::Square1 => letters_of(text, b"0123456789abcdef-/"),
            Plan::Megaminx => words_of(text, &MEGAMINX_NAMES),
            Plan::Clock => words_of(text, &HOUR_NAMES),
        }
    }

    /// How many numbers of parts there are.
    pub(crate) fn count(self, letters: &Letters) -> usize
        ensures { result ≤ PARTS }
    {
        match self {
            Plan::Square1 => 76,
            _ => letters.len(),
        }
    }

    /// The part with this number, from 0; some numbers have none.
    pub(crate) fn part(self, number: usize, letters: &Letters) -> Option<Part> {
        match self {
            Plan::Net(side) => net_part(side, number, letters),
            Plan::Skewb => skewb_part(number, letters),
            Plan::Pyraminx => pyraminx_part(number, letters),
            Plan::Megaminx => megaminx_part(number, letters),
            Plan::Square1 => square1_part(number, letters),
            Plan::Clock => clock_part(number, letters),
        }
    }
}
