//! What the lines of a sheet are read as.

use arrayvec::ArrayString;
use scr_list::NAME_ROOM;
use scr_notation::{Event, Scramble};
use std::marker::Model;

/// What the head of a round tells of it. How many groups the round has follows from the lines below.
#[derive(Debug, Drop)]
pub struct Head {
    /// The event.
    pub event: Event,
    /// How many turns from solved each of its states is at least; 0 for an event without minima.
    pub least: u8,
    /// Its name: 1 to 40 bytes from the space to the tilde, or none.
    pub name: ArrayString<NAME_ROOM>,
}

// Clauses see the bytes of its name, and not the room behind them.
impl Model for Head {
    ghost use Rattle.scr_read.specs.Heads.{HeadOf};

    ghost Value = { HeadOf };

    ghost view = { λ h. record { event = h.event; least = h.least; name = h.name.bytes } };
}

impl Head {
    ghost use Rattle.std.specs.Prelude.{◌≡◌};

    /// The same head. It takes no memory.
    pub fn copied(&self) -> Head
        ensures { result ≡ self.now }
    {
        Head {
            event: self.event,
            least: self.least,
            name: self.name,
        }
    }
}

/// A line of a sheet.
#[derive(Drop)]
pub enum Piece {
    /// The head of a round.
    Head(Head),
    /// The name of the next group of the round, by the group's number from 0, which is below 26.
    Group(u32),
    /// The scramble of the next slot of the group. Behind those that the event has stand two extra ones.
    Slot(Scramble),
    /// The empty line that ends a group.
    GroupEnd,
}
