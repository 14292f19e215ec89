//! The rounds that lists name.

use crate::name::NAME_ROOM;
use arrayvec::ArrayString;
use scr_notation::Event;
use std::marker::Model;

/// A round of an event.
#[derive(Debug, Drop)]
pub struct Round {
    /// The event.
    pub event: Event,
    /// How many groups of competitors it has, from 1 to 26.
    pub groups: u8,
    /// How many turns from solved each of its states is at least; 0 for an event without minima.
    pub least: u8,
    /// Its name: 1 to 40 bytes from the space to the tilde, or none.
    pub name: ArrayString<NAME_ROOM>,
}

// Clauses see the bytes of its name, and not the room behind them.
impl Model for Round {
    ghost use Rattle.scr_list.specs.ListedRound.{ListedRound};

    ghost Value = { ListedRound };

    ghost view = { λ r. record { event = r.event; groups = r.groups; least = r.least; name = r.name.bytes } };
}

impl Round {
    ghost use Rattle.std.specs.Prelude.{◌≡◌};

    /// The same round. It takes no memory.
    pub fn copied(&self) -> Round
        ensures { result ≡ self.now }
    {
        Round {
            event: self.event,
            groups: self.groups,
            least: self.least,
            name: self.name,
        }
    }
}

impl Default for Round {
    ghost use Rattle.std.specs.Prelude.{◌≡◌, []};
    ghost use Rattle.scr_notation.specs.declared.event.Event.TheVariants.{Clock};

    ghost is_default = { λ r. r ≡ record { event = Clock; groups = 1; least = 2; name = [] } };

    /// One group of Clock, with a minimum of 2. It fills the unused room of a list.
    fn default() -> Round {
        Round {
            event: Event::Clock,
            groups: 1,
            least: 2,
            name: ArrayString::new(),
        }
    }
}
