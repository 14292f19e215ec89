//! Sets of events.

ghost use Rattle.std.specs.Prelude.{◌≡◌, ◌⊎◌, ◌↔◌, IsTrue};
ghost use Rattle.scr_notation.specs.declared.event.Event.{Event as EventOf};
ghost use Rattle.scr_notation.specs.EventSets.{Has};

use crate::event::{EVENTS, Event};
use std::marker::Model;

/// A set of events, as a flag for each of them.
#[derive(Clone, Copy, Debug)]
pub struct EventSet {
    flags: [bool; EVENTS.len()],
}

impl Model for EventSet {
    ghost use Rattle.std.specs.Prelude.{◌≡◌, List, Bool};

    ghost Value = { List Bool };

    ghost view = { λ set. set.flags };

    ghost inverse = { λ flags. record { flags = flags } };
}

impl EventSet {
    /// No event.
    pub fn new() -> EventSet
        ensures { (event : EventOf) → Has result event → ⊥ }
    {
        EventSet {
            flags: [false; EVENTS.len()],
        }
    }

    /// Puts an event into the set.
    pub fn insert(&mut self, event: Event)
        ensures { (other : EventOf) → Has self.new other ↔ (Has self.old other ⊎ (other ≡ event)) }
    {
        self.flags[event.number() as usize] = true;
    }

    /// Whether the set has this event.
    pub fn contains(&self, event: Event) -> bool
        ensures { IsTrue result ↔ Has self.now event }
    {
        self.flags[event.number() as usize]
    }
}
