//! A scramble: an event and its turns.
ghost use Rattle.std.specs.Prelude.{◌≡◌, ◌+◌, ◌<◌, ◌≤◌, ◌↔◌, [], ◌∷◌, ◌++◌, length, IsTrue};
ghost use Rattle.std.specs.Bool.{OnTrue, OnFalse};
ghost use Rattle.scr_notation.specs.declared.turn.Turn.{Turn as Letter};
ghost use Rattle.scr_notation.specs.Turns.{permits};
ghost use Rattle.scr_notation.specs.Written.{IsWritten};

use crate::event::Event;
use crate::turn::{Turn, is_of_kind};
use arrayvec::ArrayVec;
use std::marker::Model;

/// The greatest number of turns of a scramble.
pub const MOST_TURNS: usize = 160;

/// An event and at most 160 turns, each of which the event has.
#[derive(Drop)]
pub struct Scramble {
    event: Event,
    turns: ArrayVec<Turn, MOST_TURNS>,
}

impl Model for Scramble {
    ghost use Rattle.std.specs.Prelude.{◌≤◌};
    ghost use Rattle.scr_notation.specs.Written.{Written, IsWritten};

    ghost Value = { Written };

    ghost view = { λ s. record { event = s.event; turns = s.turns.items } };

    ghost invariant = { λ s. IsWritten (record { event = s.event; turns = s.turns.items }) };
}

impl Scramble {
    ghost use Rattle.scr_notation.specs.Written.{Written, IsWritten};

    /// The empty scramble of an event.
    pub fn new(event: Event) -> Scramble
        ensures value { result ≡ record { event = event; turns = [] } }
        ensures valid { IsWritten result }
    {
        Scramble {
            event,
            turns: ArrayVec::new(),
        }
    }

    /// The event.
    pub fn event(&self) -> Event
        ensures value { result ≡ self.now.event }
        ensures valid { IsWritten self.now }
    {
        self.event
    }

    /// The turns, in order.
    pub fn turns(&self) -> &[Turn]
        ensures value { result.now ≡ self.now.turns }
        ensures valid { IsWritten self.now }
    {
        self.turns.as_slice()
    }

    /// The same turns as a scramble of another event, which has all of them.
    pub fn with_event(self, event: Event) -> Scramble
        requires { (t : Letter) → IsTrue (permits self.event t) → IsTrue (permits event t) }
        ensures { result ≡ record { event = event; turns = self.turns } }
    {
        Scramble {
            event,
            turns: self.turns,
        }
    }

    /// Adds a turn at the end. It answers false exactly where 160 turns are there or the event hasn't this turn, and
    /// then changes nothing.
    pub fn push(&mut self, turn: Turn) -> bool
        ensures exact { IsTrue result ↔ (length self.old.turns < 160) × IsTrue (permits self.old.event turn) }
        ensures pushed { OnTrue result (self.new ≡ record { event = self.old.event; turns = self.old.turns ++ turn ∷ [] }) }
        ensures refused { OnFalse result (self.new ≡ self.old) }
        ensures valid { IsWritten self.new }
    {
        if self.turns.len() == MOST_TURNS || !is_of_kind(self.event.row().kind, turn) {
            return false;
        }
        self.turns.push(turn);
        true
    }
}

/// Adds a turn that the event has to a scramble that has room.
pub fn push_turn(scramble: &mut Scramble, turn: Turn)
    requires room { length scramble.old.turns < 160 }
    requires of_event { IsTrue (permits scramble.old.event turn) }
    ensures value { scramble.new ≡ record { event = scramble.old.event; turns = scramble.old.turns ++ turn ∷ [] } }
    ensures valid { IsWritten scramble.new }
{
    scramble.turns.push(turn);
}

/// Adds the turns of a scramble to another of the same event, which has room for them.
pub fn push_all(scramble: &mut Scramble, more: &Scramble)
    requires event { more.now.event ≡ scramble.old.event }
    requires room { length scramble.old.turns + length more.now.turns ≤ 160 }
    ensures { scramble.new ≡ record { event = scramble.old.event; turns = scramble.old.turns ++ more.now.turns } }
{
    for turn in more.turns() {
        push_turn(scramble, *turn);
    }
}
