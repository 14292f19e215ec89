//! A group of a sheet.

ghost use Rattle.std.specs.Prelude.{◌≡◌, ◌+◌, ◌<◌, length, map, take, All};
ghost use Rattle.scr_notation.specs.Event.{per_group_of};
ghost use Rattle.scr_notation.specs.Written.{IsWritten};
ghost use Rattle.scr_list.specs.Rounds.{IsRound};
ghost use Rattle.scr_read.specs.Reading.{as_round};

use crate::piece::Head;
use scr_notation::{Event, Scramble};
use std::marker::Model;

/// A group has at most so many scrambles, the two extra ones among them.
pub const GROUP_ROOM: usize = 7;

/// A group of a sheet: its place, the head of its round, and a scramble for each slot. It takes no memory.
#[derive(Drop)]
pub struct SheetGroup {
    round: u32,
    head: Head,
    number: u32,
    line: u32,
    scrambles: [Scramble; GROUP_ROOM],
    count: usize,
}

impl Model for SheetGroup {
    ghost use Rattle.std.specs.Prelude.{◌≡◌, ◌+◌, map, take};
    ghost use Rattle.scr_notation.specs.Event.{per_group_of};
    ghost use Rattle.scr_read.specs.Groups.{GroupOf, IsGroup, scrambles_of};

    ghost Value = { GroupOf };

    ghost view = { λ g. record {
      round = g.round;
      head = g.head;
      number = g.number;
      line = g.line;
      scrambles = map (λ s. s.turns) (take g.count g.scrambles);
    } };

    ghost invariant = { λ g. let turns = map (λ s. s.turns) (take g.count g.scrambles) in
        IsGroup (record { round = g.round; head = g.head; number = g.number; line = g.line; scrambles = turns })
        × (take g.count g.scrambles ≡ scrambles_of g.head.event turns) × (g.count ≡ per_group_of g.head.event + 2) };
}

impl SheetGroup {
    ghost use Rattle.scr_read.specs.Groups.{GroupOf, IsGroup, scrambles_of};

    /// A group: the number of its round, its head, its own number, the line with its name, and its scrambles, behind
    /// which the room may hold any.
    pub(crate) fn new(
        round: u32,
        head: Head,
        number: u32,
        line: u32,
        scrambles: [Scramble; GROUP_ROOM],
    ) -> SheetGroup
        requires round { round < 256 }
        requires head { IsRound (as_round head) }
        requires number { number < 26 }
        requires scrambles { All (λ s. IsWritten s × (s.event ≡ head.event))
            (take (per_group_of head.event + 2) scrambles) }
        ensures { result ≡ record {
          round = round;
          head = head;
          number = number;
          line = line;
          scrambles = map (λ s. s.turns) (take (per_group_of head.event + 2) scrambles);
        } }
    {
        let count = usize::from(head.event.per_group()) + 2;
        SheetGroup {
            round,
            head,
            number,
            line,
            scrambles,
            count,
        }
    }

    /// The number of its round in the sheet, from 0.
    pub fn round(&self) -> u32
        ensures value { result ≡ self.now.round }
        ensures valid { IsGroup self.now }
    {
        self.round
    }

    /// The head of its round.
    pub fn head(&self) -> &Head
        ensures value { result.now ≡ self.now.head }
        ensures valid { IsGroup self.now }
    {
        &self.head
    }

    /// The event of its round.
    pub fn event(&self) -> Event
        ensures value { result ≡ self.now.head.event }
        ensures valid { IsGroup self.now }
    {
        self.head.event
    }

    /// Its own number in its round, from 0, below 26.
    pub fn number(&self) -> u32
        ensures value { result ≡ self.now.number }
        ensures valid { IsGroup self.now }
    {
        self.number
    }

    /// The number of the line with its name, from 1.
    pub fn line(&self) -> u32
        ensures { result ≡ self.now.line }
    {
        self.line
    }

    /// Its scrambles, in the order of the slots: as many as a group of the event has, and behind them the two extra
    /// ones.
    pub fn scrambles(&self) -> &[Scramble]
        ensures value { result.now ≡ scrambles_of self.now.head.event self.now.scrambles }
        ensures count { length result.now ≡ per_group_of self.now.head.event + 2 }
        ensures valid { IsGroup self.now }
    {
        &self.scrambles[..self.count]
    }
}
