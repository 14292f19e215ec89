//! A group of a sheet.

ghost use Rattle.std.specs.Prelude.{◌≡◌};

use arrayvec::ArrayString;
use scr_list::NAME_ROOM;
use scr_notation::{Event, Scramble};
use std::marker::Model;

/// Where a group stands in a sheet.
#[derive(Clone, Copy, Debug)]
pub struct GroupPlace {
    /// The event.
    pub event: Event,
    /// The number of its round in the sheet, from 1; at most 256.
    pub sheet_round: u32,
    /// Which of the rounds of its event that is, from 1.
    pub event_round: u32,
    /// How many rounds of the event the sheet has; at most 256.
    pub event_rounds: u32,
    /// The number of the group in the round, from 0.
    pub number: u32,
    /// How many groups the round has; at most 26.
    pub groups: u32,
    /// The name of the round, which may be empty.
    pub name: ArrayString<NAME_ROOM>,
}

/// A group of a sheet: where it stands, and its scrambles.
#[derive(Drop)]
pub struct Group<'a> {
    pub(crate) place: GroupPlace,
    scrambles: &'a [Scramble],
}

impl<'a> Model for Group<'a> {
    ghost use Rattle.scr_layout.specs.Group.{Group as Shown};

    ghost Value = { Shown };

    ghost use Rattle.scr_layout.specs.Placed.{group_at};
    ghost use Rattle.scr_layout.specs.Group.{IsGroup};

    ghost view = { λ g. group_at g.place g.scrambles.now };

    ghost invariant = { λ g. IsGroup (group_at g.place g.scrambles.now) };
}

impl<'a> Group<'a> {
    ghost use Rattle.scr_layout.specs.Placed.{group_at};
    ghost use Rattle.scr_layout.specs.Group.{IsGroup};

    /// A group at a place with these scrambles, one for each slot, the two extra ones last.
    pub fn new(place: GroupPlace, scrambles: &'a [Scramble]) -> Group<'a>
        requires { IsGroup (group_at place scrambles.now) }
        ensures { result ≡ group_at place scrambles.entry.now }
    {
        Group { place, scrambles }
    }

    /// The event.
    pub fn event(&self) -> Event
        ensures value { result ≡ self.now.event }
        ensures valid { IsGroup self.now }
    {
        self.place.event
    }

    /// The number of its round in the sheet, from 1.
    pub fn sheet_round(&self) -> u32
        ensures value { result ≡ self.now.sheet_round }
        ensures valid { IsGroup self.now }
    {
        self.place.sheet_round
    }

    /// The number of the group in its round, from 0.
    pub fn number(&self) -> u32
        ensures value { result ≡ self.now.number }
        ensures valid { IsGroup self.now }
    {
        self.place.number
    }

    /// Its scrambles, one for each slot, the two extra ones last.
    pub fn scrambles(&self) -> &[Scramble]
        ensures value { result.now ≡ self.now.scrambles }
        ensures valid { IsGroup self.now }
    {
        self.scrambles
    }
}
