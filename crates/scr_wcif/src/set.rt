//! The scrambles that a file takes over from a sheet.

use arrayvec::ArrayString;
use scr_notation::Event;
use std::marker::Model;

/// So many digits a group's number has at most.
pub(crate) const NUMBER_ROOM: usize = 10;

/// The scrambles of a group, as texts.
#[derive(Drop)]
pub(crate) struct ScrambleSet {
    /// The text of its number in the round.
    pub(crate) number: ArrayString<NUMBER_ROOM>,
    /// Its scrambles, in order.
    pub(crate) scrambles: Vec<String>,
    /// Its extra ones, in order.
    pub(crate) extras: Vec<String>,
}

// Clauses see the texts.
impl Model for ScrambleSet {
    ghost use Rattle.std.specs.Prelude.{map, string_bytes};
    ghost use Rattle.scr_wcif.specs.Sets.{ScrambleSet as Set};

    ghost Value = { Set };

    ghost view = { λ s. record { number = s.number.bytes; scrambles = map string_bytes s.scrambles.items; extras = map string_bytes s.extras.items } };
}

/// The sets of a round, one for each of its groups.
#[derive(Drop)]
pub(crate) struct EventSets {
    /// The round's event.
    pub(crate) event: Event,
    /// The sets, in order.
    pub(crate) sets: Vec<ScrambleSet>,
}

// Clauses see the list of its sets.
impl Model for EventSets {
    ghost use Rattle.scr_wcif.specs.Sets.{EventSets as Sets};

    ghost Value = { Sets };

    ghost view = { λ r. record { event = r.event; sets = r.sets.items } };
}

/// The sets that a round of a file gets.
#[derive(Drop)]
pub(crate) struct RoundSets<'a> {
    /// The id that the round has in the file.
    pub(crate) id: String,
    /// The sets, in order.
    pub(crate) sets: &'a [ScrambleSet],
}

// Clauses see the texts, and not the references to them.
impl<'a> Model for RoundSets<'a> {
    ghost use Rattle.std.specs.Prelude.{string_bytes};
    ghost use Rattle.scr_wcif.specs.Sets.{RoundSets as Sets};

    ghost Value = { Sets };

    ghost view = { λ r. record { id = string_bytes r.id; sets = r.sets.now } };
}
