//! The slots of a round as jobs for workers.

ghost use Rattle.std.specs.Prelude.{◌≡◌};
ghost use Rattle.scr_sheet.specs.Making.{CanBeMade};

use scr_list::Round;
use scr_notation::Scramble;
use scr_slots::{Settings, Tables, slot_answer};
use scr_workers::Jobs;
use std::marker::Model;

/// The slots of round `index` of a list. An answer of a slot is its scramble, or that it has none.
#[derive(Drop)]
pub(crate) struct SlotJobs<'a> {
    tables: &'a Tables,
    settings: &'a Settings,
    index: u32,
    round: &'a Round,
}

// Clauses see which slots they are, and not by which tables they are answered.
impl<'a> Model for SlotJobs<'a> {
    ghost use Rattle.scr_sheet.specs.Making.{CanBeMade, RoundSlots};

    ghost Value = { RoundSlots };

    ghost view = { λ jobs. record { settings = jobs.settings.now; index = jobs.index; round = jobs.round.now } };

    ghost invariant = { λ jobs. CanBeMade jobs.tables.now jobs.settings.now jobs.index jobs.round.now };
}

impl<'a> SlotJobs<'a> {
    /// The slots of a round, made with these tables and settings.
    pub fn new(
        tables: &'a Tables,
        settings: &'a Settings,
        index: u32,
        round: &'a Round,
    ) -> SlotJobs<'a>
        requires { CanBeMade tables.now settings.now index round.now }
        ensures { result ≡ record { settings = settings.now; index = index; round = round.now } }
    {
        SlotJobs {
            tables,
            settings,
            index,
            round,
        }
    }
}

impl<'a> Jobs for SlotJobs<'a> {
    ghost use Rattle.std.specs.Prelude.{◌+◌};
    ghost use Rattle.scr_round.specs.Round.{slots_of};
    ghost use Rattle.scr_slots.specs.Events.{scrambling_of};
    ghost use Rattle.scr_slots.specs.Slots.{IsSlotAnswer, first_stream};

    type Out = Option<Scramble>;

    ghost slots = { λ jobs. slots_of jobs.round };

    ghost is_answer = { λ jobs slot answer.
        IsSlotAnswer (scrambling_of jobs.round.event) jobs.settings jobs.round.least
        (first_stream jobs.index + slot) answer };

    fn job(&self, slot: u32) -> Option<Scramble> {
        let round = self.round;
        let stream = 1024 * u64::from(self.index) + u64::from(slot);
        let least = u32::from(round.least);
        slot_answer(self.tables, round.event, self.settings, least, stream)
    }
}
