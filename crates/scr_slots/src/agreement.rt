//! Whether a text agrees with a slot, by its event.

ghost use Rattle.std.specs.Prelude.{◌≤◌, IsTrue};
ghost use Rattle.scr_notation.specs.Event.{greatest_of, is_tested_by_table};
ghost use Rattle.scr_notation.specs.EventSets.{Has};
ghost use Rattle.scr_slots.specs.Agreement.{IsJudged};
ghost use Rattle.scr_slots.specs.Events.{scrambling_of};

use crate::asking::{Question, ask};
use crate::event::{MoveEvent, StateEvent};
use crate::settings::Settings;
use crate::tables::Tables;
use scr_draw::draw;
use scr_notation::{Event, parse_bytes, print};
use scr_words::ChaChaWords;

/// Whether a text agrees with a slot of an event on this stream: played from solved, it gives the state that the slot
/// draws, or it is the text of the random moves that the slot has. `None` comes exactly where the slot has no scramble.
///
/// The tables have the event where its states are tested by one; `least` is in its range, and there are at most
/// 1,000,000 attempts. Nothing is searched for.
pub fn slot_agrees(
    tables: &Tables,
    event: Event,
    settings: &Settings,
    least: u32,
    stream: u64,
    text: &[u8],
) -> Option<bool>
    requires tables { IsTrue (is_tested_by_table event) → Has tables.now event }
    requires least { least ≤ greatest_of event }
    requires attempts { settings.now.attempts ≤ 1000000 }
    ensures { IsJudged (scrambling_of event) settings.now least stream text.now result }
{
    let settings = *settings;
    ask(
        tables,
        event.row().puzzle,
        &Agreement {
            settings,
            least,
            stream,
            text,
        },
    )
}

/// Does this text agree with the slot on this stream? `least` is in its range, and there are at most 1,000,000 attempts.
#[derive(Drop)]
struct Agreement<'a> {
    settings: Settings,
    least: u32,
    stream: u64,
    text: &'a [u8],
}

impl Question for Agreement<'_> {
    ghost use Rattle.std.specs.Prelude.{false};

    type Answer = Option<bool>;

    ghost may_ask = { λ slot greatest. (slot.least ≤ greatest) × (slot.settings.attempts ≤ 1000000) };

    ghost needs_solver = { false };

    ghost is_answer = { λ slot _ _ scrambling told. IsJudged scrambling slot.settings slot.least slot.stream slot.text.now told };

    fn of_states<E: StateEvent>(
        &self,
        event: &E,
        notation: Event,
        _solver: Option<&E::Solver>,
    ) -> Option<bool> {
        let _numbering = event.count();
        let mut words = ChaChaWords::new(&self.settings.seed, self.stream);
        let Ok(state) = draw(&mut words, event, self.least, self.settings.attempts) else {
            return None;
        };
        match parse_bytes(notation, self.text) {
            Some(scramble) => Some(event.leads_to(&scramble, &state)),
            None => Some(false),
        }
    }

    fn of_moves<M: MoveEvent>(&self, moves: &M) -> Option<bool> {
        match moves.scramble(&self.settings, self.stream) {
            Some(scramble) => Some(print(&scramble).as_str().as_bytes() == self.text),
            None => None,
        }
    }
}
