//! The answer of a slot, by its event.

ghost use Rattle.std.specs.Prelude.{◌≤◌};
ghost use Rattle.scr_notation.specs.Event.{greatest_of};
ghost use Rattle.scr_notation.specs.EventSets.{Has};
ghost use Rattle.scr_slots.specs.Events.{scrambling_of};
ghost use Rattle.scr_slots.specs.Ranges.{AreInRange};
ghost use Rattle.scr_slots.specs.Slots.{IsSlotAnswer};

use crate::asking::{Question, ask};
use crate::event::{MoveEvent, StateEvent};
use crate::settings::Settings;
use crate::tables::Tables;
use scr_draw::draw;
use scr_notation::{Event, Scramble};
use scr_words::ChaChaWords;

/// The scramble of a slot of an event on this stream; `None` exactly where its attempts draw no state that needs at least
/// `least` turns, or where all those of a random move are refused.
///
/// The tables are those of a list with the event; `least` and the settings are in their ranges.
pub fn slot_answer(
    tables: &Tables,
    event: Event,
    settings: &Settings,
    least: u32,
    stream: u64,
) -> Option<Scramble>
    requires tables { Has tables.now event }
    requires least { least ≤ greatest_of event }
    requires settings { AreInRange settings.now }
    ensures { IsSlotAnswer (scrambling_of event) settings.now least stream result }
{
    let settings = *settings;
    ask(
        tables,
        event.row().puzzle,
        &Answer {
            settings,
            least,
            stream,
        },
    )
}

/// What is the answer of a slot on this stream? `least` and the settings are in their ranges.
#[derive(Drop)]
struct Answer {
    settings: Settings,
    least: u32,
    stream: u64,
}

impl Question for Answer {
    ghost use Rattle.std.specs.Prelude.{true};

    type Answer = Option<Scramble>;

    ghost may_ask = { λ slot greatest. (slot.least ≤ greatest) × AreInRange slot.settings };

    ghost needs_solver = { true };

    ghost is_answer = { λ slot _ _ scrambling answer. IsSlotAnswer scrambling slot.settings slot.least slot.stream answer };

    fn of_states<E: StateEvent>(
        &self,
        event: &E,
        _notation: Event,
        solver: Option<&E::Solver>,
    ) -> Option<Scramble> {
        let solver = solver.unwrap();
        event.is_reached(solver);
        let _numbering = event.count();
        let mut words = ChaChaWords::new(&self.settings.seed, self.stream);
        match draw(&mut words, event, self.least, self.settings.attempts) {
            Ok(state) => {
                let scramble = event.scramble(solver, &state, self.settings.effort);
                let _turns = scramble.turns();
                Some(scramble)
            }
            Err(_) => None,
        }
    }

    fn of_moves<M: MoveEvent>(&self, moves: &M) -> Option<Scramble> {
        moves.scramble(&self.settings, self.stream)
    }
}
