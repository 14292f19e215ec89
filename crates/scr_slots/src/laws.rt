//! What holds of slots whatever the code: calls that do nothing, whose contracts are the laws.

ghost use Rattle.std.specs.Prelude.{◌≡◌, ℕ, ◌+◌, ◌≤◌, ◌<◌};
ghost use Rattle.scr_notation.specs.declared.event.Event.{Event as EventOf};
ghost use Rattle.scr_notation.specs.Event.{greatest_of};
ghost use Rattle.scr_notation.specs.EventSets.{Has};
ghost use Rattle.scr_slots.specs.Events.{scrambling_of};
ghost use Rattle.scr_slots.specs.Slots.{IsDrawnFairly, first_stream};

use crate::asking::{Question, ask};
use crate::event::{MoveEvent, StateEvent};
use crate::tables::Tables;
use scr_draw::laws as drawing;
use scr_notation::{EVENTS, Event};

/// Each event whose tables are built is drawn fairly at each minimum of its range; of an event that is
/// scrambled by random moves this says that each of their steps is fair, and no more. So it is a clause of
/// [`Tables::build`].
pub fn each_drawn_fairly(tables: &Tables)
    ensures { (event : EventOf) (least : ℕ) → Has tables.now event
        → least ≤ greatest_of event → IsDrawnFairly (scrambling_of event) least }
{
    for event in EVENTS {
        if tables.has(event) {
            ask(tables, event.row().puzzle, &Fairness);
        }
    }
}

/// Is it drawn fairly at each minimum of its range?
#[derive(Drop)]
struct Fairness;

impl Question for Fairness {
    ghost use Rattle.std.specs.Prelude.{true};

    type Answer = ();

    ghost may_ask = { λ _ _. Unit {0} };

    ghost needs_solver = { true };

    ghost is_answer = { λ _ greatest _ scrambling _. (least : ℕ) → least ≤ greatest → IsDrawnFairly scrambling least };

    fn of_states<E: StateEvent>(&self, event: &E, _notation: Event, solver: Option<&E::Solver>) {
        event.is_reached(solver.unwrap());
        event.count();
        drawing::drawn_fairly(event);
    }

    fn of_moves<M: MoveEvent>(&self, _moves: &M) {}
}

/// No two slots of a list share a stream: a round has at most 182 slots.
pub fn no_shared_stream()
    ensures { (k l i j : ℕ) → i < 182 → j < 182 → first_stream k + i ≡ first_stream l + j → (k ≡ l) × (i ≡ j) }
{}
