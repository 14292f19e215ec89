//! Questions to events, and the one place that tells by what is scrambled who answers them.

ghost use Rattle.std.specs.Prelude.{◌≡◌, ◌≤◌, ℕ, Bool, IfSome, IsSome, IsTrue};
ghost use Rattle.scr_combinatorics.specs.Numbered.{numbers_of};
ghost use Rattle.scr_notation.specs.Event.{greatest_in, puzzle_row_of};
ghost use Rattle.scr_slots.specs.Events.{scrambled_as, promised_as};
ghost use Rattle.scr_slots.specs.Families.{HasTablesOf};
ghost use Rattle.scr_slots.specs.Promised.{States, Moves, drawn_puzzle};
ghost use Rattle.scr_slots.specs.Slots.{ByMoves, ByState};

use crate::event::{MoveEvent, StateEvent};
use crate::moves::{CubeMoves, MegaminxMoves};
use crate::tables::Tables;
use scr_clock::ClockNumbers;
use scr_notation::{Event, Puzzle};
use scr_small::{Small222, SmallPyram, SmallSkewb};
use scr_sq1solve::DrawSq1;
use scr_twophase::{Draw333, DrawFewest, DrawHeld};

/// A question to an event, with an answer for events whose states are drawn and one for events of random moves.
pub(crate) trait Question {
    ghost use Rattle.scr_slots.specs.Promised.{Promised};
    ghost use Rattle.scr_slots.specs.Slots.{Scrambling};

    /// Its answer.
    type Answer;

    /// Whether it may be asked of an event whose greatest minimum is this.
    ghost may_ask: { Self → ℕ → Type 0 };

    /// Whether it asks for what finds scrambles.
    ghost needs_solver: { Bool };

    /// What answers it, of an event with this greatest minimum that is scrambled so.
    ghost is_answer: { Self → ℕ → (promised : Promised) → Scrambling promised → Self.Answer → Type 0 };

    /// Its answer of an event whose states are drawn, and whose scrambles are written as those of `notation`.
    fn of_states<E: StateEvent>(
        &self,
        event: &E,
        notation: Event,
        solver: Option<&E::Solver>,
    ) -> Self::Answer
        requires asked { may_ask self.now (E.greatest event.now) }
        requires notation { notation ≡ E.event }
        requires solver { IsTrue needs_solver → IsSome solver }
        requires own { IfSome solver (λ found. E.is_own found.now) }
        ensures { let drawn = drawn_puzzle (E.puzzle event.now) E.played E.is_within in
            let numbers = numbers_of (E.numbered event.now) in
            is_answer self.now (E.greatest event.now) (States E.State drawn) (ByState E.event numbers E.is_scramble) result };

    /// Its answer of an event of random moves.
    fn of_moves<M: MoveEvent>(&self, moves: &M) -> Self::Answer
        requires { may_ask self.now 0 }
        ensures { is_answer self.now 0 (Moves (M.random moves.now)) (ByMoves (M.event moves.now)) result };
}

/// The answer of the events that are scrambled as this puzzle to a question. The tables have them where their states are
/// tested by one, and where the question asks for what finds scrambles.
pub(crate) fn ask<Q: Question>(tables: &Tables, puzzle: Puzzle, question: &Q) -> Q::Answer
    requires asked { Q.may_ask question.now (greatest_in (puzzle_row_of puzzle).minima) }
    requires tested { IsTrue (puzzle_row_of puzzle).tested_by_table → HasTablesOf tables.now puzzle }
    requires solver { IsTrue Q.needs_solver → HasTablesOf tables.now puzzle }
    ensures { Q.is_answer question.now (greatest_in (puzzle_row_of puzzle).minima) (promised_as puzzle) (scrambled_as puzzle) result }
{
    match puzzle {
        Puzzle::Cube222 => {
            let own = tables.of_222.as_ref().unwrap();
            question.of_states(&Small222::new(own), Event::C222, Some(own))
        }
        Puzzle::Cube333 => {
            question.of_states(&Draw333::new(), Event::C333, tables.of_333.as_ref())
        }
        Puzzle::Held333 => {
            question.of_states(&DrawHeld::new(), Event::Bf333, tables.of_333.as_ref())
        }
        Puzzle::Fewest333 => {
            question.of_states(&DrawFewest::new(), Event::Fm333, tables.of_333.as_ref())
        }
        Puzzle::Cube555 => question.of_moves(&CubeMoves::<5> {}),
        Puzzle::Cube666 => question.of_moves(&CubeMoves::<6> {}),
        Puzzle::Cube777 => question.of_moves(&CubeMoves::<7> {}),
        Puzzle::Clock => question.of_states(&ClockNumbers, Event::Clock, Some(&())),
        Puzzle::Megaminx => question.of_moves(&MegaminxMoves),
        Puzzle::Pyraminx => {
            let own = tables.of_pyram.as_ref().unwrap();
            question.of_states(&SmallPyram::new(own), Event::Pyram, Some(own))
        }
        Puzzle::Skewb => {
            let own = tables.of_skewb.as_ref().unwrap();
            question.of_states(&SmallSkewb::new(own), Event::Skewb, Some(own))
        }
        Puzzle::Square1 => question.of_states(&DrawSq1::new(), Event::Sq1, tables.of_sq1.as_ref()),
    }
}
