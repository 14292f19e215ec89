//! What an event gives, by which its slots are answered: states that are drawn, or random moves.

ghost use Rattle.std.specs.Prelude.{◌≡◌, ◌↔◌, ◌≤◌, ℕ, IsTrue, List, Option, Some};
ghost use Rattle.scr_combinatorics.specs.Reach.{IsReached};
ghost use Rattle.scr_notation.specs.declared.event.Event.{Event};
ghost use Rattle.scr_notation.specs.declared.turn.Turn.{Turn};

use crate::settings::{Effort, Settings};
use scr_draw::{Numbering, Permit};
use scr_notation::Scramble;

/// An event whose states are drawn, by their numbers and by the test of its minima: what finds their scrambles, and
/// what scrambles make of the solved puzzle.
pub(crate) trait StateEvent: Numbering + Permit<<Self as Numbering>::State> {
    ghost use Rattle.scr_slots.specs.declared.settings.Effort.{Effort as EffortOf};
    ghost use Rattle.scr_notation.specs.Written.{IsTheScramble};
    ghost use Rattle.scr_slots.specs.Ranges.{IsShort};

    /// What scrambles are found by: tables, or nothing.
    type Solver;

    /// The event that its scrambles are of.
    ghost event: { Event };

    /// What the turns of a scramble make of the solved puzzle.
    ghost played: { List Turn → Option Self.State };

    /// Of how few turns scrambles are.
    ghost is_within: { List Turn → Type 0 };

    /// Which turns are the scramble of a state, to which it gives so much effort.
    ghost is_scramble: { EffortOf → Self.State → List Turn → Type 0 };

    /// Whether tables are its own.
    ghost is_own: { Self.Solver → Type 0 } = { λ _. Unit {0} };

    /// Whether a scramble, played on the solved puzzle, gives this state.
    fn leads_to(&self, scramble: &Scramble, state: &Self::State) -> bool
        ensures { IsTrue result ↔ played scramble.now.turns ≡ Some state.now };

    /// The scramble of a state, to which it gives so much effort. The effort is in its range.
    fn scramble(&self, solver: &Self::Solver, state: &Self::State, effort: Effort) -> Scramble
        requires { IsShort effort.short }
        ensures { IsTheScramble event (is_scramble effort) is_within played state.now result };

    /// Does nothing: by what scrambles are found, the states that are numbered are those that turns reach.
    fn is_reached(&self, solver: &Self::Solver)
        requires { is_own solver.now }
        ensures { (s : Self.State) → (Self.numbered self.now).IsValid s ↔ IsReached (Self.puzzle self.now) s };
}

/// An event that is scrambled by random moves.
pub(crate) trait MoveEvent {
    ghost use Rattle.scr_slots.specs.Promised.{RandomMoves, Moves};
    ghost use Rattle.scr_slots.specs.Slots.{ByMoves, IsSlotAnswer};

    /// The event that its scrambles are of.
    ghost event: { Self → Event };

    /// Which moves words give, and what is promised of them.
    ghost random: { Self → RandomMoves };

    /// The scramble of a slot on this stream; `None` where all attempts of one turn are refused. There are at most
    /// 1,000,000 attempts.
    fn scramble(&self, settings: &Settings, stream: u64) -> Option<Scramble>
        requires { settings.now.attempts ≤ 1000000 }
        ensures { (least : ℕ) → IsSlotAnswer {promised = Moves (random self.now)} (ByMoves (event self.now)) settings.now least stream result };

    /// Each of its steps is fair.
    ghost are_fair: { (moves : Self) → (random moves).AreFair };
}
