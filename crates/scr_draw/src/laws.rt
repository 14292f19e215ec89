//! Why drawing is fair: calls that do nothing, whose contracts are the laws.

ghost use Rattle.std.specs.Prelude.{ℕ, ◌+◌, ◌<◌, ◌≤◌, ◌↔◌};
ghost use Rattle.scr_combinatorics.specs.Reach.{IsReached};
ghost use Rattle.scr_draw.specs.StateSpace.{IsFairFor, space_of};
ghost use Rattle.scr_draw.specs.OneOutcome.{HasOneOutcome};

use crate::{Numbering, Permit};

/// Where the valid states are those that turns reach, the states that are drawn are those that turns reach and that
/// need a minimum of the event's range, each by the same number of lists. Numbers have one outcome at each minimum,
/// whichever test tells what states need: the state that the first number which doesn't miss hits, and it is permitted;
/// or none, where each misses.
pub fn drawn_fairly<P: Numbering + Permit<P::State>>(event: &P)
    requires reached { (s : P.State) → (P.numbered event.now).IsValid s ↔ IsReached (P.puzzle event.now) s }
    ensures fair { let space = space_of (P.numbered event.now) (P.puzzle event.now) in
        (least : ℕ) → least ≤ P.greatest event.now → IsFairFor space least }
    ensures one_outcome { let space = space_of (P.numbered event.now) (P.puzzle event.now) in
        (least : ℕ) → least ≤ P.greatest event.now → HasOneOutcome space least }
{
    event.count();
}
