//! Drawing: the first permitted state of a number of attempts.

ghost use Rattle.std.specs.Prelude.{◌≡◌, ◌+◌, ◌*◌, ◌^◌, ◌≤◌, IfOk, IfErr, IsTrue, ok_or};
ghost use Rattle.std.specs.Result.{result_ok};
ghost use Rattle.scr_draw.specs.Attempt.{attempt_values};
ghost use Rattle.scr_draw.specs.Drawn.{drawn, hit};
ghost use Rattle.scr_draw.specs.FirstHit.{numbers_read};
ghost use Rattle.scr_combinatorics.specs.Reach.{Needs};
ghost use Rattle.scr_draw.specs.StateSpace.{Draws, space_of};

use crate::rejection::attempt;
use crate::{Numbering, Permit};
use scr_words::Words;

/// No attempt gave a permitted state.
#[derive(Debug, Clone, Copy, PartialEq, Eq)]
pub struct DrawLimit {
    /// How many words were taken: three for each attempt.
    pub words: u32,
}

/// Draws the state of the first attempt that is accepted and whose state needs at least `least`
/// counted turns, or tells that the first `attempts` attempts give none.
///
/// `least` is in the event's range, `attempts` is at most 1,000,000, and at most 2^62 words were
/// taken before.
pub fn draw<W: Words, P: Numbering + Permit<P::State>>(
    words: &mut W,
    puzzle: &P,
    least: u32,
    attempts: u32,
) -> Result<P::State, DrawLimit>
    requires least_in_range { least ≤ P.greatest puzzle.now }
    requires few { attempts ≤ 1000000 }
    requires room { W.taken words.old ≤ 2 ^ 62 }
    ensures state { let n = P.numbered puzzle.now in
        let hits = hit n.count n.state_at (λ s. P.needs puzzle.now s least) in
        let values = attempt_values (W.word_at words.old) (W.taken words.old) attempts in
        result ≡ ok_or (drawn hits values) (record { words = 3 * attempts }) }
    ensures draws { let space = space_of (P.numbered puzzle.now) (P.puzzle puzzle.now) in
        let values = attempt_values (W.word_at words.old) (W.taken words.old) attempts in
        Draws space least values (result_ok result) }
    ensures valid { IfOk result (P.numbered puzzle.now).IsValid }
    ensures needs { IfOk result (λ s. Needs (P.puzzle puzzle.now) s least) }
    ensures passes { IfOk result (λ s. IsTrue (P.needs puzzle.now s least)) }
    ensures taken { let n = P.numbered puzzle.now in
        let hits = hit n.count n.state_at (λ s. P.needs puzzle.now s least) in
        let values = attempt_values (W.word_at words.old) (W.taken words.old) attempts in
        W.taken words.new ≡ W.taken words.old + 3 * numbers_read hits values }
    ensures at_most { W.taken words.new ≤ W.taken words.old + 3 * attempts }
    ensures limit { IfErr result (λ limit. limit.words ≡ 3 * attempts) }
    ensures all_taken { IfErr result (λ limit. W.taken words.new ≡ W.taken words.old + limit.words) }
    ensures same_words { W.word_at words.new ≡ W.word_at words.old }
{
    let count = puzzle.count();
    for tried in 0..attempts {
        if let Some(number) = attempt(words, count) {
            let state = puzzle.state_at(number);
            if puzzle.needs_at_least(&state, least) {
                return Ok(state);
            }
        }
    }
    Err(DrawLimit {
        words: 3 * attempts,
    })
}
