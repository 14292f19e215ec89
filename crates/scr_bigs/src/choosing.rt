//! A choice that words make.

ghost use Rattle.std.specs.Prelude.{◌≡◌, ◌+◌, ◌*◌, ◌^◌, ◌<◌, ◌≤◌, IfOk, IfErr};
ghost use Rattle.std.specs.Result.{result_ok};
ghost use Rattle.scr_draw.specs.Attempt.{answer, attempt_values};
ghost use Rattle.scr_draw.specs.Drawn.{drawn};
ghost use Rattle.scr_draw.specs.FirstHit.{numbers_read};

use scr_draw::{DrawLimit, attempt};
use scr_words::Words;

/// The number of one of `count` choices: that of the first of at most so many attempts which is accepted, or how many
/// words they took, where all are refused.
pub(crate) fn choose<W: Words>(words: &mut W, count: u8, attempts: u32) -> Result<u8, DrawLimit>
    requires some { 1 ≤ count }
    requires few { attempts ≤ 1000000 }
    requires room { W.taken words.old ≤ 2 ^ 62 + 300000000 }
    ensures number { let values = attempt_values (W.word_at words.old) (W.taken words.old) attempts in
        drawn (answer count) values ≡ result_ok result }
    ensures limit { IfErr result (λ limit. limit.words ≡ 3 * attempts) }
    ensures below { IfOk result (λ number. number < count) }
    ensures taken { let values = attempt_values (W.word_at words.old) (W.taken words.old) attempts in
        W.taken words.new ≡ W.taken words.old + 3 * numbers_read (answer count) values }
    ensures at_most { W.taken words.new ≤ W.taken words.old + 3 * attempts }
    ensures same_words { W.word_at words.new ≡ W.word_at words.old }
{
    for tried in 0..attempts {
        if let Some(number) = attempt(words, u128::from(count)) {
            return Ok(number as u8);
        }
    }
    Err(DrawLimit {
        words: 3 * attempts,
    })
}
