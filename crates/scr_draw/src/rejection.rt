//! One attempt: three words read as a number, and the rejection that makes it fair.

ghost use Rattle.std.specs.Prelude.{◌≡◌, ◌+◌, ◌-◌, ◌*◌, ◌^◌, ◌<◌, ◌≤◌, IfSome};
ghost use Rattle.scr_draw.specs.Attempt.{answer, attempt_value};

use scr_words::Words;

// How many numbers three words can spell.
const NUMBERS: u128 = 1 << 96;

/// Takes three words and reads them as a number below 2^96, the first word lowest. Below the end of the last whole run
/// of `count` numbers the answer is the number's place in its run, a number below `count`; from there on there is none.
///
/// `count` is at least 1, and fewer than 2^63 - 3 words were taken before.
pub fn attempt<W: Words>(words: &mut W, count: u128) -> Option<u128>
    requires some { 1 ≤ count }
    requires room { W.taken words.old < 2 ^ 63 - 3 }
    ensures value { result ≡ answer count (attempt_value (W.word_at words.old) (W.taken words.old)) }
    ensures number_below { attempt_value (W.word_at words.old) (W.taken words.old) < 2 ^ 96 }
    ensures below { IfSome result (λ number. number < count) }
    ensures three { W.taken words.new ≡ W.taken words.old + 3 }
    ensures same_words { W.word_at words.new ≡ W.word_at words.old }
{
    let low = u128::from(words.next());
    let middle = u128::from(words.next());
    let high = u128::from(words.next());
    let number = low + (middle << 32) + (high << 64);
    if number < NUMBERS / count * count {
        Some(number % count)
    } else {
        None
    }
}
