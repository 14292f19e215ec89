//! The random moves of a Megaminx.

ghost use Rattle.std.specs.Prelude.{◌≡◌, ◌+◌, ◌^◌, ◌<◌, ◌≤◌, ◌++◌, Some, length};
ghost use Rattle.scr_notation.specs.declared.event.Event.TheVariants.{Minx};
ghost use Rattle.scr_bigs.specs.Megaminx.{bits_of, row_turns, megaminx_moves};

use scr_draw::attempt;
use scr_notation::{Event, Scramble, Turn, push_turn};
use scr_words::Words;

/// The letters of wide turns: R is 0, D is 1, U is 2.
const LETTER_U: u8 = 2;

/// The scramble of a Megaminx that three words give: seven rows of ten wide turns, R and D by turns, and after each row
/// a turn of U the way of its last D. Bit k of the number, the least first, says the way of turn k of the seventy.
/// Every number is accepted, so there is no refusal.
///
/// At most 2^62 words were taken before.
#[tactic(auto, using(crate::proofs::Cited::megaminx))]
pub fn megaminx<W: Words>(words: &mut W) -> Scramble
    requires room { W.taken words.old ≤ 2 ^ 62 }
    ensures event { result.event ≡ Minx }
    ensures turns { megaminx_moves (W.word_at words.old) (W.taken words.old) ≡ Some result.turns }
    ensures three { W.taken words.new ≡ W.taken words.old + 3 }
    ensures same_words { W.word_at words.new ≡ W.word_at words.old }
{
    let mut scramble = Scramble::new(Event::Minx);
    let Some(number) = attempt(words, 1 << 70) else {
        unreachable!("2^96 is a multiple of 2^70");
    };
    for row in 0..7u32 {
        push_row(&mut scramble, number, row);
    }
    scramble
}

/// Adds a row by the bits of a number.
#[tactic(auto, using(crate::proofs::Cited::push_row))]
fn push_row(scramble: &mut Scramble, number: u128, row: u32)
    requires of_megaminx { scramble.old.event ≡ Minx }
    requires room { length scramble.old.turns + 11 ≤ 160 }
    requires row { row < 7 }
    ensures event { scramble.new.event ≡ scramble.old.event }
    ensures turns { scramble.new.turns ≡ scramble.old.turns ++ row_turns (bits_of number) row }
    ensures eleven { length scramble.new.turns ≡ length scramble.old.turns + 11 }
{
    let bits = number >> (10 * row);
    let mut rest = bits;
    for place in 0..10 {
        let plus = rest % 2 == 1;
        push_turn(
            scramble,
            Turn::Wide {
                letter: place % 2,
                plus,
            },
        );
        rest /= 2;
    }
    let plus = bits / 512 % 2 == 1;
    push_turn(
        scramble,
        Turn::Wide {
            letter: LETTER_U,
            plus,
        },
    );
}
