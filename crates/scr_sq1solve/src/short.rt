//! The short scramble.
ghost use Rattle.std.specs.Prelude.{◌≡◌, ◌≤◌, List};
ghost use Rattle.scr_combinatorics.specs.Play.{play};
ghost use Rattle.scr_notation.specs.declared.event.Event.TheVariants.{Sq1 as EventSq1};
ghost use Rattle.scr_notation.specs.declared.turn.Turn.{Turn as Letter};
ghost use Rattle.scr_notation.specs.Written.{IsTheScramble};
ghost use Rattle.scr_sq1.specs.Units.{solved_sq1, sq1_after};
ghost use Rattle.scr_sq1solve.specs.Counts.{twists_in, twists_of, IsWithinBounds};
ghost use Rattle.scr_sq1tables.specs.Stages.{IsScrambleSq1};
ghost use Rattle.scr_sq1solve.specs.ShortScrambles.{IsShortScramble};

use crate::totals::total_of;
use scr_notation::{NumberedWord, Scramble};
use scr_sq1::{Sq1, TWIST};
use scr_sq1tables::Sq1Tables;

/// The scramble of a Square-1, of at most 76 twists and 153 turns, for which its first `short` words to the square
/// shape are looked at, from 1 to 1,000, or all where there are fewer: of the solutions that they begin, that of the
/// fewest twists, the earliest among equals, taken back. With 1 it is the scramble by stages. There is no refusal, and
/// no memory is taken.
pub fn scramble_sq1_short(tables: &Sq1Tables, state: &Sq1, short: u32) -> Scramble
    requires short { (1 ≤ short) × (short ≤ 1000) }
    ensures the_scramble { IsTheScramble EventSq1 (IsShortScramble short) IsWithinBounds (play sq1_after solved_sq1) state.now result }
    ensures no_more { (turns : List Letter) → IsScrambleSq1 state.now turns → twists_in result.turns ≤ twists_in turns }
{
    let words = tables.shape_words(state, short);
    let mut least = total_of(tables, state, words.word(0));
    for place in 1..words.len() {
        let total = total_of(tables, state, words.word(place));
        let is_shorter = twist_count(&total) < twist_count(&least);
        if is_shorter {
            least = total;
        }
    }
    least.taken_back()
}

/// How many of the turns of a Square-1's word are twists.
fn twist_count(word: &NumberedWord) -> usize
    requires { word.now.event ≡ EventSq1 }
    ensures { result ≡ twists_in word.now.turns }
{
    let mut count = 0;
    for number in word.numbers() {
        if u32::from(*number) == TWIST {
            count += 1;
        }
    }
    count
}
