//! The words of a Square-1 to the square shape, and the solutions that they begin.
ghost use Rattle.std.specs.Prelude.{◌≡◌, ◌+◌, ◌*◌, ◌≤◌, ◌++◌, [], if◌then◌else◌, List, Some, IsTrue, length};
ghost use Rattle.scr_combinatorics.specs.Play.{play};
ghost use Rattle.scr_combinatorics.specs.Back.{back};
ghost use Rattle.scr_combinatorics.specs.Tidy.{tidy};
ghost use Rattle.scr_notation.specs.declared.event.Event.TheVariants.{Sq1 as EventSq1};
ghost use Rattle.scr_notation.specs.declared.turn.Turn.{Turn as Letter};
ghost use Rattle.scr_notation.specs.Turning.{opposite, turn_merging};
ghost use Rattle.scr_sq1.specs.Units.{IsSq1, solved_sq1, sq1_after};
ghost use Rattle.scr_sq1solve.specs.Counts.{twists_in, IsWithinBounds};
ghost use Rattle.scr_sq1tables.specs.Stages.{equator_word};
ghost use Rattle.scr_sq1solve.specs.Totals.{IsTotal};
ghost use Rattle.scr_sq1tables.specs.ShapeWords.{is_shape_word};

use crate::walks::{end_walk, stage_walk, walked};
use scr_notation::{Event, NumberedWord, Scramble};
use scr_sq1::{Sq1, TWIST};
use scr_sq1tables::{Sq1Tables, StageLetters, pairings_index, square_index};

/// The solution that a word to the square shape begins, tidied: its total, of at most 76 twists and 153 turns. The word
/// is told by the numbers of its letters, which are below 144, and is a shape word of the state, of at most 13 letters;
/// the caller sees to that. The scramble is the total taken back. There is no refusal, and no memory is taken.
pub fn total_from(tables: &Sq1Tables, state: &Sq1, shape_word: &[u8]) -> Scramble
    requires shape_word { IsTrue (is_shape_word state.now shape_word.now) }
    requires short { length shape_word.now ≤ 13 }
    ensures event { result.event ≡ EventSq1 }
    ensures total { IsTotal state.now shape_word.now result.turns }
    ensures only { (turns : List Letter) → IsTotal state.now shape_word.now turns → turns ≡ result.turns }
    ensures within { IsWithinBounds result.turns }
    ensures solves { play sq1_after state.now result.turns ≡ Some solved_sq1 }
    ensures taken_back { play sq1_after solved_sq1 (back opposite result.turns) ≡ Some state.now }
{
    total_of(tables, state, shape_word).scramble()
}

/// The total as a word. It is joined from its end, and each part is tidied when it is joined.
pub(crate) fn total_of(tables: &Sq1Tables, state: &Sq1, shape_word: &[u8]) -> NumberedWord
    requires shape_word { IsTrue (is_shape_word state.now shape_word.now) }
    requires short { length shape_word.now ≤ 13 }
    ensures event { result.event ≡ EventSq1 }
    ensures total { IsTotal state.now shape_word.now result.turns }
    ensures within { IsWithinBounds result.turns }
    ensures valid { IsSq1 state.now }
{
    state.is_valid();
    let shaped = walked(StageLetters::OfShapes, shape_word, state);
    let squared = end_walk(StageLetters::Squarings, &shaped.end);
    let paired = stage_walk(
        tables.pairings(),
        pairings_index(&squared.end),
        &squared.end,
    );
    let homed = stage_walk(tables.square(), square_index(&paired.end), &paired.end);
    let last = end_walk(StageLetters::Quarters, &homed.end);
    let homing = joined(&homed.turns, &last.turns);
    let pairing = joined(&paired.turns, &homing);
    let squaring = joined(&squared.turns, &pairing);
    let shaping = joined(&shaped.turns, &squaring);
    joined(&equator_part(&last.end), &shaping)
}

/// The number of (6,0).
const HALF_TURN: u8 = 137;

/// The word that turns the equator alone, where it stands turned: (6,0) three times, each time behind a twist.
#[tactic(auto, unfolding(scr_combinatorics::specs::Play::count_in, scr_notation::specs::TurnNumbers::turn_at, scr_notation::specs::TurnNumbers::layer_turn_at))]
fn equator_part(state: &Sq1) -> NumberedWord
    ensures event { result.event ≡ EventSq1 }
    ensures turns { result.turns ≡ (if state.now.equator then equator_word else []) }
    ensures twists { twists_in result.turns ≤ 3 }
{
    if state.equator() {
        let twist = TWIST as u8;
        NumberedWord::of(
            Event::Sq1,
            &[twist, HALF_TURN, twist, HALF_TURN, twist, HALF_TURN],
        )
    } else {
        NumberedWord::new(Event::Sq1)
    }
}

/// Two words one after the other, tidied. Together they have at most 160 turns.
#[tactic(auto, using(crate::proofs::Cited::joined))]
fn joined(first: &NumberedWord, second: &NumberedWord) -> NumberedWord
    requires first { first.now.event ≡ EventSq1 }
    requires second { second.now.event ≡ EventSq1 }
    requires room { length first.now.turns + length second.now.turns ≤ 160 }
    ensures event { result.event ≡ EventSq1 }
    ensures word { result.turns ≡ tidy turn_merging (first.now.turns ++ second.now.turns) }
    ensures twists { twists_in result.turns ≤ twists_in first.now.turns + twists_in second.now.turns }
    ensures short { length result.turns ≤ 2 * twists_in result.turns + 1 }
{
    let mut both = NumberedWord::new(Event::Sq1);
    both.push_all(first.numbers());
    both.push_all(second.numbers());
    both.tidied()
}
