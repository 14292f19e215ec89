//! The letters of the stages, as words of turns.
ghost use Rattle.std.specs.Prelude.{◌≡◌, ◌<◌, ◌≤◌, ◌++◌, All, length, map};
ghost use Rattle.scr_notation.specs.declared.event.Event.TheVariants.{Sq1 as EventSq1};
ghost use Rattle.scr_notation.specs.TurnNumbers.{layer_turn_at};
ghost use Rattle.scr_sq1tables.specs.Letters.{first_word, layers_word, letter_of};
ghost use Rattle.scr_combinatorics.specs.Stages.{spelled};

use scr_notation::{Event, NumberedWord};

/// The letters of which stage.
#[derive(Clone, Copy, Debug, PartialEq, Eq)]
pub enum StageLetters {
    /// The 144 that lead to the square shape: a turn of the layers, and a twist.
    OfShapes,
    /// The 32 that lead to pairs, and leave a normal state normal.
    OfPairings,
    /// The 32 that lead home, and leave mates opposite to each other.
    OfHome,
    /// The four turns of which one makes a state normal.
    Squarings,
    /// The sixteen turns by quarters, of which one brings the layers home.
    Quarters,
}

/// The number of the twist among a Square-1's turns: it stands where the turn would that leaves both layers.
const TWIST: u8 = 65;

/// The turns of a word of at most 25 letters, whose numbers are below 144.
pub fn word_of(letters: StageLetters, numbers: &[u8]) -> NumberedWord
    requires numbers { All (λ number. number < 144) numbers.now }
    requires few { length numbers.now ≤ 25 }
    ensures { result ≡ record { event = EventSq1; turns = spelled (letter_of letters) numbers.now } }
{
    let mut word = NumberedWord::new(Event::Sq1);
    for place in 0..numbers.len() {
        let (first, later) = letter_numbers(letters, numbers[place]);
        if first != TWIST {
            word.push(first);
        }
        word.push_all(later);
    }
    word
}

/// The turns of the letter with a number, by their numbers: the turn of the layers with which it begins, or the twist
/// where it begins with none, and the turns behind that.
#[tactic(auto, using(crate::proofs::Cited::letter_numbers), unfolding(crate::specs::Stages::shape_letter, crate::specs::Stages::pairing_letter, crate::specs::Stages::home_letter, crate::specs::Stages::turn_word, crate::specs::Stages::quarter_word, crate::specs::Stages::squaring_letter, scr_notation::specs::TurnNumbers::layer_turn_at))]
fn letter_numbers(letters: StageLetters, number: u8) -> (u8, &'static [u8])
    requires { number < 144 }
    ensures turn { layers_word result.0 ≡ first_word letters number }
    ensures letter { letter_of letters number ≡ first_word letters number ++ map layer_turn_at result.1.now }
    ensures first { result.0 < 144 }
    ensures later { All (λ n. n < 144) result.1.now }
    ensures few { length result.1.now ≤ 5 }
{
    let top = 3 * (number % 16 / 4) + 5;
    let bottom = 3 * (number % 4) + 5;
    match letters {
        StageLetters::OfShapes => (number, &[TWIST]),
        StageLetters::OfPairings if number < 16 => {
            (12 * (top % 12) + (bottom - 1) % 12, &[TWIST, 66])
        }
        StageLetters::OfPairings => (12 * ((top + 1) % 12) + bottom % 12, &[TWIST, 53]),
        StageLetters::OfHome if number < 16 => {
            (12 * (top % 12) + bottom % 12, &[64, TWIST, 78, TWIST, 53])
        }
        StageLetters::OfHome => (12 * (top % 12) + bottom % 12, &[64, TWIST, 39, TWIST, 92]),
        StageLetters::Squarings => (12 * (5 - number % 2) + (5 + number / 2) % 12, &[]),
        StageLetters::Quarters => (12 * ((3 * (number / 4) + 5) % 12) + bottom % 12, &[]),
    }
}
