//! Printing a scramble.
ghost use Rattle.std.specs.Prelude.{◌≡◌};
ghost use Rattle.scr_notation.specs.Spelling.{text_of};

use crate::scramble::Scramble;
use crate::spelling::spelled;
use arrayvec::ArrayString;

/// The text of a scramble: its turns' spellings with one space between. It has at most 1,280 bytes.
#[tactic(auto, unfolding(crate::specs::Written::with_word))]
pub fn print(scramble: &Scramble) -> ArrayString<1280>
    ensures { result.bytes ≡ text_of scramble.now.turns }
{
    let event = scramble.event();
    let mut text = ArrayString::new();
    for turn in scramble.turns() {
        text.push_str(if text.is_empty() { "" } else { " " });
        text.push_str(spelled(event, *turn).as_str());
    }
    text
}
