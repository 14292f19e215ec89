//! Reading the text of a scramble.
ghost use Rattle.std.specs.Prelude.{◌≡◌, ◌<◌, map, Ok, IsTrue, IsNone, IfSome, IfOk, IfErr};
ghost use Rattle.scr_notation.specs.Turns.{permits};
ghost use Rattle.scr_notation.specs.Spelling.{spelling, text_of};
ghost use Rattle.scr_notation.specs.Written.{Written, IsWritten};
ghost use Rattle.scr_notation.specs.Reading.{IsSpelling, place_after, IsFault, IsFirstFault, IsParsed, IsReadAs};

use crate::candidate::candidate;
use crate::event::Event;
use crate::scramble::{MOST_TURNS, Scramble};
use crate::spelling::spelled;
use crate::turn::{Turn, turn_at, turn_count};

/// What is wrong with the first word at fault, and the byte at which that word begins.
#[derive(Clone, Copy, Debug, PartialEq, Eq)]
pub enum NotationFault {
    /// The word is no spelling of a turn of the event.
    Spelling { place: u32 },
    /// The word is the 161st.
    TooLong { place: u32 },
}

/// The scramble of this event whose text this is. The text is empty, or words with one space between, each the spelling
/// of a turn of the event. Any other text is refused at its first word at fault: a word among the first 160 that is no
/// spelling, or the 161st.
pub fn parse(event: Event, text: &str) -> Result<Scramble, NotationFault>
    ensures read { IfOk result (λ s. (s.event ≡ event) × (text_of s.turns ≡ text.now)) }
    ensures valid { IfOk result IsWritten }
    ensures fault { IfErr result (IsFirstFault event text.now) }
    ensures each_text { (s : Written) → IsWritten s → s.event ≡ event → text_of s.turns ≡ text.now → result ≡ Ok s }
{
    let mut scramble = Scramble::new(event);
    if text.is_empty() {
        return Ok(scramble);
    }
    let mut place = 0;
    for word in text.split(' ') {
        place = read_next(&mut scramble, place, word)?;
    }
    Ok(scramble)
}

/// The scramble of this event whose text these bytes are. `None` comes exactly where they are the text of none.
pub fn parse_bytes(event: Event, text: &[u8]) -> Option<Scramble>
    ensures { IsParsed event text.now result }
{
    match str::from_utf8(text) {
        Ok(text) => parse(event, text).ok(),
        Err(_) => None,
    }
}

/// Reads one more word, which begins at byte `place`, as a turn of the scramble. It answers the byte behind the word
/// and the space that follows.
fn read_next(scramble: &mut Scramble, place: u32, word: &str) -> Result<u32, NotationFault>
    requires { place ≡ place_after (map spelling scramble.old.turns) }
    ensures valid { IsWritten scramble.old }
    ensures read { IfOk result (λ behind. IsReadAs scramble.old word.now scramble.new behind) }
    ensures fault { IfErr result (IsFault scramble.old.event (map spelling scramble.old.turns) word.now) }
{
    let event = scramble.event();
    if scramble.turns().len() == MOST_TURNS {
        return Err(NotationFault::TooLong { place });
    }
    let Some(turn) = read_turn(event, word) else {
        return Err(NotationFault::Spelling { place });
    };
    scramble.push(turn);
    Ok(place + word.len() as u32 + 1)
}

/// The turn of this event that is spelled so: the one that the word can be, if it is.
fn read_turn(event: Event, word: &str) -> Option<Turn>
    ensures found { IfSome result (λ turn. IsTrue (permits event turn) × (spelling turn ≡ word.now)) }
    ensures none { IsNone result → IsSpelling event word.now → ⊥ }
{
    let kind = event.row().kind;
    let number = candidate(kind, word.as_bytes());
    if number >= turn_count(kind) {
        return None;
    }
    let turn = turn_at(kind, number);
    if spelled(event, turn).as_str() == word {
        Some(turn)
    } else {
        None
    }
}
