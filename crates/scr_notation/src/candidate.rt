//! The one turn that a word can be the spelling of.
ghost use Rattle.std.specs.Prelude.{◌≡◌, ◌<◌, ◌≤◌, ◌==◌, IfSome, length, position};
ghost use Rattle.scr_notation.specs.Candidates.{byte_at, place_in, layers_candidate, quarters_candidate, face_candidate, axis_candidate, twelfths_candidate, layer_candidate, set_candidate, clock_candidate, wide_candidate, candidate};

use crate::event::Kind;

/// The number of the only turn of this kind that a word can be the spelling of.
#[tactic(auto, unfolding(crate::specs::Candidates::candidate))]
pub(crate) fn candidate(kind: Kind, word: &[u8]) -> u8
    ensures { result ≡ candidate kind word.now }
{
    match kind {
        Kind::Faces { .. } => face_candidate(word),
        Kind::Axes { .. } => axis_candidate(word),
        Kind::LayersAndTwist => layer_candidate(word),
        Kind::PinSets => clock_candidate(word),
        Kind::WideTurns => wide_candidate(word),
    }
}

/// Of turns of faces.
#[tactic(auto, unfolding(crate::specs::Candidates::face_candidate))]
fn face_candidate(word: &[u8]) -> u8
    ensures { result ≡ face_candidate word.now }
{
    let first = byte_at(word, 0);
    let second = byte_at(word, 1);
    let last = byte_at(word, word.len().saturating_sub(1));
    let letter = if first == b'3' { second } else { first };
    18 * layers_candidate(first, second)
        + (3 * place_in(b"URFDLB", letter) + quarters_candidate(last))
}

/// How many layers more than one are turned, by the first two bytes.
#[tactic(auto, unfolding(crate::specs::Candidates::layers_candidate))]
fn layers_candidate(first: u8, second: u8) -> u8
    ensures value { result ≡ layers_candidate first second }
    ensures few { result ≤ 2 }
{
    match (first, second) {
        (b'3', _) => 2,
        (_, b'w') => 1,
        _ => 0,
    }
}

/// How many quarters more than one, by the last byte.
#[tactic(auto, unfolding(crate::specs::Candidates::quarters_candidate))]
fn quarters_candidate(last: u8) -> u8
    ensures value { result ≡ quarters_candidate last }
    ensures few { result ≤ 2 }
{
    match last {
        b'\'' => 2,
        b'2' => 1,
        _ => 0,
    }
}

/// Of turns about axes and of tips.
#[tactic(auto, unfolding(crate::specs::Candidates::axis_candidate))]
fn axis_candidate(word: &[u8]) -> u8
    ensures { result ≡ axis_candidate word.now }
{
    let back = byte_at(word, 1) == b'\'';
    2 * place_in(b"ULRBulrb", byte_at(word, 0)) + back as u8
}

/// Of turns of a Square-1.
#[tactic(auto, unfolding(crate::specs::Candidates::layer_candidate))]
fn layer_candidate(word: &[u8]) -> u8
    ensures { result ≡ layer_candidate word.now }
{
    if byte_at(word, 0) == b'/' {
        return 65;
    }
    let bottom = if byte_at(word, 1) == b'-' { 4 } else { 3 };
    12 * twelfths_candidate(word, 1) + twelfths_candidate(word, bottom)
}

/// The twelfths that stand at a place, counted from -5.
#[tactic(auto, unfolding(crate::specs::Candidates::twelfths_candidate))]
fn twelfths_candidate(word: &[u8], place: usize) -> u8
    requires { place ≤ 4 }
    ensures value { result ≡ twelfths_candidate word.now place }
    ensures few { result ≤ 12 }
{
    if byte_at(word, place) == b'-' {
        5_u8.saturating_sub(place_in(b"0123456", byte_at(word, place + 1)))
    } else {
        5 + place_in(b"0123456", byte_at(word, place))
    }
}

/// Of turns of a Clock.
#[tactic(auto, unfolding(crate::specs::Candidates::clock_candidate))]
fn clock_candidate(word: &[u8]) -> u8
    ensures { result ≡ clock_candidate word.now }
{
    if byte_at(word, 0) == b'y' {
        return 108;
    }
    let digit = place_in(b"0123456", byte_at(word, word.len().saturating_sub(2)));
    let minus = byte_at(word, word.len().saturating_sub(1)) == b'-';
    let hours = if minus { 12 - digit } else { digit };
    12 * set_candidate(byte_at(word, 0), byte_at(word, 1)) + hours
}

/// The place of a pin set among the nine, by the first two letters of its name.
#[tactic(auto, unfolding(crate::specs::Candidates::set_candidate))]
fn set_candidate(first: u8, second: u8) -> u8
    ensures value { result ≡ set_candidate first second }
    ensures few { result ≤ 8 }
{
    match (first, second) {
        (_, b'R') => place_in(b"UD", first),
        (b'A', _) => 8,
        (_, b'L') => 3 - place_in(b"UD", first),
        _ => 4 + place_in(b"URDL", first),
    }
}

/// Of turns of a Megaminx.
#[tactic(auto, unfolding(crate::specs::Candidates::wide_candidate))]
fn wide_candidate(word: &[u8]) -> u8
    ensures { result ≡ wide_candidate word.now }
{
    let minus = match byte_at(word, 1) {
        b'\'' | b'-' => 1,
        _ => 0,
    };
    2 * place_in(b"RDU", byte_at(word, 0)) + minus
}

/// The byte at a place of a word; 0 behind its end.
fn byte_at(word: &[u8], place: usize) -> u8
    ensures { result ≡ byte_at word.now place }
{
    word.get(place).copied().unwrap_or(0)
}

/// The place of a letter; how many letters there are where it isn't among them.
fn place_in(letters: &[u8], letter: u8) -> u8
    requires { length letters.now ≤ 8 }
    ensures value { result ≡ place_in letters.now letter }
    ensures few { result ≤ length letters.now }
{
    place_of(letters, letter).unwrap_or(letters.len()) as u8
}

/// The place of a letter, if it is among these.
fn place_of(letters: &[u8], letter: u8) -> Option<usize>
    ensures place { result ≡ position (λ l. l == letter) letters.now }
    ensures within { IfSome result (λ place. place < length letters.now) }
{
    letters.iter().position(|l| *l == letter)
}
