//! The letters of pictures, by their numbers.

use crate::path::PARTS;
use arrayvec::ArrayVec;

/// The numbers of a picture's letters.
pub(crate) type Letters = ArrayVec<u8, PARTS>;

/// The names of the faces of a Megaminx.
pub(crate) static MEGAMINX_NAMES: [&str; 12] = [
    "U", "F", "R", "BR", "BL", "L", "D", "B", "DBR", "DR", "DL", "DBL",
];

/// The hours of a Clock.
pub(crate) static HOUR_NAMES: [&str; 12] = [
    "12", "1", "2", "3", "4", "5", "6", "7", "8", "9", "10", "11",
];

/// Letters of a byte each, by their places in an alphabet.
pub(crate) fn letters_of(text: &str, alphabet: &[u8]) -> Letters {
    let mut letters = ArrayVec::new();
    for byte in text.as_bytes() {
        add(&mut letters, alphabet.iter().position(|b| *b == *byte));
    }
    letters
}

/// Letters with a space between two, by their places in a list of names.
pub(crate) fn words_of(text: &str, names: &[&str]) -> Letters {
    let mut letters = ArrayVec::new();
    for word in text.as_bytes().split(|byte| *byte == b' ') {
        add(
            &mut letters,
            names.iter().position(|name| name.as_bytes() == word),
        );
    }
    letters
}

/// Adds a letter, while there is room; 255 is none.
fn add(letters: &mut Letters, place: Option<usize>) {
    if !letters.is_full() {
        letters.push(place.map_or(255, |place| place.min(255) as u8));
    }
}
