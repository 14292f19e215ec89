//! A competition's name in one line.

ghost use Rattle.std.specs.Prelude.{◌≡◌, ◌≤◌, ◌++◌, [], ◌∷◌, if◌then◌else◌, nat_le, IfOk, OnOk, string_bytes, chars, encode_utf8_all};
ghost use Rattle.std.specs.Char.{encode_utf8};
ghost use Rattle.scr_layout.specs.Shown.{HasNoControl};
ghost use Rattle.scr_layout.specs.Name.{is_blank, spaced, wide, width, first_wide, fitting};

use std::alloc::{AllocError, Global};

/// A name that fits so wide a line, which is at least 3: whole, or cut, with three full stops behind it. A letter of
/// three bytes and more counts as two wide. One space stands for spaces one after another and what could move the line:
/// controls, ends of lines and turns of the direction of writing; but none at the ends.
pub fn fitting_name(alloc: Global, name: &str, most: u32) -> Result<String, AllocError>
    requires { 3 ≤ most }
    ensures value { IfOk result (λ text. string_bytes text ≡ fitting most name.now) }
    ensures line { IfOk result (λ text. HasNoControl (string_bytes text)) }
{
    let shown = spaced_name(alloc, name)?;
    if is_within(shown.as_str(), most) {
        return Ok(shown);
    }
    let mut cut = first_letters(alloc, shown.as_str(), most - 3)?;
    cut.push_str("...")?;
    Ok(cut)
}

/// A name with one space for blanks one after another, and none at its ends.
fn spaced_name(alloc: Global, name: &str) -> Result<String, AllocError>
    ensures { IfOk result (λ text. string_bytes text ≡ encode_utf8_all (spaced (chars name.now))) }
{
    let mut text = String::new(alloc);
    let mut begun = false;
    let mut waits = false;
    for letter in name.chars() {
        if is_blank(letter) {
            waits = begun;
        } else {
            push_letter(&mut text, waits, letter)?;
            begun = true;
            waits = false;
        }
    }
    Ok(text)
}

/// Adds a letter, behind a space where one waits.
fn push_letter(text: &mut String, waits: bool, letter: char) -> Result<(), AllocError>
    ensures { OnOk result (string_bytes text.new
        ≡ string_bytes text.old ++ (if waits then 32 ∷ [] else []) ++ encode_utf8 letter) }
{
    if waits {
        text.push_str(" ")?;
    }
    text.push(letter)?;
    Ok(())
}

/// The first letters of a name that fit so wide a line.
fn first_letters(alloc: Global, name: &str, most: u32) -> Result<String, AllocError>
    ensures { IfOk result (λ text. string_bytes text ≡ encode_utf8_all (first_wide most (chars name.now))) }
{
    let mut text = String::new(alloc);
    let mut left = most;
    for letter in name.chars() {
        let wide = letter_width(letter);
        if left < wide {
            return Ok(text);
        }
        left -= wide;
        text.push(letter)?;
    }
    Ok(text)
}

/// Whether a letter is a space, or could move the line.
fn is_blank(letter: char) -> bool
    ensures { result ≡ is_blank letter }
{
    matches!(
        letter,
        '\u{0}'..='\u{20}'
            | '\u{7f}'..='\u{9f}'
            | '\u{2028}'..='\u{202e}'
            | '\u{2066}'..='\u{2069}'
    )
}

/// How wide a letter is on paper at the most, where the others are one wide.
fn letter_width(letter: char) -> u32
    ensures { result ≡ wide letter }
{
    if letter < '\u{800}' { 1 } else { 2 }
}

/// Whether a text is at most so wide.
fn is_within(text: &str, most: u32) -> bool
    ensures { result ≡ nat_le (width (chars text.now)) most }
{
    let mut left = most;
    for letter in text.chars() {
        let wide = letter_width(letter);
        if left < wide {
            return false;
        }
        left -= wide;
    }
    true
}
