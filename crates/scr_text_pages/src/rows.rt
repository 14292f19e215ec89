//! The rows of a scramble's words.

ghost use Rattle.std.specs.Prelude.{◌≡◌, ◌++◌, ◌∷◌, [], true, All, IsTrue, OnOk, IfOk, List, ℕ, map, replicate, string_bytes, length};
ghost use Rattle.scr_notation.specs.declared.event.Event.{Event};
ghost use Rattle.scr_notation.specs.declared.turn.Turn.{Turn};
ghost use Rattle.scr_notation.specs.Turns.{permits};
ghost use Rattle.scr_notation.specs.Spelling.{spelling, text_of};
ghost use Rattle.scr_layout.specs.Shown.{IsPlainWord};
ghost use Rattle.scr_text_pages.specs.Adding.{AddsLines, AddsRow, GoesOn, words_read, is_label};

use crate::cutting::write_empty_lines;
use scr_layout::{Place, first_word, places};
use scr_notation::{Scramble, print};
use std::alloc::AllocError;

/// So many letters stand before the words of a row: a label, and two spaces.
const INDENT: usize = 5;

/// How far a row has come: its number, and so many letters.
#[derive(Clone, Copy)]
struct Reached {
    row: u8,
    wide: usize,
}

/// Adds the rows of a scramble behind its label.
pub(crate) fn write_rows(
    text: &mut String,
    label: &str,
    scramble: &Scramble,
) -> Result<(), AllocError>
    requires { is_label label.now ≡ true }
    ensures { OnOk result (AddsLines (words_read (label.now ∷ map spelling scramble.now.turns))
        (string_bytes text.old) (string_bytes text.new)) }
{
    let _turns = scramble.turns();
    let written = print(scramble);
    let places = places(scramble);
    write_label(text, label)?;
    let begun = Reached { row: 0, wide: 3 };
    write_words(text, written.as_str(), places.as_slice(), begun)?;
    end_row(text)?;
    Ok(())
}

/// Adds a label at the begin of a row, right-aligned.
fn write_label(text: &mut String, label: &str) -> Result<(), AllocError>
    requires { is_label label.now ≡ true }
    ensures { OnOk result (AddsRow (label.now ∷ []) (string_bytes text.old) (string_bytes text.new)) }
{
    if label.len() < 3 {
        text.push_str(" ")?;
    }
    text.push_str(label)?;
    Ok(())
}

/// Adds the words of a text at their places. It calls itself once for each.
fn write_words(
    text: &mut String,
    left: &str,
    places: &[Place],
    reached: Reached,
) -> Result<(), AllocError>
    ensures { (event : Event) (turns : List Turn) → All (λ turn. IsTrue (permits event turn)) turns
        → left.now ≡ text_of turns → length places.now ≡ length turns
        → OnOk result (GoesOn (map spelling turns) (string_bytes text.old) (string_bytes text.new)) }
{
    match places {
        [] => Ok(()),
        [place, rest @ ..] => {
            let (word, behind) = first_word(left);
            let wide = go_to_row(text, reached, place.row)?;
            let wide = write_word(text, wide, place.column, word)?;
            let row = place.row;
            write_words(text, behind, rest, Reached { row, wide })
        }
    }
}

/// Goes to a row, which may be another one, and gives how many letters stand there.
fn go_to_row(text: &mut String, reached: Reached, row: u8) -> Result<usize, AllocError>
    ensures { IfOk result (λ wide. GoesOn [] (string_bytes text.old) (string_bytes text.new)) }
{
    if row <= reached.row {
        return Ok(reached.wide);
    }
    end_row(text)?;
    write_empty_lines(text, u32::from(row - reached.row - 1))?;
    text.push_str("   ")?;
    Ok(3)
}

/// Ends a row.
fn end_row(text: &mut String) -> Result<(), AllocError>
    ensures { OnOk result ((words : List (List ℕ)) (before : List ℕ) → AddsRow words before (string_bytes text.old)
        → AddsLines (words_read words) before (string_bytes text.new)) }
{
    text.push_str("\n")?;
    Ok(())
}

/// Adds a word in a row that is so wide, so many letters from where its words begin but behind a space at least; and
/// gives how wide the row is then.
fn write_word(text: &mut String, wide: usize, column: u8, word: &str) -> Result<usize, AllocError>
    ensures { IsPlainWord word.now
        → IfOk result (λ wide. GoesOn (word.now ∷ []) (string_bytes text.old) (string_bytes text.new)) }
{
    let before = (INDENT + usize::from(column)).saturating_sub(wide).max(1);
    write_spaces(text, before)?;
    text.push_str(word)?;
    Ok(wide.saturating_add(before).saturating_add(word.len()))
}

/// Adds so many spaces.
fn write_spaces(text: &mut String, count: usize) -> Result<(), AllocError>
    ensures { OnOk result (string_bytes text.new ≡ string_bytes text.old ++ replicate count 32) }
{
    for _space in 0..count {
        text.push_str(" ")?;
    }
    Ok(())
}
