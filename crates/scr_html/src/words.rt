//! The words of a scramble, in even rows.

ghost use Rattle.std.specs.Prelude.{◌≡◌, ◌<◌, [], ◌∷◌, All, IsTrue, OnOk, codes, length, string_bytes};
ghost use Rattle.arrayvec.specs.ArrayString.{array_string_len};
ghost use Rattle.scr_markup.specs.Tokens.{Adds, HasNoLineFeed};
ghost use Rattle.scr_notation.specs.Turns.{permits};
ghost use Rattle.scr_notation.specs.Spelling.{spelling};
ghost use Rattle.scr_html.specs.Pages.{told, word_marks};

use crate::tokens::{begin, end};
use arrayvec::ArrayString;
use scr_layout::{Place, places};
use scr_markup::leaf;
use scr_notation::{Event, Scramble, Turn, print, push_turn};
use scr_text::decimal;
use std::alloc::AllocError;

/// Adds the words of a scramble, each at its place.
pub(crate) fn write_words(page: &mut String, scramble: &Scramble) -> Result<(), AllocError>
    ensures { OnOk result
        (Adds (string_bytes page.old) (string_bytes page.new) (word_marks scramble.now.turns)) }
{
    let places = places(scramble);
    begin(page, "div")?;
    begin(page, "p")?;
    write_rows(
        page,
        scramble.event(),
        scramble.turns(),
        places.as_slice(),
        0,
    )?;
    end(page, "p")?;
    end(page, "div")?;
    Ok(())
}

/// Adds these turns of an event at their places, the first behind a row that has begun. It calls itself once for each.
fn write_rows(
    page: &mut String,
    event: Event,
    turns: &[Turn],
    places: &[Place],
    row: u8,
) -> Result<(), AllocError>
    requires places { length places.now ≡ length turns.now }
    requires permitted { All (λ turn. IsTrue (permits event turn)) turns.now }
    ensures { OnOk result (Adds (string_bytes page.old) (string_bytes page.new) (word_marks turns.now)) }
{
    match turns {
        [] => Ok(()),
        [turn, turns @ ..] => match places {
            [] => unreachable!(),
            [place, places @ ..] => {
                go_to_row(page, row, place.row)?;
                write_word(page, event, *turn, place.column)?;
                write_rows(page, event, turns, places, place.row)?;
                Ok(())
            }
        },
    }
}

/// Ends rows, and begins as many, from one on up to another.
fn go_to_row(page: &mut String, from: u8, to: u8) -> Result<(), AllocError>
    ensures { OnOk result (Adds (string_bytes page.old) (string_bytes page.new) []) }
{
    for _row in from..to {
        end(page, "p")?;
        begin(page, "p")?;
    }
    Ok(())
}

/// Adds a turn of an event in a row that has begun, so many letters from its begin.
fn write_word(page: &mut String, event: Event, turn: Turn, column: u8) -> Result<(), AllocError>
    requires { IsTrue (permits event turn) }
    ensures { OnOk result
        (Adds (string_bytes page.old) (string_bytes page.new) (told (codes "word") (spelling turn) ∷ [])) }
{
    let mut one = Scramble::new(event);
    push_turn(&mut one, turn);
    let text = print(&one);
    let left = left_of(column);
    leaf(
        page,
        "span",
        &[("class", "word"), ("style", left.as_str())],
        text.as_str(),
    )
}

/// The style of what stands so many letters from the begin of its row.
fn left_of(column: u8) -> ArrayString<24>
    ensures { HasNoLineFeed result.bytes }
{
    let mut style = ArrayString::new();
    style.push_str("left:");
    style.push_str(decimal(u32::from(column)).as_str());
    style.push_str("ch");
    style
}
