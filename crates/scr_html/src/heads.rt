//! What stands above the scrambles of a page.

ghost use Rattle.std.specs.Prelude.{◌≡◌, ◌+◌, ◌<◌, [], ◌∷◌, OnOk, codes, length, string_bytes};
ghost use Rattle.scr_markup.specs.Tokens.{Adds, HasNoLineFeed};
ghost use Rattle.scr_layout.specs.Shown.{HasNoControl};
ghost use Rattle.scr_layout.specs.Texts.{title_of, round_line_of};
ghost use Rattle.scr_html.specs.Pages.{told, told_if_any, page_mark, page_mark_of, legend_marks, head_marks};

use crate::tokens::{begin, end, marked, plain, valid};
use arrayvec::ArrayString;
use scr_drawing::legend;
use scr_layout::{Group, held, round_line, title};
use scr_markup::{leaf, open};
use scr_text::decimal;
use std::alloc::AllocError;

/// Begins a page of a group, in a style: the competition's name, where it has one, the title, the line of the round,
/// how the puzzle is held, and with pictures what their marks mean.
pub(crate) fn write_heads(
    page: &mut String,
    group: &Group<'_>,
    competition: &str,
    style: &str,
    pictures: bool,
) -> Result<(), AllocError>
    requires competition { HasNoControl competition.now }
    requires style { HasNoLineFeed style.now }
    ensures { OnOk result (Adds (string_bytes page.old) (string_bytes page.new) (head_marks pictures competition.now group.now)) }
{
    begin_page(page, group, style)?;
    write_competition(page, competition)?;
    write_title(page, group)?;
    write_round(page, group)?;
    write_held(page, group)?;
    write_legend(page, group, pictures)?;
    Ok(())
}

fn write_title(page: &mut String, group: &Group<'_>) -> Result<(), AllocError>
    ensures { OnOk result
        (Adds (string_bytes page.old) (string_bytes page.new) (told (codes "title") (title_of group.now) ∷ [])) }
{
    valid(group);
    let text = title(group);
    marked(page, "h2", "title", text.as_str())
}

fn write_round(page: &mut String, group: &Group<'_>) -> Result<(), AllocError>
    ensures { OnOk result
        (Adds (string_bytes page.old) (string_bytes page.new) (told (codes "round") (round_line_of group.now) ∷ [])) }
{
    valid(group);
    let text = round_line(group);
    marked(page, "h3", "round", text.as_str())
}

fn begin_page(page: &mut String, group: &Group<'_>, style: &str) -> Result<(), AllocError>
    requires { HasNoLineFeed style.now }
    ensures { OnOk result
        (Adds (string_bytes page.old) (string_bytes page.new) (page_mark group.now ∷ [])) }
{
    let round = decimal(group.sheet_round());
    let letter = letter_of(group);
    open_page(page, round.as_str(), letter.as_str(), style)
}

/// Begins a page of a group with this letter, of the round with this number, in a style.
fn open_page<'a>(
    page: &mut String,
    round: &'a str,
    letter: &'a str,
    style: &'a str,
) -> Result<(), AllocError>
    requires round { HasNoLineFeed round.now }
    requires letter { HasNoLineFeed letter.now }
    requires style { HasNoLineFeed style.now }
    ensures { OnOk result
        (Adds (string_bytes page.old) (string_bytes page.new) (page_mark_of round.now letter.now ∷ [])) }
{
    open(
        page,
        "section",
        &[
            ("class", "page"),
            ("data-round", round),
            ("data-group", letter),
            ("style", style),
        ],
    )
}

/// The letter of a group.
fn letter_of(group: &Group<'_>) -> ArrayString<4>
    ensures { result.bytes ≡ (65 + group.now.number) ∷ [] }
{
    let mut letter = ArrayString::new();
    letter.push((b'A' + group.number() as u8) as char);
    letter
}

/// Adds the name of a competition, where it has one. Its letters may run either way.
fn write_competition(page: &mut String, competition: &str) -> Result<(), AllocError>
    requires { HasNoControl competition.now }
    ensures { OnOk result
        (Adds (string_bytes page.old) (string_bytes page.new) (told_if_any (codes "competition") competition.now)) }
{
    if competition.is_empty() {
        return Ok(());
    }
    leaf(
        page,
        "h1",
        &[("class", "competition"), ("dir", "auto")],
        competition,
    )
}

/// Adds how the puzzle is held.
fn write_held(page: &mut String, group: &Group<'_>) -> Result<(), AllocError>
    ensures { OnOk result (Adds (string_bytes page.old) (string_bytes page.new) []) }
{
    begin(page, "p")?;
    write_lines(page, held(group.event()))?;
    end(page, "p")?;
    Ok(())
}

/// Adds the lines of a text, one behind the other. It calls itself once for each.
fn write_lines(page: &mut String, text: &str) -> Result<(), AllocError>
    ensures { OnOk result (Adds (string_bytes page.old) (string_bytes page.new) []) }
{
    match text.split_once('\n') {
        None => plain(page, "span", text),
        Some((line, more)) => {
            plain(page, "span", line)?;
            write_lines(page, more)?;
            Ok(())
        }
    }
}

/// Adds what marks in pictures mean on paper without colours, where there are pictures with such marks.
fn write_legend(page: &mut String, group: &Group<'_>, pictures: bool) -> Result<(), AllocError>
    ensures { OnOk result
        (Adds (string_bytes page.old) (string_bytes page.new) (legend_marks pictures group.now.event)) }
{
    if !pictures {
        return Ok(());
    }
    let text = legend(group.event());
    if text.is_empty() {
        return Ok(());
    }
    marked(page, "aside", "legend", text)
}
