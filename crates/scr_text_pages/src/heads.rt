//! The heads of a page.

ghost use Rattle.std.specs.Prelude.{◌≡◌, ◌∷◌, ◌++◌, [], if◌then◌else◌, OnOk, string_bytes};
ghost use Rattle.scr_text.specs.Lines.{has_bytes};
ghost use Rattle.scr_layout.specs.Shown.{HasNoControl};
ghost use Rattle.scr_text_pages.specs.Adding.{AddsHead, AddsPlain};

use scr_layout::{Group, held, round_line, title};
use scr_text::decimal;
use std::alloc::AllocError;

/// Which of a group's pages a page is, from 1, and how many there are.
#[derive(Clone, Copy)]
pub(crate) struct PageNumber {
    pub(crate) number: u32,
    pub(crate) count: u32,
}

/// Adds the heads: the competition's name, where it is not empty, the title, the line of the round, and how the puzzle
/// is held.
pub(crate) fn write_heads(
    text: &mut String,
    group: &Group<'_>,
    competition: &str,
    page: PageNumber,
) -> Result<(), AllocError>
    requires { HasNoControl competition.now }
    ensures { OnOk result (AddsHead competition.now (string_bytes text.old) (string_bytes text.new)) }
{
    write_competition(text, competition)?;
    text.push_str(title(group).as_str())?;
    write_number(text, page)?;
    text.push_str("\n")?;
    write_line(text, round_line(group).as_str())?;
    write_line(text, held(group.event()))?;
    Ok(())
}

/// Adds the competition's name, where it is not empty.
fn write_competition(text: &mut String, competition: &str) -> Result<(), AllocError>
    ensures { OnOk result (string_bytes text.new ≡ string_bytes text.old
        ++ (if has_bytes competition.now then competition.now ++ 10 ∷ [] else [])) }
{
    if !competition.is_empty() {
        write_line(text, competition)?;
    }
    Ok(())
}

/// Adds which page this is, where there are more.
fn write_number(text: &mut String, page: PageNumber) -> Result<(), AllocError>
    ensures { OnOk result (AddsPlain (string_bytes text.old) (string_bytes text.new)) }
{
    if page.count <= 1 {
        return Ok(());
    }
    text.push_str(", page ")?;
    text.push_str(decimal(page.number).as_str())?;
    text.push_str(" of ")?;
    text.push_str(decimal(page.count).as_str())?;
    Ok(())
}

/// Adds a line, or lines with a line feed between.
fn write_line(text: &mut String, line: &str) -> Result<(), AllocError>
    ensures { OnOk result (string_bytes text.new ≡ string_bytes text.old ++ (line.now ++ 10 ∷ [])) }
{
    text.push_str(line)?;
    text.push_str("\n")?;
    Ok(())
}
