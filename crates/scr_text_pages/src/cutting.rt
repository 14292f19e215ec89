//! Lines to cut at, and lines without words.

ghost use Rattle.std.specs.Prelude.{◌≡◌, ◌⊎◌, [], OnOk, codes, string_bytes};
ghost use Rattle.scr_text_pages.specs.Slots.{cut_text_of};
ghost use Rattle.scr_text_pages.specs.Adding.{AddsCut, AddsDashes, AddsLines, words_read};

use scr_layout::{Group, tag};
use std::alloc::AllocError;

/// So many letters wide a line is at most.
pub(crate) const WIDTH: usize = 72;

/// Adds a line to cut or fold at: hyphens, and behind them what the scramble below is of.
pub(crate) fn write_cut(text: &mut String, group: &Group<'_>) -> Result<(), AllocError>
    ensures { OnOk result (AddsCut (cut_text_of group.now) (string_bytes text.old) (string_bytes text.new)) }
{
    let name = group.event().name();
    let tag = tag(group);
    let behind = name.len().saturating_add(tag.len()).saturating_add(4);
    write_dashes(text, WIDTH.saturating_sub(behind))?;
    text.push_str("  ")?;
    text.push_str(name)?;
    text.push_str(", ")?;
    text.push_str(tag.as_str())?;
    text.push_str("\n")?;
    Ok(())
}

/// Adds so many hyphens and spaces by turns, and one hyphen at least.
fn write_dashes(text: &mut String, wide: usize) -> Result<(), AllocError>
    ensures { OnOk result (AddsDashes (string_bytes text.old) (string_bytes text.new)) }
{
    text.push_str("-")?;
    for place in 1..wide {
        text.push_str(dash(place))?;
    }
    Ok(())
}

/// A hyphen or a space, by turns.
fn dash(place: usize) -> &'static str
    ensures { (result.now ≡ codes "-") ⊎ (result.now ≡ codes " ") }
{
    if place % 2 == 0 { "-" } else { " " }
}

/// Adds so many empty lines.
pub(crate) fn write_empty_lines(text: &mut String, count: u32) -> Result<(), AllocError>
    ensures { OnOk result (AddsLines (words_read []) (string_bytes text.old) (string_bytes text.new)) }
{
    for _line in 0..count {
        text.push_str("\n")?;
    }
    Ok(())
}
