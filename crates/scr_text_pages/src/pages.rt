//! The pages of a group.

ghost use Rattle.std.specs.Prelude.{◌≡◌, ◌+◌, ◌<◌, ◌≤◌, OnOk, string_bytes};
ghost use Rattle.scr_notation.specs.Event.{per_group_of};
ghost use Rattle.scr_layout.specs.Shown.{HasNoControl};
ghost use Rattle.scr_text_pages.specs.Adding.{AddsPages};

use crate::heads::PageNumber;
use crate::page::write_page;
use crate::slot::{Spacing, height};
use scr_layout::{Group, held};
use std::alloc::AllocError;

/// So many lines stand on a page.
const LINES: u32 = 64;

/// At most so many lines are left free at a scramble.
const MOST_SPACE: u32 = 4;

/// What of a group stands on a page: its scrambles before a place, and so many lines with its heads.
#[derive(Clone, Copy)]
struct Filled {
    end: u32,
    lines: u32,
}

/// Adds the pages of a group, with a form feed between two. Above each stands a competition's name, where it is not
/// empty; with pictures a cube's net stands below each scramble.
pub fn write_pages(
    text: &mut String,
    group: &Group<'_>,
    competition: &str,
    pictures: bool,
) -> Result<(), AllocError>
    requires { HasNoControl competition.now }
    ensures { OnOk result
        (AddsPages pictures competition.now group.now (string_bytes text.old) (string_bytes text.new)) }
{
    let heads = head_lines(group, competition);
    let count = page_count(group, heads, pictures);
    let slots = slot_count(group);
    let mut from = 0;
    let mut number = 0;
    'pages: while from < slots {
        if from > 0 {
            text.push_str("\u{c}")?;
        }
        number += 1;
        let filled = filled_page(group, heads, pictures, from);
        let free = LINES.saturating_sub(filled.lines) / (filled.end - from);
        let spacing = Spacing {
            space: free.min(MOST_SPACE),
            end: filled.end,
            pictures,
        };
        write_page(
            text,
            group,
            competition,
            PageNumber { number, count },
            from,
            spacing,
        )?;
        from = filled.end;
    }
    Ok(())
}

/// How many scrambles a group has, with the extra ones.
fn slot_count(group: &Group<'_>) -> u32
    ensures value { result ≡ per_group_of group.now.event + 2 }
    ensures few { result ≤ 7 }
{
    u32::from(group.event().per_group()) + 2
}

/// How many lines the heads of a page take.
fn head_lines(group: &Group<'_>, competition: &str) -> u32
    ensures { result ≤ 200 }
{
    let feeds = held(group.event())
        .as_bytes()
        .iter()
        .filter(|byte| **byte == b'\n')
        .count();
    let name = if competition.is_empty() { 0 } else { 1 };
    name + 3 + feeds.min(100) as u32
}

/// How many pages a group has.
fn page_count(group: &Group<'_>, heads: u32, pictures: bool) -> u32
    requires { heads ≤ 200 }
{
    let slots = slot_count(group);
    let mut from = 0;
    let mut count = 0;
    'pages: while from < slots {
        from = filled_page(group, heads, pictures, from).end;
        count += 1;
    }
    count
}

/// What stands on the page that begins with a place of a group: as many scrambles as there are lines for, one at least.
fn filled_page(group: &Group<'_>, heads: u32, pictures: bool, from: u32) -> Filled
    requires heads { heads ≤ 200 }
    requires from { from < per_group_of group.now.event + 2 }
    ensures more { from < result.end }
    ensures within { result.end ≤ per_group_of group.now.event + 2 }
{
    let scrambles = group.scrambles();
    let mut end = from + 1;
    let mut lines = heads + height(&scrambles[from as usize], pictures);
    'scrambles: while (end as usize) < scrambles.len() {
        let more = lines + height(&scrambles[end as usize], pictures);
        if more > LINES {
            break;
        }
        end += 1;
        lines = more;
    }
    Filled { end, lines }
}
