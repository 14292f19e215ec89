//! A scramble on a page.

ghost use Rattle.std.specs.Prelude.{◌+◌, ◌<◌, ◌≤◌, take, drop, OnOk, string_bytes};
ghost use Rattle.scr_notation.specs.Event.{per_group_of};
ghost use Rattle.scr_text_pages.specs.Nets.{nets};
ghost use Rattle.scr_text_pages.specs.Slots.{slots_of_group};
ghost use Rattle.scr_text_pages.specs.Adding.{AddsLines, slots_read, words_read};

use crate::cutting::{write_cut, write_empty_lines};
use crate::nets::{side_of, write_net};
use crate::rows::write_rows;
use scr_layout::{Group, label, places, row_count};
use scr_notation::Scramble;
use std::alloc::AllocError;

/// How the scrambles of a page stand: so many lines are free for each, behind the last one none is left free, and with
/// pictures cubes have nets.
#[derive(Clone, Copy)]
pub(crate) struct Spacing {
    pub(crate) space: u32,
    pub(crate) end: u32,
    pub(crate) pictures: bool,
}

/// Adds the scramble at a place of a group, from 0, below a line to cut at.
pub(crate) fn write_slot(
    text: &mut String,
    group: &Group<'_>,
    place: u32,
    spacing: Spacing,
) -> Result<(), AllocError>
    requires { place < per_group_of group.now.event + 2 }
    ensures { OnOk result (AddsLines (slots_read (take 1 (drop place (slots_of_group spacing.pictures group.now))))
        (string_bytes text.old) (string_bytes text.new)) }
{
    let scramble = &group.scrambles()[place as usize];
    let label = label(group.event(), place);
    write_cut(text, group)?;
    write_empty_lines(text, spacing.space / 2)?;
    write_rows(text, label, scramble)?;
    write_behind(text, scramble, place, spacing)?;
    Ok(())
}

/// Adds what stands behind the rows of a scramble: its net, and the lines that are left free.
fn write_behind(
    text: &mut String,
    scramble: &Scramble,
    place: u32,
    spacing: Spacing,
) -> Result<(), AllocError>
    ensures { OnOk result
        (AddsLines (words_read (nets spacing.pictures scramble.now)) (string_bytes text.old) (string_bytes text.new)) }
{
    if spacing.pictures {
        write_net(text, scramble)?;
    }
    let free = if place < spacing.end.saturating_sub(1) {
        spacing.space - spacing.space / 2
    } else {
        0
    };
    write_empty_lines(text, free)?;
    Ok(())
}

/// How many lines a scramble takes at least.
pub(crate) fn height(scramble: &Scramble, pictures: bool) -> u32
    ensures { result ≤ 300 }
{
    let rows = 1 + row_count(places(scramble).as_slice());
    match side_of(scramble.event()) {
        Some(side) if pictures => rows + 3 * side,
        _ => rows,
    }
}
