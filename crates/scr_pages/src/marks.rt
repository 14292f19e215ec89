//! The rounds of a sheet, as far as the pages of its groups tell of them.

ghost use Rattle.std.specs.Prelude.{◌≡◌, ◌≤◌, length, count_by, List, OnOk};
ghost use Rattle.scr_read.specs.Sheets.{SheetRound};
ghost use Rattle.scr_pages.specs.Shown.{is_event, shown_group};
ghost use Rattle.scr_pages.specs.Marked.{marks_of, with_group, IsInSheet};

use scr_layout::{Group, GroupPlace};
use scr_notation::Event;
use scr_read::SheetGroup;
use std::alloc::AllocError;

/// A round of a sheet: its event, and how many groups it has.
#[derive(Clone, Copy, Debug)]
pub(crate) struct RoundMark {
    pub(crate) event: Event,
    pub(crate) groups: u32,
}

/// Counts the next group of a sheet, with which its round begins or goes on.
pub(crate) fn mark_group(marks: &mut Vec<RoundMark>, group: &SheetGroup) -> Result<(), AllocError>
    ensures { OnOk result (marks.new.items ≡ with_group marks.old.items group.now) }
{
    marks.truncate(group.round() as usize);
    marks.push(RoundMark {
        event: group.event(),
        groups: group.number() + 1,
    })?;
    Ok(())
}

/// A group as its pages show it, in a sheet with these rounds.
pub(crate) fn shown<'g>(group: &'g SheetGroup, marks: &[RoundMark]) -> Group<'g>
    requires { (rounds : List SheetRound) × (marks.now ≡ marks_of rounds) × IsInSheet rounds group.now }
    ensures { (rounds : List SheetRound) → marks.now ≡ marks_of rounds → result ≡ shown_group rounds group.entry.now }
{
    let event = group.event();
    let index = group.round() as usize;
    let head = group.head();
    let place = GroupPlace {
        event,
        sheet_round: group.round() + 1,
        event_round: rounds_of_event(event, &marks[..index + 1]),
        event_rounds: rounds_of_event(event, marks),
        number: group.number(),
        groups: marks[index].groups,
        name: head.name,
    };
    Group::new(place, group.scrambles())
}

/// How many of these rounds, of which there are at most 256, are of an event.
fn rounds_of_event(event: Event, marks: &[RoundMark]) -> u32
    requires { length marks.now ≤ 256 }
    ensures value { result ≡ count_by (λ mark. is_event event mark.event) marks.now }
    ensures few { result ≤ length marks.now }
{
    marks
        .iter()
        .filter(|mark| event.id() == mark.event.id())
        .count() as u32
}
