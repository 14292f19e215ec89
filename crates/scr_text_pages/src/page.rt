//! A page of a group.

ghost use Rattle.std.specs.Prelude.{◌+◌, ◌<◌, ◌≤◌, OnOk, string_bytes};
ghost use Rattle.scr_notation.specs.Event.{per_group_of};
ghost use Rattle.scr_layout.specs.Shown.{HasNoControl};
ghost use Rattle.scr_text_pages.specs.Adding.{AddsLines, AddsSlots, slots_between, slots_read};

use crate::heads::{PageNumber, write_heads};
use crate::slot::{Spacing, write_slot};
use scr_layout::Group;
use std::alloc::AllocError;

/// Adds a page with the scrambles of a group from a place on to the end of the spacing.
pub(crate) fn write_page(
    text: &mut String,
    group: &Group<'_>,
    competition: &str,
    page: PageNumber,
    from: u32,
    spacing: Spacing,
) -> Result<(), AllocError>
    requires competition { HasNoControl competition.now }
    requires from { from ≤ spacing.end }
    requires end { spacing.end ≤ per_group_of group.now.event + 2 }
    ensures { OnOk result (AddsSlots competition.now (slots_between spacing.pictures from spacing.end group.now)
        (string_bytes text.old) (string_bytes text.new)) }
{
    write_heads(text, group, competition, page)?;
    write_slots(text, group, from, spacing)?;
    Ok(())
}

/// Adds these scrambles.
fn write_slots(
    text: &mut String,
    group: &Group<'_>,
    from: u32,
    spacing: Spacing,
) -> Result<(), AllocError>
    requires from { from ≤ spacing.end }
    requires end { spacing.end ≤ per_group_of group.now.event + 2 }
    ensures { OnOk result (AddsLines (slots_read (slots_between spacing.pictures from spacing.end group.now))
        (string_bytes text.old) (string_bytes text.new)) }
{
    for place in from..spacing.end {
        write_slot(text, group, place, spacing)?;
    }
    Ok(())
}
