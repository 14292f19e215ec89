//! The writing of pages, a group at a time.

ghost use Rattle.std.specs.Prelude.{◌≡◌, ◌≤◌, All, List, map, take, length};
ghost use Rattle.scr_outside.specs.Change.{change_of};
ghost use Rattle.scr_layout.specs.Shown.{HasNoControl};
ghost use Rattle.scr_read.specs.Sheets.{SheetRound};
ghost use Rattle.scr_pages.specs.Shown.{shown_group};
ghost use Rattle.scr_pages.specs.Marked.{marks_of, IsInSheet};
ghost use Rattle.scr_pages.specs.Writing.{look_of, WritesPages};

use crate::fault::Fault;
use crate::look::{Look, begin_pages, end_pages, group_pages};
use crate::marks::{RoundMark, shown};
use scr_outside::{Sink, write_all};
use scr_read::SheetGroups;
use std::alloc::Global;

/// Writes the pages of the first so many of a sheet's groups, each group's in one piece. The text of one is in memory
/// at a time.
pub(crate) fn write_groups<O: Sink>(
    alloc: Global,
    look: &Look<'_>,
    marks: &[RoundMark],
    groups: &mut SheetGroups<'_>,
    count: u32,
    out: &mut O,
) -> Result<(), Fault>
    requires name { HasNoControl look.now.name.now }
    requires count { count ≤ length groups.old }
    requires sheet { (rounds : List SheetRound) × (marks.now ≡ marks_of rounds) × All (IsInSheet rounds) groups.old }
    ensures { (rounds : List SheetRound) → marks.now ≡ marks_of rounds
        → WritesPages (look_of look.now) (map (shown_group rounds) (take count groups.old))
        (change_of O.held O.faults out.old out.new) result }
{
    let mut page = String::new(alloc);
    begin_pages(&mut page, look)?;
    write_all(out, page.as_str().as_bytes())?;
    'groups: for place in 0..count {
        let Some(group) = groups.next() else {
            unreachable!("so many groups are left");
        };
        page.clear();
        group_pages(&mut page, look, place == 0, &shown(&group, marks))?;
        write_all(out, page.as_str().as_bytes())?;
    }
    page.clear();
    end_pages(&mut page, look)?;
    write_all(out, page.as_str().as_bytes())?;
    Ok(())
}
