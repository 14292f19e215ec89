//! The program, by what it does on words.

ghost use Rattle.std.specs.Prelude.{◌≡◌, ◌≤◌, drop, length, map};
ghost use Rattle.scr_outside.specs.Change.{change_of, intake_of};
ghost use Rattle.scr_host.specs.Input.{most_bytes, EndsReading};
ghost use Rattle.scr_pages.specs.Words.{asked_of};
ghost use Rattle.scr_pages.specs.Checked.{IsChecked};
ghost use Rattle.scr_pages.specs.Outcome.{EndsAsked, Prints, PrintsSheet};

use crate::asked::{Asked, asked_for};
use crate::checking::{Checked, checked_sheet, sheet_groups};
use crate::fault::{Fault, PageFault};
use crate::look::Look;
use crate::writing::write_groups;
use scr_host::{Program, read_input};
use scr_layout::fitting_name;
use scr_outside::{Sink, Source};
use scr_read::SheetGroups;
use std::alloc::Global;

/// So many letters wide a competition's name is at most.
const WIDTH: u32 = 72;

/// `scramble-pages`, as a program: it reads a sheet, and writes its pages. It tells nothing where all went well.
pub struct Pages;

impl Program for Pages {
    ghost use Rattle.scr_pages.specs.Outcome.{Ends};

    type Own = PageFault;

    ghost Ends = { Ends };

    fn perform<'w, S: Source, O: Sink>(
        &self,
        alloc: Global,
        words: &'w [&'w str],
        source: &mut S,
        out: &mut O,
    ) -> Result<String, Fault> {
        print_asked(alloc, words, source, out)?;
        Ok(String::new(alloc))
    }
}

/// Does what the words ask for.
fn print_asked<S: Source, O: Sink>(
    alloc: Global,
    words: &[&str],
    source: &mut S,
    out: &mut O,
) -> Result<(), Fault>
    ensures { EndsAsked (map (λ word. word.now) words.now)
        (intake_of S.left S.faults S.ends source.old source.new)
        (change_of O.held O.faults out.old out.new) result }
{
    match asked_for(alloc, words) {
        Ok(asked) => print_input(alloc, &asked, source, out),
        Err(why) => Err(why),
    }
}

/// Reads a sheet, and writes its pages.
fn print_input<S: Source, O: Sink>(
    alloc: Global,
    asked: &Asked<'_>,
    source: &mut S,
    out: &mut O,
) -> Result<(), Fault>
    ensures { EndsReading (Prints (asked_of asked.now))
        (intake_of S.left S.faults S.ends source.old source.new)
        (change_of O.held O.faults out.old out.new) result }
{
    let bytes = read_input(alloc, source)?;
    print_bytes(alloc, asked, &bytes, out)
}

/// Writes the pages of a sheet, whose bytes these are.
fn print_bytes<O: Sink>(
    alloc: Global,
    asked: &Asked<'_>,
    bytes: &[u8],
    out: &mut O,
) -> Result<(), Fault>
    requires { length bytes.now ≤ most_bytes }
    ensures { Prints (asked_of asked.now) bytes.now (change_of O.held O.faults out.old out.new) result }
{
    let checked = checked_sheet(alloc, asked, bytes)?;
    print_checked(alloc, asked, bytes, &checked, out)
}

/// The same of a sheet that was found to have pages.
fn print_checked<O: Sink>(
    alloc: Global,
    asked: &Asked<'_>,
    bytes: &[u8],
    checked: &Checked,
    out: &mut O,
) -> Result<(), Fault>
    requires few { length bytes.now ≤ most_bytes }
    requires checked { IsChecked (asked_of asked.now) bytes.now checked.now }
    ensures { Prints (asked_of asked.now) bytes.now (change_of O.held O.faults out.old out.new) result }
{
    let name = fitting_name(alloc, asked.name, WIDTH)?;
    let look = Look {
        html: asked.html,
        pictures: asked.has_pictures(),
        name: name.as_str(),
    };
    let mut groups = sheet_groups(bytes)?;
    skip(&mut groups, checked.wanted.first);
    write_groups(
        alloc,
        &look,
        &checked.survey.marks,
        &mut groups,
        checked.wanted.count,
        out,
    )
}

/// Passes over so many groups.
fn skip(groups: &mut SheetGroups<'_>, count: u32)
    ensures { groups.new ≡ drop count groups.old }
{
    for _group in 0..count {
        let _passed = groups.next();
    }
}
