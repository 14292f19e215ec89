//! Whether a sheet has pages, before any is written.

ghost use Rattle.std.specs.Prelude.{◌≡◌, ◌≤◌, List, length, OnOk, IfOk, IfErr};
ghost use Rattle.scr_read.specs.Sheets.{SheetRound, IsSheet};
ghost use Rattle.scr_read.specs.Groups.{groups_of};
ghost use Rattle.scr_read.specs.Faults.{IsFirstFault};
ghost use Rattle.scr_read.specs.declared.fault.SheetFault.{SheetFault};
ghost use Rattle.scr_host.specs.declared.fault.Fault.TheVariants.{Own};
ghost use Rattle.scr_host.specs.Input.{most_bytes};
ghost use Rattle.scr_pages.specs.declared.fault.PageFault.TheVariants.{NoGroup, Sheet};
ghost use Rattle.scr_pages.specs.Words.{asked_of};
ghost use Rattle.scr_pages.specs.Slots.{slots_of, IsNear};
ghost use Rattle.scr_pages.specs.Refusals.{NoneIs, HasGroup};
ghost use Rattle.scr_pages.specs.Outcome.{Refuses};
ghost use Rattle.scr_pages.specs.Checked.{IsSurveyed, RefusesSurvey, RefusesLook, IsWanted, IsChecked};

use crate::asked::Asked;
use crate::fault::{Fault, PageFault};
use crate::survey::{Survey, look, surveyed};
use scr_read::{SheetGroups, laws};
use std::alloc::Global;

/// Which of a sheet's groups are wanted: so many, behind so many.
#[derive(Clone, Copy, Debug)]
pub(crate) struct Wanted {
    pub(crate) first: u32,
    pub(crate) count: u32,
}

/// A sheet that has pages: its rounds, and the groups that are wanted.
#[derive(Drop)]
pub(crate) struct Checked {
    pub(crate) survey: Survey,
    pub(crate) wanted: Wanted,
}

/// Goes over a sheet, and refuses it where it has no pages as they are asked for.
pub(crate) fn checked_sheet(
    alloc: Global,
    asked: &Asked<'_>,
    bytes: &[u8],
) -> Result<Checked, Fault>
    requires { length bytes.now ≤ most_bytes }
    ensures ok { IfOk result (IsChecked (asked_of asked.now) bytes.now) }
    ensures err { IfErr result (Refuses (asked_of asked.now) bytes.now) }
{
    let survey = survey_of(alloc, bytes)?;
    let wanted = wanted_groups(asked.group, survey.groups)?;
    if asked.regulations {
        look_at(alloc, bytes)?;
    }
    Ok(Checked { survey, wanted })
}

/// The rounds of a sheet in which no turn is barred.
fn survey_of(alloc: Global, bytes: &[u8]) -> Result<Survey, Fault>
    requires { length bytes.now ≤ most_bytes }
    ensures ok { IfOk result (IsSurveyed bytes.now) }
    ensures err { IfErr result (RefusesSurvey bytes.now) }
{
    let mut groups = sheet_groups(bytes)?;
    surveyed(alloc, &mut groups)
}

/// All groups of a sheet, which is that of one list of rounds alone.
pub(crate) fn sheet_groups(bytes: &[u8]) -> Result<SheetGroups<'_>, Fault>
    requires { length bytes.now ≤ most_bytes }
    ensures groups { IfOk result (λ groups. (rounds : List SheetRound) × IsSheet bytes.now rounds
        × (groups ≡ groups_of rounds)) }
    ensures one { (rounds others : List SheetRound) → IsSheet bytes.now rounds → IsSheet bytes.now others → rounds ≡ others }
    ensures fault { IfErr result (λ why. (cause : SheetFault) × (why ≡ Own (Sheet cause)) × IsFirstFault bytes.now cause) }
{
    laws::sheets_are_read_back();
    match SheetGroups::of(bytes) {
        Ok(groups) => Ok(groups),
        Err(why) => Err(Fault::Own(PageFault::Sheet(why))),
    }
}

/// Which of so many groups are wanted: all, or the one with this number, from 1.
fn wanted_groups(group: Option<u32>, groups: u32) -> Result<Wanted, Fault>
    ensures ok { IfOk result (IsWanted group groups) }
    ensures err { IfErr result (λ why. (why ≡ Own (NoGroup groups)) × (HasGroup group groups → ⊥)) }
{
    match group {
        None => Ok(Wanted {
            first: 0,
            count: groups,
        }),
        Some(number) if 1 <= number && number <= groups => Ok(Wanted {
            first: number - 1,
            count: 1,
        }),
        Some(_) => Err(Fault::Own(PageFault::NoGroup(groups))),
    }
}

/// Refuses a sheet in which fewer turns solve a Square-1 than the Regulations ask.
fn look_at(alloc: Global, bytes: &[u8]) -> Result<(), Fault>
    requires { length bytes.now ≤ most_bytes }
    ensures far { OnOk result ((rounds : List SheetRound) → IsSheet bytes.now rounds
        → NoneIs IsNear (slots_of (groups_of rounds))) }
    ensures err { IfErr result (RefusesLook bytes.now) }
{
    let mut groups = sheet_groups(bytes)?;
    look(alloc, &mut groups)
}
