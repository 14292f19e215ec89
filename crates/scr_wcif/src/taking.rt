//! What a file takes over from a sheet.

ghost use Rattle.std.specs.Prelude.{◌≡◌, ◌-◌, ◌^◌, ◌<◌, [], All, map, length, IfOk, OnOk, string_bytes};
ghost use Rattle.scr_notation.specs.Spelling.{text_of};
ghost use Rattle.scr_wcif.specs.Adding.{IsAnswer};
ghost use Rattle.scr_wcif.specs.Sets.{RoundHasNumbers};
ghost use Rattle.scr_wcif.specs.Taking.{IsSheetOf, IsNoSheet};
ghost use Rattle.scr_wcif.specs.Gathering.{set_of_group, with_last, with_group, with_groups};

use crate::adding::add;
use crate::fault::{Fault, FileFault};
use crate::set::{EventSets, ScrambleSet};
use scr_notation::{Scramble, print};
use scr_read::{SheetGroup, SheetGroups};
use scr_text::decimal;
use std::alloc::{AllocError, Global};

/// The sets of the rounds of a sheet, which has less than 2^32 - 1 bytes, or its first line at fault.
pub(crate) fn taken_sets(alloc: Global, text: &[u8]) -> Result<Vec<EventSets>, Fault>
    requires { length text.now < 2 ^ 32 - 1 }
    ensures sets { IsAnswer (λ rounds. IsSheetOf text.now rounds.items) (IsNoSheet text.now) result }
    ensures numbers { IfOk result (λ rounds. All RoundHasNumbers rounds.items) }
{
    let groups = match SheetGroups::of(text) {
        Ok(groups) => groups,
        Err(at) => {
            return Err(Fault::Own(FileFault::SheetLine {
                line: at.line,
                cause: at.cause,
            }));
        }
    };
    let rounds = gathered(alloc, groups)?;
    Ok(rounds)
}

/// The sets of these groups.
fn gathered(alloc: Global, mut groups: SheetGroups<'_>) -> Result<Vec<EventSets>, AllocError>
    ensures { IfOk result (λ rounds. rounds.items ≡ with_groups [] groups.entry) }
{
    let mut rounds = Vec::new(alloc);
    'groups: while let Some(group) = groups.next() {
        push_group(alloc, &group, &mut rounds)?;
    }
    Ok(rounds)
}

/// Adds the set of a group, which begins a round where it is the round's first.
fn push_group(
    alloc: Global,
    group: &SheetGroup,
    rounds: &mut Vec<EventSets>,
) -> Result<(), AllocError>
    ensures { OnOk result (rounds.new.items ≡ with_group rounds.old.items group.now) }
{
    let set = set_of_group(alloc, group)?;
    if group.number() > 0 {
        return push_to_last(rounds, set);
    }
    let mut sets = Vec::new(alloc);
    add(&mut sets, set)?;
    let event = group.event();
    add(rounds, EventSets { event, sets })
}

/// Adds a set to the last round.
fn push_to_last(rounds: &mut Vec<EventSets>, set: ScrambleSet) -> Result<(), AllocError>
    ensures { OnOk result (rounds.new.items ≡ with_last rounds.old.items set) }
{
    let Some(last) = rounds.pop() else {
        return Ok(());
    };
    let EventSets { event, mut sets } = last;
    add(&mut sets, set)?;
    add(rounds, EventSets { event, sets })
}

/// The set of a group.
fn set_of_group(alloc: Global, group: &SheetGroup) -> Result<ScrambleSet, AllocError>
    ensures { IfOk result (λ set. set ≡ set_of_group group.now) }
{
    let scrambles = group.scrambles();
    let per_group = usize::from(group.event().per_group());
    let extras = texts_of_scrambles(alloc, &scrambles[per_group..])?;
    let scrambles = texts_of_scrambles(alloc, &scrambles[..per_group])?;
    let number = decimal(group.number() + 1);
    Ok(ScrambleSet {
        number,
        scrambles,
        extras,
    })
}

/// The texts of scrambles.
fn texts_of_scrambles(alloc: Global, scrambles: &[Scramble]) -> Result<Vec<String>, AllocError>
    ensures { IfOk result (λ texts. map string_bytes texts.items ≡ map (λ s. text_of s.turns) scrambles.now) }
{
    let mut texts = Vec::new(alloc);
    for scramble in scrambles {
        let text = String::from_str(alloc, print(scramble).as_str())?;
        add(&mut texts, text)?;
    }
    Ok(texts)
}
