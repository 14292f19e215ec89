//! Which sets of a sheet's rounds the rounds of a file get.

ghost use Rattle.std.specs.Prelude.{◌≡◌, ◌+◌, ◌≤◌, All, filter, length, IfOk, OnOk};
ghost use Rattle.scr_host.specs.declared.fault.Fault.TheVariants.{Own};
ghost use Rattle.scr_wcif.specs.Adding.{Adds, Gives};
ghost use Rattle.scr_wcif.specs.Placing.{is_known, placed_round, placed_from, placed_rounds};
ghost use Rattle.scr_wcif.specs.Sets.{SetsHaveNumbers, RoundHasNumbers};
ghost use Rattle.scr_wcif.specs.declared.fault.FileFault.TheVariants.{Sheet};

use crate::adding::add;
use crate::fault::{Difference, Fault, FileFault};
use crate::round::{FileRound, id_of_round};
use crate::set::{EventSets, RoundSets};
use scr_list::event_named;
use std::alloc::Global;

/// The sets of a sheet's rounds under the ids of the rounds that a file has in their places, or the first round that differs.
pub(crate) fn placed_rounds<'a>(
    alloc: Global,
    named: &[FileRound<'_>],
    sheet: &'a [EventSets],
) -> Result<Vec<RoundSets<'a>>, Fault>
    requires few { length named.now ≤ 256 }
    requires numbers { All RoundHasNumbers sheet.now }
    ensures rounds { Gives (placed_rounds named.now sheet.now) (λ placed. placed.items) result }
    ensures numbers { IfOk result (λ placed. All SetsHaveNumbers placed.items) }
{
    let mut placed = Vec::new(alloc);
    push_placed(alloc, 1, named, sheet, &mut placed)?;
    Ok(placed)
}

/// Adds those of these rounds, from a number on. It calls itself once for each round of the file.
fn push_placed<'a>(
    alloc: Global,
    number: u32,
    named: &[FileRound<'_>],
    sheet: &'a [EventSets],
    placed: &mut Vec<RoundSets<'a>>,
) -> Result<(), Fault>
    requires few { number + length named.now ≤ 300 }
    requires numbers { All RoundHasNumbers sheet.now }
    requires so_far { All SetsHaveNumbers placed.old.items }
    ensures rounds { Adds (placed_from number (filter is_known named.now) sheet.now) placed.old.items placed.new.items result }
    ensures numbers { OnOk result (All SetsHaveNumbers placed.new.items) }
{
    match named {
        [] => match sheet {
            [] => Ok(()),
            _ => Err(differs(number, Difference::More)),
        },
        [first, rest @ ..] => {
            if event_named(first.event.as_bytes()).is_none() {
                return push_placed(alloc, number, rest, sheet, placed);
            }
            match sheet {
                [] => Err(differs(number, Difference::Missing)),
                [round, others @ ..] => {
                    let sets = placed_round(alloc, number, first, round)?;
                    add(placed, sets)?;
                    push_placed(alloc, number + 1, rest, others, placed)
                }
            }
        }
    }
}

/// The sets of a sheet's round under the id of a file's.
fn placed_round<'a>(
    alloc: Global,
    number: u32,
    named: &FileRound<'_>,
    round: &'a EventSets,
) -> Result<RoundSets<'a>, Fault>
    requires { RoundHasNumbers round.now }
    ensures sets { Gives (placed_round number named.now round.now) (λ sets. sets) result }
    ensures numbers { IfOk result SetsHaveNumbers }
{
    if round.event.id() != named.event {
        return Err(differs(number, Difference::Event));
    }
    if round.sets.len() != usize::from(named.groups) {
        return Err(differs(number, Difference::Groups));
    }
    let id = id_of_round(alloc, named.event, named.number)?;
    Ok(RoundSets {
        id,
        sets: &round.sets,
    })
}

/// The fault of a round of a sheet that differs.
fn differs(number: u32, difference: Difference) -> Fault
    ensures { result ≡ Own (Sheet number difference) }
{
    Fault::Own(FileFault::Sheet { number, difference })
}
