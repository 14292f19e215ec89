//! The first passes over a sheet: its rounds, and the scrambles that have no place on pages.

ghost use Rattle.std.specs.Prelude.{◌≡◌, ◌↔◌, ◌+◌, ◌^◌, ◌<◌, ◌≤◌, ℕ, [], All, length, IsTrue, IfOk, IfErr, OnOk};
ghost use Rattle.std.specs.Bool.{OnTrue, OnFalse};
ghost use Rattle.scr_notation.specs.declared.event.Puzzle.TheVariants as the_puzzle;
ghost use Rattle.scr_notation.specs.Event.{puzzle_of};
ghost use Rattle.scr_pages.specs.Marked.{with_groups};
ghost use Rattle.scr_pages.specs.Slots.{slots_from, slots_of, slots_of_group, IsBarred, IsNear};
ghost use Rattle.scr_pages.specs.Refusals.{NoneIs};
ghost use Rattle.scr_pages.specs.Passes.{AreFew, IsFound, FailsSurvey, FailsLook};

use crate::fault::{Fault, PageFault};
use crate::marks::{RoundMark, mark_group};
use scr_notation::{Event, Puzzle, Scramble};
use scr_read::{SheetGroup, SheetGroups};
use scr_sq1::Sq1;
use scr_sq1far::{NearSolved, needs_sq1_far};
use std::alloc::Global;

/// A Square-1 has to need so many turns (WCA Regulations, article 4b3).
const LEAST_TURNS: u32 = 11;

/// What the first pass over a sheet finds.
#[derive(Drop)]
pub(crate) struct Survey {
    /// Its rounds.
    pub(crate) marks: Vec<RoundMark>,
    /// How many groups it has.
    pub(crate) groups: u32,
}

/// Goes over the groups of a sheet, counts them, and refuses the first scramble that can't be played.
pub(crate) fn surveyed(alloc: Global, groups: &mut SheetGroups<'_>) -> Result<Survey, Fault>
    requires { AreFew groups.old }
    ensures marks { IfOk result (λ survey. survey.marks.items ≡ with_groups [] groups.old) }
    ensures count { IfOk result (λ survey. survey.groups ≡ length groups.old) }
    ensures played { IfOk result (λ survey. NoneIs IsBarred (slots_of groups.old)) }
    ensures fault { IfErr result (FailsSurvey groups.old) }
{
    let mut marks = Vec::new(alloc);
    let mut count = 0;
    'groups: while let Some(group) = groups.next() {
        if let Some(line) = barred_line(&group) {
            return Err(Fault::Own(PageFault::Barred(line)));
        }
        mark_group(&mut marks, &group)?;
        count += 1;
    }
    Ok(Survey {
        marks,
        groups: count,
    })
}

/// Goes over the groups of a sheet, and refuses the first Square-1 that fewer turns solve than the Regulations ask.
pub(crate) fn look(alloc: Global, groups: &mut SheetGroups<'_>) -> Result<(), Fault>
    requires { AreFew groups.old }
    ensures far { OnOk result (NoneIs IsNear (slots_of groups.old)) }
    ensures fault { IfErr result (FailsLook groups.old) }
{
    let mut built = None;
    'groups: while let Some(group) = groups.next() {
        if is_square_1(group.event()) {
            let near = match built {
                Some(near) => near,
                None => NearSolved::build(alloc)?,
            };
            if let Some(line) = near_line(&near, &group) {
                return Err(Fault::Own(PageFault::Near(line)));
            }
            built = Some(near);
        }
    }
    Ok(())
}

/// The line of the first scramble of a group that can't be played.
fn barred_line(group: &SheetGroup) -> Option<u32>
    requires { group.now.line ≤ 65536 }
    ensures { IsFound IsBarred (slots_of_group group.now) result }
{
    let event = group.event();
    if is_square_1(event) {
        first_barred(group.line() + 1, group.scrambles())
    } else {
        None
    }
}

/// The line of the first Square-1 of a group that fewer turns solve.
fn near_line(near: &NearSolved, group: &SheetGroup) -> Option<u32>
    requires puzzle { puzzle_of group.now.head.event ≡ the_puzzle.Square1 }
    requires line { group.now.line ≤ 65536 }
    ensures { IsFound IsNear (slots_of_group group.now) result }
{
    let _event = group.event();
    first_near(near, group.line() + 1, group.scrambles())
}

/// The line of the first of these scrambles that can't be played, the first of them in this line. It calls itself once
/// for each.
fn first_barred(line: u32, scrambles: &[Scramble]) -> Option<u32>
    requires room { line + length scrambles.now < 2 ^ 32 }
    requires puzzle { All (λ scramble. puzzle_of scramble.event ≡ the_puzzle.Square1) scrambles.now }
    ensures { IsFound IsBarred (slots_from line scrambles.now) result }
{
    match scrambles {
        [] => None,
        [first, rest @ ..] => {
            if Sq1::solved().play(first).is_none() {
                return Some(line);
            }
            first_barred(line + 1, rest)
        }
    }
}

/// The line of the first of these scrambles that fewer turns solve, the first of them in this line. It calls itself
/// once for each.
fn first_near(near: &NearSolved, line: u32, scrambles: &[Scramble]) -> Option<u32>
    requires room { line + length scrambles.now < 2 ^ 32 }
    requires puzzle { All (λ scramble. puzzle_of scramble.event ≡ the_puzzle.Square1) scrambles.now }
    ensures { IsFound IsNear (slots_from line scrambles.now) result }
{
    match scrambles {
        [] => None,
        [first, rest @ ..] => {
            if is_near(near, first) {
                return Some(line);
            }
            first_near(near, line + 1, rest)
        }
    }
}

/// Whether fewer turns solve what a scramble makes of a Square-1.
fn is_near(near: &NearSolved, scramble: &Scramble) -> bool
    requires { puzzle_of scramble.now.event ≡ the_puzzle.Square1 }
    ensures near { (line : ℕ) → OnTrue result (IsNear (record { line = line; scramble = scramble.now })) }
    ensures far { (line : ℕ) → OnFalse result (IsNear (record { line = line; scramble = scramble.now }) → ⊥) }
{
    match Sq1::solved().play(scramble) {
        Some(state) => !needs_sq1_far(near, &state, LEAST_TURNS),
        None => false,
    }
}

/// Whether an event's puzzle is the Square-1.
fn is_square_1(event: Event) -> bool
    ensures { IsTrue result ↔ (puzzle_of event ≡ the_puzzle.Square1) }
{
    matches!(event.puzzle(), Puzzle::Square1)
}
