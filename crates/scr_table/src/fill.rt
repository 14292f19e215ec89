//! Filling the entries of a table. Early levels, of few positions, are pushed from the goals, and nothing is proved of
//! them but that 0 stands at the goals. One pass then checks that each entry agrees with those around it, from which it
//! follows that these levels are exact, and makes the next level by the same looks; each level behind is made from the
//! one before. Where the entries don't agree, all levels are made so; and at once where a turn from a goal can't be
//! taken back, since then they hardly would.

ghost use Rattle.std.specs.Prelude.{◌≡◌, ◌<◌, ◌≤◌, IfOk, length};
ghost use Rattle.scr_table.specs.Filled.{AreKnown, AreMarked, block_count};

use crate::blocks::{BLOCK, Made, contains};
use crate::levels::next_level;
use crate::table::GREATEST_BOUND;
use scr_positions::{BARRED, Coord, NOWHERE};
use std::alloc::{AllocError, Global};
use std::thread::Threads;

/// What stands at a position whose distance is not known yet. It is greater than any bound, and the same as what a look
/// gives where a turn is barred: neither is lower than a distance.
pub(crate) const UNKNOWN: u8 = NOWHERE;

/// The entries, one for each position: the position's distance, or `UNKNOWN` where no word of at most `bound` turns
/// leads to a goal. `bound` is at most `GREATEST_BOUND`. 1 to 64 workers share the late levels.
pub(crate) fn filled<R: Threads + Sync, C: Coord + Sync>(
    rt: &R,
    alloc: Global,
    coord: &C,
    bound: u8,
    workers: u32,
) -> Result<Vec<u8>, AllocError>
    requires few_turns { (C.coordinate coord.now).turns ≤ 256 }
    requires bound { bound ≤ GREATEST_BOUND }
    requires workers { (1 ≤ workers) × (workers ≤ 64) }
    ensures { IfOk result (λ entries. AreKnown (C.coordinate coord.now) bound entries.items) }
{
    let mut entries = vec![in alloc; UNKNOWN; coord.count() as usize]?;
    let mut blocks: Vec<Made> = vec![in alloc; None; entries.len().div_ceil(BLOCK)]?;
    fill(rt, coord, &mut entries[..], &mut blocks[..], bound, workers);
    Ok(entries)
}

/// Fills the entries, with room for what workers make of each block.
fn fill<R: Threads + Sync, C: Coord + Sync>(
    rt: &R,
    coord: &C,
    entries: &mut [u8],
    blocks: &mut [Made],
    bound: u8,
    workers: u32,
)
    requires entries { length entries.old ≡ (C.coordinate coord.now).count }
    requires blocks { length blocks.old ≡ block_count (length entries.old) }
    requires few_turns { (C.coordinate coord.now).turns ≤ 256 }
    requires bound { bound ≤ GREATEST_BOUND }
    requires workers { (1 ≤ workers) × (workers ≤ 64) }
    ensures { AreKnown (C.coordinate coord.now) bound entries.new }
{
    let pushed = early_levels(coord, entries, bound);
    let mut first = pushed + 1;
    if !next_level(rt, coord, entries, blocks, pushed, true, workers) {
        mark_goals(coord, entries);
        first = 0;
    }
    for level in first..bound {
        if !contains(entries, 0, entries.len(), UNKNOWN) {
            return;
        }
        next_level(rt, coord, entries, blocks, level, false, workers);
    }
}

/// Enters the first levels, as many as are cheaper to push, and answers the last of them, at most `bound`: that of the
/// goals where it isn't worth while to push. Nothing is said of what stands beyond the goals.
fn early_levels<C: Coord>(coord: &C, entries: &mut [u8], bound: u8) -> u8
    requires entries { length entries.old ≡ (C.coordinate coord.now).count }
    requires few_turns { (C.coordinate coord.now).turns ≤ 256 }
    requires bound { bound ≤ GREATEST_BOUND }
    ensures marked { AreMarked (C.coordinate coord.now) entries.new }
    ensures level { result ≤ bound }
{
    mark_goals(coord, entries);
    match coord.next_goal(0) {
        Some(goal) if leads_back(coord, goal) => push_levels(coord, entries, bound),
        _ => 0,
    }
}

/// Enters 0 at the goals, and `UNKNOWN` elsewhere.
fn mark_goals<C: Coord>(coord: &C, entries: &mut [u8])
    requires { length entries.old ≡ (C.coordinate coord.now).count }
    ensures { AreKnown (C.coordinate coord.now) 0 entries.new }
{
    let _positions = coord.count();
    entries.fill(UNKNOWN);
    let mut from = 0;
    while let Some(goal) = coord.next_goal(from) {
        entries[goal as usize] = 0;
        from = goal + 1;
    }
}

/// Whether each turn from a position is taken back. Of the first goal it tells whether it is worth while to push, and
/// nothing rests on it.
fn leads_back<C: Coord>(coord: &C, position: u32) -> bool
    requires { position < (C.coordinate coord.now).count }
{
    for turn in 0..coord.turns() {
        if let Some(next) = coord.after(position, turn) {
            if !leads_to(coord, next, position) {
                return false;
            }
        }
    }
    true
}

/// Whether a turn leads from one position to another.
fn leads_to<C: Coord>(coord: &C, from: u32, to: u32) -> bool
    requires { from < (C.coordinate coord.now).count }
{
    for turn in 0..coord.turns() {
        if let Some(next) = coord.after(from, turn) {
            if next == to {
                return true;
            }
        }
    }
    false
}

/// Spreads the distances from the goals along turns, and answers the level that is reached, at most `bound`. This gives
/// the distances to the goals where turns can be undone. No clause says so, and none needs to.
fn push_levels<C: Coord>(coord: &C, entries: &mut [u8], bound: u8) -> u8
    requires marked { AreMarked (C.coordinate coord.now) entries.old }
    requires few_turns { (C.coordinate coord.now).turns ≤ 256 }
    requires bound { bound ≤ GREATEST_BOUND }
    ensures marked { AreMarked (C.coordinate coord.now) entries.new }
    ensures level { result ≤ bound }
{
    let mut left = coord.count();
    let mut reached = 0;
    for level in 0..bound {
        // From here on it is cheaper to look at the positions that are left, and workers share it.
        if left / 4 < reached {
            return level;
        }
        reached = push_level(coord, entries, level);
        left = left.saturating_sub(reached);
    }
    bound
}

/// Enters the next level where a turn leads to from this one, and counts the entries.
fn push_level<C: Coord>(coord: &C, entries: &mut [u8], level: u8) -> u32
    requires marked { AreMarked (C.coordinate coord.now) entries.old }
    requires few_turns { (C.coordinate coord.now).turns ≤ 256 }
    requires level { level ≤ GREATEST_BOUND }
    ensures { AreMarked (C.coordinate coord.now) entries.new }
{
    let mut targets = [BARRED; 256];
    let mut reached: u32 = 0;
    for start in (0..entries.len()).step_by(BLOCK) {
        let end = entries.len().min(start + BLOCK);
        if contains(entries, start, end, level) {
            reached = reached.wrapping_add(push_block(
                coord,
                entries,
                start,
                end,
                level,
                &mut targets,
            ));
        }
    }
    reached
}

/// The same from the positions of a block.
fn push_block<C: Coord>(
    coord: &C,
    entries: &mut [u8],
    start: usize,
    end: usize,
    level: u8,
    targets: &mut [u32; 256],
) -> u32
    requires marked { AreMarked (C.coordinate coord.now) entries.old }
    requires end { end ≤ length entries.old }
    requires few_turns { (C.coordinate coord.now).turns ≤ 256 }
    requires level { level ≤ GREATEST_BOUND }
    ensures { AreMarked (C.coordinate coord.now) entries.new }
{
    let turns = coord.turns();
    let _positions = coord.count();
    let mut reached: u32 = 0;
    for position in start..end {
        if entries[position] == level {
            // All turns are asked before anything is entered, so that what they have in common is asked once.
            for turn in 0..turns {
                targets[turn as usize] = coord.after(position as u32, turn).unwrap_or(BARRED);
            }
            for turn in 0..turns {
                let next = targets[turn as usize] as usize;
                if next < entries.len() && entries[next] == UNKNOWN {
                    entries[next] = level + 1;
                    reached = reached.wrapping_add(1);
                }
            }
        }
    }
    reached
}
