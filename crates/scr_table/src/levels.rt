//! The levels of a table, each made from the one before by workers: a slot is a block.

ghost use Rattle.std.specs.Prelude.{◌≡◌, ℕ, ◌+◌, ◌^◌, ◌<◌, ◌≤◌, IsTrue, IfSome, None, length, slice_index, slice_index_or};
ghost use Rattle.std.specs.Bool.{OnTrue, OnFalse};
ghost use Rattle.scr_table.specs.Filled.{AreKnown, AreMarked, Agrees, IsNextEntry, IsThere, block_count, next_entry};
ghost use Rattle.scr_table.specs.declared.table.TheConstants.{GREATEST_BOUND};

use crate::blocks::{BLOCK, Made, contains, enter_blocks};
use crate::fill::UNKNOWN;
use crate::neighbours::{least_neighbour, least_neighbours};
use scr_positions::Coord;
use scr_workers::{Jobs, OpenGate, run_chunks};
use std::thread::Threads;

/// The entries of the level `level` and those before it, of which the next level is made. A block's answer is the block
/// on the next level. Where each position is checked, there is none where the block doesn't agree; else there is none
/// where nothing in it is unknown.
#[derive(Drop)]
struct NextLevel<'a, C: Coord> {
    coord: &'a C,
    entries: &'a [u8],
    level: u8,
    checked: bool,
    ghost positions: { length entries.now ≡ (C.coordinate coord.now).count },
    ghost few: { length entries.now < 2 ^ 32 },
    ghost early: { level ≤ GREATEST_BOUND + 1 },
}

impl<C: Coord> Jobs for NextLevel<'_, C> {
    ghost use Rattle.std.specs.Prelude.{length};
    ghost use Rattle.scr_table.specs.Filled.{IsBlockBehind, block_count};

    type Out = Option<[u8; BLOCK]>;

    ghost slots = { λ s. block_count (length s.entries.now) };

    ghost is_answer = { λ s block out. IsBlockBehind s.checked (C.coordinate s.coord.now) s.level s.entries.now block out };

    fn job(&self, slot: u32) -> Option<[u8; BLOCK]> {
        let start = slot as usize * BLOCK;
        let end = self.entries.len().min(start + BLOCK);
        if self.checked {
            let least = least_neighbours(self.coord, self.entries, start as u32, end - start);
            return checked_block(self.entries, start, end, &least, self.level);
        }
        if !contains(self.entries, start, end, UNKNOWN) {
            return None;
        }
        Some(next_block(self.coord, self.entries, start, end, self.level))
    }
}

/// The entries of the positions from `start` up to `end` on the next level.
fn next_block<C: Coord>(
    coord: &C,
    entries: &[u8],
    start: usize,
    end: usize,
    level: u8,
) -> [u8; BLOCK]
    requires entries { length entries.now ≡ (C.coordinate coord.now).count }
    requires end { end ≤ length entries.now }
    requires block { end ≤ start + 1024 }
    requires level { level ≤ GREATEST_BOUND + 1 }
    ensures { (k : ℕ) → start + k < end
        → IsNextEntry (C.coordinate coord.now) level entries.now (start + k) (slice_index result k) }
{
    let _count = coord.count();
    let mut next = [UNKNOWN; BLOCK];
    for position in start..end {
        let entry = entries[position];
        next[position - start] = if entry == UNKNOWN {
            next_entry(
                entry,
                least_neighbour(coord, entries, position as u32),
                level,
            )
        } else {
            entry
        };
    }
    next
}

/// The entry of a position on the next level, by the least that a turn leads to from it.
#[inline]
fn next_entry(entry: u8, least: u8, level: u8) -> u8
    requires { level ≤ GREATEST_BOUND + 1 }
    ensures { result ≡ next_entry level entry least }
{
    if entry == UNKNOWN && least == level {
        level + 1
    } else {
        entry
    }
}

/// The entries of the positions from `start` up to `end` on the next level, where each agrees with the least that a
/// turn leads to from its position.
#[tactic(auto, using(crate::proofs::Cited::checked_block))]
fn checked_block(
    entries: &[u8],
    start: usize,
    end: usize,
    least: &[u8; BLOCK],
    level: u8,
) -> Option<[u8; BLOCK]>
    requires end { end ≤ length entries.now }
    requires block { end ≤ start + 1024 }
    requires level { level ≤ GREATEST_BOUND + 1 }
    ensures agree { IfSome result (λ _. (k : ℕ) → start + k < end
        → Agrees level (slice_index entries.now (start + k)) (slice_index least.now k)) }
    ensures next { IfSome result (λ next. (k : ℕ) → start + k < end
        → slice_index next k ≡ next_entry level (slice_index entries.now (start + k)) (slice_index least.now k)) }
{
    let mut next = [UNKNOWN; BLOCK];
    for position in start..end {
        let k = position - start;
        if !agrees(entries[position], least[k], level) {
            return None;
        }
        next[k] = next_entry(entries[position], least[k], level);
    }
    Some(next)
}

/// Whether an entry agrees with the least that a turn leads to from its position, where the entries up to `level` are
/// there.
#[inline]
fn agrees(entry: u8, least: u8, level: u8) -> bool
    ensures { IsTrue result → Agrees level entry least }
{
    if entry == UNKNOWN {
        level <= least
    } else {
        entry == 0 || (entry <= level && least == entry - 1)
    }
}

/// Makes the level behind `level`, and answers whether it did. Where each position is checked, that is whether the
/// entries up to `level` agree; if they don't, nothing is said of the entries.
pub(crate) fn next_level<R: Threads + Sync, C: Coord + Sync>(
    rt: &R,
    coord: &C,
    entries: &mut [u8],
    blocks: &mut [Made],
    level: u8,
    checked: bool,
    workers: u32,
) -> bool
    requires marked { OnTrue checked (AreMarked (C.coordinate coord.now) entries.old) }
    requires known { OnFalse checked (AreKnown (C.coordinate coord.now) level entries.old) }
    requires blocks { length blocks.old ≡ block_count (length entries.old) }
    requires level { level ≤ GREATEST_BOUND + 1 }
    requires workers { (1 ≤ workers) × (workers ≤ 64) }
    ensures known { OnTrue result (AreKnown (C.coordinate coord.now) (level + 1) entries.new) }
    ensures made { OnFalse checked (IsTrue result) }
{
    // tells that turns lead from positions to positions
    let _count = coord.count();
    let next = NextLevel {
        coord,
        entries: &*entries,
        level,
        checked,
    };
    run_chunks(rt, &next, blocks, workers, &OpenGate);
    if checked && !are_all_there(blocks) {
        return false;
    }
    enter_blocks(entries, blocks);
    true
}

/// Whether each block is there.
fn are_all_there(blocks: &[Made]) -> bool
    ensures { IsTrue result → (k : ℕ) → k < length blocks.now → IsThere (slice_index_or blocks.now k None) }
{
    for block in 0..blocks.len() {
        let Some(Some(_)) = &blocks[block] else {
            return false;
        };
    }
    true
}
