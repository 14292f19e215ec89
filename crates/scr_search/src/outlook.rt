//! Which turns lead nearer to the goal of a pruning table, and which lead no farther.
ghost use Rattle.std.specs.Prelude.{◌≡◌, ℕ, ◌+◌, ◌-◌, ◌^◌, ◌<◌, ◌≤◌, IfOk, length, slice_index, slice_index_or};
ghost use Rattle.scr_positions.specs.Coordinates.{AreSeen};
ghost use Rattle.scr_search.specs.declared.outlook.Found.{Found as Finding};
ghost use Rattle.scr_search.specs.declared.outlook.Outlook.{Outlook as Looking};
ghost use Rattle.scr_search.specs.Outlooks.{AreFound, IsOutlook, AreOutlooks};

use crate::turn_set::TurnSet;
use scr_positions::{Coord, NOWHERE};
use scr_table::{DistanceTable, GREATEST_BOUND};
use std::alloc::{AllocError, Global};
use std::thread::{Threads, for_each_chunk_mut};

/// What a pruning table says of the turns from a position.
#[derive(Clone, Copy)]
pub struct Outlook {
    /// The turns that lead nearer to the goal, each a bit at its number, and in the bits from 18 on how far it is.
    pub nearer: u32,
    /// The turns that lead no farther, each a bit at its number.
    pub no_farther: u32,
}

/// How many positions are looked at together, turn by turn.
const AT_ONCE: usize = 1024;

/// The turns of some that lead nearer to the goal, and those that lead no farther.
#[derive(Clone, Copy)]
struct Found {
    nearer: TurnSet,
    no_farther: TurnSet,
}

/// Of no turns.
const NONE_FOUND: Found = Found {
    nearer: TurnSet::NONE,
    no_farther: TurnSet::NONE,
};

/// The outlook of a position that is not looked at yet.
const UNSEEN: Outlook = Outlook {
    nearer: 0,
    no_farther: 0,
};

/// The outlooks of the positions of a table, in order, found by 1 to 64 workers. The coordinate has at most 18 turns,
/// and as many positions as the table.
pub(crate) fn outlooks<R: Threads + Sync, C: Coord + Sync>(
    rt: &R,
    alloc: Global,
    coord: &C,
    table: &DistanceTable,
    workers: u32,
) -> Result<Vec<Outlook>, AllocError>
    requires turns { (C.coordinate coord.now).turns ≤ 18 }
    requires positions { length table.now.distances ≡ (C.coordinate coord.now).count }
    requires workers { (1 ≤ workers) × (workers ≤ 64) }
    ensures { IfOk result (λ all. AreOutlooks (C.coordinate coord.now) table.now.distances all.items) }
{
    let distances = distances_of(rt, alloc, table, workers)?;
    let distances = &distances[..];
    let mut all = vec![in alloc; UNSEEN; distances.len()]?;
    let into = &mut all[..];
    for_each_chunk_mut(
        rt,
        into,
        chunk_size(into.len(), workers),
        &|start: usize, part: &mut [Outlook]|
            requires turns { (C.coordinate coord.now).turns ≤ 18 }
            requires distances { length distances.now ≡ (C.coordinate coord.now).count }
            requires small { (p : ℕ) → slice_index distances.now p ≤ GREATEST_BOUND }
            requires positions { start + length part.old ≤ (C.coordinate coord.now).count }
        { look_out_from(coord, distances, start, part) },
    );
    Ok(all)
}

/// The distances of a table, a byte each: a search for outlooks reads them at random.
fn distances_of<R: Threads + Sync>(
    rt: &R,
    alloc: Global,
    table: &DistanceTable,
    workers: u32,
) -> Result<Vec<u8>, AllocError>
    requires { (1 ≤ workers) × (workers ≤ 64) }
    ensures same { IfOk result (λ distances. distances.items ≡ table.now.distances) }
    ensures small { IfOk result (λ distances. (p : ℕ) → slice_index distances.items p ≤ GREATEST_BOUND) }
{
    let mut distances = vec![in alloc; 0; table.positions() as usize]?;
    let into = &mut distances[..];
    for_each_chunk_mut(
        rt,
        into,
        chunk_size(into.len(), workers),
        &|start: usize, part: &mut [u8]|
            requires { start + length part.old ≤ length table.now.distances }
        { read_from(table, start, part) },
    );
    Ok(distances)
}

/// How many of so many places a chunk has, of which each worker takes one. It is never empty.
fn chunk_size(places: usize, workers: u32) -> usize
    requires { 1 ≤ workers }
    ensures { 1 ≤ result }
{
    places.div_ceil(workers as usize).max(1)
}

/// Reads those of the positions from `start` on.
fn read_from(table: &DistanceTable, start: usize, into: &mut [u8])
    requires { start + length into.old ≤ length table.now.distances }
    ensures same { (k : ℕ) → k < length into.old
        → slice_index into.new k ≡ slice_index table.now.distances (start + k) }
    ensures small { (k : ℕ) → k < length into.old → slice_index into.new k ≤ GREATEST_BOUND }
{
    let _positions = table.positions();
    for k in 0..into.len() {
        into[k] = table.distance((start + k) as u32) as u8;
    }
}

/// Finds the outlooks of the positions from `start` on, so many at once.
fn look_out_from<C: Coord>(coord: &C, distances: &[u8], start: usize, into: &mut [Outlook])
    requires turns { (C.coordinate coord.now).turns ≤ 18 }
    requires distances { length distances.now ≡ (C.coordinate coord.now).count }
    requires small { (p : ℕ) → slice_index distances.now p ≤ GREATEST_BOUND }
    requires positions { start + length into.old ≤ (C.coordinate coord.now).count }
    ensures { let c = C.coordinate coord.now in (k : ℕ) (d : Looking) → k < length into.old
        → IsOutlook c distances.now (start + k) (slice_index_or into.new k d) }
{
    let _count = coord.count();
    for first in (0..into.len()).step_by(AT_ONCE) {
        let size = (into.len() - first).min(AT_ONCE);
        let found = found_from(coord, distances, (start + first) as u32, size);
        for k in 0..size {
            into[first + k] = Outlook {
                nearer: found[k].nearer.bits + (u32::from(distances[start + first + k]) << 18),
                no_farther: found[k].no_farther.bits,
            };
        }
    }
}

/// What turns lead to from `size` positions one after another, `start` first, at most `AT_ONCE`.
fn found_from<C: Coord>(coord: &C, distances: &[u8], start: u32, size: usize) -> [Found; AT_ONCE]
    requires turns { (C.coordinate coord.now).turns ≤ 18 }
    requires distances { length distances.now ≡ (C.coordinate coord.now).count }
    requires positions { start + size ≤ (C.coordinate coord.now).count }
    requires few { size ≤ 1024 }
    ensures { let c = C.coordinate coord.now in (k : ℕ) (d : Finding) → k < size
        → AreFound c distances.now (start + k) c.turns (slice_index_or result k d) }
{
    let mut seen = [NOWHERE; AT_ONCE];
    let mut found = [NONE_FOUND; AT_ONCE];
    for turn in 0..coord.turns() {
        let part = &mut seen[..size];
        coord.look(distances, start, turn, part);
        enter_turn(coord, distances, start, turn, part, &mut found);
    }
    found
}

/// Enters one more turn, by the distances that it leads to.
fn enter_turn<C: Coord>(
    coord: &C,
    distances: &[u8],
    start: u32,
    turn: u32,
    seen: &[u8],
    found: &mut [Found; AT_ONCE],
)
    requires turns { (C.coordinate coord.now).turns ≤ 18 }
    requires distances { length distances.now ≡ (C.coordinate coord.now).count }
    requires positions { start + length seen.now ≤ (C.coordinate coord.now).count }
    requires few { length seen.now ≤ 1024 }
    requires turn { turn < (C.coordinate coord.now).turns }
    requires seen { AreSeen (C.coordinate coord.now) distances.now start turn seen.now }
    requires long { length found.old ≡ 1024 }
    requires found { (k : ℕ) (d : Finding) → k < length seen.now
        → AreFound (C.coordinate coord.now) distances.now (start + k) turn (slice_index_or found.old k d) }
    ensures long { length found.new ≡ 1024 }
    ensures found { (k : ℕ) (d : Finding) → k < length seen.now
        → AreFound (C.coordinate coord.now) distances.now (start + k) (turn + 1) (slice_index_or found.new k d) }
{
    for k in 0..seen.len() {
        // Where the turn is barred it leads to `NOWHERE`, which is farther than all.
        let here = distances[start as usize + k];
        let before = found[k];
        found[k] = Found {
            nearer: before.nearer.with_if(turn, seen[k] < here),
            no_farther: before.no_farther.with_if(turn, seen[k] <= here),
        };
    }
}
