//! The least entries where turns lead.

ghost use Rattle.std.specs.Prelude.{◌≡◌, ℕ, ◌+◌, ◌<◌, ◌≤◌, length, min, slice_index};
ghost use Rattle.scr_table.specs.Filled.{IsLeastNeighbour};

use crate::blocks::BLOCK;
use crate::fill::UNKNOWN;
use scr_positions::{Coord, NOWHERE};

/// The least entry that a turn leads to from a position, and `UNKNOWN` where each turn is barred.
#[inline]
#[tactic(auto, using(crate::proofs::Cited::least_neighbour))]
pub(crate) fn least_neighbour<C: Coord>(coord: &C, entries: &[u8], position: u32) -> u8
    requires entries { length entries.now ≡ (C.coordinate coord.now).count }
    requires position { position < (C.coordinate coord.now).count }
    ensures { IsLeastNeighbour (C.coordinate coord.now) entries.now position result }
{
    let mut least = UNKNOWN;
    for turn in 0..coord.turns() {
        if let Some(next) = coord.after(position, turn) {
            least = least.min(entries[next as usize]);
        }
    }
    least
}

/// The least entries that turns lead to from `count` positions one after another, `start` first, at most as many as a
/// block has.
#[tactic(auto, using(crate::proofs::Cited::least_neighbours))]
pub(crate) fn least_neighbours<C: Coord>(
    coord: &C,
    entries: &[u8],
    start: u32,
    count: usize,
) -> [u8; BLOCK]
    requires entries { length entries.now ≡ (C.coordinate coord.now).count }
    requires positions { start + count ≤ (C.coordinate coord.now).count }
    requires block { count ≤ 1024 }
    ensures { (k : ℕ) → k < count
        → IsLeastNeighbour (C.coordinate coord.now) entries.now (start + k) (slice_index result k) }
{
    let mut seen = [NOWHERE; BLOCK];
    let mut least = [UNKNOWN; BLOCK];
    for turn in 0..coord.turns() {
        let part = &mut seen[..count];
        coord.look(entries, start, turn, part);
        lower(&mut least, part);
    }
    least
}

/// Lowers each of some numbers to what is seen at its place, where that is lower.
fn lower(least: &mut [u8; BLOCK], seen: &[u8])
    requires { length seen.now ≤ 1024 }
    ensures { (k : ℕ) → k < length seen.now
        → slice_index least.new k ≡ min (slice_index least.old k) (slice_index seen.now k) }
{
    for k in 0..seen.len() {
        least[k] = least[k].min(seen[k]);
    }
}
