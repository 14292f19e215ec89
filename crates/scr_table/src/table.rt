//! A distance table.

ghost use Rattle.std.specs.Prelude.{◌≡◌, ℕ, ◌+◌, ◌^◌, ◌<◌, ◌≤◌, ◌==◌, All, IfOk, IfErr, IfNone, IfSome, count_by, length, slice_index};
ghost use Rattle.scr_combinatorics.specs.FirstWord.{IsFirstWord, LowersFirst};
ghost use Rattle.scr_positions.specs.Coordinates.{StaysBelow, moved, IsGoal};
ghost use Rattle.scr_table.specs.Distances.{Measures};
ghost use Rattle.scr_table.specs.Causes.{IsCause};
ghost use Rattle.scr_table.specs.Halves.{AreBlocksOf, deep_of};

use crate::entries::Entries;
use crate::fault::BuildFault;
use crate::fill::filled;
use crate::name::TableName;
use arrayvec::ArrayVec;
use scr_positions::Coord;
use std::alloc::Global;
use std::marker::Model;
use std::thread::Threads;

/// The greatest bound of a table: no position of one is more turns away from a goal.
pub const GREATEST_BOUND: usize = 24;

/// At each position of a coordinate the least number of turns to a goal.
pub struct DistanceTable {
    name: TableName,
    bound: u32,
    entries: Entries,
}

// By hand, so that the proof of whoever lets one go meets one call, and not the letting go of each of its parts.
impl Drop for DistanceTable {
    fn drop(self) {
        let DistanceTable {
            name: _,
            bound: _,
            entries: _,
        } = self;
    }
}

impl Model for DistanceTable {
    ghost use Rattle.std.specs.Prelude.{ℕ, ◌≤◌, slice_index};
    ghost use Rattle.scr_table.specs.Distances.{Distances};
    ghost use Rattle.scr_table.specs.declared.table.TheConstants.{GREATEST_BOUND};

    ghost Value = { Distances };

    ghost view = { λ table. record { name = table.name; bound = table.bound; distances = table.entries } };

    ghost invariant = { λ table. (table.bound ≤ GREATEST_BOUND)
        × ((p : ℕ) → slice_index table.entries p ≤ table.bound) };
}

impl DistanceTable {
    /// The table of a coordinate, or the first position that no word of at most `bound` turns leads to a goal from.
    /// `bound` is at most `GREATEST_BOUND`, and there are at most 256 turns. 1 to 64 workers build it.
    pub fn build<R: Threads + Sync, C: Coord + Sync>(
        rt: &R,
        alloc: Global,
        name: TableName,
        coord: &C,
        bound: u32,
        workers: u32,
    ) -> Result<DistanceTable, BuildFault>
        requires bound { bound ≤ GREATEST_BOUND }
        requires few_turns { (C.coordinate coord.now).turns ≤ 256 }
        requires workers { (1 ≤ workers) × (workers ≤ 64) }
        ensures named { IfOk result (λ table. table.name ≡ name) }
        ensures bounded { IfOk result (λ table. table.bound ≡ bound) }
        ensures measures { IfOk result (Measures (C.coordinate coord.now)) }
        ensures cause { IfErr result (IsCause name (C.coordinate coord.now) bound) }
        ensures stays_below { StaysBelow (C.coordinate coord.now) }
    {
        let _positions = coord.count();
        let entries = filled(rt, alloc, coord, bound as u8, workers)?;
        match first_above(&entries[..], bound as u8) {
            Some(index) => Err(BuildFault::Gap { table: name, index }),
            None => Ok(DistanceTable {
                name,
                bound,
                entries: Entries::of(alloc, &entries[..])?,
            }),
        }
    }

    /// Which table it is.
    pub fn name(&self) -> TableName
        ensures { result ≡ self.now.name }
    {
        self.name
    }

    /// How many positions it has.
    pub fn positions(&self) -> u32
        ensures { result ≡ length self.now.distances }
    {
        self.entries.len()
    }

    /// The bound that it was built with.
    pub fn bound(&self) -> u32
        ensures value { result ≡ self.now.bound }
        ensures at_most { result ≤ GREATEST_BOUND }
    {
        self.bound
    }

    /// The least number of turns from a position, below `positions`, to a goal.
    #[inline]
    pub fn distance(&self, position: u32) -> u32
        requires { position < length self.now.distances }
        ensures value { result ≡ slice_index self.now.distances position }
        ensures within_bound { result ≤ self.now.bound }
        ensures at_most { result ≤ GREATEST_BOUND }
    {
        u32::from(self.entries.get(position))
    }

    /// The distances at four bits each, in blocks of 1,024 positions. The half byte of position p stands in block p /
    /// 1024, byte p % 1024 / 2, the low half where p is even. It is the distance up to 13, 14 where the distance stands
    /// in `deep`, and 15 past the last position.
    pub fn blocks(&self) -> &[[u8; 512]]
        ensures { AreBlocksOf self.now.distances result.now }
    {
        self.entries.blocks()
    }

    /// The positions whose distance is 14 or more, each with its distance, by rising position.
    pub fn deep(&self) -> &[(u32, u8)]
        ensures { result.now ≡ deep_of self.now.distances }
    {
        self.entries.deep()
    }

    /// How many positions there are at each distance.
    #[tactic(auto, using(crate::proofs::Cited::counts))]
    pub fn counts(&self) -> [u32; GREATEST_BOUND + 1]
        ensures counted { (d : ℕ) → d < GREATEST_BOUND + 1
            → slice_index result d ≡ count_by (λ distance. distance == d) self.now.distances }
        ensures all { All (λ distance. distance < GREATEST_BOUND + 1) self.now.distances }
    {
        let mut counts = [0; GREATEST_BOUND + 1];
        for position in 0..self.entries.len() {
            counts[usize::from(self.entries.get(position))] += 1;
        }
        counts
    }

    /// The first word from a position, below `positions`, to a goal. The table measures the coordinate, which has at
    /// most 256 turns.
    pub fn descend<C: Coord>(&self, coord: &C, position: u32) -> ArrayVec<u8, GREATEST_BOUND>
        requires measures { Measures (C.coordinate coord.now) self.now }
        requires few_turns { (C.coordinate coord.now).turns ≤ 256 }
        requires position { position < length self.now.distances }
        ensures { let c = C.coordinate coord.now in IsFirstWord (moved c) (IsGoal c) position result.items }
    {
        let mut word = ArrayVec::new();
        let mut at = position;
        for lower in (0..self.distance(position)).rev() {
            let descent = self.first_lowering(coord, at, lower);
            word.push(descent.turn);
            at = descent.next;
        }
        word
    }

    /// The first turn that leads to a position at the distance `lower`, which is one below that of this position.
    fn first_lowering<C: Coord>(&self, coord: &C, position: u32, lower: u32) -> Descent
        requires measures { Measures (C.coordinate coord.now) self.now }
        requires few_turns { (C.coordinate coord.now).turns ≤ 256 }
        requires position { position < length self.now.distances }
        requires lower { slice_index self.now.distances position ≡ lower + 1 }
        ensures first { let c = C.coordinate coord.now in
            LowersFirst (moved c) (IsGoal c) position result.next result.turn lower }
        ensures below { result.next < length self.now.distances }
        ensures lower { slice_index self.now.distances result.next ≡ lower }
    {
        for turn in 0..coord.turns() {
            if let Some(next) = coord.after(position, turn) {
                if self.distance(next) == lower {
                    return Descent {
                        turn: turn as u8,
                        next,
                    };
                }
            }
        }
        unreachable!()
    }
}

/// The first position whose entry is above a bound. There are fewer than 2^32.
fn first_above(entries: &[u8], bound: u8) -> Option<u32>
    requires { length entries.now < 2 ^ 32 }
    ensures above { IfSome result (λ index. bound < slice_index entries.now index) }
    ensures below { IfSome result (λ index. index < length entries.now) }
    ensures first { IfSome result (λ index. (p : ℕ) → p < index → slice_index entries.now p ≤ bound) }
    ensures none { IfNone result ((p : ℕ) → slice_index entries.now p ≤ bound) }
{
    for index in 0..entries.len() {
        if entries[index] > bound {
            return Some(index as u32);
        }
    }
    None
}

/// A turn, and the position where it leads.
#[derive(Clone, Copy)]
struct Descent {
    turn: u8,
    next: u32,
}
