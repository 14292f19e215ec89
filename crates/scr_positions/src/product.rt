//! Two coordinates side by side as one.
ghost use Rattle.std.specs.Prelude.{◌≡◌, ◌≢◌, ◌+◌, ◌*◌, ◌/◌, ◌^◌, ◌<◌, ◌≤◌, ℕ, IfNone, IfOk, IfSome, length, slice_index};
ghost use Rattle.scr_positions.specs.Coordinates.{value_at, HasNoGoal, IsNextGoal};
ghost use Rattle.scr_positions.specs.Products.{product_coordinate, side_by_side};
ghost use Rattle.scr_positions.specs.SearchSpaces.{ShowsSame};

use crate::coordinate::{Coord, NOWHERE};
use crate::move_table::MoveTable;
use scr_outside::NoMemory;
use std::alloc::Global;

/// Two coordinates side by side: position `low + low_count * high` stands for one position of each. A turn moves both,
/// and is barred where either bars it; a goal is where both have one.
pub struct Product<L: Coord, H: Coord> {
    /// The coordinate whose positions follow each other.
    low: L,
    /// The other.
    high: H,
    ghost same_turns: { (H.coordinate high).turns ≡ (L.coordinate low).turns },
    ghost fits: { (L.coordinate low).count * (H.coordinate high).count < 2 ^ 32 },
}

// By hand, so that the proof of whoever lets one go meets one call, and not the letting go of each of its parts.
impl<L: Coord + Drop, H: Coord + Drop> Drop for Product<L, H> {
    fn drop(self) {
        let Product { low: _, high: _ } = self;
    }
}

impl<L: Coord, H: Coord> Product<L, H> {
    /// The product of two coordinates that have the same turns, and fewer than 2^32 pairs of positions.
    pub fn new(low: L, high: H) -> Product<L, H>
        requires same_turns { (H.coordinate high).turns ≡ (L.coordinate low).turns }
        requires fits { (L.coordinate low).count * (H.coordinate high).count < 2 ^ 32 }
        ensures { ⟦<Product<L, H> as Coord>⟧.coordinate result ≡ product_coordinate (L.coordinate low) (H.coordinate high) }
    {
        Product { low, high }
    }
}

impl<L: Coord, H: Coord> Product<L, H> {
    /// Enters the values that a turn leads to from the positions with this high part, as far as they are among those
    /// that are asked for, `start` first.
    fn look_along_row(&self, values: &[u8], high: u32, turn: u32, start: u32, into: &mut [u8])
        requires values { length values.now ≡ (L.coordinate self.now.low).count * (H.coordinate self.now.high).count }
        requires high { high < (H.coordinate self.now.high).count }
        requires turn { turn < (L.coordinate self.now.low).turns }
        requires positions { start + length into.old ≤ (L.coordinate self.now.low).count * (H.coordinate self.now.high).count }
        requires reached { let n = (L.coordinate self.now.low).count in (start < (high + 1) * n)
            × (high * n < start + length into.old) }
        ensures entered { let c = product_coordinate (L.coordinate self.now.low) (H.coordinate self.now.high) in
            (k : ℕ) → k < length into.old → (start + k) / (L.coordinate self.now.low).count ≡ high
            → slice_index into.new k ≡ value_at values.now (c.after (start + k) turn) }
        ensures kept { (k : ℕ) → k < length into.old → (start + k) / (L.coordinate self.now.low).count ≢ high
            → slice_index into.new k ≡ slice_index into.old k }
    {
        let low_count = self.low.count();
        let first = high * low_count;
        let from = start.max(first);
        let to = (first + low_count).min(start + into.len() as u32);
        let part = &mut into[(from - start) as usize..(to - start) as usize];
        self.look_in_row(
            values,
            self.high.after(high, turn),
            turn,
            from - first,
            part,
        );
    }

    /// Enters the values that a turn leads to from positions with one high part, which it leads to another or nowhere.
    /// `start` is the low part of the first.
    fn look_in_row(
        &self,
        values: &[u8],
        turned: Option<u32>,
        turn: u32,
        start: u32,
        into: &mut [u8],
    )
        requires values { length values.now ≡ (L.coordinate self.now.low).count * (H.coordinate self.now.high).count }
        requires turned { IfSome turned (λ b. b < (H.coordinate self.now.high).count) }
        requires turn { turn < (L.coordinate self.now.low).turns }
        requires positions { start + length into.old ≤ (L.coordinate self.now.low).count }
        ensures { let low = L.coordinate self.now.low in (k : ℕ) → k < length into.old
            → slice_index into.new k ≡ value_at values.now (side_by_side low.count (low.after (start + k) turn) turned) }
    {
        match turned {
            Some(high) => {
                let low_count = self.low.count() as usize;
                let first = high as usize * low_count;
                self.low
                    .look(&values[first..first + low_count], start, turn, into);
            }
            None => into.fill(NOWHERE),
        }
    }
}

impl<L: Coord, H: Coord> Product<L, H> {
    /// The first goal from a position on, if there is one with the same high part.
    fn goal_in_row(&self, from: u32) -> Option<u32>
        requires { from < (L.coordinate self.now.low).count * (H.coordinate self.now.high).count }
        ensures goal { IfSome result (IsNextGoal (product_coordinate (L.coordinate self.now.low) (H.coordinate self.now.high)) from) }
        ensures none { let n = (L.coordinate self.now.low).count in
            IfNone result (HasNoGoal (product_coordinate (L.coordinate self.now.low) (H.coordinate self.now.high)) from (n * (from / n + 1))) }
    {
        let low_count = self.low.count();
        let row = from / low_count;
        if !self.high.is_goal(row) {
            return None;
        }
        let low = self.low.next_goal(from % low_count)?;
        let goal = low + low_count * row;
        Some(goal)
    }
}

impl Product<MoveTable, MoveTable> {
    /// The moves of two coordinates that have the same turns, and fewer than 2^32 pairs of positions. Only memory can
    /// be wanting.
    pub fn of_moves<L: Coord, H: Coord>(
        alloc: Global,
        low: &L,
        high: &H,
    ) -> Result<Product<MoveTable, MoveTable>, NoMemory>
        requires same_turns { (H.coordinate high.now).turns ≡ (L.coordinate low.now).turns }
        requires fits { (L.coordinate low.now).count * (H.coordinate high.now).count < 2 ^ 32 }
        ensures { let c = product_coordinate (L.coordinate low.now) (H.coordinate high.now) in
            IfOk result (λ pair. ShowsSame c (⟦<Product<MoveTable, MoveTable> as Coord>⟧.coordinate pair)) }
    {
        Ok(Product {
            low: MoveTable::build(alloc, low)?,
            high: MoveTable::build(alloc, high)?,
        })
    }
}

impl<L: Coord, H: Coord> Coord for Product<L, H> {
    ghost use Rattle.scr_positions.specs.Products.{product_coordinate};

    ghost coordinate = { λ p. product_coordinate (L.coordinate p.low) (H.coordinate p.high) };

    fn count(&self) -> u32 {
        self.low.count() * self.high.count()
    }

    fn turns(&self) -> u32 {
        self.low.turns()
    }

    // The parts don't depend on the turn, so that a loop over the turns of a position divides once.
    #[inline]
    fn after(&self, position: u32, turn: u32) -> Option<u32> {
        let low_count = self.low.count();
        let low = self.low.after(position % low_count, turn);
        let high = self.high.after(position / low_count, turn);
        match (low, high) {
            (Some(low), Some(high)) => Some(low + low_count * high),
            _ => None,
        }
    }

    // Positions with the same high part are a row, for which the high part is turned once. What the turn leads to from
    // there is a row too, in which the low part looks.
    fn look(&self, values: &[u8], start: u32, turn: u32, into: &mut [u8]) {
        if into.is_empty() {
            return;
        }
        let low_count = self.low.count();
        let end = start + into.len() as u32;
        for high in start / low_count..end.div_ceil(low_count) {
            self.look_along_row(values, high, turn, start, into);
        }
    }

    #[inline]
    fn is_goal(&self, position: u32) -> bool {
        let low_count = self.low.count();
        self.low.is_goal(position % low_count) && self.high.is_goal(position / low_count)
    }

    // Positions with the same high part are a row, and a goal is where both parts have one.
    fn next_goal(&self, from: u32) -> Option<u32> {
        if from == self.count() {
            return None;
        }
        match self.goal_in_row(from) {
            Some(goal) => Some(goal),
            None => {
                let low_count = self.low.count();
                let high = self.high.next_goal(from / low_count + 1)?;
                let low = self.low.next_goal(0)?;
                Some(low + low_count * high)
            }
        }
    }
}
