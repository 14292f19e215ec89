//! What the search for a part goes by: where turns lead, the pruning tables, and the near set.
ghost use Rattle.std.specs.Prelude.{◌≡◌, ℕ, ◌+◌, ◌-◌, ◌/◌, ◌%◌, ◌^◌, ◌<◌, ◌≤◌, All, Contains, IfErr, IfOk, IsTrue, List, Some, false, length, slice_index};
ghost use Rattle.scr_positions.specs.Moves.{moves_coordinate};
ghost use Rattle.scr_positions.specs.SearchSpaces.{ShowsSame};
ghost use Rattle.scr_combinatorics.specs.Words.{words_of};
ghost use Rattle.scr_cube.specs.Cube333.{CubeState};
ghost use Rattle.scr_table.specs.Causes.{IsCauseOf};
ghost use Rattle.scr_table.specs.Lines.{HasNoGap};
ghost use Rattle.scr_search.specs.Near.{IsInSet, IsNear};
ghost use Rattle.scr_search.specs.Orderly.{after_turn, leads};
ghost use Rattle.scr_search.specs.Outlooks.{AreOutlooksOf, IsPruningTable};
ghost use Rattle.scr_search.specs.Search.{IsAt, KeepsWays};
ghost use Rattle.scr_search.specs.TurnSets.{contains_turn};
ghost use Rattle.scr_search.specs.Views.{AreViews, Shows, lines_of, one_line, other_line, part_number, view_beside};

use crate::near_set::{NEAR_AT, NearSet};
use crate::outlook::{Outlook, outlooks};
use crate::part::{Part, Word};
use crate::position::{BLOCK, PartPosition};
use crate::pruning::{PruningTable, beside};
use crate::turn_set::TurnSet;
use scr_positions::{Coord, MoveTable};
use scr_table::BuildFault;
use std::alloc::{AllocError, Global};
use std::marker::PhantomData;
use std::thread::Threads;

/// Where turns lead in the three coordinates of a part, its pruning tables, each of one of its own coordinates beside
/// the middle layer's, and its near set, which is that of all cubes until it is built.
#[derive(Drop)]
pub struct SearchTables<P: Part> {
    one: MoveTable,
    other: MoveTable,
    middle: MoveTable,
    /// The pruning table of the first of the part's own coordinates.
    pub one_slice: PruningTable,
    /// That of the other.
    pub other_slice: PruningTable,
    /// The near set: a word from a cube that it lacks to the part's end has more than seven turns.
    pub near: NearSet,
    part: PhantomData<P>,
    ghost one_shown: { ShowsSame P.views.one.coordinate (moves_coordinate one) },
    ghost other_shown: { ShowsSame P.views.other.coordinate (moves_coordinate other) },
    ghost middle_shown: { ShowsSame P.views.middle.coordinate (moves_coordinate middle) },
    ghost one_is: { IsPruningTable (one_line P.views P.extent) one_slice },
    ghost other_is: { IsPruningTable (other_line P.views P.extent) other_slice },
    ghost near_is: { IsNear P.views 7 (IsInSet near) },
}

impl<P: Part> SearchTables<P> {
    /// The tables, built by 1 to 64 workers, or why one isn't built.
    pub fn build<R: Threads + Sync>(
        rt: &R,
        alloc: Global,
        workers: u32,
    ) -> Result<SearchTables<P>, BuildFault>
        requires workers { (1 ≤ workers) × (workers ≤ 64) }
        ensures whole { IfOk result (λ _. All HasNoGap (lines_of P.views P.extent)) }
        ensures cause { IfErr result (IsCauseOf (lines_of P.views P.extent)) }
    {
        let extent = P::extent();
        let one = P::one_moves(alloc)?;
        let other = P::other_moves(alloc)?;
        let middle = P::middle_moves(alloc)?;
        let one_slice = PruningTable::build(
            rt,
            alloc,
            (extent.one_table, extent.bound),
            &beside(extent.middle_first, &one, &middle),
            workers,
        )?;
        let other_slice = PruningTable::build(
            rt,
            alloc,
            (extent.other_table, extent.bound),
            &beside(extent.middle_first, &other, &middle),
            workers,
        )?;
        Ok(SearchTables {
            one,
            other,
            middle,
            one_slice,
            other_slice,
            near: NearSet {
                blocks: Vec::new(alloc),
            },
            part: PhantomData,
        })
    }

    /// The outlooks of one pruning table, or of the other, found by 1 to 64 workers.
    pub fn outlooks<R: Threads + Sync>(
        &self,
        rt: &R,
        alloc: Global,
        of_one: bool,
        workers: u32,
    ) -> Result<Vec<Outlook>, AllocError>
        requires workers { (1 ≤ workers) × (workers ≤ 64) }
        ensures one { IsTrue of_one
            → IfOk result (λ all. AreOutlooksOf (one_line P.views P.extent) self.now.one_slice all.items) }
        ensures other { of_one ≡ false
            → IfOk result (λ all. AreOutlooksOf (other_line P.views P.extent) self.now.other_slice all.items) }
    {
        let extent = P::extent();
        if of_one {
            let moves = beside(extent.middle_first, &self.one, &self.middle);
            outlooks(rt, alloc, &moves, &self.one_slice.distances, workers)
        } else {
            let moves = beside(extent.middle_first, &self.other, &self.middle);
            outlooks(rt, alloc, &moves, &self.other_slice.distances, workers)
        }
    }

    /// Takes in outlooks and a near set.
    pub fn take_in(&mut self, of_one: Vec<Outlook>, of_other: Vec<Outlook>, near: NearSet)
        requires of_one { AreOutlooksOf (one_line P.views P.extent) self.old.one_slice of_one.items }
        requires of_other { AreOutlooksOf (other_line P.views P.extent) self.old.other_slice of_other.items }
        requires near { IsNear P.views 7 (IsInSet near) }
        ensures one { self.new.one_slice.distances ≡ self.old.one_slice.distances }
        ensures other { self.new.other_slice.distances ≡ self.old.other_slice.distances }
    {
        self.one_slice.outlooks = of_one;
        self.other_slice.outlooks = of_other;
        self.near = near;
    }

    /// The turns of which one may be the next behind a word that leads to a position, where `left` turns, one or more,
    /// are still to be made.
    #[inline]
    pub(crate) fn turns_behind(&self, word: &Word, at: PartPosition, left: u32) -> TurnSet
        requires at { (c : CubeState) × IsAt P.views c word.now.items at }
        requires some { 0 < left }
        ensures kept { (c : CubeState) → IsAt P.views c word.now.items at → KeepsWays P.views c word.now.items left result.bits }
        ensures last { left ≡ 1 → (place : ℕ) → IsTrue (contains_turn result.bits place)
            → IsTrue (P.views.is_last (slice_index P.views.turns place)) }
        ensures few { result.bits < 2 ^ 18 }
    {
        let extent = P::extent();
        let face = match word.last() {
            None => 6,
            Some(turn) => usize::from(*turn / 3),
        };
        let one = extent.index(extent.ones, at.one, at.middle);
        let other = extent.index(extent.others, at.other, at.middle);
        let by_one = self.one_slice.turns_within(one, left);
        let by_other = self.other_slice.turns_within(other, left);
        let turns = TurnSet {
            bits: extent.behind[face] & by_one.bits & by_other.bits,
        };
        if left == 1 {
            return TurnSet {
                bits: turns.bits & extent.last.bits,
            };
        }
        if left != NEAR_AT || self.near.blocks.is_empty() {
            return turns;
        }
        // Of these the turns that lead into the near set.
        let mut others = turns;
        let mut into = TurnSet::NONE;
        while let Some(place) = others.pop() {
            let next = Self::number_of(self.after(at, place));
            into = into.with_if(place, self.near.has(next));
        }
        into
    }

    /// Where the turn at a place leads.
    #[inline]
    pub(crate) fn after(&self, at: PartPosition, place: u32) -> PartPosition
        requires views { AreViews P.views P.extent }
        requires place { place < length P.views.turns }
        ensures { (c d : CubeState) → Shows P.views c at → after_turn c (slice_index P.views.turns place) ≡ Some d
            → Shows P.views d result }
    {
        PartPosition {
            one: self.one.target(at.one, place),
            other: self.other.target(at.other, place),
            middle: self.middle.target(at.middle, place),
        }
    }

    /// The number of the cubes that a position shows, if it shows any.
    #[inline]
    pub(crate) fn number_of(at: PartPosition) -> u64
        ensures { (c : CubeState) → Shows P.views c at → result ≡ part_number P.views c }
    {
        let low = at.other.wrapping_mul(P::extent().ones).wrapping_add(at.one);
        u64::from(at.middle) * BLOCK + u64::from(low)
    }

    /// The place in its block of the number of the cubes to which the turn at a place leads from those with a number,
    /// which is told by its place in its block, if there are any.
    #[inline]
    pub(crate) fn number_after(&self, number: u32, place: u32) -> u32
        requires { place < length P.views.turns }
        ensures { (c d : CubeState) → P.views.IsSeen c → number ≡ part_number P.views c % 2 ^ 32
            → after_turn c (slice_index P.views.turns place) ≡ Some d → result ≡ part_number P.views d % 2 ^ 32 }
    {
        let extent = P::extent();
        let one = self.one.target(number % extent.ones, place);
        let other = self.other.target(number / extent.ones, place);
        other.wrapping_mul(extent.ones).wrapping_add(one)
    }

    /// The block to which the turn at a place leads from the cubes of a block, if there are any.
    #[inline]
    pub(crate) fn block_after(&self, block: u32, place: u32) -> u32
        requires views { AreViews P.views P.extent }
        requires place { place < length P.views.turns }
        ensures { (c d : CubeState) → P.views.IsSeen c → block ≡ part_number P.views c / 2 ^ 32
            → after_turn c (slice_index P.views.turns place) ≡ Some d → result ≡ part_number P.views d / 2 ^ 32 }
    {
        self.middle.target(block, place)
    }
}
