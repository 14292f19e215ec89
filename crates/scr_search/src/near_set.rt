//! Near sets: bit tables that have the numbers of all cubes from which few turns lead to the end of a part, and some
//! others.
ghost use Rattle.std.specs.Prelude.{◌≡◌, ℕ, ◌^◌, ◌<◌, ◌≤◌, IfOk, IsTrue, length};
ghost use Rattle.scr_cube.specs.Cube333.{CubeState};
ghost use Rattle.scr_search.specs.Near.{HasBits, IsInSet, IsNear, LeavesNear, first_bit, second_bit, word_of};
ghost use Rattle.scr_search.specs.TurnSets.{contains_turn};
ghost use Rattle.scr_search.specs.Views.{AreViews, Shows};

use crate::numbers::{Numbers, numbers_within, spread};
use crate::part::Part;
use crate::position::{BLOCK, PartPosition};
use crate::search_tables::SearchTables;
use crate::turn_set::TurnSet;
use std::alloc::{AllocError, Global};
use std::thread::{Threads, for_each_mut};

/// The near sets are of the cubes from which a word of at most so many turns leads to an end.
pub const NEAR: u32 = 7;

/// How many turns are still to be made where they are looked into: one more.
pub(crate) const NEAR_AT: u32 = 8;

/// How many words a block of numbers has.
const WORDS: usize = 4096;

/// A set of the numbers of a block, each of which has two bits of one word. It has each number that was entered, and
/// each other one of which both bits are set by those.
#[derive(Clone, Copy)]
pub struct NearBlock {
    /// The words, in which a number's mixed bits tell where its two bits stand.
    pub words: [u64; WORDS],
}

/// A near set: its blocks, each with its numbers. It has the numbers of any other block too.
#[derive(Drop)]
pub struct NearSet {
    /// The blocks, each of 2^32 numbers, in order. Without any it has all numbers, and leaves out nothing.
    pub blocks: Vec<NearBlock>,
}

/// Where the bits of a number of a block stand.
#[derive(Clone, Copy)]
struct Seat {
    word: usize,
    first: u32,
    second: u32,
}

impl Seat {
    /// The seat of a number.
    #[inline]
    #[tactic(auto, unfolding(crate::specs::Near::mixed, crate::specs::Near::word_of, crate::specs::Near::first_bit, crate::specs::Near::second_bit))]
    fn of(number: u32) -> Seat
        ensures word { result.word ≡ word_of number }
        ensures first { result.first ≡ first_bit number }
        ensures second { result.second ≡ second_bit number }
        ensures below { (result.word < 4096) × (result.first < 64) × (result.second < 64) }
    {
        let mixed = number.wrapping_mul(0x9E37_79B1);
        Seat {
            word: (mixed >> 20) as usize,
            first: (mixed >> 14) % 64,
            second: (mixed >> 8) % 64,
        }
    }
}

impl NearBlock {
    /// No number.
    const EMPTY: NearBlock = NearBlock { words: [0; WORDS] };
}

impl NearSet {
    /// The set of the cubes from which a word of at most `most` turns leads to an end, made by 1 to 64 workers.
    pub fn build<R: Threads + Sync, P: Part + Sync>(
        rt: &R,
        alloc: Global,
        tables: &SearchTables<P>,
        most: u32,
        workers: u32,
    ) -> Result<NearSet, AllocError>
        requires most { 0 < most }
        requires workers { (1 ≤ workers) × (workers ≤ 64) }
        ensures { IfOk result (λ set. IsNear P.views most (IsInSet set)) }
    {
        let extent = P::extent();
        let lists = numbers_within(rt, alloc, tables, most - 1, workers)?;
        let mut blocks = vec![in alloc; NearBlock::EMPTY; extent.middles as usize]?;
        // Into each block go the numbers in it of the listed cubes, and of those to which one turn more leads.
        let lists = &lists[..];
        for_each_mut(
            rt,
            &mut blocks[..],
            workers as usize,
            &|block: usize, into: &mut NearBlock|
                requires { block < 2 ^ 16 }
            { spread(tables, lists, block as u32, into) },
        );
        Ok(NearSet { blocks })
    }

    /// Whether it has a number.
    #[inline]
    #[tactic(auto, using(crate::proofs::Cited::has))]
    pub fn has(&self, number: u64) -> bool
        ensures { IsInSet self.now number → IsTrue result }
    {
        let Some(block) = self.blocks.get((number / BLOCK) as usize) else {
            return true;
        };
        let seat = Seat::of((number % BLOCK) as u32);
        let word = block.words[seat.word];
        let first = word >> seat.first & 1;
        let second = word >> seat.second & 1;
        first & second == 1
    }
}

impl Numbers for NearBlock {
    ghost use Rattle.scr_search.specs.Near.{HasBits};

    ghost Has = { λ block. HasBits block.words };

    #[inline]
    fn enter(&mut self, number: u32) {
        let seat = Seat::of(number);
        let word = self.words[seat.word];
        self.words[seat.word] = word | 1 << seat.first | 1 << seat.second;
    }
}
