//! Numbers by their blocks, and what one turn more adds to them, block by block.
ghost use Rattle.std.specs.Prelude.{◌≡◌, ℕ, ◌+◌, ◌/◌, ◌%◌, ◌^◌, ◌<◌, ◌≤◌, All, Contains, IfOk, IsTrue, None, Some, false, length, slice_index, slice_index_or};
ghost use Rattle.scr_cube.specs.Cube333.{CubeState};
ghost use Rattle.scr_search.specs.Near.{IsNear};
ghost use Rattle.scr_search.specs.Spread.{IsListed, IsSpread, IsThere, numbers_in};
ghost use Rattle.scr_search.specs.Orderly.{after_turn};
ghost use Rattle.scr_search.specs.Views.{AreViews, part_number};

use crate::part::Part;
use crate::position::BLOCK;
use crate::search_tables::SearchTables;
use scr_workers::{Jobs, OpenGate, run_chunks};
use std::alloc::{AllocError, Global};
use std::thread::Threads;

/// The numbers of a block that are listed, each told by its place in its block, in order: none yet, or those that a
/// worker found, if there was memory for them.
pub(crate) type Listed = Option<Result<Vec<u32>, AllocError>>;

/// A set of numbers of a block that grows.
pub(crate) trait Numbers {
    ghost use Rattle.std.specs.Prelude.{ℕ};

    /// Whether it has a number, maybe beside others than those that were entered.
    ghost Has: { Self → ℕ → Type 0 };

    /// Enters a number.
    fn enter(&mut self, number: u32)
        ensures there { Has self.new number }
        ensures kept { (other : ℕ) → Has self.old other → Has self.new other };
}

/// Numbers in a list, as far as there is memory.
#[derive(Drop)]
struct Growing {
    numbers: Vec<u32>,
    is_cut: bool,
}

impl Numbers for Growing {
    ghost use Rattle.std.specs.Prelude.{◌≡◌, Contains, false};

    ghost Has = { λ list number. list.is_cut ≡ false → Contains list.numbers.items number };

    #[inline]
    fn enter(&mut self, number: u32) {
        if self.numbers.push(number).is_err() {
            self.is_cut = true;
        }
    }
}

/// Enters those of the listed numbers that are of a block, and those of its cubes from which one turn leads to a listed
/// one.
pub(crate) fn spread<P: Part, N: Numbers>(
    tables: &SearchTables<P>,
    lists: &[Listed],
    block: u32,
    into: &mut N,
)
    ensures { IsSpread P.views lists.now block (N.Has into.new) }
{
    let extent = P::extent();
    enter_all(numbers_in(lists, block), into);
    for place in 0..extent.turns {
        let from = tables.block_after(block, place);
        let back = extent.backs[place as usize];
        enter_turned(tables, numbers_in(lists, from), back, into);
    }
}

/// How many numbers are entered so. It is but the room that is reserved for them: no clause says so, and none needs to.
fn room_for<P: Part>(tables: &SearchTables<P>, lists: &[Listed], block: u32) -> usize {
    let extent = P::extent();
    let mut room = numbers_in(lists, block).len();
    for turn in 0..extent.turns {
        let from = tables.block_after(block, turn);
        room = room.saturating_add(numbers_in(lists, from).len());
    }
    room
}

/// The listed numbers of a block.
fn numbers_in(lists: &[Listed], block: u32) -> &[u32]
    ensures { result.now ≡ numbers_in (slice_index_or lists.now block None) }
{
    match lists.get(block as usize) {
        Some(Some(Ok(list))) => &list[..],
        _ => &[],
    }
}

/// Enters some numbers.
fn enter_all<N: Numbers>(numbers: &[u32], into: &mut N)
    ensures { All (N.Has into.new) numbers.now }
{
    for number in numbers {
        into.enter(*number);
    }
}

/// Enters the numbers of the cubes to which the turn at a place leads from the cubes with some numbers of a block.
#[inline]
fn enter_turned<P: Part, N: Numbers>(
    tables: &SearchTables<P>,
    numbers: &[u32],
    place: u32,
    into: &mut N,
)
    requires { place < length P.views.turns }
    ensures turned { (c d : CubeState) → P.views.IsSeen c → Contains numbers.now (part_number P.views c % 2 ^ 32)
        → after_turn c (slice_index P.views.turns place) ≡ Some d → N.Has into.new (part_number P.views d % 2 ^ 32) }
    ensures kept { (other : ℕ) → N.Has into.old other → N.Has into.new other }
{
    for number in numbers {
        into.enter(tables.number_after(*number, place));
    }
}

/// The numbers of the cubes from which a word of at most `most` turns leads to an end, found by 1 to 64 workers.
pub(crate) fn numbers_within<R: Threads + Sync, P: Part + Sync>(
    rt: &R,
    alloc: Global,
    tables: &SearchTables<P>,
    most: u32,
    workers: u32,
) -> Result<Vec<Listed>, AllocError>
    requires views { AreViews P.views P.extent }
    requires workers { (1 ≤ workers) × (workers ≤ 64) }
    ensures { IfOk result (λ all. IsNear P.views most (IsListed all.items)) }
{
    let mut all = end_alone::<P>(alloc)?;
    for _turn in 0..most {
        all = one_turn_more(rt, alloc, tables, &all[..], workers)?;
    }
    Ok(all)
}

/// That of the cubes at the end.
fn end_alone<P: Part>(alloc: Global) -> Result<Vec<Listed>, AllocError>
    ensures few { IfOk result (λ all. length all.items ≤ 2 ^ 16) }
    ensures blocks { IfOk result (λ all. (c : CubeState) → P.views.IsSeen c → part_number P.views c / 2 ^ 32 < length all.items) }
    ensures near { IfOk result (λ all. IsNear P.views 0 (IsListed all.items)) }
{
    let extent = P::extent();
    let mut all = Vec::new(alloc);
    for block in 0..extent.middles {
        let mut list = Vec::new(alloc);
        if extent.end / BLOCK == u64::from(block) {
            list.push((extent.end % BLOCK) as u32)?;
        }
        all.push(Some(Ok(list)))?;
    }
    Ok(all)
}

/// So many blocks, of which nothing is listed.
fn unlisted(alloc: Global, blocks: u32) -> Result<Vec<Listed>, AllocError>
    ensures { IfOk result (λ all. length all.items ≡ blocks) }
{
    let mut all = Vec::with_capacity(alloc, blocks as usize)?;
    for _block in 0..blocks {
        all.push(None)?;
    }
    Ok(all)
}

/// What workers find of the numbers with one turn more than those that are listed: a slot is a block.
#[derive(Drop)]
struct OneTurnMore<'a, P: Part> {
    tables: &'a SearchTables<P>,
    alloc: Global,
    lists: &'a [Listed],
}

impl<P: Part> Jobs for OneTurnMore<'_, P> {
    ghost use Rattle.std.specs.Prelude.{Contains, IfOk, length};
    ghost use Rattle.scr_search.specs.Spread.{IsSpread};

    type Out = Result<Vec<u32>, AllocError>;

    ghost slots = { λ s. length s.lists.now };

    ghost is_answer = { λ s block out. IfOk out (λ list. IsSpread P.views s.lists.now block (Contains list.items)) };

    fn job(&self, slot: u32) -> Result<Vec<u32>, AllocError> {
        let room = room_for(self.tables, self.lists, slot);
        let mut into = Growing {
            numbers: Vec::with_capacity(self.alloc, room)?,
            is_cut: false,
        };
        spread(self.tables, self.lists, slot, &mut into);
        if into.is_cut {
            return Err(AllocError);
        }
        // In order, each once.
        let mut all = into.numbers;
        all.sort_unstable();
        all.dedup();
        Ok(all)
    }
}

/// The numbers with one turn more than those that are listed, and these.
fn one_turn_more<R: Threads + Sync, P: Part + Sync>(
    rt: &R,
    alloc: Global,
    tables: &SearchTables<P>,
    lists: &[Listed],
    workers: u32,
) -> Result<Vec<Listed>, AllocError>
    requires views { AreViews P.views P.extent }
    requires workers { (1 ≤ workers) × (workers ≤ 64) }
    requires few { length lists.now ≤ 2 ^ 16 }
    requires blocks { (c : CubeState) → P.views.IsSeen c → part_number P.views c / 2 ^ 32 < length lists.now }
    ensures blocks { IfOk result (λ all. length all.items ≡ length lists.now) }
    ensures near { IfOk result (λ all. (most : ℕ) → IsNear P.views most (IsListed lists.now)
        → IsNear P.views (most + 1) (IsListed all.items)) }
{
    let mut all = unlisted(alloc, lists.len() as u32)?;
    let jobs = OneTurnMore {
        tables,
        alloc,
        lists,
    };
    let blocks = &mut all[..];
    run_chunks(rt, &jobs, blocks, workers, &OpenGate);
    if are_all_there(blocks) {
        Ok(all)
    } else {
        Err(AllocError)
    }
}

/// Whether the numbers of each block were found.
fn are_all_there(lists: &[Listed]) -> bool
    ensures { IsTrue result → (k : ℕ) → k < length lists.now → IsThere (slice_index_or lists.now k None) }
{
    for block in 0..lists.len() {
        let Some(Ok(_)) = &lists[block] else {
            return false;
        };
    }
    true
}
