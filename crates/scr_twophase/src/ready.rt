//! What makes searches faster and changes no answer: the outlooks of both parts' tables, and their near sets, found
//! side by side.
ghost use Rattle.std.specs.Prelude.{◌≡◌, ◌≤◌, IfOk, IsTrue, false};
ghost use Rattle.scr_twophase.specs.Ready.{AreOnes, AreOthers, AreRest, IsNearOf};
ghost use Rattle.scr_twophase.specs.BothParts.{first_views};

use crate::first::FirstPart;
use crate::second::SecondPart;
use scr_search::{NEAR, NearSet, Outlook, SearchTables};
use scr_workers::{both, shared};
use std::alloc::{AllocError, Global};
use std::thread::Threads;

/// The outlooks of a table of each part.
#[derive(Drop)]
pub(crate) struct OutlookPair {
    pub first: Vec<Outlook>,
    pub second: Vec<Outlook>,
}

/// All but the near set of the first part.
#[derive(Drop)]
pub(crate) struct Others {
    /// By flips and by corners.
    pub ones: OutlookPair,
    /// By twists and by edges.
    pub others: OutlookPair,
    pub near: NearSet,
}

/// The near set of the first part, and all else, by workers who share them out: they take about the same time.
pub(crate) fn first_and_others<R: Threads + Sync>(
    rt: &R,
    alloc: Global,
    first: &SearchTables<FirstPart>,
    second: &SearchTables<SecondPart>,
    workers: u32,
) -> (Result<NearSet, AllocError>, Result<Others, AllocError>)
    requires workers { (1 ≤ workers) × (workers ≤ 64) }
    ensures first { IfOk result.0 (IsNearOf first_views) }
    ensures others { IfOk result.1
        (AreOthers first.now.one_slice first.now.other_slice second.now.one_slice second.now.other_slice) }
{
    let (front, back) = shared(workers);
    both(
        rt,
        workers,
        || -> Result<NearSet, AllocError>
            requires { (1 ≤ front) × (front ≤ 64) }
            ensures { IfOk result (IsNearOf first_views) }
        { NearSet::build(rt, alloc, first, NEAR, front) },
        || -> Result<Others, AllocError>
            requires { (1 ≤ back) × (back ≤ 64) }
            ensures { IfOk result (AreOthers first.entry.now.one_slice first.entry.now.other_slice
                second.entry.now.one_slice second.entry.now.other_slice) }
        { find_others(rt, alloc, first, second, back) },
    )
}

/// All but the near set of the first part, found by 1 to 64 workers, who share out the tables.
fn find_others<R: Threads + Sync>(
    rt: &R,
    alloc: Global,
    first: &SearchTables<FirstPart>,
    second: &SearchTables<SecondPart>,
    workers: u32,
) -> Result<Others, AllocError>
    requires workers { (1 ≤ workers) × (workers ≤ 64) }
    ensures { IfOk result (AreOthers first.now.one_slice first.now.other_slice second.now.one_slice second.now.other_slice) }
{
    let (front, back) = shared(workers);
    let (ones, others) = both(
        rt,
        workers,
        || -> Result<OutlookPair, AllocError>
            requires { (1 ≤ front) × (front ≤ 64) }
            ensures { IfOk result (AreOnes first.entry.now.one_slice second.entry.now.one_slice) }
        { outlook_pair(rt, alloc, first, second, true, front) },
        || -> Result<OutlookPair, AllocError>
            requires { (1 ≤ back) × (back ≤ 64) }
            ensures { IfOk result (AreRest first.entry.now.other_slice second.entry.now.other_slice) }
        { outlook_pair(rt, alloc, first, second, false, back) },
    );
    let ones = ones?;
    let others = others?;
    let near = NearSet::build(rt, alloc, second, NEAR, workers)?;
    Ok(Others { ones, others, near })
}

/// The outlooks of one table of each part, or of the other, found by 1 to 64 workers.
fn outlook_pair<R: Threads + Sync>(
    rt: &R,
    alloc: Global,
    first: &SearchTables<FirstPart>,
    second: &SearchTables<SecondPart>,
    of_one: bool,
    workers: u32,
) -> Result<OutlookPair, AllocError>
    requires workers { (1 ≤ workers) × (workers ≤ 64) }
    ensures ones { IsTrue of_one → IfOk result (AreOnes first.now.one_slice second.now.one_slice) }
    ensures rest { of_one ≡ false → IfOk result (AreRest first.now.other_slice second.now.other_slice) }
{
    let first = first.outlooks(rt, alloc, of_one, workers)?;
    let second = second.outlooks(rt, alloc, of_one, workers)?;
    Ok(OutlookPair { first, second })
}
