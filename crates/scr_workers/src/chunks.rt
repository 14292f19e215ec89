//! Slots answered in chunks, one for each worker.

ghost use Rattle.std.specs.Prelude.{◌≡◌, ◌+◌, ◌^◌, ◌<◌, ◌≤◌, length};
ghost use Rattle.scr_workers.specs.Answered.{AreAnswered};

use crate::gate::Gate;
use crate::jobs::Jobs;
use std::thread::{Threads, for_each_chunk_mut};

/// Answers each slot, in at most `workers` chunks, from 1 to 64. Afterwards each place of `out` has an answer of the
/// slot with its number.
///
/// `out` has as many places as there are slots, fewer than 2^32. With n slots and w workers a chunk has n divided by w
/// slots, rounded up, and the last may have fewer; a chunk is a run of slots without a gap. One chunk is run by the
/// caller, and where no thread can be made all are, one after another, with the same result. Each slot passes the gate
/// before its job.
pub fn run_chunks<R: Threads + Sync, J: Jobs + Sync, G: Gate + Sync>(
    rt: &R,
    jobs: &J,
    out: &mut [Option<J::Out>],
    workers: u32,
    gate: &G,
)
    requires workers { (1 ≤ workers) × (workers ≤ 64) }
    requires slots { length out.old ≡ J.slots jobs.now }
    requires few { length out.old < 2 ^ 32 }
    ensures { AreAnswered (J.is_answer jobs.now) out.new }
{
    if out.is_empty() {
        return;
    }
    let size = out.len().div_ceil(workers as usize);
    for_each_chunk_mut(
        rt,
        out,
        size,
        &|start: usize, part: &mut [Option<J::Out>]|
            requires { (start + length part.old ≤ J.slots jobs.now) × (start + length part.old < 2 ^ 32) }
        { answer_chunk(jobs, start, part, gate) },
    );
}

/// Answers the slots of one chunk, from slot `start` on.
fn answer_chunk<J: Jobs, G: Gate>(jobs: &J, start: usize, part: &mut [Option<J::Out>], gate: &G)
    requires slots { start + length part.old ≤ J.slots jobs.now }
    requires few { start + length part.old < 2 ^ 32 }
    ensures { AreAnswered (λ k. J.is_answer jobs.now (start + k)) part.new }
{
    for k in 0..part.len() {
        let slot = (start + k) as u32;
        gate.pass(slot);
        part[k] = Some(jobs.job(slot));
    }
}
