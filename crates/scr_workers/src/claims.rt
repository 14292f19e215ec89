//! Slots claimed one by one from a shared word.

ghost use Rattle.std.specs.Prelude.{◌≡◌, ℕ, ◌+◌, ◌^◌, ◌<◌, ◌≤◌, [], length, slice_index_or, All, map, sum_by};
ghost use Rattle.scr_workers.specs.Answered.{AreAnswered};
ghost use Rattle.scr_workers.specs.Boards.{IsFresh, IsFreshLane, HasRoom, KeepRoom, lane_count, weight_in, word_of};
ghost use Rattle.scr_workers.specs.Gather.{HasRun, AreDone, IsDone, IsSeated, without_seat, list_in};
ghost use Rattle.scr_workers.specs.Rule.{weigh};

use crate::board::Board;
use crate::gate::Gate;
use crate::jobs::Jobs;
use crate::lane::Lane;
use crate::laws;
use crate::rule::{Both, ClaimSeat, Look};
use crate::seats::seat_lanes;
use crate::table::ClaimTable;
use crate::word::ClaimWord;
use std::thread::{Threads, for_each_mut};

/// Answers each slot, in as many workers as the board has lanes. A worker claims its slots one by one, each by one
/// fetch-and-add of 1 on the board's word. Afterwards each place of `out` has an answer of the slot with its number.
///
/// The board is as `Board::new` makes it for as many slots as `out` has places, fewer than 2^32. It comes back with as
/// many lanes and empty own lists: the first lane has a seat, whose list has each number below the slots and the
/// workers together exactly once, and the others have none. With one lane no thread is started, and where none can be
/// made the workers run one after another, with the same result.
pub fn run_claims<R: Threads + Sync, J: Jobs + Sync, G: Gate + Sync>(
    rt: &R,
    board: Board<J::Out>,
    jobs: &J,
    out: &mut [Option<J::Out>],
    gate: &G,
) -> Board<J::Out>
    requires slots { length out.old ≡ J.slots jobs.now }
    requires few { length out.old < 2 ^ 32 }
    requires board { IsFresh (lane_count board) (length out.old) board }
    ensures out { AreAnswered (J.is_answer jobs.now) out.new }
    ensures board { IsDone (length out.old) board result }
{
    let Board { table, mut lanes } = board;
    run_lanes(rt, &table, lanes.as_mut_slice(), jobs, out, gate);
    Board { table, lanes }
}

/// As `run_claims`, by a word of its own and by lanes that earlier runs may have used: each answers slots as one worker.
/// The lanes are 1 to 64, whose own lists are empty and have room for all slots; so they are afterwards, and may be used
/// again. Of the seats the first lane has one, which claimed each number below the slots and the lanes together.
pub fn claim_slots<R: Threads + Sync, J: Jobs + Sync, G: Gate + Sync>(
    rt: &R,
    word: ClaimWord,
    lanes: &mut [Lane<J::Out>],
    jobs: &J,
    out: &mut [Option<J::Out>],
    gate: &G,
)
    requires slots { length out.old ≡ J.slots jobs.now }
    requires few { length out.old < 2 ^ 32 }
    requires workers { (1 ≤ length lanes.old) × (length lanes.old ≤ 64) }
    requires room { All (HasRoom (length out.old)) lanes.old }
    ensures out { AreAnswered (J.is_answer jobs.now) out.new }
    ensures lanes { AreDone (word_of word) (length out.old) (length lanes.old) lanes.new }
    ensures room { (slots : ℕ) → All (HasRoom slots) lanes.old → All (HasRoom slots) lanes.new }
{
    let ClaimWord { table, seat } = word;
    seat_lanes(&table, seat, lanes);
    run_lanes(rt, &table, lanes, jobs, out, gate);
}

/// Runs the lanes' workers, joins their seats to the first one's, and gathers their answers.
fn run_lanes<R: Threads + Sync, J: Jobs + Sync, G: Gate + Sync>(
    rt: &R,
    table: &ClaimTable,
    lanes: &mut [Lane<J::Out>],
    jobs: &J,
    out: &mut [Option<J::Out>],
    gate: &G,
)
    requires slots { length out.old ≡ J.slots jobs.now }
    requires few { length out.old < 2 ^ 32 }
    requires fresh { All (IsFreshLane table.now.table.shared.table_id (length out.old)) lanes.old }
    requires weights { sum_by (λ lane. weight_in lane.seat) lanes.old ≡ 64 }
    ensures out { AreAnswered (J.is_answer jobs.now) out.new }
    ensures lanes { AreDone table.now.table.shared.table_id (length out.old) (length lanes.old) lanes.new }
    ensures own { All (λ lane. lane.own.items ≡ []) lanes.new }
    ensures room { KeepRoom lanes.old lanes.new }
{
    let slots = out.len() as u32;
    run_workers(rt, table, lanes, jobs, slots, gate);
    let mut seat = join_seats(table, lanes);
    // The seat has the whole weight: the load tells that it claimed each number below the word exactly once.
    table.table.shared.load::<Look>(&mut seat, 0);
    laws::gather(jobs, lanes, out);
    lanes[0].seat = Some(seat);
}

/// Runs a worker in each lane.
fn run_workers<R: Threads + Sync, J: Jobs + Sync, G: Gate + Sync>(
    rt: &R,
    table: &ClaimTable,
    lanes: &mut [Lane<J::Out>],
    jobs: &J,
    slots: u32,
    gate: &G,
)
    requires some { 0 < length lanes.old }
    requires slots { slots ≡ J.slots jobs.now }
    requires fresh { All (IsFreshLane table.now.table.shared.table_id slots) lanes.old }
    ensures run { All (HasRun table.now.table.shared.table_id slots (J.is_answer jobs.now)) lanes.new }
    ensures weights { (i : ℕ) (d : _) → i < length lanes.old
        → weight_in (slice_index_or lanes.new i d).seat ≡ weight_in (slice_index_or lanes.old i d).seat }
    ensures room { KeepRoom lanes.old lanes.new }
{
    let workers = lanes.len();
    for_each_mut(
        rt,
        lanes,
        workers,
        &|_, lane: &mut Lane<J::Out>|
            requires { (slots ≡ J.slots jobs.now) × IsFreshLane table.now.table.shared.table_id slots lane.old }
        {
            if let Some(seat) = lane.seat.take() {
                lane.seat = Some(laws::work(table, seat, jobs, &mut lane.own, slots, gate));
            }
        },
    );
}

/// Joins all seats into one, which then has the whole weight.
fn join_seats<T: Send + Drop>(table: &ClaimTable, lanes: &mut [Lane<T>]) -> ClaimSeat
    requires some { 0 < length lanes.old }
    requires seated { All (IsSeated table.now.table.shared.table_id) lanes.old }
    ensures table { (result.table_id ≡ table.now.table.shared.table_id) × (result.me.1 ≡ []) }
    ensures weight { result.me.0.weight ≡ sum_by (λ lane. weight_in lane.seat) lanes.old }
    ensures list { (h : ℕ → ℕ) → weigh h result.me.0.list ≡ sum_by (λ lane. weigh h (list_in lane.seat)) lanes.old }
    ensures lanes { lanes.new ≡ map without_seat lanes.old }
{
    let Some(mut seat) = lanes[0].seat.take() else {
        unreachable!()
    };
    for k in 1..lanes.len() {
        let Some(other) = lanes[k].seat.take() else {
            unreachable!()
        };
        table.table.shared.join_seat::<Both>(&mut seat, other);
    }
    seat
}
