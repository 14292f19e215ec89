//! What stands between the steps on the claim word: what a worker does, how answers are gathered, and what claims are;
//! and that what workers leave does not depend on them.

ghost use Rattle.std.specs.Prelude.{◌≡◌, ◌≤◌, ◌<◌, ℕ, [], ◌∷◌, vec_capacity, length, All, List, Option, map};
ghost use Rattle.scr_workers.specs.Answered.{AreAnswered, HasAnswer, HaveOneAnswer};
ghost use Rattle.scr_workers.specs.Boards.{KeepRoom, own_of, seat_of, word_id};
ghost use Rattle.scr_workers.specs.Seats.{IsFreshSeat};
ghost use Rattle.scr_workers.specs.Gather.{HoldAnswers, HasSlotAnswer, times};
ghost use Rattle.scr_workers.specs.Schedules.{EachIsClaimedOnce, IsComplete, IsSchedule, times_claimed};
ghost use Rattle.scr_workers.specs.Work.{HasWorked, IsSameSeat, slot_of};

use crate::gate::Gate;
use crate::jobs::Jobs;
use crate::lane::Lane;
use crate::rule::{Claim, ClaimSeat};
use crate::table::ClaimTable;

/// What one worker does: it claims slots one by one and answers them, until the number that it claimed is no slot.
/// Each slot passes the gate before its job.
///
/// The seat is of this word and claimed nothing so far, and `own` is empty and has room for all slots.
pub fn work<J: Jobs + Sync, G: Gate + Sync>(
    table: &ClaimTable,
    mut seat: ClaimSeat,
    jobs: &J,
    own: &mut Vec<(u32, J::Out)>,
    slots: u32,
    gate: &G,
) -> ClaimSeat
    requires seat { IsFreshSeat (word_id table.now) seat }
    requires own { own.old.items ≡ [] }
    requires room { slots ≤ vec_capacity own.old }
    requires slots { slots ≡ J.slots jobs.now }
    ensures seat { IsSameSeat seat result }
    ensures claims { HasWorked slots (J.is_answer jobs.now) result own.new.items }
    ensures room { vec_capacity own.new ≡ vec_capacity own.old }
{
    loop {
        let number = table.table.shared.fetch_add::<Claim>(&mut seat, 0, 1);
        if number >= u64::from(slots) {
            return seat;
        }
        let slot = number as u32;
        gate.pass(slot);
        own.push_reserved((slot, jobs.job(slot)));
    }
}

/// Moves the answers of all own lists to their places. The own lists hold together each slot exactly once and no other
/// number, each with an answer of it; afterwards they are empty, and the seats are as they were.
pub fn gather<J: Jobs>(jobs: &J, lanes: &mut [Lane<J::Out>], out: &mut [Option<J::Out>])
    requires slots { length out.old ≡ J.slots jobs.now }
    requires lanes { HoldAnswers (length out.old) (J.is_answer jobs.now) lanes.old }
    ensures out { AreAnswered (J.is_answer jobs.now) out.new }
    ensures seats { map seat_of lanes.new ≡ map seat_of lanes.old }
    ensures own { All (λ lane. own_of lane ≡ []) lanes.new }
    ensures room { KeepRoom lanes.old lanes.new }
{
    for lane in lanes.iter_mut() {
        while let Some((slot, answer)) = lane.own.pop() {
            out[slot as usize] = Some(answer);
        }
    }
}

/// Each slot of a complete schedule is claimed exactly once.
pub fn schedule()
    ensures { EachIsClaimedOnce }
{}

/// Schedules that are complete, with the claims of each seat in its order. Of one seat and one slot: 0, and then 1, which
/// is no slot. Of two seats and two slots: the first seat claims 0 and 3, and the second 1 and 2. One that stops before
/// its seat claimed a number that is no slot is not complete.
pub fn known_schedules()
    ensures one_seat { IsSchedule 1 (0 ∷ 0 ∷ []) }
    ensures of_one { IsComplete 1 1 (0 ∷ 0 ∷ []) }
    ensures once { times_claimed 1 0 (0 ∷ 0 ∷ []) ≡ 1 }
    ensures two_seats { IsSchedule 2 (0 ∷ 1 ∷ 1 ∷ 0 ∷ []) }
    ensures of_two { IsComplete 2 2 (0 ∷ 1 ∷ 1 ∷ 0 ∷ []) }
    ensures not_ended { IsComplete 1 1 (0 ∷ []) → ⊥ }
{}

/// Where each slot has one answer, what is left does not depend on who answered: any two lists with a place for each
/// slot, and an answer of it there, are equal. So [`run_chunks`](crate::run_chunks) and
/// [`run_claims`](crate::run_claims), with any number of workers, leave what one worker leaves.
pub fn one_result<J: Jobs>(jobs: &J)
    ensures { HaveOneAnswer (J.slots jobs.now) (J.is_answer jobs.now) → (out other : List (Option J.Out))
        → length out ≡ J.slots jobs.now → length other ≡ J.slots jobs.now
        → AreAnswered (J.is_answer jobs.now) out → AreAnswered (J.is_answer jobs.now) other → out ≡ other }
{}
