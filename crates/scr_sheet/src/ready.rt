//! What is got ready before a seed is seen.

ghost use Rattle.std.specs.Prelude.{◌≡◌, ◌≤◌, All, IfErr, IfOk, map};
ghost use Rattle.scr_list.specs.RoundLists.{IsRounds};
ghost use Rattle.scr_slots.specs.Events.{scrambling_of};
ghost use Rattle.scr_slots.specs.Slots.{IsDrawnFairly};
ghost use Rattle.scr_sheet.specs.Ready.{IsReadyFor, IsUnready};
ghost use Rattle.scr_sheet.specs.Sheet.{round_parts};

use crate::room::{Room, most_slots};
use scr_list::Round;
use scr_slots::Tables;
use scr_table::BuildFault;
use std::alloc::Global;
use std::thread::Threads;

/// All that the making of rounds takes memory for: the tables of their events, and room for the rounds.
#[derive(Drop)]
pub(crate) struct Ready {
    /// The tables of the rounds' events.
    pub tables: Tables,
    /// Room for the rounds.
    pub room: Room,
}

impl Ready {
    /// For these rounds, each of which 1 to 64 workers answer. Nothing that is drawn is seen here, neither seed nor
    /// stream: so want of memory comes before the first draw, and tells nothing of it.
    pub fn for_rounds<R: Threads + Sync>(
        rt: &R,
        alloc: Global,
        rounds: &[Round],
        workers: u32,
    ) -> Result<Ready, BuildFault>
        requires rounds { IsRounds rounds.now }
        requires workers { (1 ≤ workers) × (workers ≤ 64) }
        ensures ready { IfOk result (IsReadyFor rounds.now) }
        ensures fair { IfOk result (λ _.
            All (λ part. IsDrawnFairly (scrambling_of part.event) part.least) (round_parts 0 rounds.now)) }
        ensures cause { IfErr result (IsUnready (map (λ part. part.event) (round_parts 0 rounds.now))) }
    {
        let tables = Tables::build(rt, alloc, rounds, workers)?;
        let room = Room::take(alloc, rounds.len() as u32, most_slots(rounds), workers)?;
        Ok(Ready { tables, room })
    }
}
