//! A worker's own part.

ghost use Rattle.std.specs.Prelude.{◌≡◌, All, IfOk};
ghost use Rattle.std.specs.Vec.{vec_len};
ghost use Rattle.std.specs.Option.{option_copied};
ghost use Rattle.scr_workers.specs.Boards.{own_of, seat_of, HasRoom};

use crate::rule::ClaimSeat;
use std::alloc::{AllocError, Global};

/// One worker's part: its seat, unless a worker has it or it was joined to another, and its own list of slots with
/// answers.
#[derive(Drop)]
pub struct Lane<T: Send + Drop> {
    pub(crate) seat: Option<ClaimSeat>,
    pub(crate) own: Vec<(u32, T)>,
}

/// Lanes for so many workers, with no seat yet. Each has room for the answers of all slots, so that no worker takes
/// memory.
pub fn empty_lanes<T: Send + Drop>(
    alloc: Global,
    workers: u32,
    slots: u32,
) -> Result<Vec<Lane<T>>, AllocError>
    ensures count { IfOk result (λ lanes. vec_len lanes ≡ workers) }
    ensures room { IfOk result (λ lanes. All (HasRoom slots) lanes.items) }
{
    let mut lanes = Vec::with_capacity(alloc, workers as usize)?;
    for _worker in 0..workers {
        let own = Vec::with_capacity(alloc, slots as usize)?;
        lanes.push_reserved(Lane { seat: None, own });
    }
    Ok(lanes)
}

impl<T: Send + Drop> Lane<T> {
    /// The slots that this worker answered, in the order in which it claimed them, each with its answer.
    pub fn own(&self) -> &[(u32, T)]
        ensures { result.now ≡ own_of self.now }
    {
        self.own.as_slice()
    }

    /// The worker's seat.
    pub fn seat(&self) -> Option<&ClaimSeat>
        ensures { option_copied result ≡ seat_of self.now }
    {
        self.seat.as_ref()
    }
}
