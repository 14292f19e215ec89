//! The claim word with its workers' parts.

ghost use Rattle.std.specs.Prelude.{◌≡◌, ◌≤◌, IfOk};
ghost use Rattle.scr_workers.specs.Boards.{IsFresh, lanes_of};

use crate::lane::{Lane, empty_lanes};
use crate::seats::seat_lanes;
use crate::table::ClaimTable;
use crate::word::ClaimWord;
use scr_outside::NoMemory;
use std::alloc::Global;

/// The claim word, with one lane for each worker.
#[derive(Drop)]
pub struct Board<T: Send + Drop> {
    pub(crate) table: ClaimTable,
    pub(crate) lanes: Vec<Lane<T>>,
}

impl<T: Send + Drop> Board<T> {
    /// The claim word at 0, and one lane for each of 1 to 64 workers. Each has a seat with an empty list and a weight
    /// of at least 1; the weights add up to 64. Each has room for the answers of all slots, so that no worker takes
    /// memory.
    pub fn new(alloc: Global, workers: u32, slots: u32) -> Result<Board<T>, NoMemory>
        requires { (1 ≤ workers) × (workers ≤ 64) }
        ensures { IfOk result (IsFresh workers slots) }
    {
        let ClaimWord { table, seat } = ClaimWord::new(alloc)?;
        let mut lanes = empty_lanes(alloc, workers, slots)?;
        seat_lanes(&table, seat, lanes.as_mut_slice());
        Ok(Board { table, lanes })
    }

    /// The lanes, one for each worker.
    pub fn lanes(&self) -> &[Lane<T>]
        ensures { result.now ≡ lanes_of self.now }
    {
        self.lanes.as_slice()
    }
}
