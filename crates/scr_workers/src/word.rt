//! A fresh claim word.

ghost use Rattle.std.specs.Prelude.{◌≡◌};
ghost use Rattle.scr_workers.specs.Seats.{IsFreshSeat};

use crate::rule::ClaimSeat;
use crate::table::ClaimTable;
use atomic_table::Table;
use scr_outside::NoMemory;
use std::alloc::Global;

/// The claim word at 0, and the one seat at it, which has the whole weight, 64. It serves one run of workers.
#[derive(Drop)]
pub struct ClaimWord {
    pub(crate) table: ClaimTable,
    pub(crate) seat: ClaimSeat,
    pub(crate) ghost fresh: { IsFreshSeat table.table.shared.table_id seat },
    pub(crate) ghost whole: { seat.me.0.weight ≡ 64 },
}

impl ClaimWord {
    /// A claim word, from which nothing was claimed yet. Memory for it may be wanting.
    pub fn new(alloc: Global) -> Result<ClaimWord, NoMemory> {
        let (table, seat) = Table::of_words(alloc, &[0], &())?;
        let table = ClaimTable { table };
        Ok(ClaimWord { table, seat })
    }
}
