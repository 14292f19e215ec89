//! The seats of a run's workers.

ghost use Rattle.std.specs.Prelude.{◌≡◌, ◌<◌, ◌≤◌, ℕ, length, slice_index_or, All, IsSomeAnd, sum_by};
ghost use Rattle.scr_workers.specs.Boards.{weight_in};
ghost use Rattle.scr_workers.specs.Seats.{IsFreshSeat};

use crate::lane::Lane;
use crate::rule::{ClaimSeat, Cut};
use crate::table::ClaimTable;

/// Gives each lane a seat, by cutting the one that has the whole weight.
pub(crate) fn seat_lanes<T: Send + Drop>(
    table: &ClaimTable,
    whole: ClaimSeat,
    lanes: &mut [Lane<T>],
)
    requires seat { IsFreshSeat table.now.table.shared.table_id whole }
    requires whole { whole.me.0.weight ≡ 64 }
    requires workers { (1 ≤ length lanes.old) × (length lanes.old ≤ 64) }
    ensures seats { All (λ lane. IsSomeAnd lane.seat (IsFreshSeat table.now.table.shared.table_id)) lanes.new }
    ensures weights { sum_by (λ lane. weight_in lane.seat) lanes.new ≡ 64 }
    ensures own { (i : ℕ) (d : _) → i < length lanes.old
        → (slice_index_or lanes.new i d).own ≡ (slice_index_or lanes.old i d).own }
{
    let mut first = whole;
    let last = lanes.len() - 1;
    for k in 0..last {
        let part = table.table.shared.split_seat::<Cut>(&mut first);
        lanes[k].seat = Some(part);
    }
    lanes[last].seat = Some(first);
}
