//! Pruning tables.
ghost use Rattle.std.specs.Prelude.{◌≡◌, ◌*◌, ◌<◌, ◌≤◌, ◌^◌, IfErr, IfOk, length};
ghost use Rattle.scr_positions.specs.Coordinates.{Coordinate};
ghost use Rattle.scr_positions.specs.Moves.{moves_coordinate};
ghost use Rattle.scr_positions.specs.SearchSpaces.{ShowsSame};
ghost use Rattle.scr_table.specs.Causes.{IsCause};
ghost use Rattle.scr_table.specs.Lines.{TableLine};
ghost use Rattle.scr_search.specs.Outlooks.{HasNearer, IsPruningTable};
ghost use Rattle.scr_search.specs.Views.{beside};

use crate::outlook::Outlook;
use crate::turn_set::TurnSet;
use scr_positions::{Coord, MoveTable, Product};
use scr_table::{BuildFault, DistanceTable, GREATEST_BOUND, TableName};
use std::alloc::Global;
use std::thread::Threads;

/// The bits of all turns.
const TURNS: u32 = TurnSet::ALL.bits;

/// A distance table, with the outlook of each position once these are found.
#[derive(Drop)]
pub struct PruningTable {
    /// How many turns a word from each position to the goal has at least.
    pub distances: DistanceTable,
    /// What is known of the turns from each position; empty until they are found.
    pub outlooks: Vec<Outlook>,
}

impl PruningTable {
    /// The table of a name and of what a coordinate of at most 18 turns shows, built by 1 to 64 workers, or why it
    /// isn't built. It may reach at most `GREATEST_BOUND` turns.
    pub fn build<R: Threads + Sync, C: Coord + Sync>(
        rt: &R,
        alloc: Global,
        reach: (TableName, u32),
        coord: &C,
        workers: u32,
    ) -> Result<PruningTable, BuildFault>
        requires bound { reach.1 ≤ GREATEST_BOUND }
        requires turns { (C.coordinate coord.now).turns ≤ 18 }
        requires workers { (1 ≤ workers) × (workers ≤ 64) }
        ensures table { (c : Coordinate) → ShowsSame c (C.coordinate coord.now)
            → IfOk result (IsPruningTable (record { name = reach.0; coordinate = c; bound = reach.1 })) }
        ensures cause { (c : Coordinate) → ShowsSame c (C.coordinate coord.now)
            → IfErr result (IsCause reach.0 c reach.1) }
    {
        let (name, bound) = reach;
        let distances = DistanceTable::build(rt, alloc, name, coord, bound, workers)?;
        Ok(PruningTable {
            distances,
            outlooks: Vec::new(alloc),
        })
    }

    /// The turns of which one may be the next from a position where `left` turns may still be made: by its outlook, and
    /// where none is found by its distance alone.
    #[inline]
    pub fn turns_within(&self, position: u32, left: u32) -> TurnSet
        requires { position < length self.now.distances.distances }
        ensures nearer { (line : TableLine) → IsPruningTable line self.now
            → HasNearer line.coordinate self.now.distances.distances position left result.bits }
        ensures few { result.bits < 2 ^ 18 }
    {
        let Some(outlook) = self.outlooks.get(position as usize) else {
            if left < self.distances.distance(position) {
                return TurnSet::NONE;
            }
            return TurnSet::ALL;
        };
        let distance = outlook.nearer >> 18;
        let bits = if left < distance {
            0
        } else if left == distance {
            outlook.nearer & TURNS
        } else if left == distance + 1 {
            outlook.no_farther & TURNS
        } else {
            TURNS
        };
        TurnSet { bits }
    }
}

/// Where turns lead in two coordinates side by side, of which the second comes first where `middle_first` says so.
pub(crate) fn beside<'a>(
    middle_first: bool,
    own: &'a MoveTable,
    middle: &'a MoveTable,
) -> Product<&'a MoveTable, &'a MoveTable>
    requires turns { middle.now.turns ≡ own.now.turns }
    requires fits { own.now.count * middle.now.count < 2 ^ 32 }
    ensures turns { (⟦<Product<&'a MoveTable, &'a MoveTable> as Coord>⟧.coordinate result).turns ≡ own.now.turns }
    ensures shows { (c d : Coordinate) → d.turns ≡ c.turns → ShowsSame c (moves_coordinate own.now) → ShowsSame d (moves_coordinate middle.now)
        → ShowsSame (beside middle_first c d) (⟦<Product<&'a MoveTable, &'a MoveTable> as Coord>⟧.coordinate result) }
{
    if middle_first {
        Product::new(middle, own)
    } else {
        Product::new(own, middle)
    }
}
