//! The built table of an event.
ghost use Rattle.std.specs.Prelude.{◌≡◌, ◌↔◌, ◌<◌, ◌≤◌, All, IfOk, IfErr, IfSome, IsSome};
ghost use Rattle.scr_positions.specs.Coordinates.{moved, IsGoal};
ghost use Rattle.scr_combinatorics.specs.FirstWord.{IsFirstWord};
ghost use Rattle.scr_table.specs.Causes.{IsCauseOf};
ghost use Rattle.scr_table.specs.Lines.{HasNoGap};
ghost use Rattle.scr_small.specs.Tables.{small_line, small_lines, IsBuilt};

use crate::parts::PartsLine;
use arrayvec::ArrayVec;
use scr_cube::Numbers222;
use scr_notation::Event;
use scr_table::{BuildFault, DistanceTable, GREATEST_BOUND, LineTable, TableName};
use scr_tetra::{SkewbNumbers, TetraminxNumbers};
use std::alloc::Global;
use std::marker::Model;
use std::thread::Threads;

/// The one table of an event whose states it solves, with the moves by which it is walked down.
pub struct SmallTables {
    held: OwnTable,
}

/// The table of one of the puzzles.
#[derive(Drop)]
enum OwnTable {
    Corners(LineTable<PartsLine<Numbers222>>),
    Pyramid(LineTable<PartsLine<TetraminxNumbers>>),
    Skewb(LineTable<PartsLine<SkewbNumbers>>),
}

// By hand, so that the proof of whoever lets one go meets one call, and not the letting go of each of its parts.
impl Drop for SmallTables {
    fn drop(self) {
        let SmallTables { held: _ } = self;
    }
}

// Clauses see whose table it is, and what stands in it.
impl Model for SmallTables {
    ghost use Rattle.scr_notation.specs.declared.event.Event.TheVariants.{C222, Pyram, Skewb as EventSkewb};
    ghost use Rattle.scr_small.specs.declared.tables.OwnTable.TheVariants.{Corners, Pyramid, Skewb};
    ghost use Rattle.scr_small.specs.Tables.{BuiltTable};

    ghost Value = { BuiltTable };

    ghost view = { λ t. elim t.held [
      | Corners table ↦ record { event = C222; distances = table }
      | Pyramid table ↦ record { event = Pyram; distances = table }
      | Skewb table ↦ record { event = EventSkewb; distances = table }
    ] };
}

impl SmallTables {
    /// The table of an event that one table solves, built by 1 to 64 workers, or why there is none.
    pub fn build<R: Threads + Sync>(
        rt: &R,
        alloc: Global,
        event: Event,
        workers: u32,
    ) -> Result<SmallTables, BuildFault>
        requires one_table { IsSome (small_line event) }
        requires workers { (1 ≤ workers) × (workers ≤ 64) }
        ensures event { IfOk result (λ tables. tables.event ≡ event) }
        ensures table { IfOk result IsBuilt }
        ensures whole { IfOk result (λ _. All HasNoGap (small_lines event)) }
        ensures cause { IfErr result (IsCauseOf (small_lines event)) }
    {
        let held = match event {
            Event::C222 => OwnTable::Corners(LineTable::build(rt, alloc, workers)?),
            Event::Pyram => OwnTable::Pyramid(LineTable::build(rt, alloc, workers)?),
            Event::Skewb => OwnTable::Skewb(LineTable::build(rt, alloc, workers)?),
            _ => unreachable!(),
        };
        Ok(SmallTables { held })
    }

    /// The built table of this name. `None` comes exactly where it isn't the table of this event.
    pub fn table(&self, name: TableName) -> Option<&DistanceTable>
        ensures found { IsSome result ↔ (name ≡ self.now.distances.name) }
        ensures value { IfSome result (λ table. table.now ≡ self.now.distances) }
        ensures built { IsBuilt self.now }
    {
        let table = self.only();
        if table.name() == name {
            Some(table)
        } else {
            None
        }
    }

    /// The one table.
    pub fn only(&self) -> &DistanceTable
        ensures same { result.now ≡ self.now.distances }
        ensures built { IsBuilt self.now }
        ensures whole { All HasNoGap (small_lines self.now.event) }
    {
        match &self.held {
            OwnTable::Corners(table) => table.distances(),
            OwnTable::Pyramid(table) => table.distances(),
            OwnTable::Skewb(table) => table.distances(),
        }
    }

    /// The first word from a position, below the number of positions, to a goal.
    pub(crate) fn descend(&self, position: u32) -> ArrayVec<u8, GREATEST_BOUND>
        requires { IfSome (small_line self.now.event) (λ line. position < line.coordinate.count) }
        ensures first { IfSome (small_line self.now.event) (λ line.
            IsFirstWord (moved line.coordinate) (IsGoal line.coordinate) position result.items) }
        ensures built { IsBuilt self.now }
    {
        match &self.held {
            OwnTable::Corners(table) => table.descend(position),
            OwnTable::Pyramid(table) => table.descend(position),
            OwnTable::Skewb(table) => table.descend(position),
        }
    }
}
