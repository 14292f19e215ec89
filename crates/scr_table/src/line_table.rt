//! The tables that searches go by, each a type of its own.
ghost use Rattle.std.specs.Prelude.{◌≡◌, ◌<◌, ◌≤◌, IfOk, IfErr};
ghost use Rattle.scr_combinatorics.specs.FirstWord.{IsFirstWord};
ghost use Rattle.scr_positions.specs.Coordinates.{moved, IsGoal};
ghost use Rattle.scr_positions.specs.SearchSpaces.{ShowsSame};
ghost use Rattle.scr_table.specs.Causes.{IsCause};
ghost use Rattle.scr_table.specs.Lines.{HasNoGap, IsTableOf};

use crate::fault::BuildFault;
use crate::name::TableName;
use crate::table::{DistanceTable, GREATEST_BOUND};
use arrayvec::ArrayVec;
use scr_outside::NoMemory;
use scr_positions::Coord;
use std::alloc::Global;
use std::marker::Model;
use std::thread::Threads;

/// What a table is called, what it is a table of, and how far it may reach. It is a type without values, to tell tables
/// apart.
pub trait Line {
    ghost use Rattle.std.specs.Prelude.{◌≡◌, ◌≤◌, IfOk};
    ghost use Rattle.scr_positions.specs.SearchSpaces.{ShowsSame};
    ghost use Rattle.scr_table.specs.Lines.{TableLine};

    /// All of this.
    ghost line: { TableLine };

    /// What it is called, and how far it may reach. Its turns have numbers of a byte.
    fn reach() -> (TableName, u32)
        ensures name { result.0 ≡ line.name }
        ensures bound { result.1 ≡ line.bound }
        ensures at_most { result.1 ≤ GREATEST_BOUND }
        ensures few_turns { line.coordinate.turns ≤ 256 };

    /// The moves by which it is built and walked down.
    type Moves: Coord + Drop;

    /// Makes them. They show what it is a table of; only memory can be wanting.
    fn moves(alloc: Global) -> Result<Self::Moves, NoMemory>
        ensures { IfOk result (λ moves. ShowsSame line.coordinate (Self.Moves.coordinate moves)) };
}

/// The built table of a line, with the moves by which it is walked down.
pub struct LineTable<L: Line> {
    pub(crate) moves: L::Moves,
    pub(crate) distances: DistanceTable,
}

// By hand, so that the proof of whoever lets one go meets one call, and not the letting go of each of its parts.
impl<L: Line> Drop for LineTable<L> {
    fn drop(self) {
        let LineTable {
            moves: _,
            distances: _,
        } = self;
    }
}

// Clauses see what stands in the table.
impl<L: Line> Model for LineTable<L> {
    ghost use Rattle.scr_table.specs.Distances.{Distances};
    ghost use Rattle.scr_table.specs.Lines.{IsTableWith};

    ghost Value = { Distances };

    ghost view = { λ t. t.distances };

    ghost invariant = { λ t. IsTableWith L.line (L.Moves.coordinate t.moves) t.distances };
}

impl<L: Line> LineTable<L> {
    /// The table, built by 1 to 64 workers, or why it isn't built: there is no memory for it, or it has a gap, of which
    /// the first is named.
    pub fn build<R: Threads + Sync>(
        rt: &R,
        alloc: Global,
        workers: u32,
    ) -> Result<LineTable<L>, BuildFault>
    where
        L::Moves: Sync,
        requires workers { (1 ≤ workers) × (workers ≤ 64) }
        ensures table { IfOk result (IsTableOf L.line) }
        ensures no_gap { IfOk result (λ _. HasNoGap L.line) }
        ensures cause { IfErr result (IsCause L.line.name L.line.coordinate L.line.bound) }
    {
        let (name, bound) = L::reach();
        let moves = L::moves(alloc)?;
        let distances = DistanceTable::build(rt, alloc, name, &moves, bound, workers)?;
        Ok(LineTable { moves, distances })
    }

    /// How far each position is from a goal.
    #[inline]
    pub fn distances(&self) -> &DistanceTable
        ensures same { result.now ≡ self.now }
        ensures table { IsTableOf L.line self.now }
        ensures no_gap { HasNoGap L.line }
    {
        &self.distances
    }

    /// The first word from a position, below the number of positions, to a goal.
    pub fn descend(&self, position: u32) -> ArrayVec<u8, GREATEST_BOUND>
        requires { position < L.line.coordinate.count }
        ensures first { IsFirstWord (moved L.line.coordinate) (IsGoal L.line.coordinate) position result.items }
        ensures table { IsTableOf L.line self.now }
    {
        self.distances.descend(&self.moves, position)
    }
}
