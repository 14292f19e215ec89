//! The tables of the stages.
ghost use Rattle.std.specs.Prelude.{◌≡◌, ◌≤◌, [], ◌∷◌, All, IfErr, IfOk, map};
ghost use Rattle.scr_table.specs.Causes.{IsCauseOf};
ghost use Rattle.scr_table.specs.Lines.{AreTablesOf, HasNoGap};
ghost use Rattle.scr_stages.specs.Tables.{stage_lines};

use crate::lines::{FlipsLine, HalvesLine, SliceLine, TetradsLine};
use scr_table::{BuildFault, DistanceTable, LineTable, TableName, TableSet, table_named};
use std::alloc::Global;
use std::thread::Threads;

/// The tables of the four stages, with the moves by which they are walked down.
#[derive(Drop)]
pub struct StageTables {
    pub(crate) flips: LineTable<FlipsLine>,
    pub(crate) slice: LineTable<SliceLine>,
    pub(crate) tetrads: LineTable<TetradsLine>,
    pub(crate) halves: LineTable<HalvesLine>,
    ghost built: { AreTablesOf stage_lines (flips ∷ slice ∷ tetrads ∷ halves ∷ []) },
}

impl TableSet for StageTables {
    ghost use Rattle.std.specs.Prelude.{[], ◌∷◌};
    ghost use Rattle.scr_stages.specs.Tables.{stage_lines};

    ghost lines = { stage_lines };

    ghost distances = { λ t. t.flips ∷ t.slice ∷ t.tetrads ∷ t.halves ∷ [] };

    fn table(&self, name: TableName) -> Option<&DistanceTable> {
        table_named(&self.all()[..], name)
    }
}

impl StageTables {
    /// The tables, built in their order, each by 1 to 64 workers, or why they are not: there is no memory, or one has a
    /// gap. The first gap of the first such table is named.
    pub fn build<R: Threads + Sync>(
        rt: &R,
        alloc: Global,
        workers: u32,
    ) -> Result<StageTables, BuildFault>
        requires workers { (1 ≤ workers) × (workers ≤ 64) }
        ensures whole { IfOk result (λ _. All HasNoGap stage_lines) }
        ensures cause { IfErr result (IsCauseOf stage_lines) }
    {
        Ok(StageTables {
            flips: LineTable::build(rt, alloc, workers)?,
            slice: LineTable::build(rt, alloc, workers)?,
            tetrads: LineTable::build(rt, alloc, workers)?,
            halves: LineTable::build(rt, alloc, workers)?,
        })
    }

    /// All of them, in the order in which they are built.
    pub fn all(&self) -> [&DistanceTable; 4]
        ensures same { map (λ table. table.now) result ≡ ⟦<StageTables as TableSet>⟧.distances self.now }
        ensures built { AreTablesOf stage_lines (map (λ table. table.now) result) }
        ensures whole { All HasNoGap stage_lines }
    {
        [
            self.flips.distances(),
            self.slice.distances(),
            self.tetrads.distances(),
            self.halves.distances(),
        ]
    }
}
