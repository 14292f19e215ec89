//! The pruning tables, as callers see them.
ghost use Rattle.std.specs.Prelude.{◌≡◌, ◌≤◌, All, IfErr, IfOk, map};
ghost use Rattle.scr_table.specs.Causes.{IsCauseOf};
ghost use Rattle.scr_table.specs.Lines.{AreTablesOf, HasNoGap};
ghost use Rattle.scr_twophase.specs.Tables.{first_lines, prune_lines, second_lines};

use crate::first::FirstPart;
use crate::ready::{Others, first_and_others};
use crate::second::SecondPart;
use scr_search::SearchTables;
use scr_table::{BuildFault, DistanceTable, TableName, TableSet, table_named};
use scr_workers::{both, shared};
use std::alloc::{AllocError, Global};
use std::marker::Model;
use std::thread::Threads;

/// From so many cubes on near sets take less time to build than they save.
const MANY: u32 = 40;

/// The pruning tables of both parts, with the moves by which a search goes.
#[derive(Drop)]
pub struct PruneTables {
    pub(crate) first: SearchTables<FirstPart>,
    pub(crate) second: SearchTables<SecondPart>,
}

// Clauses see what stands in the tables.
impl Model for PruneTables {
    ghost use Rattle.std.specs.Prelude.{List};
    ghost use Rattle.scr_table.specs.Distances.{Distances};
    ghost use Rattle.scr_table.specs.Lines.{AreTablesOf};
    ghost use Rattle.scr_twophase.specs.Tables.{prune_lines};
    ghost use Rattle.scr_twophase.specs.Built.{distances_of};

    ghost Value = { List Distances };

    ghost view = { λ t. distances_of t.first.one_slice t.first.other_slice t.second.one_slice t.second.other_slice };

    ghost invariant = { λ t. AreTablesOf prune_lines
        (distances_of t.first.one_slice t.first.other_slice t.second.one_slice t.second.other_slice) };
}

impl TableSet for PruneTables {
    ghost use Rattle.scr_twophase.specs.Tables.{prune_lines};

    ghost lines = { prune_lines };

    ghost distances = { λ t. t };

    fn table(&self, name: TableName) -> Option<&DistanceTable> {
        table_named(&self.all()[..], name)
    }
}

impl PruneTables {
    /// The tables, built by 1 to 64 workers, who share out the two parts, or why they are not: there is no memory, or
    /// one has a gap. The first gap of the first such table is named.
    pub fn build<R: Threads + Sync>(
        rt: &R,
        alloc: Global,
        workers: u32,
    ) -> Result<PruneTables, BuildFault>
        requires workers { (1 ≤ workers) × (workers ≤ 64) }
        ensures whole { IfOk result (λ _. All HasNoGap prune_lines) }
        ensures cause { IfErr result (IsCauseOf prune_lines) }
    {
        let (front, back) = shared(workers);
        let (first, second) = both(
            rt,
            workers,
            || -> Result<SearchTables<FirstPart>, BuildFault>
                requires { (1 ≤ front) × (front ≤ 64) }
                ensures whole { IfOk result (λ _. All HasNoGap first_lines) }
                ensures cause { IfErr result (IsCauseOf first_lines) }
            { SearchTables::build(rt, alloc, front) },
            || -> Result<SearchTables<SecondPart>, BuildFault>
                requires { (1 ≤ back) × (back ≤ 64) }
                ensures whole { IfOk result (λ _. All HasNoGap second_lines) }
                ensures cause { IfErr result (IsCauseOf second_lines) }
            { SearchTables::build(rt, alloc, back) },
        );
        Ok(PruneTables {
            first: first?,
            second: second?,
        })
    }

    /// Makes ready for the search for the parts of so many cubes: where they are many, it builds what makes each search
    /// faster and changes no answer, by 1 to 64 workers. The tables stay the same, also where there is no memory for
    /// more.
    pub fn prepare<R: Threads + Sync>(
        &mut self,
        rt: &R,
        alloc: Global,
        cubes: u32,
        workers: u32,
    ) -> Result<(), AllocError>
        requires workers { (1 ≤ workers) × (workers ≤ 64) }
        ensures { self.new ≡ self.old }
    {
        if cubes < MANY {
            return Ok(());
        }
        let (near_first, others) = first_and_others(rt, alloc, &self.first, &self.second, workers);
        let near_first = near_first?;
        let Others { ones, others, near } = others?;
        self.first.take_in(ones.first, others.first, near_first);
        self.second.take_in(ones.second, others.second, near);
        Ok(())
    }

    /// All of them, in the order in which they are built.
    pub fn all(&self) -> [&DistanceTable; 4]
        ensures same { map (λ table. table.now) result ≡ self.now }
        ensures built { AreTablesOf prune_lines (map (λ table. table.now) result) }
        ensures whole { All HasNoGap prune_lines }
    {
        [
            &self.first.one_slice.distances,
            &self.first.other_slice.distances,
            &self.second.one_slice.distances,
            &self.second.other_slice.distances,
        ]
    }
}
