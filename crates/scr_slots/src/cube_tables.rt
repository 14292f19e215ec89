//! The tables of the 3x3x3: those of its four stages, and those of the search for two parts.

ghost use Rattle.std.specs.Prelude.{◌≤◌, All, map, IfErr, IfOk};
ghost use Rattle.scr_table.specs.Causes.{IsCauseOf};
ghost use Rattle.scr_table.specs.Lines.{AreTablesOf, HasNoGap};
ghost use Rattle.scr_notation.specs.declared.event.Family.TheVariants as family;
ghost use Rattle.scr_slots.specs.TableLines.{family_lines};
ghost use Rattle.scr_stages.specs.Tables.{stage_lines};
ghost use Rattle.scr_twophase.specs.Tables.{prune_lines};

use scr_stages::StageTables;
use scr_table::{BuildFault, DistanceTable};
use scr_twophase::PruneTables;
use scr_workers::{both, shared};
use std::alloc::Global;
use std::thread::Threads;

/// The tables by which a 3x3x3 is solved.
pub(crate) struct CubeTables {
    /// Those of the four stages.
    pub stages: StageTables,
    /// Those of the search for two parts.
    pub prune: PruneTables,
}

// Not derived: a derived `Drop` drops part by part wherever tables are dropped, and this one is a single call.
impl Drop for CubeTables {
    fn drop(self) {
        let CubeTables {
            stages: _,
            prune: _,
        } = self;
    }
}

impl CubeTables {
    /// All eight, built by 1 to 64 workers, who share out the stages and the parts, or why one isn't built. They are
    /// made ready for so many cubes.
    #[tactic(auto, unfolding(crate::specs::TableLines::family_lines))]
    pub fn build<R: Threads + Sync>(
        rt: &R,
        alloc: Global,
        cubes: u32,
        workers: u32,
    ) -> Result<CubeTables, BuildFault>
        requires workers { (1 ≤ workers) × (workers ≤ 64) }
        ensures whole { IfOk result (λ _. All HasNoGap (family_lines family.Cube333)) }
        ensures cause { IfErr result (IsCauseOf (family_lines family.Cube333)) }
    {
        let (front, back) = shared(workers);
        let (stages, prune) = both(
            rt,
            workers,
            || -> Result<StageTables, BuildFault>
                requires { (1 ≤ front) × (front ≤ 64) }
                ensures whole { IfOk result (λ _. All HasNoGap stage_lines) }
                ensures cause { IfErr result (IsCauseOf stage_lines) }
            { StageTables::build(rt, alloc, front) },
            || -> Result<PruneTables, BuildFault>
                requires { (1 ≤ back) × (back ≤ 64) }
                ensures whole { IfOk result (λ _. All HasNoGap prune_lines) }
                ensures cause { IfErr result (IsCauseOf prune_lines) }
            { PruneTables::build(rt, alloc, back) },
        );
        let stages = stages?;
        let mut prune = prune?;
        prune.prepare(rt, alloc, cubes, workers)?;
        Ok(CubeTables { stages, prune })
    }

    /// All eight, in the order in which they are built.
    #[tactic(auto, unfolding(crate::specs::TableLines::family_lines))]
    pub fn all(&self) -> [&DistanceTable; 8]
        ensures { AreTablesOf (family_lines family.Cube333) (map (λ table. table.now) result) }
    {
        let [flips, slice, tetrads, halves] = self.stages.all();
        let [flipslice, twistslice, cornerslice, edgeslice] = self.prune.all();
        [
            flips,
            slice,
            tetrads,
            halves,
            flipslice,
            twistslice,
            cornerslice,
            edgeslice,
        ]
    }
}
