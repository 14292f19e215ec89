//! The tables of the stages.
ghost use Rattle.std.specs.Prelude.{◌≡◌, ℕ, ◌≤◌, [], ◌∷◌, All, IfErr, IfOk, IsTrue, List, Some, length, map, slice_get, take};
ghost use Rattle.scr_combinatorics.specs.Stages.{IsStageWord};
ghost use Rattle.scr_sq1.specs.Units.{IsSq1, sq1_after};
ghost use Rattle.scr_sq1tables.specs.Stages.{shape_stage};
ghost use Rattle.scr_table.specs.Causes.{IsCauseOf};
ghost use Rattle.scr_table.specs.Lines.{AreTablesOf, HasNoGap, IsTableOf};
ghost use Rattle.scr_sq1tables.specs.Tables.{shapes_line, pairings_line, square_line, sq1_lines};
ghost use Rattle.scr_sq1tables.specs.ShapeWords.{is_shape_word, shape_words};

use crate::indexes::shapes_index;
use crate::lines::{PairingsLine, ShapesLine, SquareLine};
use scr_sq1::Sq1;
use scr_table::{
    BuildFault, DistanceTable, FirstWords, LineTable, TableName, TableSet, table_named,
};
use std::alloc::Global;
use std::thread::Threads;

/// The tables of the three stages, with the moves by which they are walked down.
#[derive(Drop)]
pub struct Sq1Tables {
    shapes: LineTable<ShapesLine>,
    pairings: LineTable<PairingsLine>,
    square: LineTable<SquareLine>,
    ghost built: { AreTablesOf sq1_lines (shapes ∷ pairings ∷ square ∷ []) },
}

impl TableSet for Sq1Tables {
    ghost use Rattle.std.specs.Prelude.{[], ◌∷◌};
    ghost use Rattle.scr_sq1tables.specs.Tables.{sq1_lines};

    ghost lines = { sq1_lines };

    ghost distances = { λ t. t.shapes ∷ t.pairings ∷ t.square ∷ [] };

    fn table(&self, name: TableName) -> Option<&DistanceTable> {
        table_named(&self.all()[..], name)
    }
}

impl Sq1Tables {
    /// The tables, built in their order, each by 1 to 64 workers, or why they are not: there is no memory, or one has a
    /// gap. The first gap of the first such table is named.
    pub fn build<R: Threads + Sync>(
        rt: &R,
        alloc: Global,
        workers: u32,
    ) -> Result<Sq1Tables, BuildFault>
        requires workers { (1 ≤ workers) × (workers ≤ 64) }
        ensures whole { IfOk result (λ _. All HasNoGap sq1_lines) }
        ensures cause { IfErr result (IsCauseOf sq1_lines) }
    {
        Ok(Sq1Tables {
            shapes: LineTable::build(rt, alloc, workers)?,
            pairings: LineTable::build(rt, alloc, workers)?,
            square: LineTable::build(rt, alloc, workers)?,
        })
    }

    /// That of the words to the square shape.
    pub fn shapes(&self) -> &LineTable<ShapesLine>
        ensures { IsTableOf shapes_line result.now }
    {
        &self.shapes
    }

    /// That of the words that bring mates opposite to each other.
    pub fn pairings(&self) -> &LineTable<PairingsLine>
        ensures { IsTableOf pairings_line result.now }
    {
        &self.pairings
    }

    /// That of the words that bring the pieces home.
    pub fn square(&self) -> &LineTable<SquareLine>
        ensures { IsTableOf square_line result.now }
    {
        &self.square
    }

    /// All of them, in the order in which they are built.
    pub fn all(&self) -> [&DistanceTable; 3]
        ensures same { map (λ table. table.now) result ≡ ⟦<Sq1Tables as TableSet>⟧.distances self.now }
        ensures built { AreTablesOf sq1_lines (map (λ table. table.now) result) }
        ensures whole { All HasNoGap sq1_lines }
    {
        [
            self.shapes.distances(),
            self.pairings.distances(),
            self.square.distances(),
        ]
    }

    /// The first `wanted` shape words of a state, of at most 13 letters, in the order of words: by length, and then by
    /// the letters' numbers; at most 1,000, and all where there are fewer. It takes no memory.
    pub fn shape_words(&self, state: &Sq1, wanted: u32) -> FirstWords
        requires { wanted ≤ 1000 }
        ensures words { result ≡ take wanted (shape_words state.now) }
        ensures each { All (λ word. IsTrue (is_shape_word state.now word)) result }
        ensures short { All (λ word. length word ≤ 13) result }
        ensures valid { IsSq1 state.now }

        // the first of them is the word of the first stage, by which a solution by stages begins
        ensures first { 1 ≤ wanted
            → (word : List ℕ) × IsStageWord sq1_after shape_stage state.now word × (slice_get result 0 ≡ Some word) }
    {
        self.shapes.first_words(shapes_index(state), 13, wanted)
    }
}
