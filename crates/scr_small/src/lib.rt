//! Puzzles that one table solves: the 2x2x2, the Pyraminx and the Skewb.
//!
//! What such a puzzle is stands in `specs/NumberedPuzzles.antt`, with no puzzle's name in it: numbered states, numbered
//! turns, the coordinate of the states' numbers, and the scramble of a state, which is the first word that solves it,
//! taken back. `specs/Puzzles.antt` has the puzzles' data, and `specs/Tables.antt` that of their tables.
//!
//! What a table tells that measures the coordinate is proved of any such puzzle: its valid states are those that turns
//! reach ([`laws::reached_by_table`]), a state needs as many turns as its distance, and each has one scramble, which
//! leads to it from solved. The table of the Pyraminx is over its states without tips, and tells of those with tips,
//! too. `scr_solver_laws` states the rest.
//!
//! A state is two parts that turns move each by itself (`specs/StateParts.antt`), so that a table is filled over two
//! move tables side by side. [`OneTable`] is what a puzzle gives beside its numbering and its turns, with these laws.
//! [`SmallTables`] is the built table of an event; [`scramble_222`], [`scramble_pyram`], [`scramble_skewb`] and the
//! tests of minima walk and read it. [`Small222`], [`SmallPyram`] and [`SmallSkewb`] are the events that fair drawing
//! takes: a puzzle with its built tables.
#![tactic(auto)]

pub mod laws;
mod one_table;
mod parts;
mod scrambles;
mod small_222;
mod small_puzzle;
mod small_pyram;
mod small_skewb;
mod state_table;
mod tables;

pub use one_table::OneTable;
pub use scrambles::scramble_of;
pub use small_222::{Small222, needs_222, scramble_222};
pub use small_puzzle::SmallPuzzle;
pub use small_pyram::{SmallPyram, needs_pyram, scramble_pyram};
pub use small_skewb::{SmallSkewb, needs_skewb, scramble_skewb};
pub use state_table::StateTable;
pub use tables::SmallTables;
