//! The search for a part of the solution of a 3x3x3, whatever the part.
//!
//! A [`Part`] says which turns there are and which of them may be the last, gives three coordinates, each of which has
//! a number of a cube, and says what a whole word gives. [`Search::within`] goes through the words depth first by rising
//! length, and leaves out turns: the theorem is that it finds what the list of all words has, and that each word that
//! is looked for counts one try.
//!
//! What is left out [`SearchTables`] say. A [`PruningTable`] is a distance table of two coordinates side by side, which
//! says no more than the least number of turns, and an [`Outlook`] of a position keeps for each turn whether it leads
//! nearer. Where many cubes are searched for, a [`NearSet`] leaves out more: a bit table that has all cubes from which
//! few turns lead to the end of the part, and some others.
//!
//! The crate stands on cubes (`scr_cube`), on coordinates (`scr_positions`), on distance tables (`scr_table`) and on
//! workers (`scr_workers`). Which parts there are is said above it, in `scr_twophase`.
#![tactic(auto)]

mod near_set;
mod numbers;
mod outlook;
mod part;
mod position;
mod pruning;
mod search;
mod search_tables;
mod turn_set;

pub use near_set::{NEAR, NearBlock, NearSet};
pub use outlook::Outlook;
pub use part::{Part, Word};
pub use position::{BLOCK, Extent, PartPosition};
pub use pruning::PruningTable;
pub use search::Search;
pub use search_tables::SearchTables;
pub use turn_set::TurnSet;
