//! Distance tables: at each position of a coordinate the least number of turns to a goal.
//!
//! A [`DistanceTable`] is built over any [`Coord`](scr_positions::Coord), with no puzzle's name in it. What is so of a
//! built table is one record, `Measures` of `specs/Distances.antt`, over distances and first words as
//! `scr_combinatorics` defines them; how a table is filled and how its entries are stored stands in no definition.
//! Walking down a table gives first words. A [`Line`] says what a table is called, what it is of and by which moves;
//! its [`LineTable`] keeps them together, and finds the first words to a goal, as many as are wanted ([`FirstWords`],
//! over `specs/Words.antt`). [`no_shorter`] tests minima over any [`Moves`], with no table; `specs/TriedWords.antt` has
//! such a test as a definition, by which puzzles say what theirs answers. Why a table isn't built, and why tables that
//! are built one after another are not, stands in `specs/Causes.antt`: the first gap of the first table that has one.
//! `specs/SearchTables.antt` says the same by the states of a puzzle, of which a position is a number, and
//! `specs/TableStates.antt` when both are one. What holds of distances, first words,
//! causes and minima is said in `scr_laws`.
#![tactic(auto)]

mod blocks;
mod entries;
mod fault;
mod fill;
mod levels;
mod line_table;
mod moves;
mod name;
mod named;
mod neighbours;
mod table;
mod table_set;
mod words;

pub use fault::BuildFault;
pub use line_table::{Line, LineTable};
pub use moves::{Moves, no_shorter};
pub use name::TableName;
pub use named::table_named;
pub use table::{DistanceTable, GREATEST_BOUND};
pub use table_set::TableSet;
pub use words::FirstWords;
