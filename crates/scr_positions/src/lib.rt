//! Coordinates: what a search sees of a puzzle's states, as numbers.
//!
//! No puzzle stands here. A [`Coord`] says how many positions there are, where each turn leads from each, and which are
//! goals; its contract is one record of `specs/Coordinates.antt`, over which words, distances and first words are
//! defined.
//!
//! A [`MoveTable`] is made of any coordinate, shows the same, and steps by one look into a list. [`Product`] puts two
//! coordinates side by side; large tables are made over products of move tables.
//!
//! A search finds the same where a coordinate is put in place of another that shows the same
//! (`specs/SearchSpaces.antt`), as `scr_laws` states. Over any states these are lemmas, for a puzzle's crate to state:
//! `proofs/SearchLaws.antt` (views, one after another) and `proofs/ProductLaws.antt` (two views side by side).
//! Coordinates that see an orbit's lists stand in `scr_coord`.
#![tactic(auto)]

mod coordinate;
mod move_table;
mod product;

pub use coordinate::{BARRED, Coord, NOWHERE};
pub use move_table::MoveTable;
pub use product::Product;
