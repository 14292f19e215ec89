//! Coordinates that see one list of an orbit's pieces, numbered as in `scr_rank`: its projections. [`Twists`] sees its
//! digits, [`PlaceSet`] the places of marked pieces, and [`Lists`] the pieces themselves. They step by the lists
//! (`specs/Projections.antt`), and take no memory; a search goes over tables of moves that are made of them.
//!
//! The numbers of an orbit's lists go along with its turns, so that a search finds the same on them (`scr_laws`). Over
//! any states these are lemmas, for those to cite that search a puzzle: `proofs/ProjectionLaws.antt` and
//! `proofs/MarkedPieces.antt`. The crate stands on positions, on orbits and on the numbers of lists. What a coordinate
//! is, and a table of its moves, stands in `scr_positions`, so that tables of distances need no orbits; both are passed
//! on.
#![tactic(auto)]

mod lists;
mod place_set;
mod twists;

pub use lists::Lists;
pub use place_set::{PlaceSet, places_of};
pub use scr_orbit::PlaceTurn;
pub use scr_positions::{Coord, MoveTable};
pub use twists::Twists;
