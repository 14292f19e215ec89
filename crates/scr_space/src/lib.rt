//! Turns in space: which points of a grid of whole numbers a turn moves, and where it takes them. A turn is data: where
//! each of the three new coordinates comes from, which coordinates it counts, and the least sum of these from which on
//! a point is moved.
//!
//! `specs/Spins.antt` is that definition, the one of all puzzles whose stickers are points of a grid;
//! `specs/Turning.antt` says by a test of the data alone when a turn has an order, and when two turns exchange. The
//! theorems are laws of `scr_laws`: such a turn, done so often, takes each point back, so no two points come to one,
//! and turns that pass the test for two exchange. [`Point::carried`] is exact. The crate stands on nothing but `std`,
//! and names no puzzle.
#![tactic(auto)]

mod spin;

pub use spin::{Coordinate, Counted, Point, Spin};
