//! What holds of turns and of each puzzle, whatever the code: calls that do nothing, whose contracts are laws
//! about the definitions of the crates of their modules' names (of `scr_tetra` in `pyram` and `skewb`), and rows of
//! these that are known from elsewhere.
//!
//! They tie the tables to the puzzles themselves: mirror images, orders, known words and numbers. No program stands on
//! this crate: the gate proves it beside the tests, and a build leaves it out.
#![tactic(auto)]

pub mod bigs;
pub mod clock;
pub mod cube;
pub mod notation;
pub mod pyram;
pub mod skewb;
pub mod sq1;
