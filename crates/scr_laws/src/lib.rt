//! What holds of numbers, texts, words of a command line, points of space, pieces, coordinates, tables and draws,
//! whatever the code: calls that do nothing, whose contracts are laws about the definitions of the crates of their
//! modules' names.
//!
//! No program stands on this crate: the gate proves it beside the tests, and a build leaves it out.
#![tactic(auto)]

pub mod combinatorics;
pub mod command;
pub mod coord;
pub mod draw;
pub mod options;
pub mod orbit;
pub mod outside;
pub mod positions;
pub mod space;
pub mod table;
pub mod table_text;
pub mod text;
pub mod words;
