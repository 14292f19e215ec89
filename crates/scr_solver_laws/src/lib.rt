//! What holds of solutions and of the tables that find them, whatever the code: calls that do nothing, whose contracts
//! are laws about the definitions of the crates of their modules' names.
//!
//! No program stands on this crate: the gate proves it beside the tests, and a build leaves it out.
#![tactic(auto)]

pub mod small;
pub mod sq1solve;
pub mod stages;
pub mod twophase;
