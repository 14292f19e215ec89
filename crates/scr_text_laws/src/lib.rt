//! What holds of round lists, of rounds as text and of the parts of a checked input, whatever the code: calls that do
//! nothing, whose contracts are laws about the definitions of the crates of their modules' names.
//!
//! `scramble` doesn't stand on this crate: the gate proves it, and a build of that program leaves it out.
//! `scramble-wcif` does, since it promises of the list that it writes that it is read back.
#![tactic(auto)]

pub mod check;
pub mod list;
pub mod round;
