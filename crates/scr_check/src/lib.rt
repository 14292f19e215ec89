//! A checker of sheets: whether a sheet that somebody printed is the one that is expected, and else the
//! first line at fault.
//!
//! What is expected is anything that says how many lines there are and whether a text agrees with one of
//! them (`Expected`); the crate knows no event and no scramble. It stands on the sources of `scr_outside`
//! and takes no memory. Its theorem is that of `check_lines`: whatever pieces a source gives, the answer is
//! the one that the definition (`ComesTo`) gives for the bytes that were taken and for all that may follow
//! them, or the source's count of faults rose.
#![tactic(auto)]

mod ahead;
mod check;
mod expected;
mod fault;
pub mod laws;
mod line;
mod parts;
mod reader;

pub use check::check_lines;
pub use expected::Expected;
pub use fault::{CheckFault, Missing};
pub use parts::{LIST_ROOM, list_part};
pub use reader::ByteReader;
