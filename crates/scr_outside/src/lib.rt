//! The outside of the program: where bytes come from and where they go.
//!
//! The program reads and writes through two traits, `Source` and `Sink`. Their contracts say what a call
//! changed: the bytes that a sink gained or a source gave, where these are known, and a count of faults
//! that never falls (`specs/Change.antt`, one word for each change). It stands on the standard library
//! and `arrayvec` alone. Its theorem is that of `write_all` and `write_line`: the whole text was
//! appended, or a first part of it and the count of faults rose. The adapters over the system's
//! readers and writers are tied to these by what they say of their bytes. What the words of the
//! contracts refuse is said in `scr_laws`.
#![tactic(auto)]

mod calls;
mod faults;
mod fixed;
mod line;
mod memory;
mod sink;
mod source;
mod standard;

pub use fixed::{NullSink, SliceSource};
pub use line::{LINE_ROOM, write_line};
pub use memory::{MemSink, MemSource};
pub use sink::{Failed, NoMemory, Sink, write_all};
pub use source::Source;
pub use standard::{Adapter, StdSink, StdSource};
