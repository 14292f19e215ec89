//! The round list: which rounds a competition holds, as its delegate writes them.
//!
//! Lists are of one of two versions, which say how much a list may hold and whether its rounds have names.
//! The grammar is a definition of its own, a function of the list's bytes, `rounds_of`. It stands on
//! the sources of `scr_outside`, the numbers, lines and words of `scr_text` and the events of
//! `scr_notation`. Its theorem is that of `read_rounds`: whatever pieces a source gives, the bytes were
//! read to the end of input and the answer is that of the definition, or they were too many, or the
//! source's count of faults rose.
#![tactic(auto)]

mod event;
mod fault;
mod grammar;
mod name;
mod read;
mod round;
mod version;

pub use event::event_named;
pub use fault::{ListCause, ListFault};
pub use grammar::rounds_of;
pub use name::{NAME_ROOM, name_of};
pub use read::read_rounds;
pub use round::Round;
pub use version::{ROUND_ROOM, VERSION_1, VERSION_2, Version, version_of};
