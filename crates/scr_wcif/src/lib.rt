//! A competition's own file, in the WCA's interchange format (WCIF): the round list that it holds.
//!
//! The file is a JSON value, as the kit's crate `json` defines and reads it. What rounds it names is a definition of
//! its own, a function of that value (`specs/FileRounds.antt`); the list is that of `scr_list`, of which a law of
//! `scr_text_laws` says that it is read back. The theorem is that of `run`, at [`Wcif`]: whatever the source and the
//! sinks do, the list that was written names exactly the rounds of the file, or there is a cause why none was written,
//! and it is told.
#![tactic(auto)]

mod adding;
mod command;
mod fault;
mod field;
mod filled;
mod filling;
pub mod laws;
mod list;
mod made;
mod message;
mod parts;
mod placing;
mod program;
mod round;
mod rounds;
mod set;
mod set_value;
mod taking;
mod value;

pub use command::Command;
pub use fault::{Difference, EventCause, Fault, FileFault, RoundCause};
pub use program::Wcif;
pub use round::FileRound;
pub use rounds::rounds_of_file;
pub use scr_host::{Exit, run, run_on_host, run_on_words};
