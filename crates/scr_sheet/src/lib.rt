//! All that the program does, as one call: [`run`].
//!
//! A run reads the words of the command line, and the round list where they ask for a sheet; it builds the tables of
//! the events, makes and writes parts one after another, each the slots of an event and the text of their scrambles,
//! or checks a sheet that somebody printed; and tells what goes wrong. The contract of `run` is the headline of the
//! repository: whatever goes wrong outside, what was read and written, what was told and the status are those of an end
//! that the definitions allow (`specs/Outcome.antt`), and wherever the tables are built, each round is drawn fairly.
//! What follows from these definitions (that a list has one sheet, which runs must end with it, what a status tells)
//! stands above, in `scr_run_laws`.
#![tactic(auto)]

mod check;
mod host;
mod load;
mod making;
mod parts;
mod program;
mod ready;
mod room;
mod sheet_lines;
mod single;
mod slot_jobs;

pub use host::{run_on_host, run_on_words};
pub use making::{RoundFault, make_round};
pub use program::run;
pub use scr_check::Missing;
pub use scr_command::{Command, CommandFault, Options, UsageFault, read_command};
pub use scr_fault::{Fault, Status};
pub use scr_host::{Exit, NoWords};
pub use scr_list::{ListCause, ListFault, Round, read_rounds};
pub use scr_notation::Event;
pub use scr_round::{RoundResult, write_round};
pub use scr_slots::Tables;
pub use scr_workers::{Gate, OpenGate};
