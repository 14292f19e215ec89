//! What goes wrong in a run of `scramble`, how it is told, and how the run then ends.
//!
//! A [`Fault`] has its cause; its message is one line (`specs/Message.antt`), and it has a [`Status`] with an exit code
//! (`specs/Status.antt`). What goes wrong in a part of a run, in reading words or a list, building tables, making and
//! writing scrambles or checking a sheet, is such a fault too (`specs/Faults.antt`). The theorems are those of
//! `Fault::message`, `Status::of` and `Status::code`: message, status and code are those of the definitions. Nothing
//! here knows slots or tables, so it is proved beside them.
#![tactic(auto)]

mod fault;
mod status;

pub use fault::{Fault, MakeFault};
pub use status::Status;
