//! What a program of ours has of its system: the words of its command line, the telling of what goes wrong, and the exit
//! code that it has to end with. And all that programs have in common that read one input: that input, what may go wrong
//! in any of them ([`Fault`]), and the run itself ([`Program`], [`run`]).
//!
//! It stands on `scr_outside` alone. How a program ends, on the words of its command line or for want of them, is said
//! here once (`specs/Exit.antt`, `specs/Runs.antt`), over what the program's own definitions say of a run. The theorems
//! are that of `read_input`: whatever pieces a source gives, its bytes are those that were read to its end, or there are
//! too many, or it failed, and the answer says which; and that of `run`: it ends as the program may on these words, and
//! tells that end and no other.
#![tactic(auto)]

mod exit;
mod fault;
mod input;
mod program;
mod telling;
mod words;

pub use exit::Exit;
pub use fault::{Fault, MESSAGE_ROOM, OwnFault};
pub use input::{MOST_BYTES, read_input};
pub use program::{Program, run, run_on_host, run_on_words};
pub use telling::{end_without_words, tell};
pub use words::{NoWords, borrowed, words_of};
