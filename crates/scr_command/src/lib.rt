//! The words of the command line: what the program is asked to do, or why they ask for nothing.
//!
//! `specs/Command.antt` says which words are which command, as one definition of the words,
//! `command_of`. The options that set numbers stand in one table, with their names, their ranges and their usual
//! numbers (`specs/OptionTable.antt`), which has the options of each command too; the words after a command are split
//! into the values of its options by `scr_options`, by the grammar that stands there. Numbers are read by `scr_text`,
//! seeds by `scr_words`, events by `scr_list`. Its theorem is that of `read_command`: the command is the one of
//! the definition, words that are none are refused for the cause that it gives, and want of memory
//! comes only where the first word is `sheet` or `check`. Rows of the definition stand in `scr_laws`.
#![tactic(auto)]

mod command;
mod options;

pub use command::{Command, CommandFault, UsageFault, read_command};
pub use options::{OptionName, Options, Range};
