//! The words of a command line as options: which of them the words give, and with which values.
//!
//! A program has a list of options, each with a name, and with a value or without. `specs/OptionWords.antt` says which
//! words give which values, as one definition, `options_of`; the words are split by `clap`. Its theorem is that of
//! `split_options`: the values are those of the definition, words outside of its grammar are refused, and want of memory
//! is what the parser says. Which words the grammar has by how options are written is said in `scr_laws`.
#![tactic(auto)]

mod splitting;

pub use splitting::{OptionForm, OptionsFault, SplitOptions, split_options};
