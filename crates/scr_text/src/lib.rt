//! Numbers, lines and words as text, both ways.
//!
//! Round lists, commands, sheets and messages write numbers in one way, as decimal digits, and lists are
//! made of lines and words. The definitions stand in `specs/`; the crate stands on the standard library
//! and `arrayvec`, and takes no memory. Its theorems are laws of `scr_laws`: each number has one text,
//! which is read back as that number; lines and words that are written one after another are read back.
#![tactic(auto)]

mod lines;
mod number;

pub use lines::{is_blank, line_feed, split_line, word_at};
pub use number::{decimal, number_within};
