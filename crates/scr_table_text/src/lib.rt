//! Distance tables as text: how many positions a table has at each distance, and the greatest distance that occurs.
//!
//! `specs/TableText.antt` says what the text of a table is, by the states of which it speaks; [`write_table`] writes it
//! of a built table, line by line, [`write_tables`] those of an event, and a law (`measured` of `scr_laws`) says that
//! it is the same.
#![tactic(auto)]

mod writing;

pub use writing::{write_table, write_tables};
