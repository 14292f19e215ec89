//! One round of a sheet, made, and its text. A round is laid out as a list of lines (`specs/Round.antt`), each a fixed
//! text or a label before the scramble of a slot: `line_at` gives any of them, and `write_round` writes one after
//! another; `heading`, `group_name` and `label` are their parts, for a reader. Which scrambles the slots have is for
//! the crates above. Whole rounds as text stand in `scr_text_laws`.
#![tactic(auto)]

mod layout;
mod made;
mod writing;

pub use layout::{
    FIXED_ROOM, LABEL_ROOM, SheetLine, group_name, heading, label, line_at, line_count, slots,
};
pub use made::RoundResult;
pub use writing::{write_round, write_slots};
