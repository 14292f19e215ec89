//! What the pages of a group say, whatever their form: its heads, how its puzzle is held, its labels, and where the
//! words of a scramble stand in even rows; and a competition's name in one line.
//!
//! A [`Group`] is one of a sheet, with what is told of where it stands. The texts are definitions of their own
//! (`specs/Texts.antt`, `specs/Holding.antt`, `specs/Name.antt`), and each call gives just its text; `laws` says what
//! becomes of some names. Where a word stands is not promised, but that each has a place, and how many rows they take
//! (`specs/Rows.antt`). The crate stands on the notation of `scr_notation` and the rounds of `scr_round`, and only names
//! of competitions take memory.
#![tactic(auto)]

mod group;
mod holding;
pub mod laws;
mod name;
mod rows;
mod texts;
mod words;

pub use group::{Group, GroupPlace};
pub use holding::held;
pub use name::fitting_name;
pub use rows::{Place, places, row_count};
pub use texts::{TEXT_ROOM, label, round_line, tag, title};
pub use words::first_word;
