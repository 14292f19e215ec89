//! A reader of sheets: the text of rounds one after another, as `scr_round` lays it out. It goes line by line, takes
//! no memory, and keeps but where it stands; each line is a piece: the head of a round, the name of a group, a
//! scramble, or the end of a group. A text that is a sheet is also given group by group.
//!
//! Which texts are sheets stands in `specs/Sheets.antt`, by the layout's own `round_text`; which groups they have, in
//! `specs/Groups.antt`. The theorem is that of `read`: a text is the sheet of some rounds, or the answer is its first
//! line at fault, and the cause: some sheet begins with the lines before it, none goes on with them and this line, and
//! the cause is told of the place where those lines lead. `SheetReader::next` gives the pieces one after another, and
//! `SheetGroups` the groups of all rounds, each with its round, its numbers and its scrambles, with no fault to come.
//! `laws` say that the pieces are the rounds' own, that a text is the sheet of at most one list of rounds, and that the
//! groups tell that list. [`first_line`] cuts a text behind its first line feed.
#![tactic(auto)]

mod fault;
mod group;
mod groups;
mod head;
pub mod laws;
mod lines;
mod piece;
mod pieces;
mod place;
mod reader;

pub use fault::{SheetCause, SheetFault};
pub use group::{GROUP_ROOM, SheetGroup};
pub use groups::SheetGroups;
pub use lines::first_line;
pub use piece::{Head, Piece};
pub use reader::{SheetReader, read};
