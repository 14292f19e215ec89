//! Events, turns and scrambles as the WCA writes them (WCA Regulations, articles 9 and 12). Which puzzle is scrambled
//! for an event is told here, and which turns that puzzle has; what they do to its states, the puzzle's crate says.
//!
//! The events and their puzzles stand in the two tables of `specs/Event.antt`; the turns of a puzzle in
//! `specs/Faces.antt`, `Axes.antt`, `Layers.antt`, `Pins.antt` and `Wide.antt`; how turns are written in
//! `specs/Spelling.antt`. `print` gives the text of a scramble, and `parse` is its inverse: an accepted text is the
//! text of exactly the scramble that was read, and any other is refused at its first word at fault, with the byte at
//! which that word begins. `inverse` is the reversed list of opposite turns, and `tidy` what is left when turns of one
//! face, turns of layers and twists are merged, in whatever order.
//! A word that is still to be joined, tidied or taken back is told by the numbers of its turns ([`NumberedWord`]).
//!
//! Turns at faces ([`Faces`]), and those about axes and of tips ([`Axes`]), are powers of quarter turns and of thirds,
//! as a half turn of a face is its quarter turn twice; each has its number (`specs/FaceLetters.antt`,
//! `specs/AxisLetters.antt`). A puzzle with such turns says what the turn with a number makes of its state
//! ([`PowerTurned`]); what a letter does, and what a scramble, follows here once for all of them.
//!
//! Nothing takes memory. The crate stands on `scr_combinatorics` for words taken back and tidied, and for letters as
//! powers.
#![tactic(auto)]

mod candidate;
mod event;
mod event_set;
pub mod laws;
mod letters;
mod numbered_word;
mod printing;
mod reading;
mod scramble;
mod spelling;
mod turn;
mod turned;
mod turning;

pub use event::{EVENTS, Event, EventRow, Family, Kind, Minima, Puzzle};
pub use event_set::EventSet;
pub use letters::{Axes, Faces, Letters};
pub use numbered_word::NumberedWord;
pub use printing::print;
pub use reading::{NotationFault, parse, parse_bytes};
pub use scramble::{MOST_TURNS, Scramble, push_all, push_turn};
pub use turn::{PIN_SETS, Turn, turn_at, turn_count};
pub use turned::PowerTurned;
pub use turning::{inverse, tidy};
