//! The Pyraminx and the Skewb: their states, their turns, what a scramble makes of them, and their numberings, by which
//! they are drawn fairly.
//!
//! A Pyraminx is the orbit of its six edges, and digits of its axial pieces and its tips, which stay at their places;
//! without tips it is a [`Tetraminx`]. A [`Skewb`] is three orbits: of four corners, of three, and of the centres. A
//! puzzle is the table of its thirds over them (`specs/Pyraminx.antt`, `specs/Skewb.antt`), and all else follows by the
//! one theory of puzzles of powers. [`edge_turns`], [`axial_turns`], [`four_turns`], [`three_turns`] and
//! [`centre_turns`] are what all large turns make of each part, for searches and coordinates; a wrong entry is refused.
//! They are turned by axes and by scrambles ([`PowerTurned`]). `scr_puzzle_laws` says what holds: that turns are
//! lawful, that the numberings are one to one, and what ties the tables to the puzzles themselves. The crate stands on
//! the notation of turns, on orbits, on the numbers of lists and on fair drawing.
#![tactic(auto)]

mod pyram_numbers;
mod pyram_tables;
mod pyram_turned;
mod pyraminx;
mod skewb;
mod skewb_numbers;
mod skewb_tables;
mod skewb_turned;
mod tetraminx;

pub use pyram_numbers::{PyramNumbers, TetraminxNumbers};
pub use pyram_tables::{axial_turns, edge_turns};
pub use pyraminx::Pyraminx;
pub use scr_notation::PowerTurned;
pub use skewb::Skewb;
pub use skewb_numbers::SkewbNumbers;
pub use skewb_tables::{centre_turns, four_turns, three_turns};
pub use tetraminx::Tetraminx;
