//! Pictures: what the puzzle of each event looks like after a scramble, told by moving stickers and knowing nothing of
//! pieces. For who scrambles it is the check of the work; for who reads proofs it is a second model of each puzzle.
//!
//! `specs/Pictures.antt` says what the picture of each event is, as the text of its letters. Cubes are nets of
//! `scr_net`. The stickers of a Pyraminx (`specs/Pyraminx.antt`) and of a Skewb (`specs/Skewb.antt`) are points of a
//! grid, and their turns are those of `scr_space`; those of a Megaminx (`specs/Megaminx.antt`) are told by the faces
//! that they touch. What a turn makes of a picture then is the same for all three (`specs/Stickers.antt`). A Square-1
//! shows its units, and a Clock the hours of its dials. [`Picture::of`] is exact. The theorems are the contracts of
//! [`laws`]: a picture is that of the state by pieces that the turns lead to, and of no other; the pictures of such
//! states stand in `specs/Pieces.antt`. Nothing takes memory.
#![tactic(auto)]

pub mod laws;
mod names;
mod picture;
mod stickers;
mod tables;

pub use picture::Picture;
