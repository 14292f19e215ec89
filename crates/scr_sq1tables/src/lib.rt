//! The tables of the stages by which a Square-1 is solved.
//!
//! A stage has letters, each of which is a few turns, a goal and a bound, and its word is the first one to the goal
//! (`specs/Stages.antt`): the square shape, with both lists of pieces even or both odd; mates opposite to each other in
//! their layers; all pieces home. [`Sq1Tables`] are the three tables by which these words are found, each over what its
//! stage sees of a state as a number (`specs/Tables.antt`), which [`shapes_index`], [`pairings_index`] and
//! [`square_index`] tell. [`Sq1Tables::shape_words`] gives the first words to the square shape. What the letters are as
//! turns is said by [`word_of`]. `scr_sq1solve` walks down these tables.
//!
//! The moves of every table are built of small ones, or of a state for each position, so that no step of a build or a
//! descent reads a state's number. Only the builds take memory. The crate stands on the Square-1 of `scr_sq1`, on
//! coordinates and on distance tables.
#![tactic(auto)]

mod code_lists;
mod code_moves;
mod edge_rows;
mod indexes;
mod letter_places;
mod lines;
mod pairing_lists;
mod pieces;
mod shape_moves;
mod shape_states;
mod stage_letters;
mod tables;

pub use indexes::{pairings_index, shapes_index, square_index};
pub use lines::{PairingsLine, ShapesLine, SquareLine};
pub use shape_moves::NORMAL;
pub use stage_letters::{StageLetters, word_of};
pub use tables::Sq1Tables;
