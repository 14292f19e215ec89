//! The four stages of the 3x3x3 (after Thistlethwaite): every cube is solved within 52 turns, with no refusal.
//!
//! A stage is a list of turns, a goal and a bound, and its word is the first one to the goal (`specs/Stages.antt`): no
//! edge is flipped; no corner is twisted, and the edges of the middle layer are in it; some word of half turns leads
//! from solved to the cube; the cube is solved. [`StageTables`] are the four tables by which these words are found,
//! each over what its stage sees of a cube as a number (`specs/Tables.antt`). That the third goal can be seen by the
//! places of four edges, those of a tetrad of corners and how the two tetrads stand to each other
//! (`specs/Tetrads.antt`) is proved, and no definition. [`solve_stages`] joins the four words, and
//! [`scramble_by_stages`] takes them back, tidied; neither takes memory.
//!
//! The moves of every table are built of small ones, so that no step of a build or a descent reads a cube's number.
//! What some turns do to corners, edges and blocks of edges ([`corners_turned`], [`edges_turned`],
//! [`block_edges_turned`]) serves other coordinates too, and so does the number of a block ([`block_number`]). The
//! crate stands on the cubes of `scr_cube`, on coordinates and on distance tables.
#![tactic(auto)]

mod block_turns;
mod corner_lists;
mod corners;
mod half_corners;
mod half_moves;
mod half_parts;
pub mod laws;
mod lines;
mod places;
mod solving;
mod stage_turns;
mod tables;
mod tetrads;
mod words;

pub use half_parts::{MIDDLE_EDGES, OUTER_EDGES, block_number};
pub use solving::{scramble_by_stages, solve_stages};
pub use stage_turns::{ALL_TURNS, DOMINO_TURNS, block_edges_turned, corners_turned, edges_turned};
pub use tables::StageTables;
