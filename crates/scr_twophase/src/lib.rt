//! The two parts of a 3x3x3 (Kociemba's two-phase algorithm), its scramble, and its minima.
//!
//! A first part is an orderly word of at most twelve turns that ends in a quarter turn of R, L, F or B and leads to a
//! domino; a second part, of at most ten of the turns that keep a domino, leads on to solved. [`two_parts`] is the
//! first of the first parts, in the order of words, that has a second part, joined with the least one;
//! `specs/TwoParts.antt` says so over the lists of all words. [`scramble_333`] takes it back, and where none of the
//! first parts that are tried has a second part, it is the scramble by stages. [`needs_333`] tests the minima 0 to 5
//! over all words but those that can't bring so many pieces home, and [`Draw333`] draws by it.
//!
//! The 3x3x3 as it is held ([`scramble_333bf`], [`DrawHeld`]) and for fewest moves ([`scramble_333fm`],
//! [`DrawFewest`]) are scrambled by the scramble of the cube that the word of the hold, or the two frames R' U' F,
//! leave of a state; what is known of frames is said in `scr_solver_laws`.
//!
//! Both parts are found by the search of `scr_search`, which comes to what the lists have and counts each first part
//! once. [`PruneTables`] hold what it goes by: for each part two tables, each of one of its coordinates beside that of
//! the edges of the middle layer. The crate stands on that search, on the stages of `scr_stages`, on coordinates and on
//! distance tables.
#![tactic(auto)]

mod draw;
mod fewest;
mod first;
mod held;
mod needs;
mod ready;
mod scramble;
mod second;
mod tables;

pub use draw::{Draw333, DrawCube, DrawFewest, DrawHeld};
pub use fewest::{is_framed, scramble_333fm};
pub use held::scramble_333bf;
pub use needs::needs_333;
pub use scramble::{scramble_333, two_parts};
pub use tables::PruneTables;
