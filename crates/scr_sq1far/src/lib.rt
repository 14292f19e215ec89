//! Whether a Square-1 needs up to eleven turns, exactly, over all words.
//!
//! The Regulations ask that a Square-1 need at least eleven turns, where a turn of the layers counts one and a twist
//! another (WCA Regulations, article 4b3). Of the 11,958,666,854,400 states some 392 million need fewer.
//!
//! Words meet in the middle (`laws`). [`NearSolved`] keeps the 92,316 states from which at most six turns lead to
//! solved, each with the least number of these, its level (`specs/Levels.antt`). [`needs_sq1_far`] tries words of up to
//! four turns that lead to one of them. Only words are tried in which turns of the layers and twists take turns: each
//! other can be made shorter (`specs/Alternating.antt`). So no word that is tried has more than two turns of the layers,
//! and no cut is needed. Only the build takes memory. The crate stands on the Square-1 of `scr_sq1`.
#![tactic(auto)]

mod keys;
pub mod laws;
mod levels;
mod near;

pub use near::{NearSolved, needs_sq1_far};
