//! Random moves: the scrambles of the Megaminx and of the big cubes (WCA Regulations, article 4).
//!
//! `megaminx` reads one number below 2^96, all of whose seventy low bits are turns; `big_cube` draws each turn from
//! those that may follow the one before, whose number the next accepted attempt gives. The contracts say exactly which
//! turns the words give (`specs/Megaminx.antt`, `specs/CubeMoves.antt`, over the turns of `specs/BigCubes.antt`), and
//! that a big cube has none only where all attempts of one turn are refused. Each step is fair, it takes each of its
//! choices by equally many numbers: that is a law (`scr_puzzle_laws`), for each event a part of the contract of `run`.
//! Of the states that the moves lead to nothing is said.
//!
//! Nothing takes memory. The crate stands on the words of `scr_words`, the attempts of `scr_draw` and the turns of
//! `scr_notation`.
#![tactic(auto)]

mod choosing;
mod cube_moves;
mod megaminx_moves;

pub use cube_moves::big_cube;
pub use megaminx_moves::megaminx;
