//! The 3x3x3, as it is held too, and the 2x2x2: their states, their turns, what a scramble makes of them, and their
//! numberings, by which they are drawn fairly.
//!
//! A cube is two orbits, of corners and of edges, and a 2x2x2 one; a puzzle is the table of its quarter turns over them
//! (`specs/Cube333.antt`, `specs/Cube222.antt`), and all else follows by the one theory of puzzles of powers.
//! [`corner_turns`], [`edge_turns`] and [`turns_222`] are all turns, part by part, for searches and coordinates; a
//! wrong entry is refused. Both are turned by faces and by scrambles ([`PowerTurned`]). A cube that is held ([`Held`])
//! is one with its six centres, which wide turns move (`specs/Held.antt`). A cube tells a turn, too, that which makes
//! it of the solved one: so cubes can be joined, one and then another ([`Cube::then`]; `specs/Composition.antt`), and
//! inverted ([`Cube::inverse`]). What holds of both is said in `scr_puzzle_laws`: that turns are lawful, that the
//! numberings are one to one, that two words lead to the cubes of both joined, and what ties the tables to the puzzles
//! themselves, mirror images, orders, known words and known numbers, and stickers of a cube that is held. That the
//! tables are what turns do to stickers in space is said in `scr_net_laws`. The crate stands on the notation of turns,
//! on orbits, on the numbers of lists and on fair drawing.
#![tactic(auto)]

mod corners;
mod cube;
mod held;
pub mod laws;
mod numbers;
mod tables;
mod turning;

pub use corners::Corners222;
pub use cube::Cube;
pub use held::Held;
pub use numbers::{CubeNumbers, HeldNumbers, Numbers222};
pub use scr_notation::PowerTurned;
pub use tables::{corner_turns, edge_turns, turns_222};
