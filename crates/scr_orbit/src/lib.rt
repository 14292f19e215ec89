//! Orbits: pieces that change places among themselves, each with a digit modulo some number, as a corner's twist or an
//! edge's flip. Everything here is over any number of places and any modulus, with no puzzle's name in it; the puzzles'
//! crates and the coordinates of their states stand on it.
//!
//! A turn is told by what it makes of the solved orbit: which piece comes to each place, and what is added to its digit.
//! So orbits are turns, too: they can be joined, one and then another, and inverted (`specs/Monoids.antt` says what
//! holds of such states, whatever they are, and has tables of turns; `specs/LawfulTurns.antt` says what holds of such a
//! puzzle). [`PlaceTurn`] is a turn in arrays, [`Placed`] an orbit in arrays; turning allocates nothing. That turns keep
//! orbits valid, what becomes of the sum of the digits and of the parity, and that two turns are one, is said in
//! `scr_laws`.
//!
//! A puzzle of pieces is data (`specs/PowerPuzzles.antt`): its letters, each a power of one of a few turns, what turns
//! make of its states, and these turns. What holds of all such puzzles is one record,
//! which `proofs/PowerPuzzleLaws.antt` gives from one test of the turns, for each puzzle's crate to state;
//! `proofs/TurnedAt.antt` says what the turn with a number makes of a state, `proofs/PlayedTurns.antt` which letters
//! are turns.
#![tactic(auto)]

mod placed;
mod turning;
mod validity;

pub use placed::{PlaceTurn, Placed};
pub use turning::{add_digits, pick_into};
pub use validity::{are_completed, are_twists, is_permutation};
