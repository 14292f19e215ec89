//! The numbers of lists: permutations, even permutations, digits whose sum is fixed, sets of places, places
//! in pairs, and mixed digits.
//!
//! Each type's `rank` and `unrank` are inverse bijections between its lists and the numbers below its
//! count: `unrank` gives the list of a number, which is valid and the only one with that number, and `rank` of a valid
//! list is its number, below the count. What a number means is defined in `scr_combinatorics`, on which alone the crate
//! stands; that each numbering is one to one, and which order it has, is stated in `scr_laws`.
//!
//! The calls allocate nothing and use no table. Functions on slices are public where a puzzle numbers lists of its own.
#![tactic(auto)]

pub mod digits;
pub mod mixed;
mod pairings;
pub mod permutations;
pub mod place_sets;

pub use digits::TwistRank;
pub use mixed::{MixedRadix, in_bytes};
pub use pairings::Pairing8;
pub use permutations::{EvenPermRank, PermRank};
pub use place_sets::Choose;
