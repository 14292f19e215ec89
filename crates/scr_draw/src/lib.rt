//! Fair drawing: attempts on words, the first permitted state, and the law that each permitted state
//! is drawn by equally many lists of numbers.
//!
//! It stands on the words of `scr_words`, and on the numberings and the puzzles of `scr_combinatorics`.
//! An event gives its states by a `Numbering` and its minimum by a `Permit`, whose test is exact for the puzzle that it
//! names, on all states that are numbered. Whatever they are, as long as they keep their contracts, drawing is fair:
//! where the states that are numbered are those that turns reach, by [`laws::drawn_fairly`], and of the numbered states
//! in any case, by the laws of drawing in `scr_laws`.
#![tactic(auto)]

mod drawing;
mod event;
pub mod laws;
mod rejection;

pub use drawing::{DrawLimit, draw};
pub use event::{NumberedStates, Numbering, Permit};
pub use rejection::attempt;
