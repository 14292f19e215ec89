//! Clock: its state, its turns, the one scramble that gives a state, its numbers and its minimum (WCA Regulations,
//! articles 4 and 12).
//!
//! What a turn makes of the fourteen dials stands in `specs/Dials.antt`, what written turns make of a Clock in hand in
//! `specs/Held.antt`, and the scramble of a Clock in `specs/Written.antt`. The contracts say that the code computes
//! these definitions, that the amounts of `solve` lead from solved to the state and no others do, that `scramble_clock`
//! is the scramble with these amounts, and that `needs_at_least` is true exactly where no word of fewer counted turns,
//! of any pin sets, leads to solved. What else holds of Clock whatever the code, and Clocks known from elsewhere, stand
//! in `scr_puzzle_laws`.
//!
//! The crate stands on the words of `scr_combinatorics`, its digits and those of `scr_rank`, the turns of
//! `scr_notation`, and the drawing of `scr_draw`.
#![tactic(auto)]

mod amounts;
mod clock;
pub mod laws;
mod least;
mod numbers;
mod scramble;

pub use amounts::solve;
pub use clock::Clock;
pub use least::needs_at_least;
pub use numbers::ClockNumbers;
pub use scramble::scramble_clock;
