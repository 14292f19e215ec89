//! Slots that several workers answer, with the answers of one: what each place of a list holds afterwards does not
//! depend on how many there are.
//!
//! [`run_chunks`] gives each worker a run of slots. [`run_claims`] lets workers claim slots one by one from a word
//! that they share, and whose only step while they run is a fetch-and-add of 1; its contract carries the theorem on
//! workers: each place of `out` has an answer of its slot, and the one seat that is left has claimed each number below
//! slots and workers together exactly once. [`claim_slots`] does the same over lanes that are used again, run by run,
//! each time from a fresh [`ClaimWord`]. The module `laws` has what stands between the steps: what a worker does, how
//! answers are gathered, and that each slot of a complete schedule is claimed once. The rule of the word is `IsKept` in
//! `specs/Rule.antt`.
//!
//! What is worked at is a [`Jobs`]: any number of slots, with any relation that says what an answer of a slot is.
//! Threads are started by `for_each_chunk_mut`, `for_each_mut` and `join` of the standard library alone; the last makes
//! two calls side by side ([`both`]). That two of them ran, in which order, or that it saved time, no contract says.
//! The crate stands on `scr_outside`, for its want of memory, and on `atomic_table`.
#![tactic(auto)]

mod board;
mod chunks;
mod claims;
mod gate;
mod jobs;
mod lane;
pub mod laws;
mod pair;
mod rule;
mod seats;
mod table;
mod word;

pub use board::Board;
pub use chunks::run_chunks;
pub use claims::{claim_slots, run_claims};
pub use gate::{Gate, OpenGate};
pub use jobs::Jobs;
pub use lane::{Lane, empty_lanes};
pub use pair::{both, shared};
pub use rule::{ClaimRule, ClaimSeat, Claims};
pub use table::ClaimTable;
pub use word::ClaimWord;
