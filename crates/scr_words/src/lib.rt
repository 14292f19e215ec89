//! Seeds and words: the 32 bytes that a text of 64 digits spells, and sources of 32-bit words.
//!
//! `read_seed` stands on `hex`, `ChaChaWords` on `rand_chacha`. The contracts say the exact seed of
//! each text, and the exact word at each place of each stream: that of ChaCha20 (RFC 8439) with
//! 64 bits of block number and 64 bits of stream, which `specs/Stream` defines. That the definition has
//! the RFC's block vectors is the contract of a call in `scr_laws`.
#![tactic(auto)]

mod chacha;
mod list;
mod seed;
mod words;

pub use chacha::ChaChaWords;
pub use list::ListWords;
pub use seed::{Seed, SeedFault, read_seed};
pub use words::Words;
