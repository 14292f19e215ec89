//! Documents of HTML, written token by token.
//!
//! A token is the begin of an element, an element that holds a text alone, or the end of one; each is a line of the
//! document. So a document has one reading: `laws` says that no other list of tokens has its text. What a page promises
//! is told by its tokens of some class (`specs/Tokens.antt`, `Mark`); whatever else it has is for the eye. The crate
//! stands on the standard library and the lines of `scr_text`. The theorem is that of the three calls, which add just
//! their token.
#![tactic(auto)]

mod escaping;
pub mod laws;
mod writing;

pub use writing::{close, leaf, open};
