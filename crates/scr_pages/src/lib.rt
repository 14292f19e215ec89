//! Pages of a sheet, for those who scramble: HTML or text, written group by group.
//!
//! The input is read whole (`scr_host`), and `scr_read` says whether it is a sheet; a scramble that can't be played,
//! and a Square-1 that fewer turns solve than the Regulations ask, are refused before anything is written
//! (`specs/Refusals.antt`). What the pages of a group promise stands in `scr_html` and `scr_text_pages`. The theorem is
//! that of `run`, at [`Pages`]: whatever the source and the sinks do, pages of just the sheet's groups that are asked
//! for were written, in their order, or there is a cause why none was, and it is told.
#![tactic(auto)]

mod asked;
mod checking;
mod fault;
mod look;
mod marks;
mod message;
mod program;
mod survey;
mod writing;

pub use asked::Asked;
pub use fault::{Fault, PageFault};
pub use program::Pages;
pub use scr_host::{Exit, MOST_BYTES, run, run_on_host, run_on_words};
