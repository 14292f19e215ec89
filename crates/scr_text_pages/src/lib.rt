//! Pages of text: a group of a sheet in lines for those who scramble, 64 on a page.
//!
//! What is read back from pages is a definition of its own (`specs/Reading.antt`): the first byte of a line tells
//! whether it is one to cut at, a row of words, a line of a net, or for the eye alone. The theorem is that of
//! [`write_pages`]: of the pages that it adds just the scrambles of the group are read, each under its event, round,
//! group and label, and with its net (`specs/Nets.antt`) where nets are asked for. `laws` says that what is read of pages
//! one after another is what is read of each. The crate stands on the layout of `scr_layout` and the nets of `scr_net`.
#![tactic(auto)]

mod cutting;
mod heads;
pub mod laws;
mod nets;
mod page;
mod pages;
mod rows;
mod slot;

pub use pages::write_pages;
