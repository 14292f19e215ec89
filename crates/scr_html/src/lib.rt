//! A group of a sheet as pages of HTML, and the begin and the end of a document of such pages.
//!
//! Pages are lists of tokens (`scr_markup`), so their text has one reading. What they promise is told by their elements
//! of some class (`specs/Pages.antt`): each page, its title and its round, and of each scramble its label, its words
//! and its picture, in order. The theorem is that of [`write_group`]: the text goes on by tokens that tell just this of
//! the group, and nothing else. How things look is promised nowhere: the style, the sizes, where words stand in their
//! rows (`scr_layout`), and the drawings within pictures (`scr_drawing`). A page needs no script, no font and no file
//! from elsewhere. Memory is wanted for the text alone.
#![tactic(auto)]

mod group;
mod head;
mod heads;
mod sizes;
mod slot;
mod tokens;
mod words;

pub use group::write_group;
pub use head::{write_head, write_tail};
