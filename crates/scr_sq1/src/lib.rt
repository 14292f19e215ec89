//! The Square-1: its states, its turns, what a scramble makes of it, its shapes and its numbering, by which it is drawn
//! fairly.
//!
//! A state is which piece each of the 24 units of a twelfth is of, and the equator (`specs/Units.antt`). A turn of the
//! layers moves units, and is barred where a corner would lie across the cut; [`Sq1::twist`] is never barred, since no
//! state of the type has a corner there. Searches try turns by their numbers ([`Sq1::turn_at`]). A [`Shape`] says where
//! corners and edges lie, as the numbers of its four halves (`specs/Shapes.antt`); with the corners and the edges in
//! unit order it tells the state, and numbers it (`specs/Numbers.antt`). `scr_puzzle_laws` says what holds: that turns
//! are lawful, that the numberings are one to one, and what words that are known from elsewhere lead to.
//!
//! No call allocates; `turn` and `twist` touch arrays of 24 bytes alone. The crate stands on the notation of turns, on
//! the numbers of lists and on fair drawing.
#![tactic(auto)]

mod numbers;
mod pieces;
mod shapes;
mod state;
mod turning;

pub use numbers::Sq1Numbers;
pub use shapes::{Shape, shape_at, shape_number};
pub use state::{Sq1, TURNS, TWIST};
