//! Nets of cubes: which letter shows at each place of each face, for cubes of 2 to 7 layers, as text beside which a
//! scrambled cube is held.
//!
//! `specs/Geometry.antt` is the geometry of a cube alone: its points, the stickers at them, and the quarter turn of
//! some layers at each face as a turn in space (`scr_space`), by whole numbers and without a list of stickers;
//! `specs/Nets.antt` says what a net is and that a turn moves stickers with their letters. [`Net::play`] is exact. The
//! nets of a 3x3x3, held any way too, and of a 2x2x2 by their pieces ([`of_cube`], [`of_corners`]) stand in
//! `specs/Pieces.antt`. The theorem is a law of `scr_net_laws` for each of them (`cube_net`, `held_net`,
//! `corners_net`): for every scramble that a cube plays, the net of the scramble played on stickers is the net of the
//! state that it is played to on pieces; and of no other state (`one_state`). What holds of cubes of any size is said
//! there too: that a turn keeps each letter as often, that four quarters are none and fewer are something, that turns
//! about one axis exchange (`turns_of_layers`), and that a word is taken back (`taken_back`). The crate stands on turns
//! in space, on the cubes of `scr_cube`, on the notation of turns, and for [`write_net`] on `scr_outside`. Nothing
//! takes memory.
#![tactic(auto)]

mod geometry;
mod net;
mod pieces;
mod shown;
mod writing;

pub use geometry::Sticker;
pub use net::Net;
pub use pieces::{of_corners, of_cube};
pub use writing::{net_line, write_net};
