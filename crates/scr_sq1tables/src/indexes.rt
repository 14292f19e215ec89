//! The indexes of a state in the tables.
ghost use Rattle.std.specs.Prelude.{◌≡◌, ◌<◌};
ghost use Rattle.scr_sq1.specs.Units.{IsSq1};
ghost use Rattle.scr_sq1tables.specs.Tables.{shapes_index, pairings_index, square_index};

use crate::pieces::{MATES, carried_pairing, code_of};
use scr_rank::Pairing8;
use scr_rank::permutations::is_odd;
use scr_sq1::{Sq1, shape_number};

/// The index in the table `shapes`, below 7,356.
#[inline]
#[tactic(auto, using(crate::proofs::Cited::shapes_index), unfolding(crate::specs::Tables::shapes_index, crate::specs::Stages::oddness))]
pub fn shapes_index(state: &Sq1) -> u32
    ensures value { result ≡ shapes_index state.now }
    ensures below { result < 7356 }
    ensures valid { IsSq1 state.now }
{
    let (corners, edges) = state.pieces();
    let odd = u32::from(is_odd(&corners[..])) + u32::from(is_odd(&edges[..]));
    odd % 2 + 2 * shape_number(&state.shape())
}

/// The index of a normal state in the table `pairings`, below 11,025.
#[tactic(auto, unfolding(crate::specs::Stages::pairing_of, crate::specs::Tables::carried_pairing))]
pub fn pairings_index(state: &Sq1) -> u32
    ensures value { result ≡ pairings_index state.now }
    ensures below { result < 11025 }
    ensures valid { IsSq1 state.now }
{
    let (corners, edges) = state.pieces();
    let low = Pairing8::rank(&carried_pairing(&MATES, &corners)) as u32;
    low + 105 * Pairing8::rank(&carried_pairing(&MATES, &edges)) as u32
}

/// The index in the table `square`, below 73,728, of a normal state in which mates stand opposite to each other.
#[tactic(auto, unfolding(crate::specs::Tables::square_index))]
pub fn square_index(state: &Sq1) -> u32
    ensures value { result ≡ square_index state.now }
    ensures below { result < 73728 }
    ensures valid { IsSq1 state.now }
{
    let (corners, edges) = state.pieces();
    // the last bit of the edges' code is told by the others and by the corners
    let code = code_of(&edges);
    code % 8 + 8 * (code / 16) + 192 * code_of(&corners)
}
