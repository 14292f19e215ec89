//! The half turns of the cubes that they solve, by parts.
ghost use Rattle.std.specs.Prelude.{◌≡◌, ℕ, ◌<◌, All, IfOk, map, slice_index};
ghost use Rattle.std.proofs.Props.{props};
ghost use Rattle.scr_combinatorics.specs.Permutations.{IsPermutation, parity, permutation_at};
ghost use Rattle.scr_positions.specs.Coordinates.{StaysBelow};
ghost use Rattle.scr_positions.specs.Moves.{moves_coordinate};
ghost use Rattle.scr_positions.specs.SearchSpaces.{ShowsSame};
ghost use Rattle.scr_stages.specs.Stages.{half_turns, middle_edges};
ghost use Rattle.scr_stages.specs.Numbers.{first_edges, second_edges};
ghost use Rattle.scr_stages.specs.Tables.{block_turn, edges_by, halves_coordinate, half_corners_coordinate, half_block_coordinate};

use crate::corner_lists::CornerLists;
use crate::half_corners::HalfCorners;
use crate::half_parts::{FIRST_EDGES, MIDDLE_EDGES, SECOND_EDGES, half_number};
use crate::stage_turns::{HALF_TURNS, block_edges_turned, corners_turned};
use scr_coord::Lists;
use scr_outside::NoMemory;
use scr_positions::{Coord, MoveTable};
use scr_rank::PermRank;
use scr_rank::permutations::is_odd;
use std::alloc::Global;

/// The moves of the corners, of each block of edges, and the parities of lists of four, 1 where a list is odd. Together
/// they are the coordinate of the cubes that half turns solve.
pub(crate) struct HalfMoves {
    corners: MoveTable,
    first: MoveTable,
    second: MoveTable,
    middle: MoveTable,
    odd: [u8; 24],
    ghost shows_corners: { ShowsSame half_corners_coordinate (moves_coordinate corners) },
    ghost shows_first: { ShowsSame (half_block_coordinate first_edges) (moves_coordinate first) },
    ghost shows_second: { ShowsSame (half_block_coordinate second_edges) (moves_coordinate second) },
    ghost shows_middle: { ShowsSame (half_block_coordinate middle_edges) (moves_coordinate middle) },
    ghost parities: { (k : ℕ) → k < 24 → slice_index odd k ≡ parity (permutation_at 4 k) } by { Prim.hlevel props },
    ghost stays: { StaysBelow halves_coordinate } by { Prim.hlevel props },
}

// By hand, so that the proof of whoever lets one go meets one call, and not the letting go of each of its parts.
impl Drop for HalfMoves {
    fn drop(self) {
        let HalfMoves {
            corners: _,
            first: _,
            second: _,
            middle: _,
            odd: _,
        } = self;
    }
}

/// The moves of a block of edges, among whose places half turns carry its edges.
fn block_moves(alloc: Global, block: &[u8; 4]) -> Result<MoveTable, NoMemory>
    requires places { All (λ place. place < 12) block.now }
    requires kept { All (λ r. IsPermutation 4 r.pieces) (map (block_turn block.now) (edges_by half_turns)) }
    ensures { IfOk result (λ table. ShowsSame (half_block_coordinate block.now) (moves_coordinate table)) }
{
    MoveTable::build(
        alloc,
        &Lists::<4>::new(&block_edges_turned(block, &HALF_TURNS)[..]),
    )
}

/// The parity of each list of four, by its number.
#[tactic(auto, using(crate::proofs::Cited::parities))]
fn parities() -> [u8; 24]
    ensures { (k : ℕ) → k < 24 → slice_index result k ≡ parity (permutation_at 4 k) }
{
    let mut odd = [0; 24];
    for number in 0..24 {
        odd[number] = u8::from(is_odd(&PermRank::<4>::unrank(number as u128)[..]));
    }
    odd
}

impl HalfMoves {
    /// The moves. Only memory can be wanting.
    pub fn build(alloc: Global) -> Result<HalfMoves, NoMemory> {
        let turns = corners_turned(&HALF_TURNS);
        let corners = CornerLists::<HalfCorners>::new(&turns[..]);
        Ok(HalfMoves {
            corners: MoveTable::build(alloc, &corners)?,
            first: block_moves(alloc, &FIRST_EDGES)?,
            second: block_moves(alloc, &SECOND_EDGES)?,
            middle: block_moves(alloc, &MIDDLE_EDGES)?,
            odd: parities(),
        })
    }
}

impl Coord for HalfMoves {
    ghost use Rattle.scr_stages.specs.Tables.{halves_coordinate};

    ghost coordinate = { λ _. halves_coordinate };

    fn count(&self) -> u32 {
        663_552
    }

    fn turns(&self) -> u32 {
        6
    }

    // The parts don't depend on the turn, so that a loop over the turns of a position divides once. Half turns leave the
    // corners even, so of two lists of middle edges with one half the cube has the one that makes the edges even.
    #[inline]
    #[tactic(auto, using(crate::proofs::Cited::half_moves_after))]
    fn after(&self, position: u32, turn: u32) -> Option<u32> {
        let half = position % 12;
        let rest = position / 12;
        let second = rest % 24;
        let rest = rest / 24;
        let first = rest % 24;
        let odd = self.odd[first as usize]
            + self.odd[second as usize]
            + self.odd[2 * half as usize];
        Some(half_number(
            self.middle.target(2 * half + u32::from(odd % 2), turn),
            self.second.target(second, turn),
            self.first.target(first, turn),
            self.corners.target(rest / 24, turn),
        ))
    }

    #[inline]
    fn is_goal(&self, position: u32) -> bool {
        position == 0
    }
}
