//! The turns of the stages, and what turns do to corners, to edges, and to the edges of a block.
ghost use Rattle.std.specs.Prelude.{◌≡◌, ◌<◌, ◌≤◌, All, map};
ghost use Rattle.scr_combinatorics.specs.Permutations.{IsPermutation};
ghost use Rattle.scr_orbit.specs.PlaceTurns.{made_by};
ghost use Rattle.scr_coord.specs.Projections.{AreTurns};
ghost use Rattle.scr_stages.specs.Tables.{block_turn, corners_by, edges_by};
ghost use Rattle.scr_stages.specs.Turned.{AreTurned};

use crate::block_turns::block_turns;
use scr_cube::{corner_turns, edge_turns};
use scr_orbit::PlaceTurn;

/// The numbers of all turns: U U2 U' R R2 R' F F2 F' D D2 D' L L2 L' B B2 B'.
pub const ALL_TURNS: [u8; 18] = [0, 1, 2, 3, 4, 5, 6, 7, 8, 9, 10, 11, 12, 13, 14, 15, 16, 17];

/// Those of the second stage: U U2 U' R R2 R' F2 D D2 D' L L2 L' B2.
pub(crate) const SLICE_TURNS: [u8; 14] = [0, 1, 2, 3, 4, 5, 7, 9, 10, 11, 12, 13, 14, 16];

/// Those of the third stage, which keep a domino: U U2 U' R2 F2 D D2 D' L2 B2.
pub const DOMINO_TURNS: [u8; 10] = [0, 1, 2, 4, 7, 9, 10, 11, 13, 16];

/// Those of the last: U2 R2 F2 D2 L2 B2.
pub(crate) const HALF_TURNS: [u8; 6] = [1, 4, 7, 10, 13, 16];

/// All places of corners.
const CORNERS: [u8; 8] = [0, 1, 2, 3, 4, 5, 6, 7];

/// All places of edges.
const EDGES: [u8; 12] = [0, 1, 2, 3, 4, 5, 6, 7, 8, 9, 10, 11];

/// What the turns with these numbers, each below 18, do to corners. There are 1 to 256.
pub fn corners_turned<const K: usize>(numbers: &[u8; K]) -> [PlaceTurn<8>; K]
    requires count { (1 ≤ K) × (K ≤ 256) }
    requires numbers { All (λ t. t < 18) numbers.now }
    ensures { AreTurned 8 3 (corners_by numbers.now) result }
{
    block_turns(corner_turns(), &CORNERS, numbers)
}

/// What the turns with these numbers, each below 18, do to edges. There are 1 to 256.
pub fn edges_turned<const K: usize>(numbers: &[u8; K]) -> [PlaceTurn<12>; K]
    requires count { (1 ≤ K) × (K ≤ 256) }
    requires numbers { All (λ t. t < 18) numbers.now }
    ensures { AreTurned 12 2 (edges_by numbers.now) result }
{
    block_turns(edge_turns(), &EDGES, numbers)
}

/// What the turns with these numbers, each below 18, do to the edges at the places of a block, which they carry among
/// these. There are 1 to 256 turns, and at most 255 places.
pub fn block_edges_turned<const M: usize, const K: usize>(
    block: &[u8; M],
    numbers: &[u8; K],
) -> [PlaceTurn<M>; K]
    requires small { M ≤ 255 }
    requires some { 1 ≤ K }
    requires few { K ≤ 256 }
    requires block { All (λ place. place < 12) block.now }
    requires numbers { All (λ t. t < 18) numbers.now }
    requires kept { All (λ r. IsPermutation M r.pieces) (map (block_turn block.now) (edges_by numbers.now)) }
    ensures turns { map made_by result ≡ map (block_turn block.now) (edges_by numbers.now) }
    ensures places { AreTurns (λ turn. IsPermutation M turn.places) result }
{
    block_turns(edge_turns(), block, numbers)
}
