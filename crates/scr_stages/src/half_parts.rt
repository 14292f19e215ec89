//! The parts of a cube that half turns solve, by numbers: its edges by blocks of four, and its corners.
ghost use Rattle.std.specs.Prelude.{◌≡◌, ◌^◌, ◌<◌, ◌≤◌, All};
ghost use Rattle.scr_combinatorics.specs.Permutations.{factorial, permutation_number};
ghost use Rattle.scr_cube.specs.Cube333.{CubeState};
ghost use Rattle.scr_stages.specs.Numbers.{AreParts, ArePartNumbers, half_cubes};
ghost use Rattle.scr_stages.specs.Tetrads.{in_block};

use crate::places::pieces_in_block;
use scr_rank::permutations::rank_permutation;

/// The edges UR UL DR DL.
pub(crate) const FIRST_EDGES: [u8; 4] = [0, 2, 4, 6];

/// UF UB DF DB.
pub(crate) const SECOND_EDGES: [u8; 4] = [1, 3, 5, 7];

/// Both, in the order of their places: those above and below.
pub const OUTER_EDGES: [u8; 8] = [0, 1, 2, 3, 4, 5, 6, 7];

/// FR FL BL BR.
pub const MIDDLE_EDGES: [u8; 4] = [8, 9, 10, 11];

/// The number of the cube with these parts, which half turns solve: the numbers of its middle, second and first edges, each
/// below 24, and of its corners, below 96. Of the number of the middle edges only the half counts: the other parts tell
/// the rest.
#[inline]
pub(crate) fn half_number(middle: u32, second: u32, first: u32, corners: u32) -> u32
    requires { ArePartNumbers middle second first corners }
    ensures number { (c : CubeState) → AreParts c middle second first corners → result ≡ half_cubes.number_of c }
    ensures below { result < 663552 }
{
    middle / 2 + 12 * (second + 24 * (first + 24 * corners))
}

/// The number of the list of the edges at the places of a block, of at most 12, told by their places in it.
#[tactic(auto, using(crate::proofs::Cited::block_number))]
pub fn block_number<const N: usize>(block: &[u8; N], edges: &[u8; 12]) -> u32
    requires few { N ≤ 12 }
    requires fits { factorial N < 2 ^ 32 }
    requires places { All (λ place. place < 12) block.now }
    ensures number { result ≡ permutation_number (in_block block.now edges.now) }
    ensures below { result < factorial N }
{
    let mut pieces = [0; N];
    pieces_in_block(&edges[..], &block[..], &mut pieces[..]);
    rank_permutation(&pieces[..]) as u32
}
