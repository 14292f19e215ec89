//! The second part: what a search for it sees of a domino, and where turns lead.
ghost use Rattle.std.specs.Prelude.{◌^◌, ◌<◌, ◌≤◌, All, IfOk, map};
ghost use Rattle.scr_combinatorics.specs.Permutations.{IsPermutation, factorial};
ghost use Rattle.scr_positions.specs.Moves.{moves_coordinate};
ghost use Rattle.scr_positions.specs.SearchSpaces.{ShowsSame};
ghost use Rattle.scr_coord.specs.Projections.{pieces_view, projection};
ghost use Rattle.scr_stages.specs.Stages.{domino_turns};
ghost use Rattle.scr_stages.specs.Tables.{block_turn, edges_by};

use scr_coord::Lists;
use scr_cube::Cube;
use scr_outside::NoMemory;
use scr_positions::MoveTable;
use scr_search::{Extent, Part, TurnSet, Word};
use scr_stages::{DOMINO_TURNS, MIDDLE_EDGES, OUTER_EDGES, block_edges_turned, corners_turned};
use scr_table::TableName;
use std::alloc::Global;

/// The ten turns that keep a domino. Lists of corners, of the edges above and below, and of those of the middle layer.
static SECOND_EXTENT: Extent = Extent {
    turns: 10,
    most: 10,
    numbers: [0, 1, 2, 4, 7, 9, 10, 11, 13, 16, 0, 0, 0, 0, 0, 0, 0, 0],
    backs: [2, 1, 0, 3, 4, 7, 6, 5, 8, 9, 0, 0, 0, 0, 0, 0, 0, 0],
    behind: [0x3f8, 0x3f7, 0x3ef, 0x318, 0x2f7, 0x1ef, 0x3ff],
    last: TurnSet::ALL,
    ones: 40_320,
    others: 40_320,
    middles: 24,
    end: 0,
    middle_first: true,
    one_table: TableName::CornerSlice,
    other_table: TableName::EdgeSlice,
    bound: 18,
};

/// The second part: the dominoes, by the ten turns that keep them, to solved. A word of it gives itself.
#[derive(Clone, Copy)]
pub(crate) struct SecondPart;

impl Part for SecondPart {
    ghost use Rattle.scr_twophase.specs.declared.second.TheConstants.{SECOND_EXTENT};
    ghost use Rattle.scr_twophase.specs.BothParts.{second_views};
    ghost use Rattle.std.specs.Prelude.{Some};
    ghost use Rattle.std.proofs.Common.{lit≤};

    type Rest = ();

    ghost views = { second_views };

    ghost extent = { SECOND_EXTENT };

    ghost gives = { λ _ word. Some word };

    #[inline]
    fn extent() -> &'static Extent {
        &SECOND_EXTENT
    }

    fn one_moves(alloc: Global) -> Result<MoveTable, NoMemory> {
        MoveTable::build(alloc, &Lists::<8>::new(&corners_turned(&DOMINO_TURNS)[..]))
    }

    fn other_moves(alloc: Global) -> Result<MoveTable, NoMemory> {
        edge_moves(alloc, &OUTER_EDGES)
    }

    fn middle_moves(alloc: Global) -> Result<MoveTable, NoMemory> {
        edge_moves(alloc, &MIDDLE_EDGES)
    }

    #[inline]
    fn give(_rest: &(), _cube: &Cube, _word: &mut Word) -> bool {
        true
    }

    ghost short = { lit≤ tt };
}

/// Where the ten turns lead from the lists of the edges of a block of 1 to 12 places, among which they carry these.
fn edge_moves<const N: usize>(alloc: Global, block: &[u8; N]) -> Result<MoveTable, NoMemory>
    requires size { (1 ≤ N) × (N ≤ 12) }
    requires fits { factorial N < 2 ^ 32 }
    requires places { All (λ place. place < 12) block.now }
    requires kept { All (λ r. IsPermutation N r.pieces) (map (block_turn block.now) (edges_by domino_turns)) }
    ensures { IfOk result (λ table.
        ShowsSame (projection (pieces_view N) (map (block_turn block.now) (edges_by domino_turns))) (moves_coordinate table)) }
{
    MoveTable::build(
        alloc,
        &Lists::<N>::new(&block_edges_turned(block, &DOMINO_TURNS)[..]),
    )
}
