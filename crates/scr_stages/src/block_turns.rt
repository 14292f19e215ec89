//! Some of the turns of a puzzle, as what they do to the places of a block.
ghost use Rattle.std.specs.Prelude.{◌≡◌, ◌<◌, ◌≤◌, All, map, length};
ghost use Rattle.scr_orbit.specs.PlaceTurns.{made_by};
ghost use Rattle.scr_stages.specs.Tables.{block_turn, block_turns};

use crate::places::pieces_in_block;
use scr_orbit::{PlaceTurn, pick_into};

/// What a turn does to the pieces at the places of a block.
fn block_turn<const N: usize, const M: usize>(turn: &PlaceTurn<N>, block: &[u8; M]) -> PlaceTurn<M>
    requires few { M ≤ 255 }
    requires block { All (λ place. place < N) block.now }
    ensures { made_by result ≡ block_turn block.now (made_by turn.now) }
{
    let mut places = [0; M];
    let mut added = [0; M];
    pieces_in_block(&turn.places[..], &block[..], &mut places[..]);
    pick_into(&turn.added[..], &block[..], &mut added[..]);
    PlaceTurn { places, added }
}

/// What the turns with these numbers do to the pieces at the places of a block.
#[tactic(auto, using(crate::proofs::Cited::block_turns))]
pub(crate) fn block_turns<const N: usize, const M: usize, const K: usize>(
    turns: &[PlaceTurn<N>],
    block: &[u8; M],
    numbers: &[u8; K],
) -> [PlaceTurn<M>; K]
    requires few { M ≤ 255 }
    requires block { All (λ place. place < N) block.now }
    requires numbers { All (λ t. t < length turns.now) numbers.now }
    ensures { map made_by result ≡ block_turns block.now (map made_by turns.now) numbers.now }
{
    let none = PlaceTurn {
        places: [0; M],
        added: [0; M],
    };
    let mut out = [none; K];
    for at in 0..K {
        out[at] = block_turn(&turns[usize::from(numbers[at])], block);
    }
    out
}
