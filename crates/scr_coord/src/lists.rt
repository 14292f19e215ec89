//! The pieces of an orbit, as a coordinate.
ghost use Rattle.std.specs.Prelude.{◌≡◌, ◌^◌, ◌<◌, ◌≤◌, map};
ghost use Rattle.std.proofs.Props.{props};
ghost use Rattle.scr_combinatorics.specs.Permutations.{IsPermutation, factorial};
ghost use Rattle.scr_orbit.specs.PlaceTurns.{made_by};
ghost use Rattle.scr_coord.specs.Projections.{AreTurns, projection, pieces_view};

use scr_orbit::{PlaceTurn, pick_into};
use scr_positions::Coord;
use scr_rank::PermRank;
use scr_rank::permutations::count_permutations;

/// The list of the pieces of `N` places, numbered by [`PermRank`]. The goal is the list in order.
#[derive(Drop)]
pub struct Lists<'a, const N: usize> {
    /// The turns, each at its number.
    turns: &'a [PlaceTurn<N>],
    ghost size: { (1 ≤ N) × (N ≤ 12) },
    ghost valid: { AreTurns (λ turn. IsPermutation N turn.places) turns.now } by { Prim.hlevel props },
    ghost fits: { factorial N < 2 ^ 32 },
}

impl<'a, const N: usize> Lists<'a, N> {
    /// The coordinate of 1 to 256 turns, each a permutation of the places. There are fewer than 2^32
    /// lists.
    pub fn new(turns: &'a [PlaceTurn<N>]) -> Lists<'a, N>
        requires size { (1 ≤ N) × (N ≤ 12) }
        requires valid { AreTurns (λ turn. IsPermutation N turn.places) turns.now }
        requires fits { factorial N < 2 ^ 32 }
        ensures { ⟦<Lists<'a, N> as Coord>⟧.coordinate result
            ≡ projection (pieces_view N) (map made_by turns.now) }
    {
        Lists { turns }
    }
}

impl<const N: usize> Coord for Lists<'_, N> {
    ghost use Rattle.std.specs.Prelude.{map};
    ghost use Rattle.scr_orbit.specs.PlaceTurns.{made_by};
    ghost use Rattle.scr_coord.specs.Projections.{projection, pieces_view};

    ghost coordinate = { λ t. projection (pieces_view N) (map made_by t.turns.now) };

    fn count(&self) -> u32 {
        count_permutations(N)
    }

    fn turns(&self) -> u32 {
        self.turns.len() as u32
    }

    #[inline]
    fn after(&self, position: u32, turn: u32) -> Option<u32> {
        let seen = PermRank::<N>::unrank(u128::from(position));
        let turn = &self.turns[turn as usize];
        let mut pieces = [0; N];
        pick_into(&seen[..], &turn.places[..], &mut pieces[..]);
        Some(PermRank::<N>::rank(&pieces) as u32)
    }

    #[inline]
    fn is_goal(&self, position: u32) -> bool {
        position == 0
    }
}
