//! The digits of an orbit, as a coordinate.
ghost use Rattle.std.specs.Prelude.{◌≡◌, ◌-◌, ◌^◌, ◌<◌, ◌≤◌, map};
ghost use Rattle.std.proofs.Props.{props};
ghost use Rattle.scr_orbit.specs.Orbits.{IsZeroSumOrbit};
ghost use Rattle.scr_orbit.specs.PlaceTurns.{made_by};
ghost use Rattle.scr_coord.specs.Projections.{AreTurns, projection, twists_view};

use scr_orbit::{PlaceTurn, add_digits, pick_into};
use scr_positions::Coord;
use scr_rank::TwistRank;

/// The list of the digits of `N` places, below `BASE` and with sum 0 modulo `BASE`, numbered by [`TwistRank`]. The goal
/// is that all are 0.
#[derive(Drop)]
pub struct Twists<'a, const N: usize, const BASE: usize> {
    /// The turns, each at its number.
    turns: &'a [PlaceTurn<N>],
    ghost size: { (1 ≤ N) × (N ≤ 12) },
    ghost base: { (1 ≤ BASE) × (BASE ≤ 12) },
    ghost valid: { AreTurns (λ turn. IsZeroSumOrbit N BASE (made_by turn)) turns.now } by { Prim.hlevel props },
    ghost fits: { BASE ^ (N - 1) < 2 ^ 32 },
}

impl<'a, const N: usize, const BASE: usize> Twists<'a, N, BASE> {
    /// The coordinate of 1 to 256 turns, each a permutation of the places that adds digits below `BASE` with sum 0 modulo
    /// `BASE`. There are fewer than 2^32 lists of digits.
    pub fn new(turns: &'a [PlaceTurn<N>]) -> Twists<'a, N, BASE>
        requires size { (1 ≤ N) × (N ≤ 12) }
        requires base { (1 ≤ BASE) × (BASE ≤ 12) }
        requires valid { AreTurns (λ turn. IsZeroSumOrbit N BASE (made_by turn)) turns.now }
        requires fits { BASE ^ (N - 1) < 2 ^ 32 }
        ensures { ⟦<Twists<'a, N, BASE> as Coord>⟧.coordinate result
            ≡ projection (twists_view N BASE) (map made_by turns.now) }
    {
        Twists { turns }
    }
}

impl<const N: usize, const BASE: usize> Coord for Twists<'_, N, BASE> {
    ghost use Rattle.std.specs.Prelude.{map};
    ghost use Rattle.scr_coord.specs.Projections.{projection, twists_view};

    ghost coordinate = { λ t. projection (twists_view N BASE) (map made_by t.turns.now) };

    fn count(&self) -> u32 {
        (BASE as u32).pow((N - 1) as u32)
    }

    fn turns(&self) -> u32 {
        self.turns.len() as u32
    }

    #[inline]
    fn after(&self, position: u32, turn: u32) -> Option<u32> {
        let seen = TwistRank::<N, BASE>::unrank(u128::from(position));
        let turn = &self.turns[turn as usize];
        let mut digits = [0; N];
        pick_into(&seen[..], &turn.places[..], &mut digits[..]);
        add_digits(&mut digits[..], &turn.added[..], BASE as u8);
        Some(TwistRank::<N, BASE>::rank(&digits) as u32)
    }

    #[inline]
    fn is_goal(&self, position: u32) -> bool {
        position == 0
    }
}
