//! The places of marked pieces of an orbit, as a coordinate.
ghost use Rattle.std.specs.Prelude.{◌≡◌, ◌^◌, ◌<◌, ◌≤◌, length, map};
ghost use Rattle.std.proofs.Props.{props};
ghost use Rattle.scr_combinatorics.specs.Permutations.{IsPermutation};
ghost use Rattle.scr_combinatorics.specs.PlaceSets.{IsPlaceSet, binomial};
ghost use Rattle.scr_combinatorics.proofs.PlaceSets.{IsPlaceSet-prop};
ghost use Rattle.scr_orbit.specs.PlaceTurns.{made_by};
ghost use Rattle.scr_coord.specs.Projections.{AreTurns, projection, place_set_view, marked_places, stands_in};

use scr_orbit::PlaceTurn;
use scr_positions::Coord;
use scr_rank::Choose;
use scr_rank::place_sets::count_sets;

/// The set of the places, among `N`, at which `K` marked pieces stand, numbered by [`Choose`]. The goal is the set
/// `home`.
#[derive(Drop)]
pub struct PlaceSet<'a, const N: usize, const K: usize> {
    /// The turns, each at its number.
    turns: &'a [PlaceTurn<N>],
    /// The places at which the pieces are at home, in increasing order.
    home: [u8; K],
    ghost size: { (1 ≤ N) × (N ≤ 12) },
    ghost valid: { AreTurns (λ turn. IsPermutation N turn.places) turns.now } by { Prim.hlevel props },
    ghost fits: { binomial N K < 2 ^ 32 },
    ghost set: { IsPlaceSet N K home } by { IsPlaceSet-prop N K home },
}

impl<'a, const N: usize, const K: usize> PlaceSet<'a, N, K> {
    /// The coordinate of 1 to 256 turns, each a permutation of the places. There are fewer than 2^32
    /// sets. `home` is increasing and below `N`.
    pub fn new(turns: &'a [PlaceTurn<N>], home: [u8; K]) -> PlaceSet<'a, N, K>
        requires size { (1 ≤ N) × (N ≤ 12) }
        requires valid { AreTurns (λ turn. IsPermutation N turn.places) turns.now }
        requires fits { binomial N K < 2 ^ 32 }
        requires home { IsPlaceSet N K home }
        ensures { ⟦<PlaceSet<'a, N, K> as Coord>⟧.coordinate result
            ≡ projection (place_set_view N K home.entry) (map made_by turns.now) }
    {
        PlaceSet { turns, home }
    }
}

/// Fills `out` with the places of the elements of `set` in `list`, in increasing order. There are as many as `out`
/// takes.
pub fn places_of(set: &[u8], list: &[u8], out: &mut [u8])
    requires few { length list.now ≤ 256 }
    requires fits { length (marked_places (stands_in set.now) list.now) ≡ length out.old }
    ensures { out.new ≡ marked_places (stands_in set.now) list.now }
{
    let mut found = 0;
    for place in 0..list.len() {
        if set.contains(&list[place]) {
            out[found] = place as u8;
            found += 1;
        }
    }
}

impl<const N: usize, const K: usize> Coord for PlaceSet<'_, N, K> {
    ghost use Rattle.std.specs.Prelude.{map};
    ghost use Rattle.scr_orbit.specs.PlaceTurns.{made_by};
    ghost use Rattle.scr_coord.specs.Projections.{projection, place_set_view};

    ghost coordinate = { λ t. projection (place_set_view N K t.home) (map made_by t.turns.now) };

    fn count(&self) -> u32 {
        count_sets(N, K) as u32
    }

    fn turns(&self) -> u32 {
        self.turns.len() as u32
    }

    #[inline]
    fn after(&self, position: u32, turn: u32) -> Option<u32> {
        let seen = Choose::<N, K>::unrank(u128::from(position));
        let turn = &self.turns[turn as usize];
        let mut places = [0; K];
        places_of(&seen[..], &turn.places[..], &mut places[..]);
        Some(Choose::<N, K>::rank(&places) as u32)
    }

    #[inline]
    fn is_goal(&self, position: u32) -> bool {
        u128::from(position) == Choose::<N, K>::rank(&self.home)
    }
}
