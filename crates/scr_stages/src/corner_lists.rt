//! Lists of corners by numbers, as coordinates.
ghost use Rattle.std.specs.Prelude.{◌≡◌, ◌<◌, map};
ghost use Rattle.std.proofs.Props.{props};
ghost use Rattle.scr_combinatorics.specs.Permutations.{IsPermutation};
ghost use Rattle.scr_orbit.specs.PlaceTurns.{made_by};
ghost use Rattle.scr_positions.specs.Coordinates.{StaysBelow};
ghost use Rattle.scr_coord.specs.Projections.{AreTurns};
ghost use Rattle.scr_stages.specs.Tetrads.{corners_coordinate};

use scr_orbit::{PlaceTurn, pick_into};
use scr_positions::Coord;
use std::marker::PhantomData;

/// Each corner at its place.
const SOLVED: [u8; 8] = [0, 1, 2, 3, 4, 5, 6, 7];

/// Some lists of corners by numbers. It is a type without values.
pub(crate) trait CornerNumbers {
    ghost use Rattle.std.specs.Prelude.{◌≡◌, ◌<◌};
    ghost use Rattle.scr_combinatorics.specs.Permutations.{IsPermutation};
    ghost use Rattle.scr_coord.specs.Projections.{ListView};

    /// How many numbers there are, the list with each, and the number of each list.
    ghost view: { ListView };

    /// How many numbers there are.
    fn count() -> u32
        ensures { result ≡ view.count };

    /// The list with a number.
    fn list_at(position: u32) -> [u8; 8]
        requires { position < view.count }
        ensures same { result ≡ view.list_at position }
        ensures valid { IsPermutation 8 result };

    /// The number of a list.
    fn number_of(corners: &[u8; 8]) -> u32
        requires { IsPermutation 8 corners.now }
        ensures { result ≡ view.number_of corners.now };
}

/// These lists as a coordinate. The goal is the list in order.
#[derive(Drop)]
pub(crate) struct CornerLists<'a, V: CornerNumbers> {
    turns: &'a [PlaceTurn<8>],
    by: PhantomData<V>,
    ghost valid: { AreTurns (λ turn. IsPermutation 8 turn.places) turns.now } by { Prim.hlevel props },
    ghost stays: { StaysBelow (corners_coordinate V.view.count V.view.list_at V.view.number_of (map made_by turns.now)) } by { Prim.hlevel props },
}

impl<'a, V: CornerNumbers> CornerLists<'a, V> {
    /// The coordinate of 1 to 256 turns, each a permutation of the places, which lead from numbered lists to numbered
    /// lists.
    pub fn new(turns: &'a [PlaceTurn<8>]) -> CornerLists<'a, V>
        requires valid { AreTurns (λ turn. IsPermutation 8 turn.places) turns.now }
        requires stays { StaysBelow (corners_coordinate V.view.count V.view.list_at V.view.number_of (map made_by turns.now)) }
        ensures { result.turns.now ≡ turns.now }
    {
        CornerLists {
            turns,
            by: PhantomData,
        }
    }
}

impl<V: CornerNumbers> Coord for CornerLists<'_, V> {
    ghost use Rattle.std.specs.Prelude.{map};
    ghost use Rattle.scr_orbit.specs.PlaceTurns.{made_by};
    ghost use Rattle.scr_stages.specs.Tetrads.{corners_coordinate};

    ghost coordinate = { λ t. corners_coordinate V.view.count V.view.list_at V.view.number_of (map made_by t.turns.now) };

    fn count(&self) -> u32 {
        V::count()
    }

    fn turns(&self) -> u32 {
        self.turns.len() as u32
    }

    fn after(&self, position: u32, turn: u32) -> Option<u32> {
        let turn = &self.turns[turn as usize];
        let mut corners = [0; 8];
        pick_into(
            &V::list_at(position)[..],
            &turn.places[..],
            &mut corners[..],
        );
        Some(V::number_of(&corners))
    }

    fn is_goal(&self, position: u32) -> bool {
        position == V::number_of(&SOLVED)
    }
}
