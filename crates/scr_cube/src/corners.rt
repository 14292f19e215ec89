//! The state of a 2x2x2.
ghost use Rattle.std.specs.Prelude.{◌≡◌, ◌↔◌, IsSome, IfSome};
ghost use Rattle.scr_cube.specs.Cube222.{IsCorners222, solved_222};

use scr_orbit::Placed;
use std::marker::Model;

/// A 2x2x2 that can be put together without taking it apart: twists sum to 0 modulo 3.
///
/// The corner DBL stands still. Places and pieces: 0 URF, 1 UFL, 2 ULB, 3 UBR, 4 DFR, 5 DLF, 6 DRB.
#[derive(Clone, Copy, Debug, PartialEq, Eq)]
pub struct Corners222 {
    pub(crate) corners: Placed<7>,
}

// Clauses see the orbit.
impl Model for Corners222 {
    ghost use Rattle.scr_orbit.specs.Orbits.{Orbit};
    ghost use Rattle.scr_cube.specs.Cube222.{IsCorners222};

    ghost Value = { Orbit };

    ghost view = { λ c. c.corners };

    ghost invariant = { λ c. IsCorners222 c.corners };

    ghost inverse = { λ o. record { corners = o } };
}

impl Corners222 {
    /// The solved state.
    #[tactic(auto, unfolding(scr_orbit::specs::Orbits::solved_orbit))]
    pub fn solved() -> Corners222
        ensures { result ≡ solved_222 }
    {
        Corners222 {
            corners: Placed::new([0, 1, 2, 3, 4, 5, 6], [0; 7]),
        }
    }

    /// The state with these corners at the places, with these twists, from 0 to 2. `None` comes exactly where they
    /// aren't those of a valid state.
    pub fn from_lists(corners: [u8; 7], twists: [u8; 7]) -> Option<Corners222>
        ensures valid { IsSome result ↔ IsCorners222 (record { pieces = corners; digits = twists }) }
        ensures value { IfSome result (λ state. state ≡ record { pieces = corners; digits = twists }) }
    {
        let corners = Placed::new(corners, twists);
        if corners.is_zero_sum(3) {
            Some(Corners222 { corners })
        } else {
            None
        }
    }

    /// Which corner stands at each place.
    pub fn corners(&self) -> [u8; 7]
        ensures same { result ≡ self.now.pieces }
        ensures valid { IsCorners222 self.now }
    {
        self.corners.pieces()
    }

    /// The twist of the corner at each place, from 0 to 2.
    pub fn twists(&self) -> [u8; 7]
        ensures same { result ≡ self.now.digits }
        ensures valid { IsCorners222 self.now }
    {
        self.corners.digits()
    }
}
