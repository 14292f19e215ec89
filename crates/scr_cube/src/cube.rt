//! The state of a 3x3x3.
ghost use Rattle.std.specs.Prelude.{◌≡◌, ◌↔◌, IsSome, IfSome};
ghost use Rattle.scr_orbit.specs.Monoids.{IsInverse};
ghost use Rattle.scr_cube.specs.Cube333.{IsCube, cube_monoid, solved_cube};

use scr_orbit::Placed;
use scr_rank::permutations::is_odd;
use std::marker::Model;

/// A 3x3x3 that can be put together without taking one apart: twists sum to 0 modulo 3, flips to 0 modulo 2, and the
/// lists of corners and edges are both even or both odd.
///
/// Places and pieces: corners 0 URF, 1 UFL, 2 ULB, 3 UBR, 4 DFR, 5 DLF, 6 DBL, 7 DRB; edges 0 UR, 1 UF, 2 UL, 3 UB,
/// 4 DR, 5 DF, 6 DL, 7 DB, 8 FR, 9 FL, 10 BL, 11 BR.
#[derive(Clone, Copy, Debug, PartialEq, Eq)]
pub struct Cube {
    pub(crate) corners: Placed<8>,
    pub(crate) edges: Placed<12>,
}

// Clauses see the two orbits.
impl Model for Cube {
    ghost use Rattle.scr_cube.specs.Cube333.{CubeState, IsCube};

    ghost Value = { CubeState };

    ghost view = { λ c. record { corners = c.corners; edges = c.edges } };

    ghost invariant = { λ c. IsCube (record { corners = c.corners; edges = c.edges }) };

    ghost inverse = { λ s. record { corners = s.corners; edges = s.edges } };
}

impl Cube {
    /// The solved cube.
    #[tactic(auto, unfolding(crate::specs::Cube333::solved_cube, scr_orbit::specs::Orbits::solved_orbit))]
    pub fn solved() -> Cube
        ensures { result ≡ solved_cube }
    {
        Cube {
            corners: Placed::new([0, 1, 2, 3, 4, 5, 6, 7], [0; 8]),
            edges: Placed::new([0, 1, 2, 3, 4, 5, 6, 7, 8, 9, 10, 11], [0; 12]),
        }
    }

    /// The cube with these pieces at the places, with these twists, from 0 to 2, and flips, 0 or 1. `None` comes
    /// exactly where they aren't those of a valid cube.
    pub fn from_lists(
        corners: [u8; 8],
        twists: [u8; 8],
        edges: [u8; 12],
        flips: [u8; 12],
    ) -> Option<Cube>
        ensures valid { IsSome result ↔ IsCube (record {
          corners = record { pieces = corners; digits = twists };
          edges = record { pieces = edges; digits = flips };
        }) }
        ensures value { IfSome result (λ cube. cube ≡ record {
          corners = record { pieces = corners; digits = twists };
          edges = record { pieces = edges; digits = flips };
        }) }
    {
        let same_parity = is_odd(&corners) == is_odd(&edges);
        let corners = Placed::new(corners, twists);
        let edges = Placed::new(edges, flips);
        if corners.is_zero_sum(3) && edges.is_zero_sum(2) && same_parity {
            Some(Cube { corners, edges })
        } else {
            None
        }
    }

    /// Does nothing: the cube is valid.
    pub(crate) fn is_valid(&self)
        ensures { IsCube self.now }
    {
        let _corners = self.corners();
    }

    /// This cube and then another: each corner place gets this cube's corner from the place that `next` has there, with
    /// both twists added modulo 3, and each edge place its edge so, with both flips added modulo 2. Where words lead
    /// from the solved cube to both, the one word and then the other lead here.
    pub fn then(&self, next: &Cube) -> Cube
        ensures joined { result ≡ cube_monoid.turned self.now next.now }
        ensures valid { IsCube self.now }
    {
        Cube {
            corners: self.corners.then(&next.corners, 3),
            edges: self.edges.then(&next.edges, 2),
        }
    }

    /// The inverse: the one cube that is solved with this one, whichever comes first.
    pub fn inverse(&self) -> Cube
        ensures inverse { IsInverse cube_monoid IsCube self.now result }
        ensures valid { IsCube self.now }
    {
        Cube {
            corners: self.corners.inverse(3),
            edges: self.edges.inverse(2),
        }
    }

    /// Which corner stands at each place.
    pub fn corners(&self) -> [u8; 8]
        ensures same { result ≡ self.now.corners.pieces }
        ensures valid { IsCube self.now }
    {
        self.corners.pieces()
    }

    /// The twist of the corner at each place, from 0 to 2.
    pub fn twists(&self) -> [u8; 8]
        ensures same { result ≡ self.now.corners.digits }
        ensures valid { IsCube self.now }
    {
        self.corners.digits()
    }

    /// Which edge stands at each place.
    pub fn edges(&self) -> [u8; 12]
        ensures same { result ≡ self.now.edges.pieces }
        ensures valid { IsCube self.now }
    {
        self.edges.pieces()
    }

    /// The flip of the edge at each place, 0 or 1.
    pub fn flips(&self) -> [u8; 12]
        ensures same { result ≡ self.now.edges.digits }
        ensures valid { IsCube self.now }
    {
        self.edges.digits()
    }
}
