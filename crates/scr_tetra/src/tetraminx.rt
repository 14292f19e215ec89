//! The state of a Pyraminx without its tips.
ghost use Rattle.std.specs.Prelude.{◌≡◌, ◌↔◌, ◌<◌, IsTrue, IsSome, IfSome};
ghost use Rattle.scr_orbit.specs.InPlace.{AreDigitsInPlace};
ghost use Rattle.scr_orbit.specs.Orbits.{added_digits};
ghost use Rattle.scr_tetra.specs.Pyraminx.{IsTetraminx, solved_tetraminx};

use scr_orbit::{Placed, add_digits};
use scr_rank::permutations::is_odd;
use std::marker::Model;

/// A Pyraminx without tips that can be put together without taking one apart: the list of edges is even, flips sum to 0
/// modulo 2, and axial pieces stand turned by 0 to 2 thirds.
///
/// Edge places and pieces: 0 UL, 1 UR, 2 UB, 3 LR, 4 LB, 5 RB. Axes: 0 U, 1 L, 2 R, 3 B.
#[derive(Clone, Copy, Debug, PartialEq, Eq)]
pub struct Tetraminx {
    pub(crate) edges: Placed<6>,
    pub(crate) axials: [u8; 4],
}

// Clauses see the orbit of the edges and the digits of the axial pieces.
impl Model for Tetraminx {
    ghost use Rattle.scr_tetra.specs.Pyraminx.{TetraminxState, IsTetraminx};

    ghost Value = { TetraminxState };

    ghost view = { λ s. record { edges = s.edges; axials = s.axials } };

    ghost invariant = { λ s. IsTetraminx (record { edges = s.edges; axials = s.axials }) };

    ghost inverse = { λ s. record { edges = s.edges; axials = s.axials } };
}

impl Tetraminx {
    /// The solved state.
    #[tactic(auto, unfolding(crate::specs::Pyraminx::solved_tetraminx, scr_orbit::specs::Orbits::solved_orbit))]
    pub fn solved() -> Tetraminx
        ensures { result ≡ solved_tetraminx }
    {
        Tetraminx {
            edges: Placed::new([0, 1, 2, 3, 4, 5], [0; 6]),
            axials: [0; 4],
        }
    }

    /// The state with these edges at the places, with these flips, 0 or 1, and with axial pieces that stand turned by
    /// so many thirds. `None` comes exactly where they aren't those of a valid state.
    pub fn from_lists(edges: [u8; 6], flips: [u8; 6], axials: [u8; 4]) -> Option<Tetraminx>
        ensures valid { IsSome result ↔ IsTetraminx (record {
          edges = record { pieces = edges; digits = flips };
          axials = axials;
        }) }
        ensures value { IfSome result (λ state. state ≡ record {
          edges = record { pieces = edges; digits = flips };
          axials = axials;
        }) }
    {
        let odd = is_odd(&edges);
        let edges = Placed::new(edges, flips);
        if edges.is_zero_sum(2) && !odd && are_thirds(&axials) {
            Some(Tetraminx { edges, axials })
        } else {
            None
        }
    }

    /// Which edge stands at each place.
    pub fn edges(&self) -> [u8; 6]
        ensures same { result ≡ self.now.edges.pieces }
        ensures valid { IsTetraminx self.now }
    {
        self.edges.pieces()
    }

    /// The flip of the edge at each place, 0 or 1.
    pub fn flips(&self) -> [u8; 6]
        ensures same { result ≡ self.now.edges.digits }
        ensures valid { IsTetraminx self.now }
    {
        self.edges.digits()
    }

    /// How many thirds clockwise each axial piece stands turned, from 0 to 2.
    pub fn axials(&self) -> [u8; 4]
        ensures same { result ≡ self.now.axials }
        ensures valid { IsTetraminx self.now }
    {
        self.axials
    }
}

/// Whether these are digits from 0 to 2.
pub(crate) fn are_thirds(digits: &[u8; 4]) -> bool
    ensures { IsTrue result ↔ AreDigitsInPlace 4 3 digits.now }
{
    digits.iter().all(|digit| *digit < 3)
}

/// The digits after a turn that adds these.
pub(crate) fn turned_in_place(digits: [u8; 4], added: [u8; 4]) -> [u8; 4]
    requires digits { AreDigitsInPlace 4 3 digits }
    requires added { AreDigitsInPlace 4 3 added }
    ensures { result ≡ added_digits 3 digits added }
{
    let mut turned = digits;
    add_digits(&mut turned[..], &added[..], 3);
    turned
}
