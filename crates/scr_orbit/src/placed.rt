//! Orbits and their turns in arrays.
ghost use Rattle.std.specs.Prelude.{◌≡◌, ◌≤◌, ◌<◌, ◌↔◌, IsTrue};
ghost use Rattle.scr_orbit.specs.Monoids.{IsInverse};
ghost use Rattle.scr_orbit.specs.Orbits.{IsOrbit, IsZeroSumOrbit, orbit_monoid, turned_orbit};

use crate::validity::{are_twists, is_permutation};
use std::marker::Model;

/// A turn of an orbit of `N` places: place k gets the piece that stands at `places[k]`, and `added[k]` is added to its
/// digit. It is told by what it makes of the solved orbit: the pieces `places` with the digits `added`.
#[derive(Clone, Copy, Debug, PartialEq, Eq)]
pub struct PlaceTurn<const N: usize> {
    pub places: [u8; N],
    pub added: [u8; N],
}

/// A table of turns, one in a line: its places, then the digits that it adds.
#[macro_export]
macro_rules! place_turns {
    ($($places:expr => $added:expr),* $(,)?) => {
        [$($crate::PlaceTurn { places: $places, added: $added }),*]
    };
}

/// An orbit of `N` places: which piece stands at each, and the digit of that piece.
#[derive(Clone, Copy, Debug, PartialEq, Eq)]
pub struct Placed<const N: usize> {
    pieces: [u8; N],
    digits: [u8; N],
}

// Clauses see the orbit.
impl<const N: usize> Model for Placed<N> {
    ghost use Rattle.scr_orbit.specs.Orbits.{Orbit};

    ghost Value = { Orbit };

    ghost view = { λ p. record { pieces = p.pieces; digits = p.digits } };

    ghost inverse = { λ o. record { pieces = o.pieces; digits = o.digits } };
}

impl<const N: usize> Placed<N> {
    ghost use Rattle.scr_orbit.specs.PlaceTurns.{made_by};

    /// The orbit with these pieces at the places, with these digits.
    pub fn new(pieces: [u8; N], digits: [u8; N]) -> Placed<N>
        ensures { result ≡ record { pieces = pieces.entry; digits = digits.entry } }
    {
        Placed { pieces, digits }
    }

    /// Which piece stands at each place.
    pub fn pieces(&self) -> [u8; N]
        ensures { result ≡ self.now.pieces }
    {
        self.pieces
    }

    /// The digit of the piece at each place.
    pub fn digits(&self) -> [u8; N]
        ensures { result ≡ self.now.digits }
    {
        self.digits
    }

    /// The orbit after a turn, with digits modulo `modulus`, which is at most 128.
    #[inline]
    pub fn turned(&self, turn: &PlaceTurn<N>, modulus: u8) -> Placed<N>
        requires small { modulus ≤ 128 }
        requires valid { IsOrbit N modulus self.now }
        requires turn { IsOrbit N modulus (made_by turn.now) }
        ensures { result ≡ turned_orbit modulus self.now (made_by turn.now) }
    {
        let mut pieces = [0; N];
        let mut digits = [0; N];
        for place in 0..N {
            let from = usize::from(turn.places[place]);
            let sum = self.digits[from] + turn.added[place];
            pieces[place] = self.pieces[from];
            digits[place] = if sum < modulus { sum } else { sum - modulus };
        }
        Placed { pieces, digits }
    }

    /// This orbit and then another: each place gets this one's piece from the place that `next` has there, and the
    /// digits are added, modulo `modulus`, which is at most 128.
    pub fn then(&self, next: &Placed<N>, modulus: u8) -> Placed<N>
        requires small { modulus ≤ 128 }
        requires valid { IsOrbit N modulus self.now }
        requires next { IsOrbit N modulus next.now }
        ensures { result ≡ turned_orbit modulus self.now next.now }
    {
        let turn = PlaceTurn {
            places: next.pieces,
            added: next.digits,
        };
        self.turned(&turn, modulus)
    }

    /// The inverse: the one orbit that comes to the solved one with this one, whichever comes first. There are at most
    /// 256 places, and `modulus` is at least 1.
    pub fn inverse(&self, modulus: u8) -> Placed<N>
        requires few { N ≤ 256 }
        requires modulus { 0 < modulus }
        requires valid { IsOrbit N modulus self.now }
        ensures { IsInverse (orbit_monoid N modulus) (IsOrbit N modulus) self.now result }
    {
        let mut pieces = [0; N];
        let mut digits = [0; N];
        for place in 0..N {
            let to = usize::from(self.pieces[place]);
            let digit = self.digits[place];
            pieces[to] = place as u8;
            digits[to] = if digit == 0 { 0 } else { modulus - digit };
        }
        Placed { pieces, digits }
    }

    /// Whether each piece stands at one place, and the digits are below `modulus`, at least 1, and sum to 0 modulo it.
    /// There are at most 256 places.
    pub fn is_zero_sum(&self, modulus: u8) -> bool
        requires few { N ≤ 256 }
        requires modulus { 0 < modulus }
        ensures { IsTrue result ↔ IsZeroSumOrbit N modulus self.now }
    {
        is_permutation(&self.pieces[..]) && are_twists(&self.digits[..], modulus)
    }
}
