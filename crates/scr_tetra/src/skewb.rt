//! The state of a Skewb.
ghost use Rattle.std.specs.Prelude.{◌≡◌, ◌↔◌, ◌≤◌, length, IsTrue, IsSome, IfSome};
ghost use Rattle.scr_combinatorics.specs.Permutations.{IsPermutation, IsEven};
ghost use Rattle.scr_orbit.specs.Orbits.{zeros};
ghost use Rattle.scr_tetra.specs.Skewb.{class_of, IsSkewb, solved_skewb};

use scr_orbit::{Placed, are_completed, is_permutation};
use scr_rank::permutations::is_odd;
use std::marker::Model;

/// A Skewb that can be put together without taking one apart: the lists of the four corners, of the three and of the
/// centres are even, the twists of the three and the class of the four sum to 0 modulo 3, and so do the twists of the
/// four and the piece at place 0 of the three.
///
/// The corner UFR stands still. Places and pieces: the four 0 UFL, 1 UBR, 2 DFR, 3 DBL; the three 0 ULB, 1 DLF, 2 DRB;
/// the centres 0 U, 1 R, 2 F, 3 D, 4 L, 5 B.
#[derive(Clone, Copy, Debug, PartialEq, Eq)]
pub struct Skewb {
    pub(crate) four: Placed<4>,
    pub(crate) three: Placed<3>,
    pub(crate) centres: Placed<6>,
}

// Clauses see the three orbits.
impl Model for Skewb {
    ghost use Rattle.scr_tetra.specs.Skewb.{SkewbState, IsSkewb};

    ghost Value = { SkewbState };

    ghost view = { λ s. record { four = s.four; three = s.three; centres = s.centres } };

    ghost invariant = { λ s. IsSkewb (record { four = s.four; three = s.three; centres = s.centres }) };

    ghost inverse = { λ s. record { four = s.four; three = s.three; centres = s.centres } };
}

impl Skewb {
    /// The solved Skewb.
    #[tactic(auto, unfolding(crate::specs::Skewb::solved_skewb, scr_orbit::specs::Orbits::solved_orbit))]
    pub fn solved() -> Skewb
        ensures { result ≡ solved_skewb }
    {
        Skewb {
            four: Placed::new([0, 1, 2, 3], [0; 4]),
            three: Placed::new([0, 1, 2], [0; 3]),
            centres: Placed::new([0, 1, 2, 3, 4, 5], [0; 6]),
        }
    }

    /// The Skewb with these pieces at the places, with these twists, from 0 to 2. `None` comes exactly where they
    /// aren't those of a valid Skewb.
    pub fn from_lists(
        four: [u8; 4],
        four_twists: [u8; 4],
        three: [u8; 3],
        three_twists: [u8; 3],
        centres: [u8; 6],
    ) -> Option<Skewb>
        ensures valid { IsSome result ↔ IsSkewb (record {
          four = record { pieces = four; digits = four_twists };
          three = record { pieces = three; digits = three_twists };
          centres = record { pieces = centres; digits = zeros 6 };
        }) }
        ensures value { IfSome result (λ skewb. skewb ≡ record {
          four = record { pieces = four; digits = four_twists };
          three = record { pieces = three; digits = three_twists };
          centres = record { pieces = centres; digits = zeros 6 };
        }) }
    {
        let even = is_even(&four) && is_even(&three) && is_even(&centres);
        let sums = are_completed(&four_twists, three[0], 3)
            && are_completed(&three_twists, class_of(&four), 3);
        if even && sums {
            Some(Skewb {
                four: Placed::new(four, four_twists),
                three: Placed::new(three, three_twists),
                centres: Placed::new(centres, [0; 6]),
            })
        } else {
            None
        }
    }

    /// Which corner of the four stands at each place.
    pub fn four(&self) -> [u8; 4]
        ensures same { result ≡ self.now.four.pieces }
        ensures valid { IsSkewb self.now }
    {
        self.four.pieces()
    }

    /// The twist of the corner at each place of the four, from 0 to 2.
    pub fn four_twists(&self) -> [u8; 4]
        ensures same { result ≡ self.now.four.digits }
        ensures valid { IsSkewb self.now }
    {
        self.four.digits()
    }

    /// Which corner of the three stands at each place.
    pub fn three(&self) -> [u8; 3]
        ensures same { result ≡ self.now.three.pieces }
        ensures valid { IsSkewb self.now }
    {
        self.three.pieces()
    }

    /// The twist of the corner at each place of the three, from 0 to 2.
    pub fn three_twists(&self) -> [u8; 3]
        ensures same { result ≡ self.now.three.digits }
        ensures valid { IsSkewb self.now }
    {
        self.three.digits()
    }

    /// Which centre stands at each place.
    pub fn centres(&self) -> [u8; 6]
        ensures same { result ≡ self.now.centres.pieces }
        ensures valid { IsSkewb self.now }
    {
        self.centres.pieces()
    }
}

/// The class of an even list of the four.
pub(crate) fn class_of(four: &[u8; 4]) -> u8
    ensures { result ≡ class_of four.now }
{
    four[0] ^ (four[3] ^ 3)
}

/// Whether each number below the length of a list, which is at most 256, stands in it once, and the list is even.
fn is_even(list: &[u8]) -> bool
    requires { length list.now ≤ 256 }
    ensures { IsTrue result ↔ (IsPermutation (length list.now) list.now × IsEven list.now) }
{
    is_permutation(list) && !is_odd(list)
}
