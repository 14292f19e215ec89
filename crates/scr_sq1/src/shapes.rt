//! The shapes of a Square-1 and their numbers.
ghost use Rattle.std.specs.Prelude.{◌≡◌, ℕ, ◌<◌, List};
ghost use Rattle.scr_sq1.specs.Shapes.{IsShape, shape_of, shape_number, shape_at};

use crate::state::Sq1;
use std::marker::Model;

/// How many corners each half has.
pub(crate) const CORNERS: [usize; 13] = [0, 1, 1, 1, 1, 1, 2, 2, 2, 2, 2, 2, 3];

/// In how many ways 0 to 3 halves can have 0 to 8 corners in all, behind three zeros for fewer than none.
const WAYS: [[u32; 12]; 4] = [
    [0, 0, 0, 1, 0, 0, 0, 0, 0, 0, 0, 0],
    [0, 0, 0, 1, 5, 6, 1, 0, 0, 0, 0, 0],
    [0, 0, 0, 1, 10, 37, 62, 46, 12, 1, 0, 0],
    [0, 0, 0, 1, 15, 93, 308, 588, 651, 399, 123, 18],
];

/// The half that has its corners at these units, where unit k is bit k; 13 where there is none.
const HALF_OF_BITS: [u8; 64] = [
    0, 13, 13, 1, 13, 13, 2, 13, 13, 13, 13, 13, 3, 13, 13, 6, 13, 13, 13, 13, 13, 13, 13, 13, 4,
    13, 13, 7, 13, 13, 9, 13, 13, 13, 13, 13, 13, 13, 13, 13, 13, 13, 13, 13, 13, 13, 13, 13, 5,
    13, 13, 8, 13, 13, 10, 13, 13, 13, 13, 13, 11, 13, 13, 12,
];

/// Where the corners and the edges of a Square-1 lie.
#[derive(Clone, Copy, Debug, PartialEq, Eq)]
pub struct Shape {
    halves: [u8; 4],
}

// Clauses see the list of the halves.
impl Model for Shape {
    ghost use Rattle.std.specs.Prelude.{ℕ, List};
    ghost use Rattle.scr_sq1.specs.Shapes.{IsShape};

    ghost Value = { List ℕ };

    ghost view = { λ s. s.halves };

    ghost invariant = { λ s. IsShape s.halves };

    ghost inverse = { λ halves. record { halves = halves } };
}

impl Shape {
    /// The numbers of the halves top right, top left, bottom right and bottom left, each below 13. With c for a corner
    /// and e for an edge they are eeeeee, ceeee, eceee, eecee, eeece, eeeec, ccee, cece, ceec, ecce, ecec, eecc and
    /// ccc.
    pub fn halves(&self) -> [u8; 4]
        ensures same { result ≡ self.now }
        ensures valid { IsShape self.now }
    {
        self.halves
    }
}

impl Sq1 {
    /// Where its corners and edges lie.
    #[tactic(auto, using(crate::proofs::Cited::shape))]
    pub fn shape(&self) -> Shape
        ensures { result ≡ shape_of self.now.units }
    {
        let units = self.units();
        let mut halves = [0; 4];
        for half in 0..4 {
            // which of its units are of corners, unit k as bit k
            let mut bits = 0;
            for unit in (6 * half..6 * half + 6).rev() {
                bits = 2 * bits + usize::from(units[unit] < 8);
            }
            halves[half] = HALF_OF_BITS[bits];
        }
        Shape { halves }
    }
}

/// The number of a shape in dictionary order, below 3,678.
#[tactic(auto, using(crate::proofs::Cited::shape_number))]
pub fn shape_number(shape: &Shape) -> u32
    ensures number { result ≡ shape_number shape.now }
    ensures below { result < 3678 }
{
    let halves = shape.halves;
    let mut number = 0;
    let mut corners = 8;
    for place in 0..4 {
        let half = usize::from(halves[place]);
        // the lists that begin with a lower half here
        for lower in 0..half {
            number += WAYS[3 - place][corners + 3 - CORNERS[lower]];
        }
        corners -= CORNERS[half];
    }
    number
}

/// The shape with a number below 3,678: the only one that has it.
#[tactic(auto, using(crate::proofs::Cited::shape_at))]
pub fn shape_at(number: u32) -> Shape
    requires { number < 3678 }
    ensures shape { result ≡ shape_at number }
    ensures valid { IsShape result }
    ensures number { shape_number result ≡ number }
    ensures inverse { (shape : List ℕ) → IsShape shape → shape_number shape ≡ number → result ≡ shape }
{
    let mut halves = [0; 4];
    let mut rest = number;
    let mut corners = 8;
    for place in 0..4 {
        let mut half = 0;
        while WAYS[3 - place][corners + 3 - CORNERS[half]] <= rest {
            rest -= WAYS[3 - place][corners + 3 - CORNERS[half]];
            half += 1;
        }
        halves[place] = half as u8;
        corners -= CORNERS[half];
    }
    Shape { halves }
}
