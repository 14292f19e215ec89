//! The numbers of the states of a Square-1, by which they are drawn.
ghost use Rattle.std.specs.Prelude.{◌≡◌, ◌<◌};
ghost use Rattle.scr_sq1.specs.Units.{IsSq1};
ghost use Rattle.scr_sq1.specs.Numbers.{sq1_digits, sq1_numbered};

use crate::shapes::{CORNERS, shape_at, shape_number};
use crate::state::Sq1;
use crate::turning::UNITS;
use scr_draw::{NumberedStates, Numbering};
use scr_rank::{MixedRadix, PermRank};

/// How many digits of the equator, of lists of corners, of lists of edges and of shapes there are.
const SQ1_BASES: [u128; 4] = [2, 40320, 40320, 3678];

/// A corner among the pieces of a half.
const C: bool = true;

/// An edge among them.
const E: bool = false;

/// Which pieces of each half are corners. A half has six pieces, less one for each of its corners.
const HALVES: [[bool; 6]; 13] = [
    [E, E, E, E, E, E],
    [C, E, E, E, E, E],
    [E, C, E, E, E, E],
    [E, E, C, E, E, E],
    [E, E, E, C, E, E],
    [E, E, E, E, C, E],
    [C, C, E, E, E, E],
    [C, E, C, E, E, E],
    [C, E, E, C, E, E],
    [E, C, C, E, E, E],
    [E, C, E, C, E, E],
    [E, E, C, C, E, E],
    [C, C, C, E, E, E],
];

/// The numbering of the Square-1: the equator is the least digit, then come the lists of corners and of edges in unit
/// order, and the shape.
#[derive(Clone, Copy)]
pub struct Sq1Numbers;

impl NumberedStates<Sq1> for Sq1Numbers {
    ghost numbered = { λ _. sq1_numbered };
}

impl Numbering for Sq1Numbers {
    type State = Sq1;

    #[tactic(auto, using(crate::proofs::Cited::state_at), unfolding(crate::specs::Numbers::sq1_of_digits))]
    fn state_at(&self, number: u128) -> Sq1 {
        let [equator, corners, edges, shape] = MixedRadix::new(SQ1_BASES).unrank(number);
        let halves = shape_at(shape as u32).halves();
        let corners = PermRank::<8>::unrank(corners);
        let edges = PermRank::<8>::unrank(edges);
        let mut units = [0; UNITS];
        let mut unit: usize = 0;
        let mut corner: usize = 0;
        let mut edge: usize = 0;
        for place in 0..4 {
            let half = usize::from(halves[place]);
            for piece in 0..6 - CORNERS[half] {
                if HALVES[half][piece] {
                    units[unit] = corners[corner];
                    units[unit + 1] = corners[corner];
                    unit += 2;
                    corner += 1;
                } else {
                    units[unit] = 8 + edges[edge];
                    unit += 1;
                    edge += 1;
                }
            }
        }
        Sq1 {
            units,
            equator: equator == 1,
        }
    }

    #[tactic(auto, using(crate::proofs::Numbering::state_has_four), unfolding(crate::specs::Numbers::sq1_digits))]
    fn number_of(&self, state: &Sq1) -> u128 {
        let equator = if state.equator() { 1 } else { 0 };
        let (corners, edges) = state.pieces();
        MixedRadix::new(SQ1_BASES).rank(&[
            equator,
            PermRank::<8>::rank(&corners),
            PermRank::<8>::rank(&edges),
            u128::from(shape_number(&state.shape())),
        ])
    }

    #[tactic(auto, using(crate::proofs::Numbering::sq1_numbering))]
    fn count(&self) -> u128 {
        11_958_666_854_400
    }
}
