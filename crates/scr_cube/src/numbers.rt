//! The numbers of cubes, by which they are drawn.
ghost use Rattle.scr_cube.specs.Cube333.{cube_numbered};
ghost use Rattle.scr_cube.specs.Cube222.{numbered_222};
ghost use Rattle.scr_cube.specs.Held.{held_numbered};

use crate::corners::Corners222;
use crate::cube::Cube;
use crate::held::{HOLDS, Held};
use scr_draw::{NumberedStates, Numbering};
use scr_orbit::Placed;
use scr_rank::permutations::{is_odd, rank_permutation, unrank_with_parity};
use scr_rank::{MixedRadix, PermRank, TwistRank};

/// The numbering of the 3x3x3: the flips are the least digit, then come the twists, the list of corners, and half the
/// number of the list of edges, since of two lists of edges the cube has the one with the corners' parity.
#[derive(Clone, Copy)]
pub struct CubeNumbers;

/// The numbering of the 2x2x2: the twists are the least digit, then comes the list of corners.
#[derive(Clone, Copy)]
pub struct Numbers222;

/// The numbering of the 3x3x3 as it is held: the number of the hold is the least digit, then comes that of the cube.
#[derive(Clone, Copy)]
pub struct HeldNumbers;

/// How many flips, twists, lists of corners and lists of edges of one parity there are.
const CUBE_BASES: [u128; 4] = [2048, 2187, 40_320, 239_500_800];

/// How many cubes there are: 2^11 flips, 3^7 twists, 8! lists of corners, and 12!/2 lists of edges, those of the corners'
/// parity.
const CUBES: u128 = 43_252_003_274_489_856_000;

/// How many holds and cubes there are.
const HELD_BASES: [u128; 2] = [24, CUBES];

/// How many twists and lists of corners there are.
const BASES_222: [u128; 2] = [729, 5040];

impl NumberedStates<Cube> for CubeNumbers {
    ghost numbered = { λ _. cube_numbered };
}

impl Numbering for CubeNumbers {
    type State = Cube;

    fn state_at(&self, number: u128) -> Cube {
        let [flips, twists, corners, edge_half] = MixedRadix::new(CUBE_BASES).unrank(number);
        let corners = PermRank::<8>::unrank(corners);
        let mut edges = [0; 12];
        unrank_with_parity(edge_half as u64, is_odd(&corners), &mut edges);
        Cube {
            corners: Placed::new(corners, TwistRank::<8, 3>::unrank(twists)),
            edges: Placed::new(edges, TwistRank::<12, 2>::unrank(flips)),
        }
    }

    fn number_of(&self, state: &Cube) -> u128 {
        MixedRadix::new(CUBE_BASES).rank(&[
            TwistRank::<12, 2>::rank(&state.flips()),
            TwistRank::<8, 3>::rank(&state.twists()),
            PermRank::<8>::rank(&state.corners()),
            u128::from(rank_permutation(&state.edges()) / 2),
        ])
    }

    #[tactic(auto, using(crate::proofs::Numbered333::cube_numbering))]
    fn count(&self) -> u128 {
        CUBES
    }
}

impl NumberedStates<Corners222> for Numbers222 {
    ghost numbered = { λ _. numbered_222 };
}

impl Numbering for Numbers222 {
    type State = Corners222;

    fn state_at(&self, number: u128) -> Corners222 {
        let [twists, corners] = MixedRadix::new(BASES_222).unrank(number);
        Corners222 {
            corners: Placed::new(
                PermRank::<7>::unrank(corners),
                TwistRank::<7, 3>::unrank(twists),
            ),
        }
    }

    fn number_of(&self, state: &Corners222) -> u128 {
        MixedRadix::new(BASES_222).rank(&[
            TwistRank::<7, 3>::rank(&state.twists()),
            PermRank::<7>::rank(&state.corners()),
        ])
    }

    // 3^6 twists and 7! lists of corners.
    #[tactic(auto, using(crate::proofs::Numbered222::numbering_222))]
    fn count(&self) -> u128 {
        3_674_160
    }
}

impl NumberedStates<Held> for HeldNumbers {
    ghost numbered = { λ _. held_numbered };
}

impl Numbering for HeldNumbers {
    type State = Held;

    fn state_at(&self, number: u128) -> Held {
        let [hold, cube] = MixedRadix::new(HELD_BASES).unrank(number);
        Held {
            cube: CubeNumbers.state_at(cube),
            centres: HOLDS[hold as usize],
        }
    }

    fn number_of(&self, state: &Held) -> u128 {
        let cube = CubeNumbers.number_of(state.cube());
        MixedRadix::new(HELD_BASES).rank(&[u128::from(state.hold()), cube])
    }

    // 24 times as many as cubes.
    #[tactic(auto, using(crate::proofs::NumberedHeld::held_numbering))]
    fn count(&self) -> u128 {
        1_038_048_078_587_756_544_000
    }
}
