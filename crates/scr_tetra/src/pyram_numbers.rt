//! The numbers of Pyraminx states, by which they are drawn.
ghost use Rattle.std.specs.Prelude.{◌≡◌, ◌<◌, replicate};
ghost use Rattle.scr_combinatorics.specs.Digits.{mixed_digits};
ghost use Rattle.scr_orbit.specs.InPlace.{AreDigitsInPlace};
ghost use Rattle.scr_tetra.specs.Pyraminx.{thirds_number, numbered_tetraminx, numbered_pyram};

use crate::pyraminx::Pyraminx;
use crate::tetraminx::Tetraminx;
use scr_draw::{NumberedStates, Numbering};
use scr_orbit::Placed;
use scr_rank::{EvenPermRank, MixedRadix, TwistRank, in_bytes};

/// The numbering of the Pyraminx: the tips are the least digit, then comes the number without tips.
#[derive(Clone, Copy)]
pub struct PyramNumbers;

/// The numbering of the Pyraminx without tips: the axial pieces are the least digit, then come the flips and the list
/// of edges, which is even.
#[derive(Clone, Copy)]
pub struct TetraminxNumbers;

/// How many digits of tips and states without tips there are.
const PYRAM_BASES: [u128; 2] = [81, 933_120];

/// How many digits of axial pieces, flips and even lists of edges there are.
const TETRAMINX_BASES: [u128; 3] = [81, 32, 360];

/// The number of four digits from 0 to 2, the first one the least.
fn number_of_thirds(digits: &[u8; 4]) -> u128
    requires { AreDigitsInPlace 4 3 digits.now }
    ensures { result ≡ thirds_number digits.now }
{
    MixedRadix::new([3; 4]).rank(&digits.map(u128::from))
}

/// The four digits with a number.
fn thirds_at(number: u128) -> [u8; 4]
    requires { number < 81 }
    ensures { result ≡ mixed_digits (replicate 4 3) number }
{
    in_bytes(&MixedRadix::new([3; 4]).unrank(number))
}

impl NumberedStates<Tetraminx> for TetraminxNumbers {
    ghost numbered = { λ _. numbered_tetraminx };
}

impl Numbering for TetraminxNumbers {
    type State = Tetraminx;

    #[tactic(auto, using(crate::proofs::Cited::tetraminx_at), unfolding(crate::specs::Pyraminx::tetraminx_of_digits))]
    fn state_at(&self, number: u128) -> Tetraminx {
        let [axials, flips, edges] = MixedRadix::new(TETRAMINX_BASES).unrank(number);
        Tetraminx {
            edges: Placed::new(
                EvenPermRank::<6>::unrank(edges),
                TwistRank::<6, 2>::unrank(flips),
            ),
            axials: thirds_at(axials),
        }
    }

    #[tactic(auto, using(crate::proofs::NumberedPyram::tetraminx_has_three), unfolding(crate::specs::Pyraminx::tetraminx_digits))]
    fn number_of(&self, state: &Tetraminx) -> u128 {
        MixedRadix::new(TETRAMINX_BASES).rank(&[
            number_of_thirds(&state.axials()),
            TwistRank::<6, 2>::rank(&state.flips()),
            EvenPermRank::<6>::rank(&state.edges()),
        ])
    }

    #[tactic(auto, using(crate::proofs::NumberedPyram::tetraminx_numbering))]
    fn count(&self) -> u128 {
        MixedRadix::new(TETRAMINX_BASES).count()
    }
}

impl NumberedStates<Pyraminx> for PyramNumbers {
    ghost numbered = { λ _. numbered_pyram };
}

impl Numbering for PyramNumbers {
    type State = Pyraminx;

    #[tactic(auto, using(crate::proofs::Cited::pyram_state), unfolding(crate::specs::Pyraminx::pyram_of_digits))]
    fn state_at(&self, number: u128) -> Pyraminx {
        let [tips, body] = MixedRadix::new(PYRAM_BASES).unrank(number);
        Pyraminx {
            body: TetraminxNumbers.state_at(body),
            tips: thirds_at(tips),
        }
    }

    #[tactic(auto, using(crate::proofs::NumberedPyram::pyram_has_two), unfolding(crate::specs::Pyraminx::pyram_digits))]
    fn number_of(&self, state: &Pyraminx) -> u128 {
        let tips = number_of_thirds(&state.tips());
        MixedRadix::new(PYRAM_BASES).rank(&[tips, TetraminxNumbers.number_of(&state.body())])
    }

    #[tactic(auto, using(crate::proofs::NumberedPyram::pyram_numbering))]
    fn count(&self) -> u128 {
        MixedRadix::new(PYRAM_BASES).count()
    }
}
