//! The numbers of Skewbs, by which they are drawn.
ghost use Rattle.std.specs.Prelude.{◌≡◌, ◌+◌, ◌<◌, [], ◌∷◌, ◌++◌};
ghost use Rattle.scr_combinatorics.specs.Lists.{total};
ghost use Rattle.scr_combinatorics.specs.Digits.{mixed_number, mixed_digits};
ghost use Rattle.scr_tetra.specs.Skewb.{IsSkewb, completing, skewb_numbered};

use crate::skewb::{Skewb, class_of};
use scr_draw::{NumberedStates, Numbering};
use scr_orbit::Placed;
use scr_rank::{EvenPermRank, MixedRadix, TwistRank};

/// The numbering of the Skewb: the twists of the four are the least digit, then come the twists of the three at places
/// 0 and 1, the even list of the four, and the even list of the centres. The third twist of the three and their list
/// are fixed by the two sums.
#[derive(Clone, Copy)]
pub struct SkewbNumbers;

/// How many twists of the four, twists of the three at places 0 and 1, even lists of the four and even lists of centres
/// there are.
const SKEWB_BASES: [u128; 4] = [81, 9, 12, 360];

/// The twists of the four with a number, place 0 the least digit, and the piece at place 0 of the three, which
/// completes their sum.
fn twists_of_four(number: u128) -> ([u8; 4], u8)
    requires { number < 81 }
    ensures twists { result.0 ≡ mixed_digits (3 ∷ 3 ∷ 3 ∷ 3 ∷ []) number }
    ensures first { result.1 ≡ completing (total result.0) }
    ensures below { result.1 < 3 }
{
    let [zero, one, two, three, first] = TwistRank::<5, 3>::unrank(number);
    ([zero, one, two, three], first)
}

/// The twists of the three with a number, place 0 the least digit, where the four have this class: the last one
/// completes the sum.
fn twists_of_three(number: u128, class: u8) -> [u8; 3]
    requires number { number < 9 }
    requires class { class < 3 }
    ensures { let two = mixed_digits (3 ∷ 3 ∷ []) number in result ≡ two ++ completing (total two + class) ∷ [] }
{
    let [_, zero, one, two] = TwistRank::<4, 3>::unrank(u128::from(class) + 3 * number);
    [zero, one, two]
}

/// The number of the twists of the four.
fn number_of_four_twists(skewb: &Skewb) -> u128
    requires { IsSkewb skewb.now }
    ensures { result ≡ mixed_number (3 ∷ 3 ∷ 3 ∷ 3 ∷ []) skewb.now.four.digits }
{
    let [zero, one, two, three] = skewb.four_twists();
    let [first, _, _] = skewb.three();
    TwistRank::<5, 3>::rank(&[zero, one, two, three, first])
}

/// The number of the twists of the three at places 0 and 1.
fn number_of_three_twists(skewb: &Skewb) -> u128
    requires { IsSkewb skewb.now }
    ensures { result ≡ mixed_number (3 ∷ 3 ∷ []) skewb.now.three.digits }
{
    let [zero, one, two] = skewb.three_twists();
    TwistRank::<4, 3>::rank(&[class_of(&skewb.four()), zero, one, two]) / 3
}

impl NumberedStates<Skewb> for SkewbNumbers {
    ghost numbered = { λ _. skewb_numbered };
}

impl Numbering for SkewbNumbers {
    type State = Skewb;

    #[tactic(auto, using(crate::proofs::Cited::skewb_state))]
    fn state_at(&self, number: u128) -> Skewb {
        let [four_twists, three_twists, four, centres] = MixedRadix::new(SKEWB_BASES).unrank(
            number,
        );
        let four = EvenPermRank::<4>::unrank(four);
        let (twists, first) = twists_of_four(four_twists);
        let three = EvenPermRank::<3>::unrank(u128::from(first));
        let twists_of_three = twists_of_three(three_twists, class_of(&four));
        let centres = EvenPermRank::<6>::unrank(centres);
        Skewb {
            four: Placed::new(four, twists),
            three: Placed::new(three, twists_of_three),
            centres: Placed::new(centres, [0; 6]),
        }
    }

    #[tactic(auto, using(crate::proofs::Cited::skewb_number), unfolding(crate::specs::Skewb::skewb_digits))]
    fn number_of(&self, state: &Skewb) -> u128 {
        MixedRadix::new(SKEWB_BASES).rank(&[
            number_of_four_twists(state),
            number_of_three_twists(state),
            EvenPermRank::<4>::rank(&state.four()),
            EvenPermRank::<6>::rank(&state.centres()),
        ])
    }

    // 3^4 twists of the four, 3^2 of the three, 4!/2 even lists of the four, and 6!/2 of the centres.
    #[tactic(auto, using(crate::proofs::NumberedSkewb::skewb_numbering))]
    fn count(&self) -> u128 {
        MixedRadix::new(SKEWB_BASES).count()
    }
}
