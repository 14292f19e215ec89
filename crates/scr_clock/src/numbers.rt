//! Clock as an event: its numbered states and its minimum.
ghost use Rattle.std.specs.Prelude.{◌≡◌, replicate};

use crate::clock::Clock;
use crate::least::needs_at_least;
use scr_draw::{NumberedStates, Numbering, Permit};
use scr_rank::{MixedRadix, in_bytes};

/// How many Clocks there are: 12^14.
const COUNT: u128 = 1_283_918_464_548_864;

/// Fourteen digits in base 12.
fn dial_radix() -> MixedRadix<14>
    ensures { result ≡ replicate 14 12 }
{
    MixedRadix::new([12; 14])
}

/// These dials as digits.
fn digits(dials: &[u8; 14]) -> [u128; 14]
    ensures { result ≡ dials.now }
{
    dials.map(u128::from)
}

/// The numbering and the minimum of Clock. A state's number has its dials as digits in base 12, the first dial the
/// least. Minima are from 0 to 3.
#[derive(Clone, Copy)]
pub struct ClockNumbers;

impl NumberedStates<Clock> for ClockNumbers {
    ghost use Rattle.scr_clock.specs.Least.{IsTestExact};
    ghost use Rattle.scr_clock.specs.Numbers.{clock_numbered};

    ghost numbered = { λ _. clock_numbered };

    ghost told = { λ _. IsTestExact };
}

impl Numbering for ClockNumbers {
    type State = Clock;

    #[tactic(auto, using(crate::proofs::Cited::digits))]
    fn state_at(&self, number: u128) -> Clock {
        Clock {
            dials: in_bytes(&dial_radix().unrank(number)),
        }
    }

    fn number_of(&self, state: &Clock) -> u128 {
        dial_radix().rank(&digits(&state.dials()))
    }

    #[tactic(auto, using(crate::proofs::Numbering::clock_numbering))]
    fn count(&self) -> u128 {
        COUNT
    }
}

impl Permit<Clock> for ClockNumbers {
    ghost use Rattle.scr_clock.specs.Dials.{clock_puzzle};
    ghost use Rattle.scr_clock.specs.Least.{needs_test_clock};

    ghost puzzle = { λ _. clock_puzzle };

    ghost greatest = { λ _. 3 };

    ghost needs = { λ _. needs_test_clock };

    fn needs_at_least(&self, state: &Clock, least: u32) -> bool {
        needs_at_least(state, least)
    }

    ghost exact = { λ _ dials least told _ valid. told dials least valid };
}
