//! States as numbers by which they are looked up.
ghost use Rattle.std.specs.Prelude.{◌≡◌};
ghost use Rattle.scr_sq1.specs.Units.{IsSq1};
ghost use Rattle.scr_sq1far.specs.Levels.{key_of};

use scr_sq1::Sq1;

/// The key of a state: its units as the digits of a number in base 16, and the equator as the last bit. States differ
/// where their keys do.
#[inline]
pub(crate) fn key_of(state: &Sq1) -> u128
    ensures key { result ≡ key_of state.now }
    ensures valid { IsSq1 state.now }
{
    let units = state.units();
    let mut key: u128 = 0;
    for place in (0..24).rev() {
        key = 16 * key + u128::from(units[place]);
    }
    let bit = if state.equator() { 1 } else { 0 };
    2 * key + bit
}
