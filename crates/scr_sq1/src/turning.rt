//! Where units come from when the layers are turned, and when they are twisted.
ghost use Rattle.std.specs.Prelude.{◌≡◌, ◌+◌, ◌-◌, ◌%◌, ◌<◌, IsTrue};
ghost use Rattle.scr_combinatorics.specs.Lists.{pick};
ghost use Rattle.scr_notation.specs.Layers.{is_twelfths};
ghost use Rattle.scr_sq1.specs.Units.{clockwise, is_open, place_before, turn_places};

/// How many units both layers have.
pub(crate) const UNITS: usize = 24;

/// Where the pieces of each unit stood before a twist.
pub(crate) const TWIST_PLACES: [u8; UNITS] = [
    12, 13, 14, 15, 16, 17, 6, 7, 8, 9, 10, 11, 0, 1, 2, 3, 4, 5, 18, 19, 20, 21, 22, 23,
];

/// Where the piece of a unit stood.
#[inline]
pub(crate) fn place_before(top: u8, bottom: u8, unit: u8) -> u8
    requires top { top < 12 }
    requires bottom { bottom < 12 }
    requires unit { unit < 24 }
    ensures { result ≡ place_before top bottom unit }
{
    let (first, twelfths) = if unit < 12 { (0, top) } else { (12, bottom) };
    if unit - first < twelfths {
        unit + 12 - twelfths
    } else {
        unit - twelfths
    }
}

/// An amount of twelfths as a number from 0 to 11 of twelfths clockwise.
#[inline]
pub(crate) fn clockwise(amount: i8) -> u8
    requires { IsTrue (is_twelfths amount) }
    ensures value { result ≡ clockwise amount }
    ensures below { result < 12 }
{
    if amount < 0 {
        (12 + amount) as u8
    } else {
        amount as u8
    }
}

/// The units before the cut, at its four places.
const BEFORE_CUT: [u8; 4] = [11, 5, 23, 17];

/// The units behind it there.
const BEHIND_CUT: [u8; 4] = [0, 6, 12, 18];

/// Whether no corner lies across the cut once the layers are turned by so many twelfths clockwise. No unit is moved for
/// it, since most turns of most states are barred.
#[inline]
#[tactic(auto, using(crate::proofs::Cited::is_open_turned))]
pub(crate) fn is_open_turned(units: &[u8; UNITS], top: u8, bottom: u8) -> bool
    requires top { top < 12 }
    requires bottom { bottom < 12 }
    ensures { result ≡ is_open (pick units.now (turn_places top bottom)) }
{
    for cut in 0..4 {
        let piece = units[usize::from(place_before(top, bottom, BEFORE_CUT[cut]))];
        if piece < 8 && units[usize::from(place_before(top, bottom, BEHIND_CUT[cut]))] == piece {
            return false;
        }
    }
    true
}
