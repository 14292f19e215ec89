//! Tests of what makes an orbit valid.
ghost use Rattle.std.specs.Prelude.{◌≡◌, ◌+◌, ◌%◌, ◌≤◌, ◌<◌, ◌↔◌, All, IsTrue, length};
ghost use Rattle.scr_combinatorics.specs.Lists.{total};
ghost use Rattle.scr_combinatorics.specs.Permutations.{IsPermutation};
ghost use Rattle.scr_combinatorics.specs.Twists.{IsTwists};

/// Whether each number below the length of `list`, which is at most 256, stands in it once.
pub fn is_permutation(list: &[u8]) -> bool
    requires { length list.now ≤ 256 }
    ensures { IsTrue result ↔ IsPermutation (length list.now) list.now }
{
    for number in 0..list.len() {
        if !list.contains(&(number as u8)) {
            return false;
        }
    }
    true
}

/// Whether digits, of which there are at most 256, are below `base` and sum to 0 modulo it. `base` is at least 1.
pub fn are_twists(digits: &[u8], base: u8) -> bool
    requires few { length digits.now ≤ 256 }
    requires base { 0 < base }
    ensures { IsTrue result ↔ IsTwists (length digits.now) base digits.now }
{
    are_completed(digits, 0, base)
}

/// Whether digits, of which there are at most 256, are below `base` and sum to 0 modulo it together with `more`. `base`
/// is at least 1.
pub fn are_completed(digits: &[u8], more: u8, base: u8) -> bool
    requires few { length digits.now ≤ 256 }
    requires base { 0 < base }
    ensures { IsTrue result ↔ (All (λ d. d < base) digits.now × ((total digits.now + more) % base ≡ 0)) }
{
    let mut sum = u32::from(more);
    for digit in digits {
        if *digit >= base {
            return false;
        }
        sum += u32::from(*digit);
    }
    sum % u32::from(base) == 0
}
