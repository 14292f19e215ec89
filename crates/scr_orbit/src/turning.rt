//! Turns of an orbit.
ghost use Rattle.std.specs.Prelude.{◌≡◌, ◌<◌, ◌≤◌, All, length};
ghost use Rattle.scr_combinatorics.specs.Lists.{pick};
ghost use Rattle.scr_orbit.specs.Orbits.{added_digits};

/// Fills `out` with what `list` has at each of `places`.
#[inline]
pub fn pick_into(list: &[u8], places: &[u8], out: &mut [u8])
    requires same_length { length out.old ≡ length places.now }
    requires places { All (λ k. k < length list.now) places.now }
    ensures { out.new ≡ pick list.now places.now }
{
    for place in 0..out.len() {
        out[place] = list[usize::from(places[place])];
    }
}

/// Adds `added` to `digits` place by place, modulo `modulus`, which is at most 128. All are below it.
#[inline]
pub fn add_digits(digits: &mut [u8], added: &[u8], modulus: u8)
    requires same_length { length digits.old ≡ length added.now }
    requires small { modulus ≤ 128 }
    requires digits { All (λ d. d < modulus) digits.old }
    requires added { All (λ d. d < modulus) added.now }
    ensures { digits.new ≡ added_digits modulus digits.old added.now }
{
    for place in 0..digits.len() {
        let sum = digits[place] + added[place];
        digits[place] = if sum < modulus { sum } else { sum - modulus };
    }
}
