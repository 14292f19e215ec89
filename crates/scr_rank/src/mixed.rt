//! Mixed digits, each below its own base, and their numbers.
ghost use Rattle.std.specs.Prelude.{◌≡◌, ℕ, ◌^◌, ◌/◌, ◌%◌, ◌<◌, ◌≤◌, List, All, length, take, slice_index};
ghost use Rattle.scr_combinatorics.specs.Digits.{product, AreDigits, mixed_number, mixed_digits};

use std::marker::Model;

/// Lists of `D` digits, each below its own base. The first digit is the least.
#[derive(Drop)]
pub struct MixedRadix<const D: usize> {
    bases: [u128; D],
}

// Clauses see the bases.
impl<const D: usize> Model for MixedRadix<D> {
    ghost Value = { List ℕ };

    ghost view = { λ radix. radix.bases };

    ghost invariant = { λ radix. (0 < product radix.bases) × (product radix.bases ≤ 2 ^ 96) };
}

impl<const D: usize> MixedRadix<D> {
    /// The lists over these bases. Each base is at least 1, and their product is at most `2^96`.
    #[tactic(auto, using(crate::proofs::Cited::new))]
    pub fn new(bases: [u128; D]) -> MixedRadix<D>
        requires some { All (λ base. 1 ≤ base) bases }
        requires fits { product bases ≤ 2 ^ 96 }
        ensures { result ≡ bases.entry }
    {
        MixedRadix { bases }
    }

    /// How many lists of digits there are: the product of the bases.
    #[tactic(auto, using(crate::proofs::Cited::count))]
    pub fn count(&self) -> u128
        ensures count { result ≡ product self.now }
        ensures some { 0 < result }
        ensures fits { result ≤ 2 ^ 96 }
    {
        let mut count: u128 = 1;
        for place in (0..D).rev() {
            count *= self.bases[place];
        }
        count
    }

    /// The number of a list of digits, below `count`.
    #[tactic(auto, using(crate::proofs::Cited::mixed_radix_rank))]
    pub fn rank(&self, value: &[u128; D]) -> u128
        requires valid { AreDigits self.now value.now }
        ensures number { result ≡ mixed_number self.now value.now }
        ensures below { result < product self.now }
    {
        let mut number: u128 = 0;
        for place in (0..D).rev() {
            number = number * self.bases[place] + value[place];
        }
        number
    }

    /// The list of digits with a number below `count`.
    #[tactic(auto, using(crate::proofs::Cited::mixed_radix_unrank))]
    pub fn unrank(&self, number: u128) -> [u128; D]
        requires below { number < product self.now }
        ensures list { result ≡ mixed_digits self.now number }
        ensures valid { AreDigits self.now result }
        ensures number { mixed_number self.now result ≡ number }
        ensures place_has_digit { (k : ℕ) → k < D
            → slice_index result k ≡ number / product (take k self.now) % slice_index self.now k }
        ensures inverse { (value : List ℕ)
            → AreDigits self.now value → mixed_number self.now value ≡ number → result ≡ value }
    {
        let mut out = [0; D];
        let mut rest = number;
        for place in 0..D {
            out[place] = rest % self.bases[place];
            rest /= self.bases[place];
        }
        out
    }
}

/// Digits below 256 in bytes.
pub fn in_bytes<const D: usize>(digits: &[u128; D]) -> [u8; D]
    requires { All (λ digit. digit < 256) digits.now }
    ensures { result ≡ digits.now }
{
    let mut bytes = [0; D];
    for place in 0..D {
        bytes[place] = digits[place] as u8;
    }
    bytes
}
