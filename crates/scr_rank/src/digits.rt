//! Digits in one base whose sum is 0 modulo the base, as twists and flips are, and their numbers.
ghost use Rattle.std.specs.Prelude.{◌≡◌, ℕ, ◌-◌, ◌^◌, ◌/◌, ◌%◌, ◌<◌, ◌≤◌, List, length, slice_index};
ghost use Rattle.scr_combinatorics.specs.Twists.{IsTwists, twists_number, twists_at};

/// The lists of `N` digits below `BASE` whose sum is 0 modulo `BASE`: place `k` has digit `k` of the
/// number, the least first, and the last place is fixed by the sum. There are `BASE^(N - 1)` of them.
pub struct TwistRank<const N: usize, const BASE: usize>;

impl<const N: usize, const BASE: usize> TwistRank<N, BASE> {
    /// The number of a list of digits, below `BASE^(N - 1)`, for `N` and `BASE` from 1 to 12.
    #[inline]
    #[tactic(auto, using(crate::proofs::Cited::twist_rank_rank))]
    pub fn rank(value: &[u8; N]) -> u128
        requires size { (1 ≤ N) × (N ≤ 12) }
        requires base { (1 ≤ BASE) × (BASE ≤ 12) }
        requires valid { IsTwists N BASE value.now }
        ensures number { result ≡ twists_number BASE value.now }
        ensures below { result < BASE ^ (N - 1) }
    {
        let mut number: u64 = 0;
        for place in (0..N - 1).rev() {
            number = number * BASE as u64 + u64::from(value[place]);
        }
        u128::from(number)
    }

    /// The list of digits with a number below `BASE^(N - 1)`, for `N` and `BASE` from 1 to 12.
    #[inline]
    #[tactic(auto, using(crate::proofs::Cited::twist_rank_unrank))]
    pub fn unrank(number: u128) -> [u8; N]
        requires size { (1 ≤ N) × (N ≤ 12) }
        requires base { (1 ≤ BASE) × (BASE ≤ 12) }
        requires below { number < BASE ^ (N - 1) }
        ensures list { result ≡ twists_at N BASE number }
        ensures valid { IsTwists N BASE result }
        ensures number { twists_number BASE result ≡ number }
        ensures place_has_digit { (k : ℕ) → k < N - 1 → slice_index result k ≡ number / BASE ^ k % BASE }
        ensures inverse { (value : List ℕ)
            → IsTwists N BASE value → twists_number BASE value ≡ number → result ≡ value }
    {
        let mut out = [0; N];
        let mut rest = number as u64;
        let mut sum: u8 = 0;
        for place in 0..N - 1 {
            let digit = (rest % BASE as u64) as u8;
            rest /= BASE as u64;
            out[place] = digit;
            sum = (sum + digit) % BASE as u8;
        }
        out[N - 1] = (BASE as u8 - sum) % BASE as u8;
        out
    }
}
