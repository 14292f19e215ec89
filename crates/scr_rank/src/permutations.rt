//! Permutations and their numbers.
ghost use Rattle.std.specs.Prelude.{◌≡◌, ℕ, ◌/◌, ◌^◌, ◌<◌, ◌≤◌, ◌↔◌, All, IsTrue, List, if◌then◌else◌, map, length};
ghost use Rattle.scr_combinatorics.specs.Lists.{lesser_count};
ghost use Rattle.scr_combinatorics.specs.Permutations.{IsPermutation, parity, IsEven, factorial, permutation_number, nth_except, permutation_at, half_at};

/// How many permutations of `len` numbers there are, for up to 12 numbers.
pub fn count_permutations(len: usize) -> u32
    requires { len ≤ 12 }
    ensures { result ≡ factorial len }
{
    let mut count: u32 = 1;
    for more in 0..len {
        count *= more as u32 + 1;
    }
    count
}

/// How many numbers of `list` are below `number`.
#[inline]
fn count_lesser(list: &[u8], number: u8) -> usize
    ensures { result ≡ lesser_count number list.now }
{
    let mut count = 0;
    for other in list {
        if *other < number {
            count += 1;
        }
    }
    count
}

/// Raises each number of `list` from `first` on by one, which makes room for `first`.
#[inline]
#[tactic(auto, using(crate::proofs::Cited::raise_from))]
fn raise_from(list: &mut [u8], first: u8)
    requires { All (λ number. number < 255) list.old }
    ensures { list.new ≡ map (nth_except first) list.old }
{
    for number in list.iter_mut() {
        if *number >= first {
            *number += 1;
        }
    }
}

/// Whether a list is odd: an odd number of its pairs of places stand in falling order.
#[tactic(auto, using(crate::proofs::Cited::is_odd))]
pub fn is_odd(list: &[u8]) -> bool
    requires { length list.now < 2 ^ 16 }
    ensures { IsTrue result ↔ (parity list.now ≡ 1) }
{
    let mut inversions: usize = 0;
    for place in 0..list.len() {
        inversions += count_lesser(&list[place + 1..], list[place]);
    }
    inversions % 2 == 1
}

/// The number of a list of up to 12 different numbers among the permutations of its elements, in
/// dictionary order from 0.
#[inline]
pub fn rank_permutation(list: &[u8]) -> u64
    requires { length list.now ≤ 12 }
    ensures { result ≡ permutation_number list.now }
{
    let mut number: u64 = 0;
    let mut weight: u64 = 1;
    for place in (0..list.len()).rev() {
        number += weight * count_lesser(&list[place + 1..], list[place]) as u64;
        weight *= (list.len() - place) as u64;
    }
    number
}

/// Fills `out` with the permutation of the numbers below its length, up to 12, that has this number.
#[inline]
#[tactic(auto, using(crate::proofs::Cited::unrank_permutation))]
pub fn unrank_permutation(number: u64, out: &mut [u8])
    requires few { length out.old ≤ 12 }
    requires below { number < factorial (length out.old) }
    ensures list { out.new ≡ permutation_at (length out.old) number }
    ensures valid { IsPermutation (length out.old) out.new }
    ensures number { permutation_number out.new ≡ number }
{
    let len = out.len();
    let mut rest = number;
    for place in (0..len).rev() {
        let base = (len - place) as u64;
        let first = (rest % base) as u8;
        rest /= base;
        out[place] = first;
        raise_from(&mut out[place + 1..], first);
    }
}

/// Fills `out` with the permutation of a wanted parity among those numbered `2 * number` and
/// `2 * number + 1`, which differ in the order of their last two numbers.
#[tactic(auto, using(crate::proofs::Cited::unrank_with_parity))]
pub fn unrank_with_parity(number: u64, odd: bool, out: &mut [u8])
    requires few { length out.old ≤ 12 }
    requires below { number < factorial (length out.old) / 2 }
    ensures list { out.new ≡ half_at (length out.old) (if odd then 1 else 0) number }
    ensures valid { IsPermutation (length out.old) out.new }
    ensures parity { parity out.new ≡ (if odd then 1 else 0) }
    ensures number { permutation_number out.new / 2 ≡ number }
{
    unrank_permutation(2 * number, out);
    if is_odd(out) != odd {
        let last = out.len() - 1;
        out.swap(last - 1, last);
    }
}

/// The permutations of the numbers below `N`, in dictionary order: `N!` of them.
pub struct PermRank<const N: usize>;

impl<const N: usize> PermRank<N> {
    /// The number of a permutation, below `N!`, for `N` up to 12.
    #[inline]
    #[tactic(auto, using(crate::proofs::Cited::perm_rank_rank))]
    pub fn rank(value: &[u8; N]) -> u128
        requires size { N ≤ 12 }
        requires valid { IsPermutation N value.now }
        ensures number { result ≡ permutation_number value.now }
        ensures below { result < factorial N }
    {
        u128::from(rank_permutation(&value[..]))
    }

    /// The permutation with a number below `N!`, for `N` up to 12: `unrank` undoes `rank`.
    #[inline]
    #[tactic(auto, using(crate::proofs::Cited::perm_rank_unrank))]
    pub fn unrank(number: u128) -> [u8; N]
        requires size { N ≤ 12 }
        requires below { number < factorial N }
        ensures list { result ≡ permutation_at N number }
        ensures valid { IsPermutation N result }
        ensures number { permutation_number result ≡ number }
        ensures inverse { (value : List ℕ)
            → IsPermutation N value → permutation_number value ≡ number → result ≡ value }
    {
        let mut out = [0; N];
        unrank_permutation(number as u64, &mut out[..]);
        out
    }
}

/// The even permutations of the numbers below `N`: number `r` is the even one of the permutations
/// numbered `2 * r` and `2 * r + 1`. There are `N! / 2` of them.
pub struct EvenPermRank<const N: usize>;

impl<const N: usize> EvenPermRank<N> {
    /// The number of an even permutation, below `N! / 2`, for `N` from 2 to 12.
    #[tactic(auto, using(scr_combinatorics::proofs::Halves::half_lt))]
    pub fn rank(value: &[u8; N]) -> u128
        requires size { (2 ≤ N) × (N ≤ 12) }
        requires valid { IsPermutation N value.now }
        requires even { IsEven value.now }
        ensures number { result ≡ permutation_number value.now / 2 }
        ensures below { result < factorial N / 2 }
    {
        u128::from(rank_permutation(&value[..]) / 2)
    }

    /// The even permutation with a number below `N! / 2`, for `N` from 2 to 12.
    #[tactic(auto, using(crate::proofs::Cited::even_perm_rank_unrank))]
    pub fn unrank(number: u128) -> [u8; N]
        requires size { (2 ≤ N) × (N ≤ 12) }
        requires below { number < factorial N / 2 }
        ensures list { result ≡ half_at N 0 number }
        ensures valid { IsPermutation N result }
        ensures even { IsEven result }
        ensures number { permutation_number result / 2 ≡ number }
        ensures inverse { (value : List ℕ)
            → IsPermutation N value → IsEven value → permutation_number value / 2 ≡ number → result ≡ value }
    {
        let mut out = [0; N];
        unrank_with_parity(number as u64, false, &mut out[..]);
        out
    }
}
