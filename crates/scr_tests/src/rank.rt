//! Rows worked by hand.

ghost use Rattle.std.specs.Prelude.{◌≤◌};

use scr_rank::permutations::count_permutations;
use scr_rank::{Choose, EvenPermRank, MixedRadix, Pairing8, PermRank, TwistRank};
use std::process::Abort;

#[test]
fn rows_of_permutations(rt: HostRuntime) {
    assert_eq!(rt;
        (count_permutations(0), count_permutations(12)),
        (1, 479001600)
    );
    assert_eq!(rt; PermRank::<4>::rank(&[3, 2, 1, 0]), 23);
    assert_eq!(rt; PermRank::<4>::unrank(22), [3, 2, 0, 1]);
    assert_eq!(rt; EvenPermRank::<4>::unrank(1), [0, 2, 3, 1]);
    assert_eq!(rt; EvenPermRank::<4>::rank(&[3, 2, 1, 0]), 11);
}

#[test]
fn rows_of_digits(rt: HostRuntime) {
    assert_eq!(rt; TwistRank::<3, 3>::unrank(5), [2, 1, 0]);
    assert_eq!(rt;
        TwistRank::<12, 2>::unrank(1),
        [1, 0, 0, 0, 0, 0, 0, 0, 0, 0, 0, 1]
    );
    assert_eq!(rt; TwistRank::<3, 12>::unrank(143), [11, 11, 2]);
    assert_eq!(rt; TwistRank::<3, 3>::rank(&[2, 1, 0]), 5);
}

#[test]
fn rows_of_places_and_mixed_digits(rt: HostRuntime) {
    assert_eq!(rt; Choose::<4, 2>::unrank(5), [2, 3]);
    assert_eq!(rt; Choose::<4, 2>::rank(&[1, 3]), 4);
    assert_eq!(rt; MixedRadix::new([2, 3, 4]).unrank(22), [0, 2, 3]);
    assert_eq!(rt; MixedRadix::new([2, 3, 4]).rank(&[1, 2, 3]), 23);
}

/// Each list of so many pieces has the number that it is the list of.
fn round_trip<const N: usize>(rt: &impl Abort)
    requires { N ≤ 12 }
{
    for number in 0..count_permutations(N) {
        let number = u128::from(number);
        let list = PermRank::<N>::unrank(number);
        assert_eq!(rt; PermRank::<N>::rank(&list), number);
    }
}

#[test]
fn round_trips(rt: HostRuntime) {
    round_trip::<1>(&rt);
    round_trip::<2>(&rt);
    round_trip::<3>(&rt);
    round_trip::<4>(&rt);
    round_trip::<5>(&rt);
    round_trip::<6>(&rt);
    round_trip::<7>(&rt);
}

#[test]
fn pairing_rows(rt: HostRuntime) {
    assert_eq!(rt; Pairing8::unrank(0), [1, 0, 3, 2, 5, 4, 7, 6]);
    assert_eq!(rt; Pairing8::unrank(16), [2, 3, 0, 1, 6, 7, 4, 5]);
    assert_eq!(rt; Pairing8::unrank(104), [7, 6, 5, 4, 3, 2, 1, 0]);
    assert_eq!(rt; Pairing8::rank(&[2, 3, 0, 1, 6, 7, 4, 5]), 16);
}
