//! Sets of places, as increasing lists, and their numbers.
ghost use Rattle.std.specs.Prelude.{◌≡◌, ℕ, ◌<◌, ◌≤◌, List};
ghost use Rattle.scr_combinatorics.specs.PlaceSets.{binomial, IsPlaceSet, place_set_number, place_set_at};

/// How many sets of `size` of `places` places there are, for up to 12 places.
#[tactic(auto, using(crate::proofs::Cited::count_sets))]
pub fn count_sets(places: usize, size: usize) -> u64
    requires { places ≤ 12 }
    ensures { result ≡ binomial places size }
{
    if size > places {
        return 0;
    }
    let mut count: u64 = 1;
    for taken in 0..size {
        count = count * (places - taken) as u64 / (taken + 1) as u64;
    }
    count
}

/// The sets of `K` of `N` places, as increasing lists in dictionary order: `N` over `K` of them.
pub struct Choose<const N: usize, const K: usize>;

impl<const N: usize, const K: usize> Choose<N, K> {
    /// The number of a set, from 0 and below `N` over `K`, for `N` up to 12.
    #[tactic(auto, using(crate::proofs::Cited::choose_rank))]
    pub fn rank(value: &[u8; K]) -> u128
        requires size { N ≤ 12 }
        requires valid { IsPlaceSet N K value.now }
        ensures number { result ≡ place_set_number N value.now }
        ensures below { result < binomial N K }
    {
        let mut number: u64 = 0;
        let mut passed: usize = 0;
        let mut sets = count_sets(N, K);
        for place in 0..N {
            let with_place = sets * (K - passed) as u64 / (N - place) as u64;
            if passed < K && value[passed] as usize == place {
                passed += 1;
                sets = with_place;
            } else {
                number += with_place;
                sets -= with_place;
            }
        }
        u128::from(number)
    }

    /// The set with a number below `N` over `K`, for `N` up to 12.
    #[tactic(auto, using(crate::proofs::Cited::choose_unrank))]
    pub fn unrank(number: u128) -> [u8; K]
        requires size { N ≤ 12 }
        requires below { number < binomial N K }
        ensures list { result ≡ place_set_at N K number }
        ensures valid { IsPlaceSet N K result }
        ensures number { place_set_number N result ≡ number }
        ensures inverse { (value : List ℕ)
            → IsPlaceSet N K value → place_set_number N value ≡ number → result ≡ value }
    {
        let mut out = [0; K];
        let mut rest = number as u64;
        let mut chosen: usize = 0;
        let mut sets = count_sets(N, K);
        for place in 0..N {
            let with_place = sets * (K - chosen) as u64 / (N - place) as u64;
            if rest < with_place {
                out[chosen] = place as u8;
                chosen += 1;
                sets = with_place;
            } else {
                rest -= with_place;
                sets -= with_place;
            }
        }
        out
    }
}
