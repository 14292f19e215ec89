//! Places in pairs and their numbers.
ghost use Rattle.std.specs.Prelude.{◌≡◌, ℕ, ◌+◌, ◌<◌, ◌≤◌, List, ◌∷◌, take};
ghost use Rattle.std.proofs.Common.{suc};
ghost use Rattle.scr_combinatorics.specs.Pairings.{IsPairing, pairing_number, pairing_at, other_place, place_among_others, with_first_pair, without_first_pair};

/// How many places are paired.
const PLACES: usize = 8;

/// Place `index`, from 0, of all places but the first one and its partner, `partner + 1`.
#[inline]
fn other_place(partner: u8, index: u8) -> u8
    requires { index < 8 }
    ensures { result ≡ other_place partner index }
{
    if index < partner {
        index + 1
    } else {
        index + 2
    }
}

/// The pairing of two places more than `rest` pairs, in which the first place has the partner `partner + 1`.
#[tactic(auto, using(crate::proofs::Cited::with_first_pair))]
fn with_first_pair(rest: &[u8; PLACES], places: usize, partner: u8) -> [u8; PLACES]
    requires room { places + 2 ≤ 8 }
    requires partner { partner ≤ places }
    requires valid { IsPairing places (take places rest.now) }
    ensures { take (places + 2) result ≡ with_first_pair partner (take places rest.now) }
{
    let mut partners = [0; PLACES];
    partners[0] = partner + 1;
    for index in 0..places {
        let place = usize::from(other_place(partner, index as u8));
        partners[place] = other_place(partner, rest[index]);
    }
    partners
}

/// How the places are paired but for the first one and its partner, counted without these two.
#[tactic(auto, using(crate::proofs::Cited::without_first_pair))]
fn without_first_pair(partners: &[u8; PLACES], places: usize) -> [u8; PLACES]
    requires room { places + 2 ≤ 8 }
    requires valid { IsPairing (places + 2) (take (places + 2) partners.now) }
    ensures { (x : ℕ) (others : List ℕ) → take (places + 2) partners.now ≡ suc x ∷ others
        → take places result ≡ without_first_pair x others }
{
    let partner = partners[0] - 1;
    let mut rest = [0; PLACES];
    for index in 0..places {
        let place = partners[usize::from(other_place(partner, index as u8))];
        rest[index] = place.saturating_sub(if place <= partner { 1 } else { 2 });
    }
    rest
}

/// The ways to put eight places into four pairs, as the list of each place's partner, in dictionary order: 105 of them.
pub struct Pairing8;

impl Pairing8 {
    /// The number of a pairing, below 105.
    #[tactic(auto, using(crate::proofs::Cited::pairing8_rank))]
    pub fn rank(value: &[u8; 8]) -> u128
        requires valid { IsPairing 8 value.now }
        ensures number { result ≡ pairing_number 4 value.now }
        ensures below { result < 105 }
    {
        let mut number = 0;
        let mut rest = *value;
        for pairs in (0..PLACES / 2).rev() {
            let partner = rest[0] - 1;
            number = number * (2 * pairs as u8 + 1) + partner;
            rest = without_first_pair(&rest, 2 * pairs);
        }
        u128::from(number)
    }

    /// The pairing with a number below 105: `unrank` undoes `rank`.
    #[tactic(auto, using(crate::proofs::Cited::pairing8_unrank), unfolding(scr_combinatorics::specs::Pairings::pairing_at))]
    pub fn unrank(number: u128) -> [u8; 8]
        requires below { number < 105 }
        ensures list { result ≡ pairing_at 4 number }
        ensures valid { IsPairing 8 result }
        ensures number { pairing_number 4 result ≡ number }
        ensures inverse { (value : List ℕ) → IsPairing 8 value → pairing_number 4 value ≡ number → result ≡ value }
    {
        let mut partners = [0; PLACES];
        let mut left = number as u8;
        for pairs in 0..PLACES / 2 {
            let choices = 2 * pairs as u8 + 1;
            partners = with_first_pair(&partners, 2 * pairs, left % choices);
            left /= choices;
        }
        partners
    }
}
