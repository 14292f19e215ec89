//! Lists of pieces as the tables of the later stages see them.
ghost use Rattle.std.specs.Prelude.{◌≡◌, ◌+◌, ◌*◌, ◌<◌, All, slice_index};
ghost use Rattle.scr_combinatorics.specs.Lists.{pick};
ghost use Rattle.scr_combinatorics.specs.Permutations.{IsPermutation, permutation_number, place_of};
ghost use Rattle.scr_combinatorics.specs.Pairings.{IsPairing};
ghost use Rattle.scr_sq1tables.specs.Stages.{pairing_of};
ghost use Rattle.scr_sq1tables.specs.Tables.{carried_pairing, pair_of, is_larger, code_number, code_at};

use scr_orbit::pick_into;
use scr_rank::PermRank;
use scr_rank::permutations::rank_permutation;

/// Each place's opposite one, in its layer of a solved state; of pieces it is the mate.
pub(crate) const MATES: [u8; 8] = [2, 3, 0, 1, 6, 7, 4, 5];

/// Which pair a piece is of, from 0; of places it is the same.
const PAIR_OF: [u8; 8] = [0, 1, 0, 1, 2, 3, 2, 3];

/// 1 for the larger piece of each pair.
const LARGER: [u8; 8] = [0, 0, 1, 1, 0, 0, 1, 1];

/// The smaller piece of each pair; of places it is the same.
const SMALLER: [u8; 4] = [0, 1, 4, 5];

/// The place of a number in a list of eight, or 8 where it isn't there.
#[inline]
pub(crate) fn place_of(number: u8, list: &[u8; 8]) -> u8
    ensures { result ≡ place_of number list.now }
{
    for place in 0..8 {
        if list[usize::from(place)] == number {
            return place;
        }
    }
    8
}

/// Partners when pieces are moved, where each place gets the piece of a named place.
#[tactic(auto, using(crate::proofs::Cited::carried_pairing), unfolding(crate::specs::Tables::carried_pairing))]
pub(crate) fn carried_pairing(partners: &[u8; 8], places: &[u8; 8]) -> [u8; 8]
    requires partners { IsPairing 8 partners.now }
    requires places { IsPermutation 8 places.now }
    ensures value { result ≡ carried_pairing partners.now places.now }
    ensures valid { IsPairing 8 result }
{
    let mut carried = [0; 8];
    for place in 0..8 {
        let partner = partners[usize::from(places[place])];
        carried[place] = place_of(partner, places);
    }
    carried
}

/// The pieces when they are moved, where each place gets the piece of a named place.
#[tactic(auto, using(crate::proofs::Cited::moved_pieces))]
pub(crate) fn moved_pieces(pieces: &[u8; 8], places: &[u8; 8]) -> [u8; 8]
    requires pieces { IsPermutation 8 pieces.now }
    requires places { IsPermutation 8 places.now }
    ensures value { result ≡ pick pieces.now places.now }
    ensures valid { IsPermutation 8 result }
{
    let mut moved = [0; 8];
    pick_into(&pieces[..], &places[..], &mut moved[..]);
    moved
}

/// The code of a list of pieces: for each pair of places a bit, which is 1 where the smaller place has the larger
/// piece, and above the bits the number of the list of the pairs.
#[tactic(auto, using(crate::proofs::Cited::code_of), unfolding(crate::specs::Tables::code_number, crate::specs::Tables::bits_number, crate::specs::Tables::pairs_number))]
pub(crate) fn code_of(pieces: &[u8; 8]) -> u32
    requires { IsPermutation 8 pieces.now }
    ensures value { result ≡ code_number pieces.now }
    ensures below { result < 384 }
{
    let mut standing = [0; 4];
    pick_into(&pieces[..], &SMALLER[..], &mut standing[..]);
    let bits = larger(standing[0])
        + 2 * (larger(standing[1]) + 2 * (larger(standing[2]) + 2 * larger(standing[3])));
    let mut pairs = [0; 4];
    pick_into(&PAIR_OF[..], &standing[..], &mut pairs[..]);
    bits + 16 * rank_permutation(&pairs[..]) as u32
}

/// 1 where a piece is the larger one of its pair.
#[inline]
fn larger(piece: u8) -> u32
    requires { piece < 8 }
    ensures value { result ≡ slice_index is_larger piece }
    ensures below { result < 2 }
{
    u32::from(LARGER[usize::from(piece)])
}

/// The list of pieces with a code, below 384, in which mates stand opposite to each other.
#[tactic(auto, using(crate::proofs::Cited::pieces_at))]
pub(crate) fn pieces_at(code: u32) -> [u8; 8]
    requires { code < 384 }
    ensures list { result ≡ code_at code }
    ensures valid { IsPermutation 8 result }
{
    let standing = PermRank::<4>::unrank(u128::from(code / 16));
    let bits = (code % 16) as u8;
    let turned = [
        bits % 2,
        bits / 2 % 2,
        bits / 2 / 2 % 2,
        bits / 2 / 2 / 2 % 2,
    ];
    let mut pieces = [0; 8];
    for place in 0..8 {
        let pair = usize::from(PAIR_OF[place]);
        pieces[place] = SMALLER[usize::from(standing[pair])]
            + 2 * ((turned[pair] + LARGER[place]) % 2);
    }
    pieces
}
