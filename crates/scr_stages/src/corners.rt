//! The index of a list of corners: their relation, and the set of the places of the first tetrad.
ghost use Rattle.std.specs.Prelude.{◌≡◌, ◌<◌};
ghost use Rattle.scr_combinatorics.specs.Lists.{pick};
ghost use Rattle.scr_combinatorics.specs.Permutations.{IsPermutation};
ghost use Rattle.scr_combinatorics.specs.PlaceSets.{IsPlaceSet};
ghost use Rattle.scr_stages.specs.Tetrads.{axes_of, corner_index, places_of_tetrad};

use crate::corner_lists::CornerNumbers;
use crate::places::{arrange, place_of};
use crate::tetrads::{FIRST_TETRAD, RELATED, SECOND_TETRAD, axes_of, joined};
use scr_coord::places_of;
use scr_orbit::pick_into;
use scr_rank::Choose;
use scr_rank::permutations::rank_permutation;

/// The index of a list of corners, below 420.
#[tactic(auto, using(crate::proofs::Cited::corner_index), unfolding(crate::specs::Tetrads::corner_index, crate::specs::Tetrads::relation_of))]
pub(crate) fn corner_index(corners: &[u8; 8]) -> u32
    requires { IsPermutation 8 corners.now }
    ensures value { result ≡ corner_index corners.now }
    ensures below { result < 420 }
{
    let (first, axes) = tetrad_at(&FIRST_TETRAD, corners);
    let (_, others) = tetrad_at(&SECOND_TETRAD, corners);
    // how the axes of one are to those of the other, as the number of a list of three
    let relation = rank_permutation(&[
        place_of(axes[0], &others[..]) as u8,
        place_of(axes[1], &others[..]) as u8,
        place_of(axes[2], &others[..]) as u8,
    ]) as u32;
    relation + 6 * Choose::<8, 4>::rank(&first) as u32
}

/// The places of a tetrad's corners, in increasing order, and the axes of the corner at the first of them and each of the
/// others.
#[tactic(auto, using(crate::proofs::Cited::tetrad_at))]
fn tetrad_at(tetrad: &[u8; 4], corners: &[u8; 8]) -> ([u8; 4], [u8; 3])
    requires tetrad { IsPlaceSet 8 4 tetrad.now }
    requires corners { IsPermutation 8 corners.now }
    ensures places { result.0 ≡ places_of_tetrad tetrad.now corners.now }
    ensures valid { IsPlaceSet 8 4 result.0 }
    ensures axes { result.1 ≡ axes_of (pick corners.now result.0) }
{
    let mut places = [0; 4];
    places_of(&tetrad[..], &corners[..], &mut places[..]);
    let mut picked = [0; 4];
    pick_into(&corners[..], &places[..], &mut picked[..]);
    (places, axes_of(&picked))
}

/// The lists of corners by their index.
pub(crate) struct CornerIndexes;

impl CornerNumbers for CornerIndexes {
    ghost use Rattle.scr_stages.specs.Tetrads.{tetrads_view};

    ghost view = { tetrads_view };

    fn count() -> u32 {
        420
    }

    #[tactic(auto, using(crate::proofs::Cited::corners_at), unfolding(crate::specs::Tetrads::corners_at))]
    fn list_at(position: u32) -> [u8; 8] {
        let set = position / 6;
        let places = Choose::<8, 4>::unrank(u128::from(set));
        // the other places are the set with the same number from the end
        let others = Choose::<8, 4>::unrank(u128::from(69 - set));
        let related = joined(&FIRST_TETRAD, &RELATED[(position % 6) as usize]);
        let mut corners = [0; 8];
        arrange(
            &joined(&places, &others)[..],
            &related[..],
            &mut corners[..],
        );
        corners
    }

    fn number_of(corners: &[u8; 8]) -> u32 {
        corner_index(corners)
    }
}
