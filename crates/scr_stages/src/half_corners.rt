//! The lists of corners that half turns alone lead to, by their numbers.

use crate::corner_lists::CornerNumbers;
use crate::places::{arrange, pieces_in_block, place_of};
use crate::tetrads::{FIRST_TETRAD, SECOND_TETRAD, axes_of, joined, second_with};
use scr_orbit::pick_into;
use scr_rank::PermRank;
use scr_rank::permutations::rank_permutation;

/// These lists by their numbers, below 96. A list that half turns don't lead to has a number too.
pub(crate) struct HalfCorners;

impl CornerNumbers for HalfCorners {
    ghost use Rattle.scr_stages.specs.Tetrads.{half_corners_view};

    ghost view = { half_corners_view };

    fn count() -> u32 {
        96
    }

    #[tactic(auto, using(crate::proofs::Cited::half_corners_at), unfolding(crate::specs::Tetrads::half_corners_at))]
    fn list_at(position: u32) -> [u8; 8] {
        let order = PermRank::<4>::unrank(u128::from(position / 4));
        let mut first = [0; 4];
        pick_into(&FIRST_TETRAD[..], &order[..], &mut first[..]);
        let second = second_with((position % 4) as usize, &axes_of(&first));
        let mut corners = [0; 8];
        arrange(
            &joined(&FIRST_TETRAD, &SECOND_TETRAD)[..],
            &joined(&first, &second)[..],
            &mut corners[..],
        );
        corners
    }

    #[tactic(auto, unfolding(crate::specs::Tetrads::half_corners_number))]
    fn number_of(corners: &[u8; 8]) -> u32 {
        let mut places = [0; 4];
        pieces_in_block(&corners[..], &FIRST_TETRAD[..], &mut places[..]);
        place_of(corners[1], &SECOND_TETRAD[..]) as u32 + 4 * rank_permutation(&places[..]) as u32
    }
}
