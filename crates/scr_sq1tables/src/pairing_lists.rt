//! Where mates stand, as a coordinate.
ghost use Rattle.std.specs.Prelude.{◌≡◌, All, length};
ghost use Rattle.std.proofs.Props.{props};
ghost use Rattle.scr_combinatorics.specs.Permutations.{IsPermutation};
ghost use Rattle.scr_positions.specs.Coordinates.{StaysBelow};
ghost use Rattle.scr_coord.specs.Projections.{projection};
ghost use Rattle.scr_sq1tables.specs.Tables.{pairings_view};
ghost use Rattle.scr_sq1tables.specs.Placed.{moves_of};

use crate::pieces::carried_pairing;
use scr_positions::Coord;
use scr_rank::Pairing8;

/// The number of the pairing in which each place is paired with the opposite one in its layer.
const HOME: u32 = 16;

/// The pairings of eight places, by their numbers. The goal is that in which opposite places are partners.
#[derive(Drop)]
pub(crate) struct PairingLists<'a> {
    letters: &'a [[u8; 8]; 32],
    ghost size: { length letters.now ≡ 32 },
    ghost valid: { All (IsPermutation 8) letters.now } by { Prim.hlevel props },
    ghost stays: { StaysBelow (projection pairings_view (moves_of letters.now)) } by { Prim.hlevel props },
}

impl<'a> PairingLists<'a> {
    /// The coordinate of 32 letters, each told by the places from which the places get their pieces.
    #[tactic(auto, using(crate::proofs::Cited::pairing_lists_new))]
    pub fn new(letters: &'a [[u8; 8]; 32]) -> PairingLists<'a>
        requires { All (IsPermutation 8) letters.now }
        ensures { result.letters.now ≡ letters.now }
    {
        PairingLists { letters }
    }
}

impl Coord for PairingLists<'_> {
    ghost coordinate = { λ t. projection pairings_view (moves_of t.letters.now) };

    fn count(&self) -> u32 {
        105
    }

    fn turns(&self) -> u32 {
        self.letters.len() as u32
    }

    fn after(&self, position: u32, turn: u32) -> Option<u32> {
        let partners = Pairing8::unrank(u128::from(position));
        let carried = carried_pairing(&partners, &self.letters[turn as usize]);
        Some(Pairing8::rank(&carried) as u32)
    }

    #[tactic(auto, unfolding(scr_combinatorics::specs::Pairings::pairing_number))]
    fn is_goal(&self, position: u32) -> bool {
        position == HOME
    }
}
