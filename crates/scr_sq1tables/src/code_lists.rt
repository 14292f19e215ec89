//! Lists of pieces in which mates stand opposite to each other, as a coordinate.
ghost use Rattle.std.specs.Prelude.{◌≡◌, All, length};
ghost use Rattle.std.proofs.Props.{props};
ghost use Rattle.scr_combinatorics.specs.Permutations.{IsPermutation};
ghost use Rattle.scr_positions.specs.Coordinates.{StaysBelow};
ghost use Rattle.scr_coord.specs.Projections.{projection};
ghost use Rattle.scr_sq1tables.specs.Codes.{codes_view};
ghost use Rattle.scr_sq1tables.specs.Placed.{KeepsMates, moves_of};

use crate::pieces::{code_of, moved_pieces, pieces_at};
use scr_positions::Coord;

/// These lists, by their codes. The goal is the list in order.
#[derive(Drop)]
pub(crate) struct CodeLists<'a> {
    letters: &'a [[u8; 8]; 32],
    ghost size: { length letters.now ≡ 32 },
    ghost valid: { All (IsPermutation 8) letters.now } by { Prim.hlevel props },
    ghost stays: { StaysBelow (projection codes_view (moves_of letters.now)) } by { Prim.hlevel props },
}

impl<'a> CodeLists<'a> {
    /// The coordinate of 32 letters, each told by the places from which the places get their pieces, which keep mates
    /// opposite to each other.
    #[tactic(auto, using(crate::proofs::Cited::code_lists_new))]
    pub fn new(letters: &'a [[u8; 8]; 32]) -> CodeLists<'a>
        requires { All KeepsMates letters.now }
        ensures { result.letters.now ≡ letters.now }
    {
        CodeLists { letters }
    }
}

impl Coord for CodeLists<'_> {
    ghost coordinate = { λ t. projection codes_view (moves_of t.letters.now) };

    fn count(&self) -> u32 {
        384
    }

    fn turns(&self) -> u32 {
        self.letters.len() as u32
    }

    fn after(&self, position: u32, turn: u32) -> Option<u32> {
        let moved = moved_pieces(&pieces_at(position), &self.letters[turn as usize]);
        Some(code_of(&moved))
    }

    #[tactic(auto, unfolding(crate::specs::Tables::code_number, crate::specs::Tables::bits_number, crate::specs::Tables::pairs_number))]
    fn is_goal(&self, position: u32) -> bool {
        position == 0
    }
}
