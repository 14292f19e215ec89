//! What the letters of the later stages do to the places of a normal state.
ghost use Rattle.std.specs.Prelude.{◌≡◌, map};
ghost use Rattle.scr_combinatorics.specs.Lists.{numbers_from};
ghost use Rattle.scr_sq1tables.specs.Tables.{units_after};
ghost use Rattle.scr_sq1tables.specs.Letters.{letter_of};
ghost use Rattle.scr_sq1tables.specs.Placed.{pieces};

use crate::stage_letters::{StageLetters, word_of};
use scr_sq1::Sq1;

/// Corners, or edges.
#[derive(Clone, Copy)]
pub(crate) enum Part {
    Corners,
    Edges,
}

/// For each of the first 32 letters of a kind, the place from which each place gets its piece, which is seen at the
/// solved state.
#[tactic(auto, using(crate::proofs::Cited::letter_places), unfolding(crate::specs::Tables::units_after))]
pub(crate) fn letter_places(letters: StageLetters, part: Part) -> [[u8; 8]; 32]
    ensures { result ≡ map (λ n. pieces part (units_after (letter_of letters) n)) (numbers_from 0 32) }
{
    let mut places = [[0; 8]; 32];
    for number in 0..32 {
        // no letter is barred there
        let state = Sq1::solved()
            .after_word(&word_of(letters, &[number as u8]))
            .unwrap_or(Sq1::solved());
        places[number] = pieces(&state, part);
    }
    places
}

/// The corners of a state, or its edges, in unit order.
fn pieces(state: &Sq1, part: Part) -> [u8; 8]
    ensures { result ≡ pieces part state.now.units }
{
    match part {
        Part::Corners => state.pieces().0,
        Part::Edges => state.pieces().1,
    }
}
