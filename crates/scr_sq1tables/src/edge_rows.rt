//! The lists of edges in the rows of the table `square`, as a coordinate.
ghost use Rattle.std.specs.Prelude.{◌≡◌};
ghost use Rattle.std.proofs.Props.{props};
ghost use Rattle.scr_positions.specs.Coordinates.{StaysBelow};
ghost use Rattle.scr_positions.specs.Moves.{moves_coordinate};
ghost use Rattle.scr_positions.specs.SearchSpaces.{ShowsSame};
ghost use Rattle.scr_sq1.specs.Numbers.{edges_of};
ghost use Rattle.scr_sq1tables.specs.Codes.{codes_coordinate, rows_coordinate};
ghost use Rattle.scr_sq1tables.specs.Letters.{letter_of};

use crate::stage_letters::StageLetters;
use scr_positions::{Coord, MoveTable};

/// These lists by their places in a row: a row's list of corners tells whether they are even or odd, and so the last
/// bit of their code. The 192 places of an even row come first, and then those of an odd one; each leads to a place
/// below 192.
#[derive(Drop)]
pub(crate) struct EdgeRows<'a> {
    /// Where the letters lead from the codes.
    edges: &'a MoveTable,
    letters: StageLetters,
    ghost shows: { ShowsSame (codes_coordinate edges_of (letter_of letters)) (moves_coordinate edges.now) },
    ghost stays: { StaysBelow (rows_coordinate (letter_of letters)) } by { Prim.hlevel props },
}

impl<'a> EdgeRows<'a> {
    /// The coordinate of these letters, told by where they lead from the codes.
    pub fn new(edges: &'a MoveTable, letters: StageLetters) -> EdgeRows<'a>
        requires { ShowsSame (codes_coordinate edges_of (letter_of letters)) (moves_coordinate edges.now) }
        ensures { result.letters ≡ letters }
    {
        EdgeRows { edges, letters }
    }
}

impl Coord for EdgeRows<'_> {
    ghost coordinate = { λ rows. rows_coordinate (letter_of rows.letters) };

    fn count(&self) -> u32 {
        384
    }

    fn turns(&self) -> u32 {
        32
    }

    fn after(&self, position: u32, turn: u32) -> Option<u32> {
        // the code of the list of edges at this place
        let low = position % 8;
        let last = low % 2 + low / 2 % 2 + low / 2 / 2 % 2 + position / 192;
        let code = low + 8 * (last % 2) + 16 * (position / 8 % 24);
        self.edges
            .after(code, turn)
            .map(|code| code % 8 + 8 * (code / 16))
    }

    fn is_goal(&self, _position: u32) -> bool {
        false
    }
}
