//! Where letters lead from states in which mates stand opposite to each other.
ghost use Rattle.std.specs.Prelude.{◌≡◌, ◌<◌, ◌+◌, ◌*◌, ◌/◌, ◌%◌, IfOk};
ghost use Rattle.std.specs.Option.{option_map};
ghost use Rattle.std.proofs.Props.{props};
ghost use Rattle.scr_positions.specs.Coordinates.{StaysBelow};
ghost use Rattle.scr_positions.specs.Moves.{moves_coordinate};
ghost use Rattle.scr_positions.specs.SearchSpaces.{ShowsSame};
ghost use Rattle.scr_sq1.specs.Numbers.{corners_of};
ghost use Rattle.scr_sq1.specs.Units.{sq1_after};
ghost use Rattle.scr_sq1tables.specs.declared.stage_letters.StageLetters.TheVariants.{OfHome, Quarters};
ghost use Rattle.scr_sq1tables.specs.Codes.{codes_coordinate, rows_coordinate};
ghost use Rattle.scr_sq1tables.specs.Letters.{letter_of};
ghost use Rattle.scr_sq1tables.specs.Tables.{square_coordinate, square_index, square_state};
ghost use Rattle.scr_sq1tables.specs.Placed.{IsKept};
ghost use Rattle.scr_combinatorics.specs.Stages.{by_letters};

use crate::code_lists::CodeLists;
use crate::edge_rows::EdgeRows;
use crate::letter_places::{Part, letter_places};
use crate::stage_letters::StageLetters;
use scr_outside::NoMemory;
use scr_positions::{Coord, MoveTable};
use std::alloc::Global;

/// Where 32 letters lead from the lists of corners, and from those of edges in a row, which has one list of corners.
pub(crate) struct CodeMoves {
    corners: MoveTable,
    rows: MoveTable,
    letters: StageLetters,
    ghost shows_corners: { ShowsSame (codes_coordinate corners_of (letter_of letters)) (moves_coordinate corners) },
    ghost shows_rows: { ShowsSame (rows_coordinate (letter_of letters)) (moves_coordinate rows) },
    ghost kept: { IsKept (letter_of letters) },
}

// By hand, so that the proof of whoever lets one go meets one call, and not the letting go of each of its parts.
impl Drop for CodeMoves {
    fn drop(self) {
        let CodeMoves {
            corners: _,
            rows: _,
            letters: _,
        } = self;
    }
}

impl CodeMoves {
    /// The moves of letters that keep mates opposite to each other. Only memory can be wanting.
    pub fn build(alloc: Global, letters: StageLetters) -> Result<CodeMoves, NoMemory>
        requires { IsKept (letter_of letters) }
        ensures { IfOk result (λ moves. moves.letters ≡ letters) }
    {
        let corner_places = letter_places(letters, Part::Corners);
        let edge_places = letter_places(letters, Part::Edges);
        let corners = MoveTable::build(alloc, &CodeLists::new(&corner_places))?;
        let edges = MoveTable::build(alloc, &CodeLists::new(&edge_places))?;
        Ok(CodeMoves {
            corners,
            rows: MoveTable::build(alloc, &EdgeRows::new(&edges, letters))?,
            letters,
        })
    }

    /// The position after a letter, none of which is barred.
    #[inline]
    pub fn after(&self, position: u32, turn: u32) -> Option<u32>
        requires position { position < 73728 }
        requires turn { turn < 32 }
        ensures { result ≡ option_map square_index (by_letters sq1_after 32 (letter_of self.now.letters) (square_state position) turn) }
    {
        let corners = self.corners.after(position / 192, turn)?;
        // whether the list of corners is odd, by the bits of its code
        let bits = position / 192 % 16;
        let odd = (bits % 2 + bits / 2 % 2 + bits / 2 / 2 % 2 + bits / 2 / 2 / 2 % 2) % 2;
        let place = self.rows.after(position % 192 + 192 * odd, turn)?;
        Some(place + 192 * corners)
    }
}

/// The moves of the table `square`, built of small ones.
pub struct SquareMoves {
    home: CodeMoves,
    quarters: CodeMoves,
    ghost of_home: { home.letters ≡ OfHome },
    ghost of_quarters: { quarters.letters ≡ Quarters },
    ghost stays: { StaysBelow square_coordinate } by { Prim.hlevel props },
}

// By hand, so that the proof of whoever lets one go meets one call, and not the letting go of each of its parts.
impl Drop for SquareMoves {
    fn drop(self) {
        let SquareMoves {
            home: _,
            quarters: _,
        } = self;
    }
}

impl SquareMoves {
    /// The moves. Only memory can be wanting.
    #[tactic(auto, using(crate::proofs::Cited::square_moves_build))]
    pub fn build(alloc: Global) -> Result<SquareMoves, NoMemory> {
        Ok(SquareMoves {
            home: CodeMoves::build(alloc, StageLetters::OfHome)?,
            quarters: CodeMoves::build(alloc, StageLetters::Quarters)?,
        })
    }
}

impl Coord for SquareMoves {
    ghost coordinate = { λ _. square_coordinate };

    fn count(&self) -> u32 {
        73_728
    }

    fn turns(&self) -> u32 {
        32
    }

    #[inline]
    fn after(&self, position: u32, turn: u32) -> Option<u32> {
        self.home.after(position, turn)
    }

    fn is_goal(&self, position: u32) -> bool {
        for number in 0..16 {
            if self.quarters.after(position, number) == Some(0) {
                return true;
            }
        }
        false
    }
}
