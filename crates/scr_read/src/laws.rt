//! What the definitions mean: calls that do nothing, whose contracts are laws about the definitions alone.

ghost use Rattle.std.specs.Prelude.{◌≡◌, ℕ, List, All};
ghost use Rattle.scr_read.specs.declared.piece.Piece.{Piece};
ghost use Rattle.scr_read.specs.Sheets.{SheetRound, IsSheetRound, IsSheet};
ghost use Rattle.scr_read.specs.Reading.{Start, IsRead, pieces_of};
ghost use Rattle.scr_read.specs.Groups.{groups_of};

/// A sheet is read as the pieces of its rounds; a text that is read to its end is the sheet of rounds which these are
/// the pieces of; and a text is the sheet of at most one list of rounds.
#[tactic(auto, using(crate::proofs::Cited::sheets_are_read_back))]
pub fn sheets_are_read_back()
    ensures read { (text : List ℕ) (rounds : List SheetRound) → IsSheet text rounds
        → IsRead Start text (pieces_of rounds) }
    ensures only { (text : List ℕ) (pieces : List Piece) → IsRead Start text pieces
        → (rounds : List SheetRound) × IsSheet text rounds × (pieces ≡ pieces_of rounds) }
    ensures one { (text : List ℕ) (rounds others : List SheetRound) → IsSheet text rounds → IsSheet text others
        → rounds ≡ others }
{}

/// A sheet has the groups of at most one list of rounds: the same groups are the same sheet.
#[tactic(auto, using(crate::proofs::TellLemmas::one_sheet_of_groups))]
pub fn groups_tell_the_sheet()
    ensures { (rounds others : List SheetRound) → All IsSheetRound rounds → All IsSheetRound others
        → groups_of rounds ≡ groups_of others → rounds ≡ others }
{}
