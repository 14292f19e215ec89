//! The stages, whose words their tables find.

use scr_sq1tables::{PairingsLine, SquareLine, StageLetters};
use scr_table::Line;

/// A stage by the line of its table: a state's index tells the first word of its letters to its goal.
pub(crate) trait StageLine: Line {
    ghost use Rattle.std.specs.Prelude.{ℕ};
    ghost use Rattle.scr_positions.specs.SearchSpaces.{positions, Follows};
    ghost use Rattle.scr_table.specs.StageSpaces.{stage_space};
    ghost use Rattle.scr_sq1.specs.Units.{Sq1State, sq1_after};
    ghost use Rattle.scr_sq1tables.specs.declared.stage_letters.StageLetters.{StageLetters as LettersOf};
    ghost use Rattle.scr_sq1tables.specs.Letters.{stage_of};
    ghost use Rattle.scr_sq1solve.specs.Walks.{starts_of, IsInReach};

    /// Its letters.
    ghost LETTERS: { LettersOf };

    const LETTERS: StageLetters;

    /// The index by which a search for its words sees a state.
    ghost view: { Sq1State → ℕ };

    /// From a state that the stage sets out from and from its index a search finds the same,
    ghost follows: { Follows (stage_space sq1_after (stage_of LETTERS) (starts_of LETTERS))
        (positions Self.line.coordinate) view };

    /// and the table reaches no farther than the stage, whose words and letters are few.
    ghost in_reach: { IsInReach (stage_of LETTERS) Self.line.bound };
}

impl StageLine for PairingsLine {
    ghost use Rattle.scr_sq1tables.specs.declared.stage_letters.StageLetters.TheVariants.{OfPairings};
    ghost use Rattle.std.proofs.Common.{lit≤};
    ghost use Rattle.scr_sq1tables.specs.Tables.{pairings_index};
    ghost use Rattle.scr_sq1tables.proofs.PairingStage.{Follows-pairings};

    ghost LETTERS = { OfPairings };

    const LETTERS: StageLetters = StageLetters::OfPairings;

    ghost view = { pairings_index };

    ghost follows = { Follows-pairings };

    ghost in_reach = { record { within = lit≤ tt; short = lit≤ tt; few_letters = lit≤ tt } };
}

impl StageLine for SquareLine {
    ghost use Rattle.scr_sq1tables.specs.declared.stage_letters.StageLetters.TheVariants.{OfHome};
    ghost use Rattle.std.proofs.Common.{lit≤};
    ghost use Rattle.scr_sq1tables.specs.Tables.{square_index};
    ghost use Rattle.scr_sq1tables.proofs.HomeStage.{Follows-square};

    ghost LETTERS = { OfHome };

    const LETTERS: StageLetters = StageLetters::OfHome;

    ghost view = { square_index };

    ghost follows = { Follows-square };

    ghost in_reach = { record { within = lit≤ tt; short = lit≤ tt; few_letters = lit≤ tt } };
}
