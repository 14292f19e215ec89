//! The words of the stages as turns, and where they lead.
ghost use Rattle.std.specs.Prelude.{◌≡◌, ◌<◌, ◌≤◌, ◌↔◌, All, IsSome, IsTrue, Some, length};
ghost use Rattle.scr_combinatorics.specs.Play.{play};
ghost use Rattle.scr_combinatorics.specs.Stages.{HasStageWord, spelled};
ghost use Rattle.scr_notation.specs.declared.event.Event.TheVariants.{Sq1 as EventSq1};
ghost use Rattle.scr_sq1.specs.Units.{sq1_after};
ghost use Rattle.scr_sq1tables.specs.Letters.{stage_of, letter_of};
ghost use Rattle.scr_sq1solve.specs.Walks.{starts_of, IsWalk, IsWithinCosts};

use crate::stages::StageLine;
use scr_notation::NumberedWord;
use scr_sq1::Sq1;
use scr_sq1tables::{NORMAL, StageLetters, shapes_index, word_of};
use scr_table::LineTable;

/// The turns of a word of letters, and the state where they lead.
#[derive(Drop)]
pub(crate) struct Walk {
    pub(crate) turns: NumberedWord,
    pub(crate) end: Sq1,
}

/// The turns of the first word of a stage from a state with this index, and where they lead.
pub(crate) fn stage_walk<L: StageLine>(table: &LineTable<L>, index: u32, state: &Sq1) -> Walk
    requires start { starts_of L.LETTERS state.now }
    requires index { index ≡ L.view state.now }
    ensures event { result.turns.event ≡ EventSq1 }
    ensures walk { IsWalk (stage_of L.LETTERS) state.now result.turns.turns result.end }
    ensures goal { (stage_of L.LETTERS).IsGoal result.end }
    ensures kept { starts_of L.LETTERS result.end }
    ensures costs { IsWithinCosts L.LETTERS result.turns.turns }
{
    let word = table.descend(index);
    walked(L::LETTERS, &word[..], state)
}

/// The turns of a word of a stage's letters, no longer than its own ones, and where they lead.
#[tactic(auto, using(crate::proofs::Cited::walked))]
pub(crate) fn walked(letters: StageLetters, numbers: &[u8], state: &Sq1) -> Walk
    requires numbers { All (λ number. number < 144) numbers.now }
    requires few { length numbers.now ≤ (stage_of letters).bound }
    requires leads { IsSome (play sq1_after state.now (spelled (letter_of letters) numbers.now)) }
    ensures event { result.turns.event ≡ EventSq1 }
    ensures turns { result.turns.turns ≡ spelled (letter_of letters) numbers.now }
    ensures end { play sq1_after state.now result.turns.turns ≡ Some result.end }
    ensures costs { IsWithinCosts letters result.turns.turns }
{
    let turns = word_of(letters, numbers);
    match state.after_word(&turns) {
        Some(end) => Walk { turns, end },
        None => unreachable!(),
    }
}

/// The word of a stage of one letter at most, which is found by trying: the first letter that leads to the goal.
pub(crate) fn end_walk(letters: StageLetters, state: &Sq1) -> Walk
    requires short { (stage_of letters).bound ≡ 1 }
    requires word { HasStageWord sq1_after (stage_of letters) state.now }
    ensures event { result.turns.event ≡ EventSq1 }
    ensures walk { IsWalk (stage_of letters) state.now result.turns.turns result.end }
    ensures goal { (stage_of letters).IsGoal result.end }
    ensures costs { IsWithinCosts letters result.turns.turns }
{
    let count = match letters {
        StageLetters::Squarings => 4,
        _ => 16,
    };
    for number in 0..count {
        let turns = word_of(letters, &[number]);
        if let Some(end) = state.after_word(&turns) {
            if is_ended(letters, &end) {
                return Walk { turns, end };
            }
        }
    }
    unreachable!()
}

/// Whether a stage of one letter at most has ended: the state is normal, or the layers are solved.
fn is_ended(letters: StageLetters, state: &Sq1) -> bool
    requires { (stage_of letters).bound ≡ 1 }
    ensures { IsTrue result ↔ (stage_of letters).IsGoal state.now }
{
    match letters {
        StageLetters::Squarings => shapes_index(state) == NORMAL,
        StageLetters::Quarters => state.units() == Sq1::solved().units(),
        StageLetters::OfShapes | StageLetters::OfPairings | StageLetters::OfHome => unreachable!(),
    }
}
