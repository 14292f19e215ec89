//! The solution of a cube by stages, and the scramble that it gives.
ghost use Rattle.std.specs.Prelude.{◌≡◌, ◌+◌, ◌<◌, ◌≤◌, All, List, Some, ◌++◌, length};
ghost use Rattle.scr_combinatorics.specs.Play.{play};
ghost use Rattle.scr_combinatorics.specs.Stages.{spelled, IsSolution};
ghost use Rattle.scr_orbit.specs.PowerPuzzles.{after_letter};
ghost use Rattle.scr_notation.specs.declared.event.Event.TheVariants.{C333};
ghost use Rattle.scr_notation.specs.declared.turn.Turn.{Turn as Letter};
ghost use Rattle.scr_notation.specs.Written.{at_most, IsTheScramble};
ghost use Rattle.scr_cube.specs.Cube333.{IsCube, cube_powers, solved_cube};
ghost use Rattle.scr_cube.specs.ListedTurns.{after_of, letter_in};
ghost use Rattle.scr_stages.specs.Stages.{stages, IsStageScramble};

use crate::stage_turns::{ALL_TURNS, DOMINO_TURNS, HALF_TURNS, SLICE_TURNS};
use crate::tables::StageTables;
use crate::words::{flips_word, halves_word, slice_word, tetrads_word};
use scr_cube::{Cube, PowerTurned};
use scr_notation::{Event, NumberedWord, Scramble};

/// The solution of a cube by the four stages, of at most 52 turns: the first word of each stage's turns to its goal,
/// one after another.
pub fn solve_stages(tables: &StageTables, cube: &Cube) -> Scramble
    ensures event { result.event ≡ C333 }
    ensures at_most { length result.turns ≤ 52 }
    ensures solution { IsSolution (after_letter cube_powers) stages cube.now result.turns }
    ensures only { (turns : List Letter) → IsSolution (after_letter cube_powers) stages cube.now turns
        → turns ≡ result.turns }
    ensures played { play (after_letter cube_powers) cube.now result.turns ≡ Some solved_cube }
    ensures valid { IsCube cube.now }
{
    stage_words(tables, cube).scramble()
}

/// The scramble of a cube by stages, of at most 52 turns: its solution, in which neighbouring turns of one face are
/// merged, taken back.
pub fn scramble_by_stages(tables: &StageTables, cube: &Cube) -> Scramble
    ensures { IsTheScramble C333 IsStageScramble (at_most 52) (play (after_letter cube_powers) solved_cube) cube.now result }
{
    stage_words(tables, cube).tidied().taken_back()
}

/// The words of the four stages, one after another.
fn stage_words(tables: &StageTables, cube: &Cube) -> NumberedWord
    ensures event { result.event ≡ C333 }
    ensures solution { IsSolution (after_letter cube_powers) stages cube.now result.turns }
    ensures valid { IsCube cube.now }
{
    let mut solution = NumberedWord::new(Event::C333);
    let word = flips_word(tables, cube);
    let unflipped = follow(cube, &ALL_TURNS[..], &word[..], &mut solution);
    let word = slice_word(tables, &unflipped);
    let domino = follow(&unflipped, &SLICE_TURNS[..], &word[..], &mut solution);
    let word = tetrads_word(tables, &domino);
    let half_turned = follow(&domino, &DOMINO_TURNS[..], &word[..], &mut solution);
    let word = halves_word(tables, &half_turned);
    follow(&half_turned, &HALF_TURNS[..], &word[..], &mut solution);
    solution
}

/// Plays a word of places of a list of turns, and adds its letters to a solution, which has room for them.
#[tactic(auto, using(crate::proofs::Cited::follow))]
fn follow(cube: &Cube, turns: &[u8], word: &[u8], solution: &mut NumberedWord) -> Cube
    requires turns { All (λ t. t < 18) turns.now }
    requires word { All (λ place. place < length turns.now) word.now }
    requires event { solution.old.event ≡ C333 }
    requires room { length solution.old.turns + length word.now ≤ 160 }
    ensures written { solution.new ≡ record { event = C333; turns = solution.old.turns ++ spelled (letter_in turns.now) word.now } }
    ensures longer { length solution.new.turns ≡ length solution.old.turns + length word.now }
    ensures played { play (after_of turns.now) cube.now word.now ≡ Some result }
{
    let mut state = *cube;
    for at in 0..word.len() {
        let number = turns[usize::from(word[at])];
        state = state.turned(usize::from(number));
        solution.push(number);
    }
    state
}
