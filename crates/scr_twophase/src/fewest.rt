//! The scramble of the 3x3x3 for fewest moves, which begins and ends with R' U' F.
//!
//! Between the two frames stands a scramble of the 3x3x3, for the cube that the frames leave of a state: the frame
//! taken back, the state, and the frame taken back again (`specs/Fewest.antt`).

ghost use Rattle.std.specs.Prelude.{◌≡◌, ◌+◌, ◌≤◌, IsTrue, is_some, length};
ghost use Rattle.scr_combinatorics.specs.Play.{play};
ghost use Rattle.scr_orbit.specs.PowerPuzzles.{after_letter};
ghost use Rattle.scr_notation.specs.declared.event.Event.TheVariants.{Fm333};
ghost use Rattle.scr_notation.specs.Written.{at_most, IsTheScramble};
ghost use Rattle.scr_cube.specs.Cube333.{cube_powers, solved_cube};
ghost use Rattle.scr_twophase.specs.Fewest.{between, is_frame_at, is_framed, is_turn, IsFramed, IsScrambleFewest};
ghost use Rattle.scr_twophase.specs.TwoParts.{two_parts};

use crate::scramble::scramble_333;
use crate::tables::PruneTables;
use scr_cube::{Cube, PowerTurned};
use scr_notation::{Event, NumberedWord, Scramble, Turn, push_all};
use scr_stages::StageTables;

/// The scramble of a cube, of the event 333fm: R' U' F, the scramble of the cube that stands between, and R' U' F
/// again. It has at most 28 turns where one of the first `tries` first parts of the cube between has a second part, and
/// else at most 58. Where turns of one face meet at the joints they stand as they are.
pub fn scramble_333fm(
    prune: &PruneTables,
    stages: &StageTables,
    cube: &Cube,
    tries: u32,
) -> Scramble
    ensures scramble { IsTheScramble Fm333 (IsScrambleFewest tries) (at_most 58)
        (play (after_letter cube_powers) solved_cube) cube.now result }
    ensures framed { IsFramed result.turns }
    ensures tested { IsTrue (is_framed result.turns) }
    ensures few { IsTrue (is_some (two_parts (between cube.now) tries)) → length result.turns ≤ 28 }
{
    // R' U' F are the turns number 5, 2 and 6.
    let frame = NumberedWord::of(Event::Fm333, &[5, 2, 6]);
    let Some(back) = Cube::solved().play(&frame.taken_back()) else {
        unreachable!();
    };
    let between = back.then(&cube.then(&back));
    let middle = scramble_333(prune, stages, &between, tries).with_event(Event::Fm333);
    let mut scramble = frame.scramble();
    push_all(&mut scramble, &middle);
    push_all(&mut scramble, &frame.scramble());
    scramble
}

/// Whether the turns of a scramble are between two frames: at least six, of which the first three and the last three
/// are R' U' F.
#[tactic(auto, unfolding(crate::specs::Fewest::is_framed))]
pub fn is_framed(scramble: &Scramble) -> bool
    ensures { result ≡ is_framed scramble.now.turns }
{
    let turns = scramble.turns();
    if turns.len() < 6 {
        return false;
    }
    is_frame_at(turns, 0) && is_frame_at(turns, turns.len() - 3)
}

/// Whether the three turns from a place on are R' U' F.
#[tactic(auto, unfolding(crate::specs::Fewest::is_frame_at))]
fn is_frame_at(turns: &[Turn], place: usize) -> bool
    requires { place + 3 ≤ length turns.now }
    ensures { result ≡ is_frame_at turns.now place }
{
    is_turn(turns[place], 1, 3)
        && is_turn(turns[place + 1], 0, 3)
        && is_turn(turns[place + 2], 2, 1)
}

/// Whether a turn is that of a face alone, by this amount.
fn is_turn(turn: Turn, face: u8, amount: u8) -> bool
    ensures { result ≡ is_turn face amount turn }
{
    match turn {
        Turn::Face {
            face: own,
            depth,
            amount: times,
        } => own == face && depth == 1 && times == amount,
        _ => false,
    }
}
