//! The scramble of the 3x3x3 as it is held.
ghost use Rattle.std.specs.Prelude.{◌≡◌, ◌<◌, ◌≤◌, All, length, map};
ghost use Rattle.scr_combinatorics.specs.Play.{play};
ghost use Rattle.scr_notation.specs.declared.event.Event.TheVariants.{Bf333};
ghost use Rattle.scr_notation.specs.Event.{kind_of};
ghost use Rattle.scr_notation.specs.TurnNumbers.{turn_at};
ghost use Rattle.scr_notation.specs.Written.{at_most, IsTheScramble};
ghost use Rattle.scr_cube.specs.Held.{hold_word, held_cube_after, solved_held};
ghost use Rattle.scr_twophase.specs.HeldScramble.{IsScramble333bf};

use crate::scramble::scramble_333;
use crate::tables::PruneTables;
use scr_cube::Held;
use scr_notation::{Event, NumberedWord, Scramble, push_all};
use scr_stages::StageTables;

/// The scramble of a held cube, of the event 333bf. It ends in the word of the hold, of at most two wide turns; before
/// it stands the scramble, of at most 52 turns, of the cube from which the faces that the word turns lead to this one.
pub fn scramble_333bf(
    prune: &PruneTables,
    stages: &StageTables,
    held: &Held,
    tries: u32,
) -> Scramble
    ensures { IsTheScramble Bf333 (IsScramble333bf tries) (at_most 54) (play held_cube_after solved_held) held.now result }
{
    let word = NumberedWord::of(Event::Bf333, word_of_hold(held.hold()));
    let Some(before) = held.play(&word.taken_back()) else {
        unreachable!();
    };
    let first = scramble_333(prune, stages, before.cube(), tries);
    let mut scramble = first.with_event(Event::Bf333);
    push_all(&mut scramble, &word.scramble());
    scramble
}

/// The word of the hold with this number, below 24, by the numbers of its turns: none or one of `Rw`, `Rw2`, `Rw'`, `Fw`
/// and `Fw'`, which are 21 to 24 and 26, and none or one of `Uw`, `Uw2` and `Uw'`, which are 18 to 20.
#[tactic(auto, unfolding(scr_cube::specs::Held::hold_word, scr_notation::specs::TurnNumbers::turn_at, scr_notation::specs::TurnNumbers::face_turn_at))]
fn word_of_hold(hold: u8) -> &'static [u8]
    requires { hold < 24 }
    ensures word { map (turn_at (kind_of Bf333)) result.now ≡ hold_word hold }
    ensures below { All (λ number. number < 27) result.now }
    ensures short { length result.now ≤ 2 }
{
    match hold {
        0 => &[],
        1 => &[21],
        2 => &[22],
        3 => &[23],
        4 => &[24],
        5 => &[26],
        6 => &[18],
        7 => &[21, 18],
        8 => &[22, 18],
        9 => &[23, 18],
        10 => &[24, 18],
        11 => &[26, 18],
        12 => &[19],
        13 => &[21, 19],
        14 => &[22, 19],
        15 => &[23, 19],
        16 => &[24, 19],
        17 => &[26, 19],
        18 => &[20],
        19 => &[21, 20],
        20 => &[22, 20],
        21 => &[23, 20],
        22 => &[24, 20],
        _ => &[26, 20],
    }
}
