//! The random moves of a big cube.

ghost use Rattle.std.specs.Prelude.{◌≡◌, ◌+◌, ◌-◌, ◌*◌, ◌^◌, ◌<◌, ◌≤◌, Some, None, IfOk, IfErr, OnErr};
ghost use Rattle.scr_bigs.specs.BigCubes.{IsSide, cube_event, cube_turns, turns_made};
ghost use Rattle.scr_bigs.specs.CubeMoves.{cube_moves, attempts_read};

use crate::choosing::choose;
use scr_draw::DrawLimit;
use scr_notation::{Event, Scramble, Turn, push_turn};
use scr_words::Words;

/// The scramble of a cube with `SIDE` layers, from 5 to 7, that words give: 60, 80 or 100 turns. Each turn is one of those
/// that may follow the turn before, numbered by axis, slab and amount: that with the number of the first accepted of the next
/// `attempts` attempts. Where these are all refused for some turn, it is told how many words they took, three each.
///
/// There are at most 1,000,000 attempts, and at most 2^62 words were taken before.
pub fn big_cube<W: Words, const SIDE: usize>(
    words: &mut W,
    attempts: u32,
) -> Result<Scramble, DrawLimit>
    requires side { IsSide SIDE }
    requires few { attempts ≤ 1000000 }
    requires room { W.taken words.old ≤ 2 ^ 62 }
    ensures event { IfOk result (λ scramble. scramble.event ≡ cube_event SIDE) }
    ensures turns { IfOk result (λ scramble.
        cube_moves SIDE attempts (W.word_at words.old) (W.taken words.old) ≡ Some scramble.turns) }
    ensures refused { OnErr result (cube_moves SIDE attempts (W.word_at words.old) (W.taken words.old) ≡ None) }
    ensures limit { IfErr result (λ limit. limit.words ≡ 3 * attempts) }
    ensures taken { let word = W.word_at words.old in
        let read = attempts_read SIDE attempts word (cube_turns SIDE) (W.taken words.old) (turns_made SIDE) in
        W.taken words.new ≡ W.taken words.old + 3 * read }
    ensures at_most { W.taken words.new ≤ W.taken words.old + 300000000 }
    ensures same_words { W.word_at words.new ≡ W.word_at words.old }
{
    let side = SIDE as u8;
    let near = side / 2;
    let slabs = side - 1;
    let mut scramble = Scramble::new(match side {
        5 => Event::C555,
        6 => Event::C666,
        _ => Event::C777,
    });
    let mut left_out = LeftOut { first: 0, count: 0 };
    for made in 0..20 * (side - 2) {
        let choice = choose(words, 9 * slabs - left_out.count, attempts)?;
        let number = if choice < left_out.first {
            choice
        } else {
            choice + left_out.count
        };
        let slab = number / 3;
        let axis = slab / slabs;
        let place = slab % slabs;
        let amount = number % 3 + 1;
        let turn = if place < near {
            Turn::Face {
                face: axis,
                depth: place + 1,
                amount,
            }
        } else {
            Turn::Face {
                face: axis + 3,
                depth: place - near + 1,
                amount,
            }
        };
        push_turn(&mut scramble, turn);
        left_out = LeftOut {
            first: 3 * (slab - place),
            count: 3 * (place + 1),
        };
    }
    Ok(scramble)
}

/// The turns that may not come next, by their numbers among all turns: so many from the first on. They are those of the
/// axis of the turn before, up to its slab.
#[derive(Clone, Copy)]
struct LeftOut {
    first: u8,
    count: u8,
}
