//! How a turn is written.
ghost use Rattle.std.specs.Prelude.{◌≡◌, ℕ, ◌+◌, ◌<◌, ◌≤◌, ◌==◌, ◌++◌, length, IsTrue, slice_index};
ghost use Rattle.std.specs.List.{list_any};
ghost use Rattle.arrayvec.specs.ArrayString.{array_string_len};
ghost use Rattle.scr_notation.specs.Layers.{is_twelfths};
ghost use Rattle.scr_notation.specs.Pins.{pin_sets};
ghost use Rattle.scr_notation.specs.Turns.{permits};
ghost use Rattle.scr_notation.specs.Spelling.{letter_text, layers_before, layers_behind, way_text, signed_text, name_of_set, hours_text, spelling};

use crate::event::Event;
use crate::turn::Turn;
use arrayvec::ArrayString;

/// The letters of faces, axes, tips and wide turns, in the order of their numbers.
const FACE_LETTERS: [u8; 6] = *b"URFDLB";

const AXIS_LETTERS: [u8; 4] = *b"ULRB";

const TIP_LETTERS: [u8; 4] = *b"ulrb";

const WIDE_LETTERS: [u8; 3] = *b"RDU";

/// The spelling of a turn that `event` has.
#[tactic(auto, unfolding(crate::specs::Spelling::spelling))]
pub(crate) fn spelled(event: Event, turn: Turn) -> ArrayString<7>
    requires { IsTrue (permits event turn) }
    ensures { result.bytes ≡ spelling turn }
{
    let mut text = ArrayString::new();
    match turn {
        Turn::Face {
            face,
            depth,
            amount,
        } => {
            text.push_str(if depth == 3 { "3" } else { "" });
            text.push(FACE_LETTERS[face as usize] as char);
            text.push_str(if depth == 1 { "" } else { "w" });
            match amount {
                1 => {}
                3 => text.push_str("'"),
                _ => text.push_str("2"),
            }
        }
        Turn::Axis { axis, amount } => {
            text.push(AXIS_LETTERS[axis as usize] as char);
            text.push_str(if amount == 1 { "" } else { "'" });
        }
        Turn::Tip { tip, amount } => {
            text.push(TIP_LETTERS[tip as usize] as char);
            text.push_str(if amount == 1 { "" } else { "'" });
        }
        Turn::Layers { top, bottom } => {
            text.push_str("(");
            text.push_str(twelfths(top));
            text.push_str(",");
            text.push_str(twelfths(bottom));
            text.push_str(")");
        }
        Turn::Twist => text.push_str("/"),
        Turn::Pins { pins, amount } => {
            text.push_str(pins_name(pins));
            text.push_str(hours(amount));
        }
        Turn::Over => text.push_str("y2"),
        Turn::Wide { letter, plus } => {
            text.push(WIDE_LETTERS[letter as usize] as char);
            text.push_str(way(letter, plus));
        }
    }
    text
}

/// How the way of a wide turn is written.
fn way(letter: u8, plus: bool) -> &'static str
    ensures value { result.now ≡ way_text letter plus }
    ensures short { length result.now ≤ 2 }
{
    match (letter, plus) {
        (2, true) => "",
        (2, false) => "'",
        (_, true) => "++",
        (_, false) => "--",
    }
}

/// How an amount of twelfths is written.
fn twelfths(amount: i8) -> &'static str
    requires { IsTrue (is_twelfths amount) }
    ensures value { result.now ≡ signed_text amount }
    ensures short { length result.now ≤ 2 }
{
    match amount {
        -5 => "-5",
        -4 => "-4",
        -3 => "-3",
        -2 => "-2",
        -1 => "-1",
        0 => "0",
        1 => "1",
        2 => "2",
        3 => "3",
        4 => "4",
        5 => "5",
        _ => "6",
    }
}

/// The name of a pin set.
fn pins_name(pins: u8) -> &'static str
    requires { IsTrue (list_any (λ set. set == pins) pin_sets) }
    ensures value { result.now ≡ name_of_set pins }
    ensures short { length result.now ≤ 3 }
{
    match pins {
        1 => "UR",
        2 => "DR",
        4 => "DL",
        8 => "UL",
        9 => "U",
        3 => "R",
        6 => "D",
        12 => "L",
        _ => "ALL",
    }
}

/// How an amount of hours from 0 to 11 is written: 0 to 6 with `+`, and 7 to 11 as what is left to twelve, with `-`.
#[tactic(auto, unfolding(crate::specs::Spelling::hours_text))]
fn hours(amount: u8) -> &'static str
    requires { amount < 12 }
    ensures value { result.now ≡ hours_text amount }
    ensures short { length result.now ≤ 2 }
{
    match amount {
        0 => "0+",
        1 => "1+",
        2 => "2+",
        3 => "3+",
        4 => "4+",
        5 => "5+",
        6 => "6+",
        7 => "5-",
        8 => "4-",
        9 => "3-",
        10 => "2-",
        _ => "1-",
    }
}
