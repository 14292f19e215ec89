//! The text of a path: outlines one behind another.

ghost use Rattle.std.specs.Prelude.{◌≡◌, ◌+◌, ◌<◌, ◌≤◌, true, length};
ghost use Rattle.arrayvec.specs.ArrayString.{array_string_len};
ghost use Rattle.scr_markup.specs.Tokens.{HasNoLineFeed};
ghost use Rattle.scr_drawing.specs.Outlines.{is_steps};

use arrayvec::ArrayString;

/// How many parts a drawing has at most: the stickers of a 7x7x7.
pub(crate) const PARTS: usize = 294;

/// The text of a path, with room for as many outlines of 30 bytes.
pub(crate) type PathText = ArrayString<8820>;

/// Adds an outline that begins there.
pub(crate) fn push_outline(text: &mut PathText, x: u8, y: u8, steps: &str)
    requires steps { is_steps steps.now ≡ true }
    requires line { HasNoLineFeed text.old.bytes }
    requires room { array_string_len text.old ≤ 8790 }
    ensures line { HasNoLineFeed text.new.bytes }
    ensures len { array_string_len text.new ≤ array_string_len text.old + 30 }
{
    push_line(text, "M");
    push_number(text, x);
    push_line(text, " ");
    push_number(text, y);
    push_line(text, steps);
}

/// Adds a number.
fn push_number(text: &mut PathText, number: u8)
    requires line { HasNoLineFeed text.old.bytes }
    requires room { array_string_len text.old ≤ 8817 }
    ensures line { HasNoLineFeed text.new.bytes }
    ensures len { array_string_len text.new ≤ array_string_len text.old + 3 }
{
    if number >= 100 {
        push_digit(text, number / 100);
    }
    if number >= 10 {
        push_digit(text, number / 10 % 10);
    }
    push_digit(text, number % 10);
}

/// Adds a digit.
#[tactic(auto, using(crate::proofs::Lines::lines))]
fn push_digit(text: &mut PathText, digit: u8)
    requires digit { digit < 10 }
    requires line { HasNoLineFeed text.old.bytes }
    requires room { array_string_len text.old < 8820 }
    ensures line { HasNoLineFeed text.new.bytes }
    ensures len { array_string_len text.new ≡ array_string_len text.old + 1 }
{
    text.push((b'0' + digit) as char);
}

/// Adds a text in one line.
#[tactic(auto, using(crate::proofs::Lines::lines))]
fn push_line(text: &mut PathText, more: &str)
    requires more { HasNoLineFeed more.now }
    requires line { HasNoLineFeed text.old.bytes }
    requires room { array_string_len text.old + length more.now ≤ 8820 }
    ensures line { HasNoLineFeed text.new.bytes }
    ensures len { array_string_len text.new ≡ array_string_len text.old + length more.now }
{
    text.push_str(more);
}
