//! The text of a net.
ghost use Rattle.std.specs.Prelude.{◌≡◌, ℕ, ◌+◌, ◌*◌, ◌<◌, ◌≤◌, ◌∷◌, ◌++◌, [], All, length, map, replicate, slice_index};
ghost use Rattle.std.specs.List.{slice_index_or};
ghost use Rattle.arrayvec.specs.ArrayString.{array_string_len};
ghost use Rattle.scr_outside.specs.Change.{change_of, Writes};
ghost use Rattle.scr_net.specs.Nets.{IsNet, IsSide};
ghost use Rattle.scr_net.specs.NetText.{letter_code, net_lines, net_text, rows_beside};

use crate::net::Net;
use arrayvec::ArrayString;
use scr_outside::{Failed, Sink, write_line};

/// Writes a net, one piece a line. At `Failed`, which comes only where the sink's count of faults rose, a first part of
/// it was written.
pub fn write_net<O: Sink, const SIDE: usize>(out: &mut O, net: &Net<SIDE>) -> Result<(), Failed>
    requires { IsSide SIDE }
    ensures { Writes (change_of O.held O.faults out.old out.new) (net_text SIDE net.now) result }
{
    for place in 0..3 * SIDE {
        write_line(out, "", net_line(net, place).as_str())?;
    }
    Ok(())
}

/// The line of a net at a place, from 0 and below three times the number of layers: the rows of U, each behind as many
/// spaces as a row has letters and one more, those of L, F, R and B beside each other, and those of D below U's.
pub fn net_line<const SIDE: usize>(net: &Net<SIDE>, place: usize) -> ArrayString<48>
    requires side { IsSide SIDE }
    requires place { place < 3 * SIDE }
    ensures line { result.bytes ≡ slice_index_or (net_lines SIDE net.now) place [] }
    ensures printable { All (λ byte. 31 < byte) result.bytes }
{
    if place < SIDE {
        line_beside(net, SIDE + 1, place, 0, &[])
    } else if place < 2 * SIDE {
        line_beside(net, 0, place - SIDE, 4, &[2, 1, 5])
    } else {
        line_beside(net, SIDE + 1, place - 2 * SIDE, 3, &[])
    }
}

/// A row of these faces, a space between two, behind an indent.
fn line_beside<const SIDE: usize>(
    net: &Net<SIDE>,
    indent: usize,
    row: usize,
    first: u8,
    others: &[u8],
) -> ArrayString<48>
    requires side { IsSide SIDE }
    requires indent { indent ≤ 8 }
    requires row { row < SIDE }
    requires first { first < 6 }
    requires few { length others.now ≤ 3 }
    requires others { All (λ face. face < 6) others.now }
    ensures bytes { result.bytes ≡ replicate indent 32 ++ rows_beside net.now row first others.now }
    ensures net { IsNet SIDE net.now }
    ensures short { array_string_len result ≤ 48 }
{
    let mut line = spaces(indent);
    push_letters(&mut line, net.row(first, row));
    for face in others {
        line.push_str(" ");
        push_letters(&mut line, net.row(*face, row));
    }
    line
}

/// So many spaces.
fn spaces(count: usize) -> ArrayString<48>
    requires { count ≤ 8 }
    ensures bytes { result.bytes ≡ replicate count 32 }
    ensures len { array_string_len result ≡ count }
{
    let mut text = ArrayString::new();
    for _space in 0..count {
        text.push_str(" ");
    }
    text
}

/// Writes letters behind a text.
fn push_letters(line: &mut ArrayString<48>, letters: &[u8])
    requires letters { (k : ℕ) → slice_index letters.now k < 6 }
    requires room { array_string_len line.old + length letters.now ≤ 48 }
    ensures bytes { line.new.bytes ≡ line.old.bytes ++ map letter_code letters.now }
    ensures len { array_string_len line.new ≡ array_string_len line.old + length letters.now }
{
    for letter in letters {
        line.push_str(name_of(*letter));
    }
}

/// The letter of a face.
fn name_of(face: u8) -> &'static str
    requires { face < 6 }
    ensures { result.now ≡ letter_code face ∷ [] }
{
    match face {
        0 => "U",
        1 => "R",
        2 => "F",
        3 => "D",
        4 => "L",
        _ => "B",
    }
}
