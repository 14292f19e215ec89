//! The list part of an input.

ghost use Rattle.std.specs.Prelude.{◌≡◌, ◌≤◌, length, take, IfOk, OnErr};
ghost use Rattle.scr_check.specs.Ahead.{most_ahead};
ghost use Rattle.scr_check.specs.Parts.{list_room, separator, ends_line};
ghost use Rattle.scr_check.specs.Reading.{reading, source_name};
ghost use Rattle.scr_check.specs.Taken.{TakesListPart, StopsInPart};

use crate::reader::ByteReader;
use arrayvec::ArrayVec;
use scr_outside::{Failed, Source};

/// So many bytes of a list part are given at most: more than any list has.
pub const LIST_ROOM: usize = 16385;

/// The line between a list and a sheet.
const SEPARATOR: &[u8; 5] = b"=====";

/// Room for as many bytes, and for a separator that may stand behind them.
const TEXT_ROOM: usize = LIST_ROOM + SEPARATOR.len();

/// The list part of an input: all before the first line `=====`, or its first 16,385 bytes where it has
/// so many. Without such a line it is the whole input. Where it has fewer bytes, the separator was taken,
/// if there is one. At most 4,096 bytes more are read from the source and not taken. `Failed` comes only where the
/// source's count of faults rose.
pub fn list_part<S: Source>(
    reader: &mut ByteReader<'_, S>,
) -> Result<ArrayVec<u8, LIST_ROOM>, Failed>
    ensures same_source { source_name reader.new ≡ source_name reader.old }
    ensures few_ahead { length (reading reader.new).ahead ≤ most_ahead }
    ensures part { IfOk result (λ list.
        TakesListPart S.left S.faults S.ends (reading reader.old) (reading reader.new) list.items) }
    ensures failed { OnErr result
        (StopsInPart S.left S.faults S.ends (reading reader.old) (reading reader.new)) }
{
    let mut text = ArrayVec::<u8, TEXT_ROOM>::new();
    let mut start = 0;
    while !text.is_full() {
        let byte = reader.next()?;
        let held = text.as_slice();
        if ends_line(byte) && &held[start..] == SEPARATOR.as_slice() {
            return Ok(first_bytes(&held[..start]));
        }
        let Some(byte) = byte else {
            return Ok(first_bytes(held));
        };
        text.push(byte);
        if byte == b'\n' {
            start = text.len();
        }
    }
    Ok(first_bytes(text.as_slice()))
}

/// Whether a line ends here: at a line feed, and where no byte follows.
fn ends_line(byte: Option<u8>) -> bool
    ensures { result ≡ ends_line byte }
{
    match byte {
        Some(byte) => byte == b'\n',
        None => true,
    }
}

/// The first bytes of a text, as many as are given of a list part.
#[tactic(auto, using(std::proofs::lemmas::List::take_min))]
fn first_bytes(text: &[u8]) -> ArrayVec<u8, LIST_ROOM>
    ensures { result.items ≡ take list_room text.now }
{
    let mut list = ArrayVec::new();
    let count = LIST_ROOM.min(text.len());
    match list.try_extend_from_slice(&text[..count]) {
        Ok(()) => list,
        Err(_) => unreachable!(),
    }
}
