//! The reading of one line.

ghost use Rattle.std.specs.Prelude.{◌≡◌, [], ◌++◌, ◌≤◌, length, true, false, IfOk, OnErr};
ghost use Rattle.scr_check.specs.Reading.{reading, source_name, Takes, StopsShort};
ghost use Rattle.scr_check.specs.Lines.{IsPlain, line_end};

use crate::reader::ByteReader;
use arrayvec::ArrayVec;
use scr_outside::{Failed, Source};

/// So many bytes of a line are taken at most: one more than a text that agrees has.
pub(crate) const MOST_OF_LINE: usize = 1301;

/// Takes a line, or as much of it as there is room for, and says whether its line feed was taken.
pub(crate) fn read_line<S: Source>(
    reader: &mut ByteReader<'_, S>,
    text: &mut ArrayVec<u8, MOST_OF_LINE>,
) -> Result<bool, Failed>
    requires { text.old.items ≡ [] }
    ensures same_source { source_name reader.new ≡ source_name reader.old }
    ensures plain { IsPlain text.new.items }
    ensures taken { IfOk result (λ ended. Takes S.left S.faults S.ends (reading reader.old) (reading reader.new)
        (text.new.items ++ line_end ended)) }
    ensures few { length text.new.items ≤ 1301 }
    ensures short { IfOk result (λ ended. ended ≡ true → length text.new.items ≤ 1300) }
    ensures full { IfOk result (λ ended.
        ended ≡ false → (reading reader.new).ended ≡ false → length text.new.items ≡ 1301) }
    ensures failed { OnErr result
        (StopsShort S.left S.faults S.ends (reading reader.old) (reading reader.new) text.new.items) }
{
    while !text.is_full() {
        match reader.next()? {
            None => return Ok(false),
            Some(b'\n') => return Ok(true),
            Some(byte) => text.push(byte),
        }
    }
    Ok(false)
}
