//! The check of a sheet, line by line.

ghost use Rattle.std.specs.Prelude.{◌≡◌, ◌+◌, ◌-◌, ◌^◌, ◌<◌, ◌≤◌, length};
ghost use Rattle.scr_check.specs.Agreement.{AreLawful};
ghost use Rattle.scr_check.specs.Ahead.{most_ahead};
ghost use Rattle.scr_check.specs.Reading.{reading, source_name};
ghost use Rattle.scr_check.specs.Taken.{ChecksLine, ChecksSheet};

use crate::expected::Expected;
use crate::fault::CheckFault;
use crate::line::{MOST_OF_LINE, read_line};
use crate::reader::ByteReader;
use arrayvec::ArrayVec;
use scr_outside::Source;

/// Checks what a reader has still to give, to its end, as a sheet; the answer comes exactly by the first
/// line at fault. Lines are cut at line feeds; bytes after the last line feed are a line that agrees with
/// none. At most 1,301 bytes of a line are taken before it is judged, and nothing behind the first line at
/// fault; at most 4,096 bytes more are read from the source and not taken. `Read` comes only where the source's
/// count of faults rose. It takes no memory.
pub fn check_lines<S: Source, X: Expected>(
    reader: &mut ByteReader<'_, S>,
    expected: &X,
) -> Result<(), CheckFault>
    requires { (X.lines expected.now).count < 2 ^ 32 - 1 }
    ensures same_source { source_name reader.new ≡ source_name reader.old }
    ensures few_ahead { length (reading reader.new).ahead ≤ most_ahead }
    ensures sheet { ChecksSheet S.left S.faults S.ends (reading reader.old) (reading reader.new)
        (X.lines expected.now) result }
{
    let count = expected.count();
    let mut line = 0;
    while line < count {
        line += 1;
        check_line(reader, expected, line)?;
    }
    match reader.next()? {
        None => Ok(()),
        Some(_) => Err(CheckFault::Differs { line: count + 1 }),
    }
}

/// Checks the next line of a sheet, in which it is line number `line`, against that line of those that
/// are expected.
fn check_line<S: Source, X: Expected>(
    reader: &mut ByteReader<'_, S>,
    expected: &X,
    line: u32,
) -> Result<(), CheckFault>
    requires first { 1 ≤ line }
    requires last { line ≤ (X.lines expected.now).count }
    requires lawful { AreLawful (X.lines expected.now) }
    ensures same_source { source_name reader.new ≡ source_name reader.old }
    ensures line { ChecksLine S.left S.faults S.ends (reading reader.old) (reading reader.new)
        (X.lines expected.now) line result }
{
    let mut text = ArrayVec::<u8, MOST_OF_LINE>::new();
    let ended = read_line(reader, &mut text)?;
    if text.is_empty() && !ended {
        return Err(CheckFault::Differs { line });
    }
    match expected.agrees(line, text.as_slice()) {
        Ok(agrees) => {
            if agrees && ended {
                Ok(())
            } else {
                Err(CheckFault::Differs { line })
            }
        }
        Err(missing) => Err(CheckFault::Limit(missing)),
    }
}
