//! The two parts of an input.

ghost use Rattle.std.specs.Prelude.{MatchOption};
ghost use Rattle.scr_wcif.specs.Parts.{AreParts, HasNoParts};

use scr_read::first_line;

/// The line between a file and a sheet.
const BETWEEN: &[u8; 5] = b"=====";

/// The file and the sheet of an input: all before its first line `=====`, and all behind it; `None` where no line of it
/// is that one.
pub(crate) fn parts_of(input: &[u8]) -> Option<(&[u8], &[u8])>
    ensures { MatchOption result (HasNoParts input.now) (λ parts. AreParts input.now parts.0.now parts.1.now) }
{
    let mut rest = input;
    'lines: while let Some((line, behind)) = first_line(rest) {
        if line == BETWEEN.as_slice() {
            return Some((&input[..input.len() - rest.len()], behind));
        }
        rest = behind;
    }
    None
}
