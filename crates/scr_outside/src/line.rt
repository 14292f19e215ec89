//! Lines, each written as one piece.

ghost use Rattle.std.specs.Prelude.{◌+◌, ◌<◌, ◌++◌, length, codes};
ghost use Rattle.scr_outside.specs.Change.{change_of, Writes};

use crate::sink::{Failed, Sink, write_all};
use arrayvec::ArrayString;

/// A line has fewer bytes than this without its line feed.
pub const LINE_ROOM: usize = 1320;

/// Writes a line, a label before a text, and its line feed, as one piece. At `Failed` a first part of
/// it was appended; it comes only where the count of faults rose.
pub fn write_line<O: Sink>(out: &mut O, label: &str, text: &str) -> Result<(), Failed>
    requires { length label.now + length text.now < LINE_ROOM }
    ensures { Writes (change_of O.held O.faults out.old out.new) (label.now ++ text.now ++ codes "\n") result }
{
    let mut line = ArrayString::<LINE_ROOM>::new();
    line.push_str(label);
    line.push_str(text);
    line.push_str("\n");
    write_all(out, line.as_str().as_bytes())
}
