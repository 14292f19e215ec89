//! What is expected of a sheet.

ghost use Rattle.std.specs.Prelude.{◌≡◌, ◌≤◌};
ghost use Rattle.scr_check.specs.Agreement.{ExpectedLines, AreLawful};

use crate::fault::Missing;

/// The lines that a sheet should have.
pub trait Expected {
    /// How many lines there are, and what is an answer for a line and a text.
    ghost lines: { Self → ExpectedLines };

    /// How many lines there are. For each line and text there is at most one answer; no text of more than
    /// 1,300 bytes agrees; and whether a slot is missing, and which, depends on the line alone.
    fn count(&self) -> u32
        ensures value { result ≡ (lines self.now).count }
        ensures lawful { AreLawful (lines self.now) };

    /// Whether a text, without a line feed, agrees with a line; lines are counted from 1. `Missing` says
    /// that the line is that of a slot which has no scramble to compare with.
    fn agrees(&self, line: u32, text: &[u8]) -> Result<bool, Missing>
        requires first { 1 ≤ line }
        requires last { line ≤ (lines self.now).count }
        ensures { (lines self.now).IsAnswer line text.now result };
}
