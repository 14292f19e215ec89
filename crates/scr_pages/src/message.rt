//! How faults are told.

ghost use Rattle.std.specs.Prelude.{◌≡◌, ◌++◌, ◌≤◌};
ghost use Rattle.arrayvec.specs.ArrayString.{array_string_len};
ghost use Rattle.scr_pages.specs.Message.{line_text};

use crate::fault::PageFault;
use arrayvec::ArrayString;
use scr_host::{MESSAGE_ROOM, OwnFault};
use scr_text::decimal;

impl OwnFault for PageFault {
    ghost use Rattle.scr_pages.specs.Message.{telling};

    ghost telling = { telling };

    fn program() -> &'static str {
        "scramble-pages"
    }

    fn usage() -> &'static str {
        "[--html] [--name COMPETITION] [--group N] [--pictures no|yes] [--regulations no|yes] < SHEET > PAGES"
    }

    fn push_text(self, line: &mut ArrayString<MESSAGE_ROOM>) {
        match self {
            PageFault::Sheet(why) => {
                push_line(line, why.line);
                line.push_str(why.cause.text());
            }
            PageFault::Barred(number) => {
                push_line(line, number);
                line.push_str("a turn of the Square-1 is barred where it stands");
            }
            PageFault::NoGroup(count) => {
                line.push_str("no such group: the sheet has ");
                line.push_str(decimal(count).as_str());
            }
            PageFault::Near(number) => {
                push_line(line, number);
                line.push_str(
                    "a Square-1 that fewer than 11 turns solve (Regulations 4b3): draw a new seed, and print all anew",
                );
            }
        }
    }

    fn code(self) -> u8 {
        match self {
            PageFault::Near(_) => 10,
            _ => 3,
        }
    }
}

/// Adds a line of the sheet.
fn push_line(line: &mut ArrayString<MESSAGE_ROOM>, number: u32)
    requires { array_string_len line.old ≤ 22 }
    ensures bytes { line.new.bytes ≡ line.old.bytes ++ line_text number }
    ensures room { array_string_len line.new ≤ 40 }
{
    line.push_str("line ");
    line.push_str(decimal(number).as_str());
    line.push_str(": ");
}
