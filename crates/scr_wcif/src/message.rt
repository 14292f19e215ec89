//! How faults are told.

ghost use Rattle.std.specs.Prelude.{◌≡◌, ◌++◌, ◌+◌, ◌≤◌, length};
ghost use Rattle.std.specs.Fmt.{decimal};
ghost use Rattle.arrayvec.specs.ArrayString.{array_string_len};
ghost use Rattle.scr_wcif.specs.Message.{event_cause_text, round_cause_text, difference_text};

use crate::fault::{Difference, EventCause, FileFault, RoundCause};
use arrayvec::ArrayString;
use scr_host::{MESSAGE_ROOM, OwnFault};
use scr_text::decimal;

impl OwnFault for FileFault {
    ghost use Rattle.scr_wcif.specs.Message.{telling};

    ghost telling = { telling };

    fn program() -> &'static str {
        "scramble-wcif"
    }

    fn usage() -> &'static str {
        "list | fill"
    }

    fn push_text(self, line: &mut ArrayString<MESSAGE_ROOM>) {
        match self {
            FileFault::NoParts => line.push_str("no line ===== between a file and a sheet"),
            FileFault::NoText { place } => push_at(line, "no UTF-8 at byte ", place),
            FileFault::NoJson { place } => push_at(line, "no JSON at byte ", place),
            FileFault::KeyTwice => line.push_str("an object has a key twice"),
            FileFault::NoCompetition => line.push_str("no competition: no list of events"),
            FileFault::Event { number, cause } => {
                push_at(line, "event ", number);
                line.push_str(": ");
                line.push_str(event_cause_words(cause));
            }
            FileFault::Round {
                event,
                number,
                cause,
            } => {
                push_at(line, "event ", event);
                push_at(line, " round ", number);
                line.push_str(": ");
                line.push_str(round_cause_words(cause));
            }
            FileFault::SheetLine { line: at, cause } => {
                push_at(line, "sheet line ", at);
                line.push_str(": ");
                line.push_str(cause.text());
            }
            FileFault::Sheet { number, difference } => {
                push_at(line, "sheet round ", number);
                line.push_str(": ");
                line.push_str(difference_words(difference));
            }
        }
    }

    fn code(self) -> u8 {
        3
    }
}

/// Adds a few words and a number.
fn push_at(line: &mut ArrayString<MESSAGE_ROOM>, words: &str, number: u32)
    requires words { length words.now ≤ 20 }
    requires room { array_string_len line.old ≤ 60 }
    ensures bytes { line.new.bytes ≡ line.old.bytes ++ (words.now ++ decimal number) }
    ensures room { array_string_len line.new ≤ array_string_len line.old + length words.now + 10 }
{
    line.push_str(words);
    line.push_str(decimal(number).as_str());
}

/// Why an entry tells no event: a few words.
fn event_cause_words(cause: EventCause) -> &'static str
    ensures words { result.now ≡ event_cause_text cause }
    ensures few { length result.now ≤ 21 }
{
    match cause {
        EventCause::Many => "more than 17 events",
        EventCause::Shape => "no id and rounds",
        EventCause::Unknown => "unknown event",
        EventCause::Twice => "the same event again",
        EventCause::Rounds => "more than four rounds",
    }
}

/// Why an entry tells no round: a few words.
fn round_cause_words(cause: RoundCause) -> &'static str
    ensures words { result.now ≡ round_cause_text cause }
    ensures few { length result.now ≤ 21 }
{
    match cause {
        RoundCause::Id => "id",
        RoundCause::Groups => "scrambleSetCount",
    }
}

/// How a round of a sheet differs: a few words.
fn difference_words(difference: Difference) -> &'static str
    ensures words { result.now ≡ difference_text difference }
    ensures few { length result.now ≤ 24 }
{
    match difference {
        Difference::Event => "another event",
        Difference::Groups => "another number of groups",
        Difference::Missing => "missing",
        Difference::More => "not in the file",
    }
}
