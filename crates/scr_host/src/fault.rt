//! What goes wrong in a run of a program that reads one input, how it is told, and the exit code.

ghost use Rattle.std.specs.Prelude.{◌≡◌, ◌++◌, ◌<◌, ◌≤◌, length};
ghost use Rattle.arrayvec.specs.ArrayString.{array_string_len};
ghost use Rattle.scr_host.specs.declared.fault.Fault.TheVariants as fault;
ghost use Rattle.scr_host.specs.Faults.{fault_text, message_of, code_of};

use arrayvec::ArrayString;
use scr_outside::{Failed, NoMemory as WantOfMemory};
use std::alloc::AllocError;

/// A message has at most so many bytes.
pub const MESSAGE_ROOM: usize = 160;

/// What went wrong in a run: what may in any such program, or something of the program's own.
#[derive(Clone, Copy, Debug, PartialEq, Eq)]
pub enum Fault<Own> {
    /// The words ask for nothing.
    Usage,
    /// The input has more bytes than it may have.
    TooLong,
    /// The input could not be read.
    Read,
    /// The program's own.
    Own(Own),
    /// The output could not be written.
    Write,
    /// Want of memory.
    NoMemory,
}

/// What goes wrong in one program alone: how that program tells of it, and with which exit code it ends then.
pub trait OwnFault: Copy {
    ghost use Rattle.scr_host.specs.Faults.{Telling};

    /// The program's name, its usage, and what is told of each such fault.
    ghost telling: { Telling Self };

    /// The name of the program, with which its messages begin.
    fn program() -> &'static str
        ensures name { result.now ≡ telling.program }
        ensures few { length result.now ≤ 20 };

    /// Which words the program takes.
    fn usage() -> &'static str
        ensures words { result.now ≡ telling.usage }
        ensures few { length result.now ≤ 120 };

    /// Adds what a message says of it.
    fn push_text(self, line: &mut ArrayString<MESSAGE_ROOM>)
        requires { array_string_len line.old ≤ 22 }
        ensures bytes { line.new.bytes ≡ line.old.bytes ++ telling.text self }
        ensures room { array_string_len line.new < MESSAGE_ROOM };

    /// The exit code of a run that ended with it.
    fn code(self) -> u8
        ensures { result ≡ telling.code self };
}

impl<Own> From<Failed> for Fault<Own> {
    ghost from_gives = { λ _ why. why ≡ fault.Write };

    fn from(_failed: Failed) -> Fault<Own> {
        Fault::Write
    }
}

impl<Own> From<AllocError> for Fault<Own> {
    ghost from_gives = { λ _ why. why ≡ fault.NoMemory };

    fn from(_wanting: AllocError) -> Fault<Own> {
        Fault::NoMemory
    }
}

impl<Own> From<WantOfMemory> for Fault<Own> {
    ghost from_gives = { λ _ why. why ≡ fault.NoMemory };

    fn from(_wanting: WantOfMemory) -> Fault<Own> {
        Fault::NoMemory
    }
}

impl<Own: OwnFault> Fault<Own> {
    /// The line that tells it, with its line feed.
    pub fn message(self) -> ArrayString<MESSAGE_ROOM>
        ensures { result.bytes ≡ message_of Own.telling self }
    {
        let mut line = ArrayString::new();
        line.push_str(Own::program());
        line.push_str(": ");
        self.push_text(&mut line);
        line.push_str("\n");
        line
    }

    /// Adds what the message says.
    fn push_text(self, line: &mut ArrayString<MESSAGE_ROOM>)
        requires { array_string_len line.old ≤ 22 }
        ensures bytes { line.new.bytes ≡ line.old.bytes ++ fault_text Own.telling self }
        ensures room { array_string_len line.new < MESSAGE_ROOM }
    {
        match self {
            Fault::Usage => {
                line.push_str("usage: ");
                line.push_str(Own::usage());
            }
            Fault::TooLong => line.push_str("input is longer than 67108864 bytes"),
            Fault::Read => line.push_str("input could not be read"),
            Fault::Own(why) => why.push_text(line),
            Fault::Write => line.push_str("output could not be written"),
            Fault::NoMemory => line.push_str("out of memory"),
        }
    }

    /// The exit code of a run that ended with it.
    pub fn code(self) -> u8
        ensures { result ≡ code_of Own.telling self }
    {
        match self {
            Fault::Usage => 2,
            Fault::TooLong => 3,
            Fault::Read => 5,
            Fault::Own(why) => why.code(),
            Fault::Write => 6,
            Fault::NoMemory => 7,
        }
    }
}
