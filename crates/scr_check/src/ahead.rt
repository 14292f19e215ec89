//! What is read ahead of the bytes that are taken.

ghost use Rattle.std.specs.Prelude.{◌≡◌, ◌<◌, ◌≤◌, [], ◌∷◌, length, take, true, false, OnOk, OnErr};
ghost use Rattle.std.specs.Prelude.{IfSome, IfNone};
ghost use Rattle.scr_outside.specs.Change.{intake_of, Gives, Fails, TellsEnd};

use scr_outside::{Failed, Source};
use std::marker::Model;

/// How many bytes are read at once, at most.
const ROOM: usize = 4096;

/// Bytes that were read and not yet taken, and whether the source told its end.
#[derive(Drop)]
pub(crate) struct Ahead {
    buffer: [u8; ROOM],
    from: usize,
    to: usize,
    ended: bool,
}

impl Model for Ahead {
    ghost use Rattle.std.specs.Prelude.{◌≡◌, ◌≤◌, true, take, drop};
    ghost use Rattle.scr_check.specs.Ahead.{ReadAhead};

    ghost Value = { ReadAhead };

    ghost view = { λ a. record { bytes = drop a.from (take a.to a.buffer); ended = a.ended } };

    ghost invariant = { λ a. (a.from ≤ a.to) × (a.to ≤ 4096) × (a.ended ≡ true → a.from ≡ a.to) };
}

impl Ahead {
    ghost use Rattle.scr_check.specs.Ahead.{most_ahead};

    /// Nothing, of a source that hasn't told its end.
    pub(crate) fn new() -> Ahead
        ensures { result ≡ record { bytes = []; ended = false } }
    {
        Ahead {
            buffer: [0; ROOM],
            from: 0,
            to: 0,
            ended: false,
        }
    }

    /// Whether nothing is held, and the source may have more.
    pub(crate) fn wants_more(&self) -> bool
        ensures wants { result ≡ true → (self.now.bytes ≡ []) × (self.now.ended ≡ false) }
        ensures has { result ≡ false → self.now.bytes ≡ [] → self.now.ended ≡ true }
    {
        self.from == self.to && !self.ended
    }

    /// Takes the next byte, where one is held.
    pub(crate) fn pop(&mut self) -> Option<u8>
        ensures some { IfSome result (λ byte. self.old.bytes ≡ byte ∷ self.new.bytes) }
        ensures unended { IfSome result (λ _. self.old.ended ≡ false) }
        ensures none { IfNone result ((self.old.bytes ≡ []) × (self.new ≡ self.old)) }
        ensures ended { self.new.ended ≡ self.old.ended }
        ensures few { length self.new.bytes ≤ most_ahead }
    {
        if self.from == self.to {
            return None;
        }
        let byte = self.buffer[self.from];
        self.from += 1;
        Some(byte)
    }

    /// Reads once, where nothing is held.
    pub(crate) fn fill<S: Source>(&mut self, source: &mut S) -> Result<(), Failed>
        requires empty { self.old.bytes ≡ [] }
        requires unended { self.old.ended ≡ false }
        ensures gives { OnOk result
            (Gives (intake_of S.left S.faults S.ends source.old source.new) self.new.bytes) }
        ensures more { OnOk result
            (self.new.ended ≡ false → (0 < length self.new.bytes) × (S.ends source.new ≡ S.ends source.old)) }
        ensures end { OnOk result (self.new.ended ≡ true →
            (self.new.bytes ≡ []) × TellsEnd (intake_of S.left S.faults S.ends source.old source.new)) }
        ensures failed { OnErr result (Fails (intake_of S.left S.faults S.ends source.old source.new)) }
        ensures kept { OnErr result (self.new ≡ self.old) }
        ensures few { length self.new.bytes ≤ most_ahead }
    {
        let count = source.read(&mut self.buffer[..])?;
        self.from = 0;
        self.to = count;
        self.ended = count == 0;
        Ok(())
    }
}
