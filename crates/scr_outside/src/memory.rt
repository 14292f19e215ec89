//! Sources and sinks in memory, whose bytes are known and which fail where they are told to.

ghost use Rattle.std.specs.Prelude.{◌≡◌, ◌-◌, ◌^◌, ◌<◌, ◌≤◌, ◌↔◌, Some, [], ◌++◌, length, take, drop, min, IsErr};
ghost use Rattle.std.specs.Prelude.{OnErr, IfOk};
ghost use Rattle.std.specs.Vec.{vec_len, vec_capacity};
ghost use Rattle.scr_outside.specs.Bytes.{IsSpent};
ghost use Rattle.scr_outside.specs.Change.{Gains, Gives, Fails};
ghost use Rattle.scr_outside.specs.Faults.{ends_told};
ghost use Rattle.scr_outside.specs.Memory.{SourceMemory, SinkMemory, source_change, sink_change, no_calls, ReadFails};
ghost use Rattle.scr_outside.specs.Memory.{WriteFails, after_read, after_failed_read, after_write};
ghost use Rattle.scr_outside.specs.Memory.{after_failed_write};

use crate::calls::Calls;
use crate::faults::ends_told;
use crate::sink::{Failed, NoMemory, Sink};
use crate::source::Source;
use std::alloc::Global;
use std::marker::Model;

/// A source over bytes in memory.
pub struct MemSource {
    bytes: Vec<u8>,
    place: usize,
    most: usize,
    ends: u64,
    calls: Calls,
}

// By hand, so that the proof of whoever lets one go meets one call, and not the letting go of each of its parts.
impl Drop for MemSource {
    fn drop(self) {
        let MemSource {
            bytes: _,
            place: _,
            most: _,
            ends: _,
            calls: _,
        } = self;
    }
}

impl Model for MemSource {
    ghost Value = { SourceMemory };

    ghost view = { λ s. record { left = drop s.place s.bytes.items; most = s.most; ends = s.ends; calls = s.calls } };

    ghost invariant = { λ s. (s.place ≤ vec_len s.bytes) × (0 < s.most) };
}

impl MemSource {
    /// A source that gives these bytes, at most `most` in a call. A call fails exactly where its
    /// number, from 1, stands in `fails`; calls after number 4,294,967,295 stand in no list.
    pub fn new(bytes: Vec<u8>, most: usize, fails: Vec<u32>) -> MemSource
        requires { 0 < most }
        ensures { result ≡ record { left = bytes.items; most = most; ends = 0; calls = no_calls fails.items } }
    {
        MemSource {
            bytes,
            place: 0,
            most,
            ends: 0,
            calls: Calls::new(fails),
        }
    }
}

impl Source for MemSource {
    ghost faults = { λ s. s.calls.faults };

    ghost left = { λ s. Some s.left };

    ghost ends = { λ s. s.ends };

    fn read(&mut self, buffer: &mut [u8]) -> Result<usize, Failed>
        requires { 0 < length buffer.old }
        ensures fails { IsErr result ↔ ReadFails self.old }
        ensures count { IfOk result (λ n. n ≡ min (length buffer.old) (min self.old.most (length self.old.left))) }
        ensures bytes { IfOk result (λ n. take n buffer.new ≡ take n self.old.left) }
        ensures after { IfOk result (λ n. self.new ≡ after_read self.old n) }
        ensures after_fault { OnErr result (self.new ≡ after_failed_read self.old) }
        // What the trait says.
        ensures within { IfOk result (λ n. n ≤ length buffer.old) }
        ensures ok { IfOk result (λ n. Gives (source_change self.old self.new) (take n buffer.new)) }
        ensures end { IfOk result (λ n. n ≡ 0 → IsSpent (Some self.new.left)) }
        ensures ends { IfOk result (λ n. self.new.ends ≡ ends_told n self.old.ends) }
        ensures err { OnErr result (Fails (source_change self.old self.new)) }
        ensures at_most { self.new.calls.faults < 2 ^ 64 }
    {
        if self.calls.count() {
            self.calls.raise();
            return Err(Failed);
        }
        let rest = &self.bytes[self.place..];
        let n = buffer.len().min(self.most).min(rest.len());
        buffer[..n].copy_from_slice(&rest[..n]);
        self.place += n;
        self.ends = ends_told(n, self.ends);
        Ok(n)
    }
}

/// A sink in memory.
pub struct MemSink {
    held: Vec<u8>,
    room: usize,
    most: usize,
    calls: Calls,
}

// By hand, so that the proof of whoever lets one go meets one call, and not the letting go of each of its parts.
impl Drop for MemSink {
    fn drop(self) {
        let MemSink {
            held: _,
            room: _,
            most: _,
            calls: _,
        } = self;
    }
}

impl Model for MemSink {
    ghost Value = { SinkMemory };

    ghost view = { λ s. record { held = s.held.items; room = s.room; most = s.most; calls = s.calls } };

    ghost invariant = { λ s. (0 < s.most) × (vec_len s.held ≤ s.room) × (s.room ≤ vec_capacity s.held) };
}

impl MemSink {
    /// A sink with room for `room` bytes, which it reserves, and which takes at most `most` in a call.
    /// A call fails where its number, from 1, stands in `fails`, and where no room is left; calls
    /// after number 4,294,967,295 stand in no list. It can answer want of memory.
    pub fn new(
        alloc: Global,
        room: usize,
        most: usize,
        fails: Vec<u32>,
    ) -> Result<MemSink, NoMemory>
        requires { 0 < most }
        ensures { IfOk result (λ s. s ≡ record { held = []; room = room; most = most; calls = no_calls fails.items }) }
    {
        match Vec::with_capacity(alloc, room) {
            Ok(held) => Ok(MemSink {
                held,
                room,
                most,
                calls: Calls::new(fails),
            }),
            Err(_) => Err(NoMemory),
        }
    }

    /// The bytes that it holds.
    pub fn contents(&self) -> &[u8]
        ensures { result.now ≡ self.now.held }
    {
        &self.held
    }
}

impl Sink for MemSink {
    ghost faults = { λ s. s.calls.faults };

    ghost held = { λ s. Some s.held };

    fn write(&mut self, piece: &[u8]) -> Result<usize, Failed>
        requires { 0 < length piece.now }
        ensures fails { IsErr result ↔ WriteFails self.old }
        ensures count { IfOk result (λ n.
            n ≡ min (length piece.now) (min self.old.most (self.old.room - length self.old.held))) }
        ensures after { IfOk result (λ n. self.new ≡ after_write self.old (self.old.held ++ take n piece.now)) }
        ensures after_fault { OnErr result (self.new ≡ after_failed_write self.old) }
        // What the trait says.
        ensures some { IfOk result (λ n. 0 < n) }
        ensures within { IfOk result (λ n. n ≤ length piece.now) }
        ensures ok { IfOk result (λ n. Gains (sink_change self.old self.new) (take n piece.now)) }
        ensures err { OnErr result (Fails (sink_change self.old self.new)) }
        ensures at_most { self.new.calls.faults < 2 ^ 64 }
    {
        let listed = self.calls.count();
        let free = self.room - self.held.len();
        if listed || free == 0 {
            self.calls.raise();
            return Err(Failed);
        }
        let n = piece.len().min(self.most).min(free);
        match self.held.extend_from_slice(&piece[..n]) {
            Ok(()) => Ok(n),
            Err(_) => unreachable!(),
        }
    }
}
