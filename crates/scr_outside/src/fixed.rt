//! A source and a sink that never fail.

ghost use Rattle.std.specs.Prelude.{◌≡◌, ◌^◌, ◌<◌, ◌≤◌, Some, None, length, take, min, IsOk, OnErr};
ghost use Rattle.std.specs.Prelude.{IfOk};
ghost use Rattle.scr_outside.specs.Bytes.{IsSpent};
ghost use Rattle.scr_outside.specs.Change.{change_of, Gains, Gives, Fails};
ghost use Rattle.scr_outside.specs.Faults.{ends_told};
ghost use Rattle.scr_outside.specs.Fixed.{slice_change, slice_after};

use crate::faults::ends_told;
use crate::sink::{Failed, Sink};
use crate::source::Source;
use std::marker::Model;

/// A source over borrowed bytes. It tells them, and never fails.
#[derive(Drop)]
pub struct SliceSource<'a> {
    left: &'a [u8],
    ends: u64,
}

impl<'a> Model for SliceSource<'a> {
    ghost use Rattle.scr_outside.specs.Fixed.{SliceLeft};

    ghost Value = { SliceLeft };

    ghost view = { λ s. record { left = s.left.now; ends = s.ends } };
}

impl<'a> SliceSource<'a> {
    /// A source that gives these bytes, as many in a call as the buffer takes.
    pub fn new(bytes: &'a [u8]) -> SliceSource<'a>
        ensures { result ≡ record { left = bytes.now; ends = 0 } }
    {
        SliceSource {
            left: bytes,
            ends: 0,
        }
    }
}

impl<'a> Source for SliceSource<'a> {
    ghost faults = { λ _. 0 };

    ghost left = { λ s. Some s.left };

    ghost ends = { λ s. s.ends };

    fn read(&mut self, buffer: &mut [u8]) -> Result<usize, Failed>
        requires { 0 < length buffer.old }
        ensures never { IsOk result }
        ensures count { IfOk result (λ n. n ≡ min (length buffer.old) (length self.old.left)) }
        ensures bytes { IfOk result (λ n. take n buffer.new ≡ take n self.old.left) }
        ensures after { IfOk result (λ n. self.new ≡ slice_after self.old n) }
        // What the trait says.
        ensures within { IfOk result (λ n. n ≤ length buffer.old) }
        ensures ok { IfOk result (λ n. Gives (slice_change self.old self.new) (take n buffer.new)) }
        ensures end { IfOk result (λ n. n ≡ 0 → IsSpent (Some self.new.left)) }
        ensures ends { IfOk result (λ n. self.new.ends ≡ ends_told n self.old.ends) }
        ensures err { OnErr result (Fails (slice_change self.old self.new)) }
        ensures at_most { 0 < 2 ^ 64 }
    {
        let n = buffer.len().min(self.left.len());
        let (given, rest) = self.left.split_at(n);
        buffer[..n].copy_from_slice(given);
        self.left = rest;
        self.ends = ends_told(n, self.ends);
        Ok(n)
    }
}

/// A sink that takes each piece whole and forgets it. It tells no bytes, and never fails.
#[derive(Clone, Copy, Debug)]
pub struct NullSink;

impl NullSink {
    /// The sink.
    pub fn new() -> NullSink {
        NullSink
    }
}

impl Sink for NullSink {
    ghost faults = { λ _. 0 };

    ghost held = { λ _. None };

    fn write(&mut self, piece: &[u8]) -> Result<usize, Failed>
        requires { 0 < length piece.now }
        ensures whole { result ≡ Ok (length piece.now) }
        // What the trait says.
        ensures some { IfOk result (λ n. 0 < n) }
        ensures within { IfOk result (λ n. n ≤ length piece.now) }
        ensures ok { IfOk result (λ n. Gains (change_of (λ _. None) (λ _. 0) self.old self.new) (take n piece.now)) }
        ensures err { OnErr result (Fails (change_of (λ _. None) (λ _. 0) self.old self.new)) }
        ensures at_most { 0 < 2 ^ 64 }
    {
        Ok(piece.len())
    }
}
