//! The real thing: adapters over the system's readers and writers. They are the trusted edge, and tell
//! nothing of their bytes as sources and sinks; their contracts tie them to the reader or writer inside.

ghost use Rattle.std.specs.Prelude.{◌≡◌, ◌^◌, ◌<◌, ◌≤◌, None, length, take, OnOk, OnErr, IfOk};
ghost use Rattle.std.specs.Io.KnownBytes.{ReadConsumes, WriteAppends};
ghost use Rattle.scr_outside.specs.Bytes.{IsSpent};
ghost use Rattle.scr_outside.specs.Change.{Gains, Gives, Fails};
ghost use Rattle.scr_outside.specs.Faults.{raised, ends_told};
ghost use Rattle.scr_outside.specs.Standard.{Adapted, reader_change, writer_change};

use crate::faults::ends_told;
use crate::sink::{Failed, Sink};
use crate::source::Source;
use std::io::{Read, Write};
use std::marker::Model;

/// A reader or a writer, how often it failed, and how often it told its end.
#[derive(Drop)]
pub struct Adapter<X: Drop> {
    pub(crate) inner: X,
    faults: u64,
    ends: u64,
}

impl<X: Drop> Model for Adapter<X> {
    ghost Value = { Adapted X };

    ghost view = { λ s. record { inner = s.inner; faults = s.faults; ends = s.ends } };

    ghost invariant = { λ s. s.faults < 2 ^ 64 };
}

impl<X: Drop> Adapter<X> {
    /// An adapter over this reader or writer, with no fault so far and no end.
    pub fn new(inner: X) -> Adapter<X>
        ensures { result ≡ record { inner = inner; faults = 0; ends = 0 } }
    {
        Adapter {
            inner,
            faults: 0,
            ends: 0,
        }
    }
}

/// A source over a reader. Each error of the reader is a fault, an interrupted call too.
pub type StdSource<R> = Adapter<R>;

/// A sink over a writer. Each error of the writer is a fault, an interrupted call too, and so is a
/// write that took nothing.
pub type StdSink<W> = Adapter<W>;

impl<R: Read + Drop> Source for Adapter<R> {
    ghost faults = { λ s. s.faults };

    ghost left = { λ _. None };

    ghost ends = { λ s. s.ends };

    fn read(&mut self, buffer: &mut [u8]) -> Result<usize, Failed>
        requires { 0 < length buffer.old }
        // Where the reader's bytes are known: it gives the next of them, ends only where none are left, and
        // takes none at a failure. No word of a reader's contract tells that it failed, so no clause says
        // whose failure it was.
        ensures bytes { ReadConsumes (R.remaining self.old.inner) (R.remaining self.new.inner) result buffer.new }
        ensures counted { OnErr result (self.new.faults ≡ raised self.old.faults) }
        ensures no_fault { OnOk result (self.new.faults ≡ self.old.faults) }
        // What the trait says, of bytes that are not told.
        ensures within { IfOk result (λ n. n ≤ length buffer.old) }
        ensures ok { IfOk result (λ n. Gives (reader_change self.old self.new) (take n buffer.new)) }
        ensures end { IfOk result (λ n. n ≡ 0 → IsSpent None) }
        ensures ends { IfOk result (λ n. self.new.ends ≡ ends_told n self.old.ends) }
        ensures err { OnErr result (Fails (reader_change self.old self.new)) }
        ensures at_most { self.new.faults < 2 ^ 64 }
    {
        match self.inner.read(buffer) {
            Ok(n) => {
                self.ends = ends_told(n, self.ends);
                Ok(n)
            }
            Err(_) => {
                self.faults = self.faults.saturating_add(1);
                Err(Failed)
            }
        }
    }
}

impl<W: Write + Drop> Sink for Adapter<W> {
    ghost faults = { λ s. s.faults };

    ghost held = { λ _. None };

    fn write(&mut self, piece: &[u8]) -> Result<usize, Failed>
        requires { 0 < length piece.now }
        // Where the writer's bytes are known: it took those that it is said to have taken, and none at a failure.
        ensures bytes { WriteAppends (W.contents self.old.inner) (W.contents self.new.inner) result piece.now }
        ensures counted { OnErr result (self.new.faults ≡ raised self.old.faults) }
        ensures no_fault { OnOk result (self.new.faults ≡ self.old.faults) }
        // What the trait says, of bytes that are not told.
        ensures some { IfOk result (λ n. 0 < n) }
        ensures within { IfOk result (λ n. n ≤ length piece.now) }
        ensures ok { IfOk result (λ n. Gains (writer_change self.old self.new) (take n piece.now)) }
        ensures err { OnErr result (Fails (writer_change self.old self.new)) }
        ensures at_most { self.new.faults < 2 ^ 64 }
    {
        match self.inner.write(piece) {
            Ok(n) if 0 < n => Ok(n),
            _ => {
                self.faults = self.faults.saturating_add(1);
                Err(Failed)
            }
        }
    }
}
