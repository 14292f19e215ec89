//! What the program writes to.

ghost use Rattle.std.specs.Prelude.{ℕ, ◌^◌, ◌<◌, ◌≤◌, Option, List, length, take, OnErr, IfOk};
ghost use Rattle.scr_outside.specs.Change.{change_of, Gains, Fails, Writes};

use std::alloc::AllocError;

/// A call that failed. The count of faults of the source or sink tells that it did.
#[derive(Clone, Copy, Debug, PartialEq, Eq)]
pub struct Failed;

/// Want of memory.
#[derive(Clone, Copy, Debug, PartialEq, Eq)]
pub struct NoMemory;

impl From<AllocError> for NoMemory {
    ghost from_gives = { λ _ _. Unit {0} };

    fn from(_error: AllocError) -> NoMemory {
        NoMemory
    }
}

/// Somewhere to write bytes.
pub trait Sink {
    /// How many faults there were so far; at most 2^64 - 1, where it stays.
    ghost faults: { Self → ℕ };

    /// The bytes that the sink holds, where it tells them. Whether it does never changes.
    ghost held: { Self → Option (List ℕ) };

    /// Appends the first n bytes of a piece, for some n from 1 to the piece's length, and gives n; the
    /// count of faults stays. `Failed` comes only where that count rose, and appends nothing.
    fn write(&mut self, piece: &[u8]) -> Result<usize, Failed>
        requires { 0 < length piece.now }
        ensures some { IfOk result (λ n. 0 < n) }
        ensures within { IfOk result (λ n. n ≤ length piece.now) }
        ensures ok { IfOk result (λ n. Gains (change_of held faults self.old self.new) (take n piece.now)) }
        ensures err { OnErr result (Fails (change_of held faults self.old self.new)) }
        ensures at_most { faults self.new < 2 ^ 64 };
}

/// Writes a whole piece, by as many writes as the sink needs, none of which failed. At `Failed` a first
/// part of it was appended; it comes only where the count of faults rose.
pub fn write_all<O: Sink>(out: &mut O, piece: &[u8]) -> Result<(), Failed>
    ensures { Writes (change_of O.held O.faults out.old out.new) piece.now result }
{
    let mut written = 0;
    while written < piece.len() {
        written += out.write(&piece[written..])?;
    }
    Ok(())
}
