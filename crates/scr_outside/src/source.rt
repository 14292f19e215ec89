//! What the program reads from.

ghost use Rattle.std.specs.Prelude.{◌≡◌, ℕ, ◌^◌, ◌<◌, ◌≤◌, Option, List, length, take, OnErr, IfOk};
ghost use Rattle.scr_outside.specs.Bytes.{IsSpent};
ghost use Rattle.scr_outside.specs.Change.{intake_of, Gives, Fails};
ghost use Rattle.scr_outside.specs.Faults.{ends_told};

use crate::sink::Failed;

/// Somewhere to read bytes from.
pub trait Source {
    /// How many faults there were so far; at most 2^64 - 1, where it stays.
    ghost faults: { Self → ℕ };

    /// The bytes that the source has left, where it tells them. Whether it does never changes.
    ghost left: { Self → Option (List ℕ) };

    /// How often it told its end so far; at most 2^64 - 1, where it stays.
    ghost ends: { Self → ℕ };

    /// Moves the next n bytes into the buffer's first n places, for some n up to its length, and gives
    /// n; the count of faults stays. No bytes mean the end of input. `Failed` comes only where the count
    /// of faults rose, takes nothing, and tells no end.
    fn read(&mut self, buffer: &mut [u8]) -> Result<usize, Failed>
        requires { 0 < length buffer.old }
        ensures within { IfOk result (λ n. n ≤ length buffer.old) }
        ensures ok { IfOk result (λ n. Gives (intake_of left faults ends self.old self.new) (take n buffer.new)) }
        ensures end { IfOk result (λ n. n ≡ 0 → IsSpent (left self.new)) }
        ensures ends { IfOk result (λ n. ends self.new ≡ ends_told n (ends self.old)) }
        ensures err { OnErr result (Fails (intake_of left faults ends self.old self.new)) }
        ensures at_most { faults self.new < 2 ^ 64 };
}
