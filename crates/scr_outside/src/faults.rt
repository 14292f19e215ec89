//! Counts of ends that were told.

ghost use Rattle.std.specs.Prelude.{◌≡◌};
ghost use Rattle.scr_outside.specs.Faults.{ends_told};

/// How often a source told its end, after a read that gave `n` bytes: none mean the end. The count stays at 2^64 - 1.
pub(crate) fn ends_told(n: usize, ends: u64) -> u64
    ensures { result ≡ ends_told n ends }
{
    if n == 0 { ends.saturating_add(1) } else { ends }
}
