//! What the words of the contracts refuse: calls that do nothing, whose contracts are laws about the
//! definitions alone.

ghost use Rattle.std.specs.Prelude.{◌≡◌, ℕ, ◌<◌, ◌+◌, Some, List, ◌∷◌, take, length};
ghost use Rattle.scr_outside.specs.Bytes.{IsFirstPart, IsSpent};
ghost use Rattle.scr_outside.specs.Change.{Change, Falters, IsUnchanged, Fails, TellsEnd};
ghost use Rattle.scr_outside.specs.Faults.{Rose, last_count};

/// A count of faults that rose is higher than it was, but at its last value. So a count of 3 that
/// stays has not risen.
pub fn counts_that_rose()
    ensures higher { (before after : ℕ) → Rose before after → after < last_count → before < after }
    ensures stays { ¬ (Rose 3 3) }
    ensures falls { ¬ (Rose 4 3) }
{}

/// A source that tells that a byte is left is not spent.
pub fn spent_sources()
    ensures { (byte : ℕ) (rest : List ℕ) → ¬ (IsSpent (Some (byte ∷ rest))) }
{}

/// A first part of bytes is so many of them from their begin.
pub fn first_parts()
    ensures { (part whole : List ℕ) → IsFirstPart part whole → part ≡ take (length part) whole }
{}

/// A call that failed, whether bytes moved before or not, raised the count of faults. Where nothing
/// changed, the count stood at its last value.
pub fn failures()
    ensures fails { (change : Change) → Fails change → IsUnchanged change → change.faults_after ≡ last_count }
    ensures falters { (change : Change) (bytes : List ℕ) → Falters change bytes → IsUnchanged change
        → change.faults_after ≡ last_count }
{}

/// A source that told its end once told it once more than before, but at the last count: so one that was read again at
/// its end told it more often.
pub fn ends_that_were_told()
    ensures { (change : Change) → TellsEnd change → change.ends_before < last_count
        → change.ends_after ≡ change.ends_before + 1 }
{}
