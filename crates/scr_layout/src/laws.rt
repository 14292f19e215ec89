//! What the definitions mean: calls that do nothing, whose contracts are laws about the definitions alone.

ghost use Rattle.std.specs.Prelude.{◌≡◌, ◌++◌, [], codes, replicate};
ghost use Rattle.scr_layout.specs.Name.{fitted};

/// Names in a line of 72: of the blanks one is left between two words; of 80 letters the first 69 are left, and of 40
/// that are two wide the first 34.
pub fn names_that_fit()
    ensures spaces { fitted 72 (codes "  Kyiv \n Open ") ≡ codes "Kyiv Open" }
    ensures whole { fitted 72 (replicate 72 97) ≡ replicate 72 97 }
    ensures cut { fitted 72 (replicate 80 97) ≡ replicate 69 97 ++ codes "..." }
    ensures wide { fitted 72 (replicate 40 22823) ≡ replicate 34 22823 ++ codes "..." }
    ensures blank { fitted 72 (codes "   ") ≡ [] }
{}
