//! What the definitions mean: calls that do nothing, whose contracts are laws about the definitions alone.

ghost use Rattle.std.specs.Prelude.{◌≡◌, List};
ghost use Rattle.json.specs.Json.{Json};
ghost use Rattle.json.specs.Strict.{HasUniqueKeys};
ghost use Rattle.scr_wcif.specs.Sets.{RoundSets};
ghost use Rattle.scr_wcif.specs.Filling.{filled};
ghost use Rattle.scr_wcif.specs.Kept.{without_sets};

/// Whatever sets a file is filled with: without the sets of its rounds it is what it was without them before, and no
/// object of it has a key twice where none had.
pub fn all_else_stays()
    ensures rest { (rounds : List RoundSets) (file : Json) → without_sets (filled rounds file) ≡ without_sets file }
    ensures unique { (rounds : List RoundSets) (file : Json) → HasUniqueKeys file → HasUniqueKeys (filled rounds file) }
{}
