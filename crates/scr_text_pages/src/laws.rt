//! What the definitions mean: calls that do nothing, whose contracts are laws about the definitions alone.

ghost use Rattle.std.specs.Prelude.{◌≡◌, ℕ, Bool, List, [], ◌∷◌, ◌++◌};
ghost use Rattle.scr_text_pages.specs.Reading.{slots_of_text};

/// Of pages with a form feed between is read what is read of each; of no text nothing is.
pub fn pages_one_after_another()
    ensures none { (has_name : Bool) → slots_of_text has_name [] ≡ [] }
    ensures both { (has_name : Bool) (pages others : List ℕ)
        → slots_of_text has_name (pages ++ 12 ∷ others) ≡ slots_of_text has_name pages ++ slots_of_text has_name others }
{}
