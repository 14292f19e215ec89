//! The words of a scramble's text.

ghost use Rattle.std.specs.Prelude.{◌≡◌, ◌∷◌, All, IsTrue, List};
ghost use Rattle.scr_notation.specs.declared.event.Event.{Event};
ghost use Rattle.scr_notation.specs.declared.turn.Turn.{Turn};
ghost use Rattle.scr_notation.specs.Spelling.{spelling, text_of};
ghost use Rattle.scr_notation.specs.Turns.{permits};
ghost use Rattle.scr_layout.specs.Shown.{IsPlainWord};

/// The first word of a text whose words have one space between, and what stands behind that space. Of the text of a
/// scramble they are how its first turn is written, and the text of the others.
pub fn first_word(text: &str) -> (&str, &str)
    ensures { (event : Event) (turn : Turn) (turns : List Turn) → All (λ t. IsTrue (permits event t)) (turn ∷ turns)
        → text.now ≡ text_of (turn ∷ turns)
        → (result.0.now ≡ spelling turn) × (result.1.now ≡ text_of turns) × IsPlainWord result.0.now }
{
    match text.split_once(' ') {
        Some((word, behind)) => (word, behind),
        None => (text, ""),
    }
}
