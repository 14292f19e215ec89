//! What is written is read back: calls that do nothing, whose contracts are laws about the definitions
//! alone.

ghost use Rattle.std.specs.Prelude.{◌≡◌, ℕ, ◌^◌, ◌<◌, Some, List, [], ◌∷◌, ◌++◌, All};
ghost use Rattle.std.specs.Fmt.{decimal};
ghost use Rattle.std.specs.List.{join_with_byte};
ghost use Rattle.scr_text.specs.Numbers.{number_of_text};
ghost use Rattle.scr_text.specs.Lines.{lines_of, line_words, text_of_lines};
ghost use Rattle.scr_text.specs.Parts.{IsLine, IsWord};

/// The text of a number is read as that number, and no other text is.
pub fn each_number_has_one_text()
    ensures read_back { (number : ℕ) → number < 2 ^ 64 → number_of_text (decimal number) ≡ Some number }
    ensures one_text { (text : List ℕ) (number : ℕ) → number < 2 ^ 64 → number_of_text text ≡ Some number
        → text ≡ decimal number }
{}

/// Lines that are written one after another are read back, with the empty line after the last line
/// feed, and so are words with one space between.
pub fn lines_and_words_are_read_back()
    ensures lines { (lines : List (List ℕ)) → All IsLine lines
        → lines_of (text_of_lines lines) ≡ lines ++ [] ∷ [] }
    ensures words { (words : List (List ℕ)) → All IsWord words
        → line_words (join_with_byte 32 words) ≡ words }
{}
