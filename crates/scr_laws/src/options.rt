//! What the grammar is, apart from how words are gone through.

ghost use Rattle.scr_laws.specs.Spelling.{ReadsBack, ReadsNothingElse};

/// Words give values to options exactly where they are a way to write options with these values: a flag as a word, and
/// any other option in one word with an `=` before its value, or in two, of which the second doesn't begin with a
/// hyphen; each at most once, in any order.
pub fn words_write_what_is_read()
    ensures back { ReadsBack }
    ensures nothing_else { ReadsNothingElse }
{}
