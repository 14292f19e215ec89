//! What a document says: a call that does nothing, whose contract is a law about the definitions alone.

ghost use Rattle.std.specs.Prelude.{◌≡◌, List};
ghost use Rattle.scr_markup.specs.Tokens.{Token, AreTokens, text_of_tokens};

/// A text is that of one list of tokens at the most. So what a page promises can be read from its text, in one way.
pub fn a_text_has_one_reading()
    ensures { (these those : List Token) → AreTokens these → AreTokens those
        → text_of_tokens these ≡ text_of_tokens those → these ≡ those }
{}
