//! What a source of words is.

ghost use Rattle.std.specs.Prelude.{◌≡◌, ℕ, ◌+◌, ◌^◌, ◌<◌};

/// A source of 32-bit words. Each place from 0 has its word, and the words are taken in order.
pub trait Words {
    /// The word at each place.
    ghost word_at: { Self → ℕ → ℕ };

    /// How many words were taken, which is the place of the next one.
    ghost taken: { Self → ℕ };

    /// Takes the next word. Fewer than 2^63 words were taken before.
    fn next(&mut self) -> u32
        requires { taken self.old < 2 ^ 63 }
        ensures word { result ≡ word_at self.old (taken self.old) }
        ensures one_more { taken self.new ≡ taken self.old + 1 }
        ensures same_words { word_at self.new ≡ word_at self.old };
}
