//! The work that is shared out.

ghost use Rattle.std.specs.Prelude.{ℕ, ◌<◌};

/// A number of slots, counted from 0, and what is an answer of each. A slot may have several answers; the job gives
/// one.
pub trait Jobs {
    /// An answer.
    type Out: Send + Drop;

    /// How many slots there are.
    ghost slots: { Self → ℕ };

    /// What is an answer of a slot.
    ghost is_answer: { Self → ℕ → Self.Out → Type 0 };

    /// An answer of a slot, which is one of those that there are.
    fn job(&self, slot: u32) -> Self::Out
        requires { slot < slots self.now }
        ensures { is_answer self.now slot result };
}
