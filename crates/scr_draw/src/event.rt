//! What an event gives for drawing: numbered states, and a test of them.

ghost use Rattle.std.specs.Prelude.{◌≡◌, ℕ, ◌<◌, ◌≤◌, ◌↔◌, Bool, IsTrue};
ghost use Rattle.scr_combinatorics.specs.Numbered.{Numbered};
ghost use Rattle.scr_combinatorics.specs.Numbering.{IsNumbering};
ghost use Rattle.scr_combinatorics.specs.Reach.{Puzzle, Needs};

/// Which states an event has, and their numbers. Its numbering and its test speak of the same states.
pub trait NumberedStates<S> {
    /// How many states there are, the state of each number, the number of each state, and which states are valid.
    ghost numbered: { Self → Numbered S };

    /// What is so of it besides, as `count` tells: nothing, where an impl names nothing.
    ghost told: { Self → Type 0 } = { λ _. Unit {0} };
}

/// The states of an event, numbered from 0: `state_at` and `number_of` are inverse between the
/// numbers below the count and the valid states. The count is from 1 to 2^96.
pub trait Numbering: NumberedStates<<Self as Numbering>::State> {
    /// A state.
    type State: Drop;

    /// How many states there are, from 1 to 2^96. Their numbering is one.
    fn count(&self) -> u128
        ensures value { result ≡ (Self.numbered self.now).count }
        ensures numbering { IsNumbering (Self.numbered self.now) }
        ensures told { Self.told self.now };

    /// The state of a number, which is below the count.
    fn state_at(&self, number: u128) -> Self::State
        requires { number < (Self.numbered self.now).count }
        ensures { result ≡ (Self.numbered self.now).state_at number };

    /// The number of a valid state.
    fn number_of(&self, state: &Self::State) -> u128
        requires { (Self.numbered self.now).IsValid state.now }
        ensures { result ≡ (Self.numbered self.now).number_of state.now };
}

/// The test of an event's minimum. It is exact on all valid states.
pub trait Permit<S>: NumberedStates<S> {
    /// The puzzle whose turns are counted.
    ghost puzzle: { Self → Puzzle S };

    /// The greatest minimum that the test takes.
    ghost greatest: { Self → ℕ };

    /// Whether a state needs at least so many counted turns.
    ghost needs: { Self → S → ℕ → Bool };

    /// Whether a state needs at least `least` counted turns, which is in the event's range.
    fn needs_at_least(&self, state: &S, least: u32) -> bool
        requires { least ≤ greatest self.now }
        ensures { result ≡ needs self.now state.now least };

    /// Of a valid state the test is true exactly where no word of fewer counted turns leads from it to a solved one.
    ghost exact: { (event : Self) (s : S) (least : ℕ) → Self.told event
        → least ≤ greatest event → (Self.numbered event).IsValid s
        → IsTrue (needs event s least) ↔ Needs (puzzle event) s least };
}
