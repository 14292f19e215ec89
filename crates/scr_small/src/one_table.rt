//! What a puzzle is that one table solves.

use crate::state_table::StateTable;
use scr_draw::Numbering;
use scr_notation::{Letters, PowerTurned};

/// A puzzle with numbered states and turns, whose states are two parts that turns move each by itself.
pub trait OneTable: Numbering<State: PowerTurned> + Copy {
    ghost use Rattle.std.specs.Prelude.{◌≡◌, ◌*◌, ◌<◌, ◌↔◌, Some};
    ghost use Rattle.scr_notation.specs.declared.turn.Turn.{Turn as Letter};
    ghost use Rattle.scr_small.specs.declared.state_table.StateTable.{StateTable as TableOf};
    ghost use Rattle.scr_small.specs.NumberedPuzzles.{NumberedPuzzle};
    ghost use Rattle.scr_small.specs.SolvedByTable.{IsSolvedByTable};

    /// What it shows.
    ghost shown: { NumberedPuzzle Self.State Letter };

    /// Its table.
    ghost TABLE: { TableOf };

    const TABLE: StateTable;

    /// The numbering of its states. One table solves them.
    fn numbers() -> Self
        ensures count { (Self.numbered result).count ≡ shown.numbered.count }
        ensures states { (Self.numbered result).state_at ≡ shown.numbered.state_at }
        ensures numbers { (Self.numbered result).number_of ≡ shown.numbered.number_of }
        ensures valid { (state : Self.State) → (Self.numbered result).IsValid state ↔ shown.numbered.IsValid state }
        ensures solved { IsSolvedByTable shown TABLE };

    /// Does nothing: each state is valid.
    fn is_valid(state: &Self::State)
        ensures { shown.numbered.IsValid state.now };

    /// Its turns are those of the states.
    ghost turned_by: { (shown.after ≡ Self.State.after) × (shown.letter_at ≡ Self.State.Kind.letters.letter_at)
        × (shown.turns ≡ Self.State.Kind.POWERS * Self.State.GENERATORS) };

    /// The number of a state.
    final fn number(state: &Self::State) -> u32
        ensures number { result ≡ shown.numbered.number_of state.now }
        ensures valid { shown.numbered.IsValid state.now }
        ensures solved { IsSolvedByTable shown TABLE }
    {
        Self::is_valid(state);
        Self::numbers().number_of(state) as u32
    }

    /// How many turns there are.
    final fn turns() -> u32
        ensures { result ≡ shown.turns }
    {
        u32::from(<Self::State as PowerTurned>::Kind::POWERS) * u32::from(Self::State::GENERATORS)
    }

    /// The state after the turn with this number.
    final fn turned(state: &Self::State, number: u32) -> Self::State
        requires { number < shown.turns }
        ensures { shown.after state.now (shown.letter_at number) ≡ Some result }
    {
        state.turned(number as usize)
    }
}
