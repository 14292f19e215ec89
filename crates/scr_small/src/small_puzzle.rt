//! A puzzle that one table solves, as an event that states are drawn of.
ghost use Rattle.std.specs.Prelude.{◌≡◌, ◌↔◌, ℕ, nat_le, IsTrue};
ghost use Rattle.std.proofs.Props.{props};
ghost use Rattle.scr_combinatorics.specs.Reach.{Needs};
ghost use Rattle.scr_small.specs.NumberedPuzzles.{numbered_as_puzzle};
ghost use Rattle.scr_small.specs.SolvedByTable.{IsScrambleByTable};
ghost use Rattle.scr_small.specs.Tables.{entry_at};

use crate::one_table::OneTable;
use crate::scrambles::{needs_of, scramble_of};
use crate::tables::SmallTables;
use scr_draw::{NumberedStates, Numbering, Permit};
use scr_notation::Scramble;

/// A puzzle that one table solves, with its built table, which tells how many turns each state needs.
#[derive(Drop)]
pub struct SmallPuzzle<'a, P: OneTable> {
    tables: &'a SmallTables,
    numbers: P,
    ghost event: { tables.now.event ≡ P.TABLE.event },
    ghost exact: { (s : P.State) (least : ℕ) → (P.numbered numbers).IsValid s
        → IsTrue (nat_le least (entry_at tables.now (P.shown.numbered.number_of s)))
        ↔ Needs (numbered_as_puzzle P.shown) s least } by { Prim.hlevel props },
}

impl<'a, P: OneTable> SmallPuzzle<'a, P> {
    /// The puzzle. The tables are those of its event.
    pub fn new(tables: &'a SmallTables) -> SmallPuzzle<'a, P>
        requires { tables.now.event ≡ P.TABLE.event }
    {
        let _table = tables.only();
        SmallPuzzle {
            tables,
            numbers: P::numbers(),
        }
    }

    /// The scramble of a state: the first word that solves it, taken back.
    pub fn scramble(&self, state: &P::State) -> Scramble
        ensures { IsScrambleByTable P.shown P.TABLE state.now result }
    {
        scramble_of::<P>(self.tables, state)
    }
}

impl<P: OneTable> NumberedStates<P::State> for SmallPuzzle<'_, P> {
    ghost numbered = { λ small. P.numbered small.numbers };
}

impl<P: OneTable> Numbering for SmallPuzzle<'_, P> {
    type State = P::State;

    fn count(&self) -> u128 {
        self.numbers.count()
    }

    fn state_at(&self, number: u128) -> P::State {
        self.numbers.state_at(number)
    }

    fn number_of(&self, state: &P::State) -> u128 {
        self.numbers.number_of(state)
    }
}

impl<P: OneTable> Permit<P::State> for SmallPuzzle<'_, P> {
    ghost puzzle = { λ _. numbered_as_puzzle P.shown };

    ghost greatest = { λ _. P.TABLE.bound };

    ghost needs = { λ small s least. nat_le least (entry_at small.tables.now (P.shown.numbered.number_of s)) };

    fn needs_at_least(&self, state: &P::State, least: u32) -> bool {
        needs_of::<P>(self.tables, state, least)
    }

    ghost exact = { λ small s least _ _ valid. small.exact s least valid };
}
