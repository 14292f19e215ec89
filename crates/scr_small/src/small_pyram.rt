//! The Pyraminx: its scrambles, its minima, and how it is drawn. The table is that of the Pyraminx without tips.
ghost use Rattle.std.specs.Prelude.{◌≡◌, ◌+◌, ◌<◌, ◌≤◌, ◌↔◌, ◌++◌, ℕ, nat_le, All, IsTrue, length};
ghost use Rattle.std.proofs.Props.{props};
ghost use Rattle.scr_combinatorics.specs.Play.{play};
ghost use Rattle.scr_combinatorics.specs.Reach.{Needs};
ghost use Rattle.scr_orbit.specs.PowerPuzzles.{after_letter, power_puzzle};
ghost use Rattle.scr_notation.specs.declared.event.Event.TheVariants.{Pyram};
ghost use Rattle.scr_notation.specs.Written.{at_most, IsTheScramble};
ghost use Rattle.scr_tetra.specs.PyramParts.{tips_word, turned_count};
ghost use Rattle.scr_tetra.specs.Pyraminx.{numbered_pyram, pyram_powers, solved_pyram, PyramState, IsPyram};
ghost use Rattle.scr_small.specs.Puzzles.{IsScramblePyram};
ghost use Rattle.scr_small.specs.Tables.{pyram_entry};

use crate::one_table::OneTable;
use crate::scrambles::{distance_of, scramble_of};
use crate::state_table::StateTable;
use crate::tables::SmallTables;
use scr_draw::{NumberedStates, Numbering, Permit};
use scr_notation::{Event, Scramble, Turn};
use scr_table::TableName;
use scr_tetra::{PyramNumbers, Pyraminx, Tetraminx, TetraminxNumbers};

impl OneTable for TetraminxNumbers {
    ghost use Rattle.std.specs.Prelude.{refl};
    ghost use Rattle.scr_small.specs.Puzzles.{numbered_puzzle_tetraminx};
    ghost use Rattle.scr_small.specs.Tables.{state_table_tetraminx};

    ghost shown = { numbered_puzzle_tetraminx };

    ghost TABLE = { state_table_tetraminx };

    const TABLE: StateTable = StateTable {
        event: Event::Pyram,
        name: TableName::Pyramid,
        bound: 11,
        low: 2592,
        high: 360,
    };

    #[tactic(auto, using(crate::proofs::LawfulTetraminx::solved_by_table_tetraminx))]
    fn numbers() -> TetraminxNumbers {
        TetraminxNumbers
    }

    fn is_valid(state: &Tetraminx) {
        let [..] = state.edges();
    }

    ghost turned_by = { (refl, refl, refl) };
}

/// The scramble of a Pyraminx, of at most 15 turns: the first word of large turns that solves it without its tips,
/// taken back, and then the tips. The tables are those of pyram.
pub fn scramble_pyram(tables: &SmallTables, state: &Pyraminx) -> Scramble
    requires { tables.now.event ≡ Pyram }
    ensures { IsTheScramble Pyram IsScramblePyram (at_most 15) (play (after_letter pyram_powers) solved_pyram) state.now result }
{
    let mut scramble = scramble_of::<TetraminxNumbers>(tables, &state.body());
    push_tips(&mut scramble, &state.tips());
    scramble
}

/// Adds the turns of the tips that stand turned by so many thirds, in the order u l r b.
fn push_tips(scramble: &mut Scramble, tips: &[u8])
    requires event { scramble.old.event ≡ Pyram }
    requires room { length scramble.old.turns + length tips.now ≤ 160 }
    requires few { length tips.now ≤ 4 }
    requires thirds { All (λ digit. digit < 3) tips.now }
    ensures { scramble.new ≡ record { event = Pyram; turns = scramble.old.turns ++ tips_word tips.now } }
{
    for tip in 0..tips.len() {
        let amount = tips[tip];
        if amount != 0 {
            let tip = tip as u8;
            scramble.push(Turn::Tip { tip, amount });
        }
    }
}

/// Whether no word of fewer than `least` turns brings a Pyraminx to solved, where a turn of a tip counts as a large one
/// does. The tables are those of pyram.
pub fn needs_pyram(tables: &SmallTables, state: &Pyraminx, least: u32) -> bool
    requires { tables.now.event ≡ Pyram }
    ensures exact { IsTrue result ↔ Needs (power_puzzle pyram_powers) state.now least }
    ensures tested { result ≡ nat_le least (pyram_entry tables.now state.now) }
{
    let large = distance_of::<TetraminxNumbers>(tables, &state.body());
    least <= large + count_turned(&state.tips())
}

/// How many digits, of at most 4, aren't 0.
fn count_turned(digits: &[u8]) -> u32
    requires { length digits.now ≤ 4 }
    ensures count { result ≡ turned_count digits.now }
    ensures few { result ≤ 4 }
{
    let mut turned = 0;
    for digit in digits {
        if *digit != 0 {
            turned += 1;
        }
    }
    turned
}

/// The Pyraminx, with its built table, which tells how many turns each state needs.
#[derive(Drop)]
pub struct SmallPyram<'a> {
    tables: &'a SmallTables,
    ghost event: { tables.now.event ≡ Pyram },
    ghost exact: { (s : PyramState) (least : ℕ) → IsPyram s
        → IsTrue (nat_le least (pyram_entry tables.now s)) ↔ Needs (power_puzzle pyram_powers) s least } by { Prim.hlevel props },
}

impl<'a> SmallPyram<'a> {
    /// The Pyraminx. The tables are those of pyram.
    pub fn new(tables: &'a SmallTables) -> SmallPyram<'a>
        requires { tables.now.event ≡ Pyram }
    {
        let _table = tables.only();
        SmallPyram { tables }
    }

    /// The scramble of a state: the first word of large turns that solves it without its tips, taken back, and then the
    /// tips.
    pub fn scramble(&self, state: &Pyraminx) -> Scramble
        ensures { IsTheScramble Pyram IsScramblePyram (at_most 15) (play (after_letter pyram_powers) solved_pyram) state.now result }
    {
        scramble_pyram(self.tables, state)
    }
}

impl NumberedStates<Pyraminx> for SmallPyram<'_> {
    ghost numbered = { λ _. numbered_pyram };
}

impl Numbering for SmallPyram<'_> {
    type State = Pyraminx;

    fn count(&self) -> u128 {
        PyramNumbers.count()
    }

    fn state_at(&self, number: u128) -> Pyraminx {
        PyramNumbers.state_at(number)
    }

    fn number_of(&self, state: &Pyraminx) -> u128 {
        PyramNumbers.number_of(state)
    }
}

impl Permit<Pyraminx> for SmallPyram<'_> {
    ghost puzzle = { λ _. (power_puzzle pyram_powers) };

    ghost greatest = { λ _. 15 };

    ghost needs = { λ small s least. nat_le least (pyram_entry small.tables.now s) };

    fn needs_at_least(&self, state: &Pyraminx, least: u32) -> bool {
        needs_pyram(self.tables, state, least)
    }

    ghost exact = { λ small s least _ _ valid. small.exact s least valid };
}
