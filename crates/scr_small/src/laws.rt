//! Laws of the puzzles that one table solves. The functions do nothing: what each ensures is the law.

ghost use Rattle.std.specs.Prelude.{◌≡◌, ◌↔◌};
ghost use Rattle.scr_combinatorics.specs.Reach.{IsReached};
ghost use Rattle.scr_orbit.specs.PowerPuzzles.{power_puzzle};
ghost use Rattle.scr_notation.specs.declared.event.Event.TheVariants.{Pyram};
ghost use Rattle.scr_tetra.specs.Pyraminx.{PyramState, IsPyram};
ghost use Rattle.scr_tetra.specs.Pyraminx.{pyram_powers};
ghost use Rattle.scr_small.specs.NumberedPuzzles.{numbered_as_puzzle};

use crate::one_table::OneTable;
use crate::tables::SmallTables;

/// Where its table is built, the valid states of such a puzzle are those that turns reach. The tables are those of its
/// event.
pub fn reached_by_table<P: OneTable>(tables: &SmallTables)
    requires { tables.now.event ≡ P.TABLE.event }
    ensures { (s : P.State) → P.shown.numbered.IsValid s ↔ IsReached (numbered_as_puzzle P.shown) s }
{
    let _numbers = P::numbers();
    let _table = tables.only();
}

/// So it is of the Pyraminx with its tips. The tables are those of pyram.
pub fn pyram_reached_by_table(tables: &SmallTables)
    requires { tables.now.event ≡ Pyram }
    ensures { (s : PyramState) → IsPyram s ↔ IsReached (power_puzzle pyram_powers) s }
{
    let _table = tables.only();
}
