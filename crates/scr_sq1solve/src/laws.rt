//! What holds of the stages whatever the code: calls that do nothing, whose contracts are the laws.

ghost use Rattle.std.specs.Prelude.{◌↔◌};
ghost use Rattle.scr_combinatorics.specs.Reach.{IsReached};
ghost use Rattle.scr_sq1.specs.Units.{Sq1State, sq1_puzzle};
ghost use Rattle.scr_sq1.specs.Numbers.{sq1_numbered};

use scr_sq1tables::Sq1Tables;

/// With built tables the valid states are those that turns reach.
pub fn reached(tables: &Sq1Tables)
    ensures { (s : Sq1State) → sq1_numbered.IsValid s ↔ IsReached sq1_puzzle s }
{
    // `all` says that they are built
    let _built = tables.all();
}
