//! What holds of the stages whatever the code: calls that do nothing, whose contracts are the laws.

ghost use Rattle.std.specs.Prelude.{◌↔◌};
ghost use Rattle.scr_combinatorics.specs.Reach.{IsReached};
ghost use Rattle.scr_orbit.specs.PowerPuzzles.{power_puzzle};
ghost use Rattle.scr_cube.specs.Cube333.{CubeState, cube_numbered, cube_powers};

use crate::tables::StageTables;

/// With built tables the valid cubes are those that turns reach.
pub fn reached(tables: &StageTables)
    ensures { (cube : CubeState) → cube_numbered.IsValid cube ↔ IsReached (power_puzzle cube_powers) cube }
{}
