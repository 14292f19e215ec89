//! All large turns of a Pyraminx in the order of their numbers, U U' L L' R R' B B': of each axis the turns by one
//! third and by two. A wrong entry is refused, since the calls ensure that the tables are those of the definitions.
ghost use Rattle.std.specs.Prelude.{◌≡◌, length, All};
ghost use Rattle.scr_orbit.specs.InPlace.{AreDigitsInPlace};
ghost use Rattle.scr_orbit.specs.Orbits.{IsZeroSumOrbit};
ghost use Rattle.scr_orbit.specs.PlaceTurns.{IsTurnTable};
ghost use Rattle.scr_orbit.specs.PowerPuzzles.{part_turns};
ghost use Rattle.scr_tetra.specs.Pyraminx.{tetraminx_powers};

use scr_orbit::{PlaceTurn, place_turns};

/// What the 8 large turns do to the edges. Turn number `2 * axis + amount - 1` is the axis', by `amount` thirds; the
/// axes U L R B are 0 to 3.
#[inline]
pub fn edge_turns() -> &'static [PlaceTurn<6>]
    ensures { IsTurnTable 8 (IsZeroSumOrbit 6 2) (part_turns (λ r. r.edges) tetraminx_powers) result.now }
{
    &EDGE_TABLE
}

static EDGE_TABLE: [PlaceTurn<6>; 8] = place_turns![
    [1, 2, 0, 3, 4, 5] => [0, 0, 0, 0, 0, 0],
    [2, 0, 1, 3, 4, 5] => [0, 0, 0, 0, 0, 0],
    [4, 1, 2, 0, 3, 5] => [0, 0, 0, 0, 0, 0],
    [3, 1, 2, 4, 0, 5] => [0, 0, 0, 0, 0, 0],
    [0, 3, 2, 5, 4, 1] => [0, 1, 0, 1, 0, 0],
    [0, 5, 2, 1, 4, 3] => [0, 0, 0, 1, 0, 1],
    [0, 1, 5, 3, 2, 4] => [0, 0, 1, 0, 1, 0],
    [0, 1, 4, 3, 5, 2] => [0, 0, 1, 0, 0, 1],
];

/// What they add to the axial pieces, in the same order. The turns of the tips add the same to the tips.
#[inline]
pub fn axial_turns() -> &'static [[u8; 4]]
    ensures count { length result.now ≡ 8 }
    ensures defined { result.now ≡ part_turns (λ r. r.axials) tetraminx_powers }
    ensures valid { All (AreDigitsInPlace 4 3) result.now }
{
    &AXIAL_TABLE
}

static AXIAL_TABLE: [[u8; 4]; 8] = [
    [1, 0, 0, 0],
    [2, 0, 0, 0],
    [0, 1, 0, 0],
    [0, 2, 0, 0],
    [0, 0, 1, 0],
    [0, 0, 2, 0],
    [0, 0, 0, 1],
    [0, 0, 0, 2],
];
