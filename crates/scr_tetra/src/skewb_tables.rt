//! What all turns of a Skewb make of its orbits, in the order of the turns' numbers: of each axis the turns by one and
//! two thirds. A wrong entry is refused, since the calls ensure that the tables are those of the definitions.
ghost use Rattle.scr_orbit.specs.Orbits.{IsOrbit};
ghost use Rattle.scr_orbit.specs.PlaceTurns.{IsTurnTable};
ghost use Rattle.scr_orbit.specs.PowerPuzzles.{part_turns};
ghost use Rattle.scr_tetra.specs.Skewb.{skewb_powers};

use scr_orbit::{PlaceTurn, place_turns};

/// What the eight turns of a Skewb do to the four corners: U U' L L' R R' B B'. Turn number `2 * axis + amount - 1` is
/// the axis's, by `amount` thirds; the axes U L R B are 0 to 3.
#[inline]
pub fn four_turns() -> &'static [PlaceTurn<4>]
    ensures { IsTurnTable 8 (IsOrbit 4 3) (part_turns (λ r. r.four) skewb_powers) result.now }
{
    &FOUR_TABLE
}

static FOUR_TABLE: [PlaceTurn<4>; 8] = place_turns![
    [1, 3, 2, 0] => [2, 2, 0, 2],
    [3, 0, 2, 1] => [1, 1, 0, 1],
    [3, 1, 0, 2] => [2, 0, 2, 2],
    [2, 1, 3, 0] => [1, 0, 1, 1],
    [0, 2, 3, 1] => [0, 2, 2, 2],
    [0, 3, 1, 2] => [0, 1, 1, 1],
    [0, 1, 2, 3] => [0, 0, 0, 1],
    [0, 1, 2, 3] => [0, 0, 0, 2],
];

/// What they do to the three corners, in the same order.
#[inline]
pub fn three_turns() -> &'static [PlaceTurn<3>]
    ensures { IsTurnTable 8 (IsOrbit 3 3) (part_turns (λ r. r.three) skewb_powers) result.now }
{
    &THREE_TABLE
}

static THREE_TABLE: [PlaceTurn<3>; 8] = place_turns![
    [0, 1, 2] => [1, 0, 0],
    [0, 1, 2] => [2, 0, 0],
    [0, 1, 2] => [0, 1, 0],
    [0, 1, 2] => [0, 2, 0],
    [0, 1, 2] => [0, 0, 1],
    [0, 1, 2] => [0, 0, 2],
    [2, 0, 1] => [2, 2, 2],
    [1, 2, 0] => [1, 1, 1],
];

/// What they do to the centres, in the same order.
#[inline]
pub fn centre_turns() -> &'static [PlaceTurn<6>]
    ensures { IsTurnTable 8 (IsOrbit 6 1) (part_turns (λ r. r.centres) skewb_powers) result.now }
{
    &CENTRE_TABLE
}

static CENTRE_TABLE: [PlaceTurn<6>; 8] = place_turns![
    [5, 1, 2, 3, 0, 4] => [0; 6],
    [4, 1, 2, 3, 5, 0] => [0; 6],
    [0, 1, 4, 2, 3, 5] => [0; 6],
    [0, 1, 3, 4, 2, 5] => [0; 6],
    [0, 3, 2, 5, 4, 1] => [0; 6],
    [0, 5, 2, 1, 4, 3] => [0; 6],
    [0, 1, 2, 4, 5, 3] => [0; 6],
    [0, 1, 2, 5, 3, 4] => [0; 6],
];
