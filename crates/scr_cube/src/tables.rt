//! All turns of both cubes, part by part, in the order of their numbers: of each face the turns by one, two and three
//! quarters. A wrong entry is refused, since the calls ensure that the tables are those of the definitions.
ghost use Rattle.scr_orbit.specs.Orbits.{IsZeroSumOrbit};
ghost use Rattle.scr_orbit.specs.PlaceTurns.{IsTurnTable};
ghost use Rattle.scr_orbit.specs.PowerPuzzles.{all_turns, part_turns};
ghost use Rattle.scr_cube.specs.Cube333.{cube_powers};
ghost use Rattle.scr_cube.specs.Cube222.{powers_222};

use scr_orbit::{PlaceTurn, place_turns};

/// What the 18 turns of a 3x3x3 do to its corners: U U2 U' R R2 R' F F2 F' D D2 D' L L2 L' B B2 B'. Turn number
/// `3 * face + amount - 1` is the face's, by `amount` quarters; the faces U R F D L B are 0 to 5.
#[inline]
pub fn corner_turns() -> &'static [PlaceTurn<8>]
    ensures { IsTurnTable 18 (IsZeroSumOrbit 8 3) (part_turns (λ r. r.corners) cube_powers) result.now }
{
    &CORNER_TABLE
}

static CORNER_TABLE: [PlaceTurn<8>; 18] = place_turns![
    [3, 0, 1, 2, 4, 5, 6, 7] => [0, 0, 0, 0, 0, 0, 0, 0],
    [2, 3, 0, 1, 4, 5, 6, 7] => [0, 0, 0, 0, 0, 0, 0, 0],
    [1, 2, 3, 0, 4, 5, 6, 7] => [0, 0, 0, 0, 0, 0, 0, 0],
    [4, 1, 2, 0, 7, 5, 6, 3] => [2, 0, 0, 1, 1, 0, 0, 2],
    [7, 1, 2, 4, 3, 5, 6, 0] => [0, 0, 0, 0, 0, 0, 0, 0],
    [3, 1, 2, 7, 0, 5, 6, 4] => [2, 0, 0, 1, 1, 0, 0, 2],
    [1, 5, 2, 3, 0, 4, 6, 7] => [1, 2, 0, 0, 2, 1, 0, 0],
    [5, 4, 2, 3, 1, 0, 6, 7] => [0, 0, 0, 0, 0, 0, 0, 0],
    [4, 0, 2, 3, 5, 1, 6, 7] => [1, 2, 0, 0, 2, 1, 0, 0],
    [0, 1, 2, 3, 5, 6, 7, 4] => [0, 0, 0, 0, 0, 0, 0, 0],
    [0, 1, 2, 3, 6, 7, 4, 5] => [0, 0, 0, 0, 0, 0, 0, 0],
    [0, 1, 2, 3, 7, 4, 5, 6] => [0, 0, 0, 0, 0, 0, 0, 0],
    [0, 2, 6, 3, 4, 1, 5, 7] => [0, 1, 2, 0, 0, 2, 1, 0],
    [0, 6, 5, 3, 4, 2, 1, 7] => [0, 0, 0, 0, 0, 0, 0, 0],
    [0, 5, 1, 3, 4, 6, 2, 7] => [0, 1, 2, 0, 0, 2, 1, 0],
    [0, 1, 3, 7, 4, 5, 2, 6] => [0, 0, 1, 2, 0, 0, 2, 1],
    [0, 1, 7, 6, 4, 5, 3, 2] => [0, 0, 0, 0, 0, 0, 0, 0],
    [0, 1, 6, 2, 4, 5, 7, 3] => [0, 0, 1, 2, 0, 0, 2, 1],
];

/// What the 18 turns of a 3x3x3 do to its edges, in the same order.
#[inline]
pub fn edge_turns() -> &'static [PlaceTurn<12>]
    ensures { IsTurnTable 18 (IsZeroSumOrbit 12 2) (part_turns (λ r. r.edges) cube_powers) result.now }
{
    &EDGE_TABLE
}

static EDGE_TABLE: [PlaceTurn<12>; 18] = place_turns![
    [3, 0, 1, 2, 4, 5, 6, 7, 8, 9, 10, 11] => [0, 0, 0, 0, 0, 0, 0, 0, 0, 0, 0, 0],
    [2, 3, 0, 1, 4, 5, 6, 7, 8, 9, 10, 11] => [0, 0, 0, 0, 0, 0, 0, 0, 0, 0, 0, 0],
    [1, 2, 3, 0, 4, 5, 6, 7, 8, 9, 10, 11] => [0, 0, 0, 0, 0, 0, 0, 0, 0, 0, 0, 0],
    [8, 1, 2, 3, 11, 5, 6, 7, 4, 9, 10, 0] => [0, 0, 0, 0, 0, 0, 0, 0, 0, 0, 0, 0],
    [4, 1, 2, 3, 0, 5, 6, 7, 11, 9, 10, 8] => [0, 0, 0, 0, 0, 0, 0, 0, 0, 0, 0, 0],
    [11, 1, 2, 3, 8, 5, 6, 7, 0, 9, 10, 4] => [0, 0, 0, 0, 0, 0, 0, 0, 0, 0, 0, 0],
    [0, 9, 2, 3, 4, 8, 6, 7, 1, 5, 10, 11] => [0, 1, 0, 0, 0, 1, 0, 0, 1, 1, 0, 0],
    [0, 5, 2, 3, 4, 1, 6, 7, 9, 8, 10, 11] => [0, 0, 0, 0, 0, 0, 0, 0, 0, 0, 0, 0],
    [0, 8, 2, 3, 4, 9, 6, 7, 5, 1, 10, 11] => [0, 1, 0, 0, 0, 1, 0, 0, 1, 1, 0, 0],
    [0, 1, 2, 3, 5, 6, 7, 4, 8, 9, 10, 11] => [0, 0, 0, 0, 0, 0, 0, 0, 0, 0, 0, 0],
    [0, 1, 2, 3, 6, 7, 4, 5, 8, 9, 10, 11] => [0, 0, 0, 0, 0, 0, 0, 0, 0, 0, 0, 0],
    [0, 1, 2, 3, 7, 4, 5, 6, 8, 9, 10, 11] => [0, 0, 0, 0, 0, 0, 0, 0, 0, 0, 0, 0],
    [0, 1, 10, 3, 4, 5, 9, 7, 8, 2, 6, 11] => [0, 0, 0, 0, 0, 0, 0, 0, 0, 0, 0, 0],
    [0, 1, 6, 3, 4, 5, 2, 7, 8, 10, 9, 11] => [0, 0, 0, 0, 0, 0, 0, 0, 0, 0, 0, 0],
    [0, 1, 9, 3, 4, 5, 10, 7, 8, 6, 2, 11] => [0, 0, 0, 0, 0, 0, 0, 0, 0, 0, 0, 0],
    [0, 1, 2, 11, 4, 5, 6, 10, 8, 9, 3, 7] => [0, 0, 0, 1, 0, 0, 0, 1, 0, 0, 1, 1],
    [0, 1, 2, 7, 4, 5, 6, 3, 8, 9, 11, 10] => [0, 0, 0, 0, 0, 0, 0, 0, 0, 0, 0, 0],
    [0, 1, 2, 10, 4, 5, 6, 11, 8, 9, 7, 3] => [0, 0, 0, 1, 0, 0, 0, 1, 0, 0, 1, 1],
];

/// What the nine turns of a 2x2x2 do to its corners, in the order of their numbers: U U2 U' R R2 R' F F2 F'.
#[inline]
pub fn turns_222() -> &'static [PlaceTurn<7>]
    ensures { IsTurnTable 9 (IsZeroSumOrbit 7 3) (all_turns powers_222) result.now }
{
    &TABLE_222
}

static TABLE_222: [PlaceTurn<7>; 9] = place_turns![
    [3, 0, 1, 2, 4, 5, 6] => [0, 0, 0, 0, 0, 0, 0],
    [2, 3, 0, 1, 4, 5, 6] => [0, 0, 0, 0, 0, 0, 0],
    [1, 2, 3, 0, 4, 5, 6] => [0, 0, 0, 0, 0, 0, 0],
    [4, 1, 2, 0, 6, 5, 3] => [2, 0, 0, 1, 1, 0, 2],
    [6, 1, 2, 4, 3, 5, 0] => [0, 0, 0, 0, 0, 0, 0],
    [3, 1, 2, 6, 0, 5, 4] => [2, 0, 0, 1, 1, 0, 2],
    [1, 5, 2, 3, 0, 4, 6] => [1, 2, 0, 0, 2, 1, 0],
    [5, 4, 2, 3, 1, 0, 6] => [0, 0, 0, 0, 0, 0, 0],
    [4, 0, 2, 3, 5, 1, 6] => [1, 2, 0, 0, 2, 1, 0],
];
