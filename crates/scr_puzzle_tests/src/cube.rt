//! States that are known from elsewhere.

use crate::numbered::is_number;
use crate::read;
use scr_cube::{Corners222, Cube, CubeNumbers, Numbers222, PowerTurned};
use scr_draw::Numbering;
use scr_notation::Event;
use std::alloc::{AllocError, Global};
use std::test::Fail;

const IN_PLACE: [u8; 8] = [0, 1, 2, 3, 4, 5, 6, 7];

const EDGES_IN_PLACE: [u8; 12] = [0, 1, 2, 3, 4, 5, 6, 7, 8, 9, 10, 11];

const LAST_TWISTS: [u8; 8] = [2, 2, 2, 2, 2, 2, 2, 1];

const LAST_EXCHANGED: [u8; 8] = [0, 1, 2, 3, 4, 5, 7, 6];

const EDGES_EXCHANGED: [u8; 12] = [0, 1, 2, 3, 4, 5, 6, 7, 8, 9, 11, 10];

const BACKWARDS: [u8; 8] = [7, 6, 5, 4, 3, 2, 1, 0];

const EDGES_BACKWARDS: [u8; 12] = [11, 10, 9, 8, 7, 6, 5, 4, 3, 2, 1, 0];

/// Numbers of cubes, with their corners, twists, edges and flips.
static CUBES: [(u128, [u8; 8], [u8; 8], [u8; 12], [u8; 12]); 5] = [
    (0, IN_PLACE, [0; 8], EDGES_IN_PLACE, [0; 12]),
    (2047, IN_PLACE, [0; 8], EDGES_IN_PLACE, [1; 12]),
    (4478975, IN_PLACE, LAST_TWISTS, EDGES_IN_PLACE, [1; 12]),
    (4478976, LAST_EXCHANGED, [0; 8], EDGES_EXCHANGED, [0; 12]),
    (
        43252003274489855999,
        BACKWARDS,
        LAST_TWISTS,
        EDGES_BACKWARDS,
        [1; 12],
    ),
];

#[test]
fn known_cubes(rt: HostRuntime) {
    for (number, corners, twists, edges, flips) in &CUBES {
        assert!(rt; *number < CubeNumbers.count());
        let cube = Cube::from_lists(*corners, *twists, *edges, *flips);
        is_number(&rt, &CubeNumbers, *number, cube);
    }
    assert!(rt; CubeNumbers.count() == 43252003274489856000);
}

/// Numbers of 2x2x2s, with their corners and twists.
static CORNERS: [(u128, [u8; 7], [u8; 7]); 3] = [
    (0, [0, 1, 2, 3, 4, 5, 6], [0; 7]),
    (3015702, [5, 4, 2, 1, 3, 0, 6], [0, 0, 2, 2, 0, 2, 0]),
    (3674159, [6, 5, 4, 3, 2, 1, 0], [2, 2, 2, 2, 2, 2, 0]),
];

#[test]
fn known_corners(rt: HostRuntime) {
    for (number, corners, twists) in &CORNERS {
        assert!(rt; *number < Numbers222.count());
        let state = Corners222::from_lists(*corners, *twists);
        is_number(&rt, &Numbers222, *number, state);
    }
    let up = Corners222::solved().turn(0, 1);
    is_number(&rt, &Numbers222, 1574640, Some(up));
    assert!(rt; Corners222::from_lists(up.corners(), up.twists()) == Some(up));
    assert!(rt; Numbers222.count() == 3674160);
}

const FLIPPED: [u8; 12] = [1, 0, 0, 0, 0, 0, 0, 0, 0, 0, 0, 0];

const TWISTED: [u8; 8] = [1, 0, 0, 0, 0, 0, 0, 0];

const EXCHANGED: [u8; 8] = [1, 0, 2, 3, 4, 5, 6, 7];

const TWICE: [u8; 8] = [0, 0, 2, 3, 4, 5, 6, 7];

/// Corners, twists, edges and flips of no cube: a flipped edge, a twisted corner, two exchanged corners, and a corner
/// twice.
static UNREACHED: [([u8; 8], [u8; 8], [u8; 12], [u8; 12]); 4] = [
    (IN_PLACE, [0; 8], EDGES_IN_PLACE, FLIPPED),
    (IN_PLACE, TWISTED, EDGES_IN_PLACE, [0; 12]),
    (EXCHANGED, [0; 8], EDGES_IN_PLACE, [0; 12]),
    (TWICE, [0; 8], EDGES_IN_PLACE, [0; 12]),
];

#[test]
fn what_no_turns_reach(rt: HostRuntime) {
    for (corners, twists, edges, flips) in &UNREACHED {
        assert!(rt; Cube::from_lists(*corners, *twists, *edges, *flips).is_none());
    }
    assert!(rt; Corners222::from_lists([1, 0, 2, 3, 4, 5, 6], [0; 7]).is_some());
    assert!(rt; Corners222::from_lists([1, 0, 2, 3, 4, 5, 6], [1; 7]).is_none());
}

// The word leads to the superflip, and with a wide turn it is no scramble.
#[test]
fn scrambles_played(rt: HostRuntime) {
    let text = "U R2 F B R B2 R U2 L B2 R U' D' R2 F R' L B2 U2 F2";
    let scramble = read::scramble(&rt, Event::C333, text);
    let superflip = Cube::solved().play(&scramble);
    assert!(rt; superflip == Cube::from_lists(IN_PLACE, [0; 8], EDGES_IN_PLACE, [1; 12]));
    assert!(rt; Corners222::solved().play(&scramble).is_none());
    let small = Corners222::solved().play(&read::scramble(&rt, Event::C222, "R U F'"));
    let turned = Corners222::solved().turn(1, 1).turn(0, 1).turn(2, 3);
    assert!(rt; small == Some(turned));
}

/// The cubes that one turn more leads to, of those that were not seen before.
fn farther(alloc: Global, level: &[Cube], seen: &mut Vec<Cube>) -> Result<Vec<Cube>, AllocError> {
    let mut next = Vec::new(alloc);
    for cube in level {
        for face in 0..6 {
            for amount in 1..4 {
                let turned = cube.turn(face, amount);
                if !seen.contains(&turned) {
                    seen.push(turned)?;
                    next.push(turned)?;
                }
            }
        }
    }
    Ok(next)
}

/// How many cubes need 1, 2 and 3 turns.
static COUNTS: [usize; 3] = [18, 243, 3240];

#[test]
fn distances(rt: HostRuntime) -> Result<(), Fail> {
    let mut seen = Vec::new(rt.alloc());
    seen.push(Cube::solved())?;
    let mut level = seen.clone()?;
    assert_eq!(rt; level.len(), 1);
    for count in &COUNTS {
        level = farther(rt.alloc(), &level, &mut seen)?;
        assert_eq!(rt; level.len(), *count);
    }
    Ok(())
}
