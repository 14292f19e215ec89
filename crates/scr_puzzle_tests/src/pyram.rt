//! States of a Pyraminx that are known from elsewhere.

use crate::numbered::is_number;
use crate::read;
use scr_draw::Numbering;
use scr_notation::Event;
use scr_tetra::{PowerTurned, PyramNumbers, Pyraminx, Tetraminx, TetraminxNumbers};

const IN_PLACE: [u8; 6] = [0, 1, 2, 3, 4, 5];

const LAST: [u8; 6] = [5, 4, 3, 2, 0, 1];

/// Numbers of states, with their edges, flips, axial pieces and tips.
static STATES: [(u128, [u8; 6], [u8; 6], [u8; 4], [u8; 4]); 4] = [
    (0, IN_PLACE, [0; 6], [0; 4], [0; 4]),
    (55, IN_PLACE, [0; 6], [0; 4], [1, 0, 0, 2]),
    (19683, IN_PLACE, [1, 1, 0, 0, 0, 0], [0; 4], [0; 4]),
    (75582719, LAST, [1; 6], [2; 4], [2; 4]),
];

#[test]
fn known_states(rt: HostRuntime) {
    for (number, edges, flips, axials, tips) in &STATES {
        assert!(rt; *number < PyramNumbers.count());
        let state = Pyraminx::from_lists(*edges, *flips, *axials, *tips);
        is_number(&rt, &PyramNumbers, *number, state);
    }
    let up = Pyraminx::solved().turn(0, 1);
    is_number(&rt, &PyramNumbers, 15116625, Some(up));
    let lists = Pyraminx::from_lists(up.edges(), up.flips(), up.axials(), up.tips());
    assert!(rt; lists == Some(up));
    assert!(rt; PyramNumbers.count() == 75582720 && TetraminxNumbers.count() == 933120);
    assert!(rt; Pyraminx::solved().is_solved() && !up.is_solved());
}

/// Edges, flips, axial pieces and tips of no state: a flipped edge, two exchanged edges, an edge twice, an axial piece
/// and a tip turned by three thirds.
static UNREACHED: [([u8; 6], [u8; 6], [u8; 4], [u8; 4]); 5] = [
    (IN_PLACE, [1, 0, 0, 0, 0, 0], [0; 4], [0; 4]),
    ([1, 0, 2, 3, 4, 5], [0; 6], [0; 4], [0; 4]),
    ([0, 0, 2, 3, 4, 5], [0; 6], [0; 4], [0; 4]),
    (IN_PLACE, [0; 6], [3, 0, 0, 0], [0; 4]),
    (IN_PLACE, [0; 6], [0; 4], [0, 0, 3, 0]),
];

#[test]
fn what_no_turns_reach(rt: HostRuntime) {
    for (edges, flips, axials, tips) in &UNREACHED {
        assert!(rt; Pyraminx::from_lists(*edges, *flips, *axials, *tips).is_none());
    }
}

#[test]
fn scrambles_played(rt: HostRuntime) {
    let scramble = read::scramble(&rt, Event::Pyram, "R' L R L' U L' U' L u b'");
    let flips = [1, 1, 0, 0, 0, 0];
    let played = Pyraminx::solved().play(&scramble);
    assert!(rt; played == Pyraminx::from_lists(IN_PLACE, flips, [0; 4], [1, 0, 0, 2]));
    assert!(rt; Tetraminx::solved().play(&scramble).is_none());
    let large = Pyraminx::solved().play(&read::scramble(&rt, Event::Pyram, "B L' r"));
    assert!(rt; large == Some(Pyraminx::solved().turn(3, 1).turn(1, 2).tip(2, 1)));
    let other = read::scramble(&rt, Event::C222, "U");
    assert!(rt; Pyraminx::solved().play(&other).is_none());
}
