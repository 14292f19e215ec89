//! States and words that are known from elsewhere.

use crate::numbered::is_number;
use crate::read;
use scr_draw::Numbering;
use scr_notation::{Event, print};
use scr_sq1::{Shape, Sq1, Sq1Numbers, shape_at, shape_number};

/// The solved units.
const SOLVED: [u8; 24] = [
    0, 0, 8, 1, 1, 9, 2, 2, 10, 3, 3, 11, 12, 4, 4, 13, 5, 5, 14, 6, 6, 15, 7, 7,
];

/// Texts, the units to which they lead from solved, and whether the equator is turned then.
static KNOWN_WORDS: [(&str, [u8; 24], bool); 5] = [
    ("", SOLVED, false),
    (
        "/",
        [
            12, 4, 4, 13, 5, 5, 2, 2, 10, 3, 3, 11, 0, 0, 8, 1, 1, 9, 14, 6, 6, 15, 7, 7,
        ],
        true,
    ),
    ("(6,0) / (6,0) / (6,0) /", SOLVED, true),
    (
        "/ (3,3) / (1,0) / (-2,-2) / (2,0) / (2,2) / (-1,0) / (-3,-3) / (-2,0) / (3,3) / (3,0) / (-1,-1) / (-3,0) / (1,1) / (-4,-3)",
        [
            0, 0, 8, 1, 1, 11, 2, 2, 10, 3, 3, 9, 12, 4, 4, 13, 5, 5, 14, 6, 6, 15, 7, 7,
        ],
        false,
    ),
    (
        "(1,3) / (-4,-1) / (0,1) / (3,0) / (1,2) / (-4,-3) / (0,6) / (4,-3) / (6,2) / (6,4) / (2,-4) / (5,-5) / (-5,6) / (-4,5) / (-2,6) / (-1,-2) /",
        [
            11, 10, 4, 4, 2, 2, 7, 7, 9, 1, 1, 13, 0, 0, 3, 3, 15, 12, 14, 8, 5, 5, 6, 6,
        ],
        false,
    ),
];

/// Each is read, printed again, and played from solved.
#[test]
fn known_words(rt: HostRuntime) {
    for (text, units, equator) in &KNOWN_WORDS {
        let scramble = read::scramble(&rt, Event::Sq1, text);
        assert_eq!(rt; print(&scramble).as_str(), *text);
        let state = Sq1::solved().play(&scramble);
        assert!(rt; state.is_some());
        assert_eq!(rt; state, Sq1::from_units(*units, *equator));
    }
}

#[test]
fn known_refusals(rt: HostRuntime) {
    let solved = Sq1::solved();
    assert!(rt; solved.turn(1, 0).is_some());
    assert!(rt; solved.turn(0, -1).is_some());
    assert!(rt; solved.turn(-1, 0).is_none());
    assert!(rt; solved.turn(0, 1).is_none());
    assert_eq!(rt;
        solved.play(&read::scramble(&rt, Event::C333, "")),
        Some(solved)
    );
    assert_eq!(rt; solved.play(&read::scramble(&rt, Event::C333, "U")), None);
}

/// Units of no state.
static REFUSED: [[u8; 24]; 8] = [
    // a corner across the cut, at each of the four places
    [
        0, 8, 1, 1, 9, 10, 2, 2, 3, 3, 11, 0, 12, 4, 4, 13, 5, 5, 14, 6, 6, 15, 7, 7,
    ],
    [
        0, 0, 8, 9, 10, 1, 1, 2, 2, 3, 3, 11, 12, 4, 4, 13, 5, 5, 14, 6, 6, 15, 7, 7,
    ],
    [
        0, 0, 8, 1, 1, 9, 2, 2, 10, 3, 3, 11, 4, 12, 5, 5, 13, 14, 6, 6, 7, 7, 15, 4,
    ],
    [
        0, 0, 8, 1, 1, 9, 2, 2, 10, 3, 3, 11, 4, 4, 12, 13, 14, 5, 5, 6, 6, 7, 7, 15,
    ],
    // edge 8 twice, a corner that is split in its layer and between the layers, and a piece that there is none
    [
        0, 0, 8, 1, 1, 8, 2, 2, 10, 3, 3, 11, 12, 4, 4, 13, 5, 5, 14, 6, 6, 15, 7, 7,
    ],
    [
        0, 8, 0, 1, 1, 9, 2, 2, 10, 3, 3, 11, 12, 4, 4, 13, 5, 5, 14, 6, 6, 15, 7, 7,
    ],
    [
        0, 12, 8, 1, 1, 9, 2, 2, 10, 3, 3, 11, 0, 4, 4, 13, 5, 5, 14, 6, 6, 15, 7, 7,
    ],
    [
        0, 0, 16, 1, 1, 9, 2, 2, 10, 3, 3, 11, 12, 4, 4, 13, 5, 5, 14, 6, 6, 15, 7, 7,
    ],
];

#[test]
fn refused_units(rt: HostRuntime) {
    for units in &REFUSED {
        assert!(rt; Sq1::from_units(*units, false).is_none());
    }
}

const EDGES_EXCHANGED: [u8; 24] = [
    0, 0, 8, 1, 1, 9, 2, 2, 10, 3, 3, 11, 12, 4, 4, 13, 5, 5, 15, 6, 6, 14, 7, 7,
];

const LAST: [u8; 24] = [
    7, 7, 6, 6, 5, 5, 4, 4, 3, 3, 2, 2, 15, 14, 1, 1, 0, 0, 13, 12, 11, 10, 9, 8,
];

/// Numbers of states, their units, and whether the equator is turned.
static NUMBERS: [(u128, [u8; 24], bool); 4] = [
    (3810646425600, SOLVED, false),
    (3810646425601, SOLVED, true),
    (3810646506240, EDGES_EXCHANGED, false),
    (11958666854399, LAST, true),
];

#[test]
fn known_numbers(rt: HostRuntime) {
    assert_eq!(rt; Sq1Numbers.count(), 11958666854400);
    for (number, units, equator) in &NUMBERS {
        assert!(rt; *number < Sq1Numbers.count());
        let state = Sq1::from_units(*units, *equator);
        is_number(&rt, &Sq1Numbers, *number, state);
    }
    let solved = Sq1::solved();
    assert!(rt; (solved.units(), solved.equator()) == (SOLVED, false));
}

/// Numbers of shapes, and their halves.
static SHAPES: [(u32, [u8; 4]); 3] = [
    (0, [0, 6, 12, 12]),
    (1172, [7, 7, 10, 10]),
    (3677, [12, 12, 11, 0]),
];

#[test]
fn known_shapes(rt: HostRuntime) {
    assert_eq!(rt; shape_number(&Sq1::solved().shape()), 1172);
    for (number, halves) in &SHAPES {
        assert!(rt; *number < 3678);
        let shape: Shape = shape_at(*number);
        assert_eq!(rt; shape.halves(), *halves);
        assert_eq!(rt; shape_number(&shape), *number);
    }
}
