//! Cubes as they are held, which are known from elsewhere.

use crate::numbered::is_number;
use crate::read;
use scr_cube::{Cube, CubeNumbers, Held, HeldNumbers, PowerTurned};
use scr_draw::Numbering;
use scr_notation::Event;
use std::process::Abort;

/// The colours of the faces U R F D L B of a cube that is held with white up and green in front.
const COLOURS: [u8; 6] = *b"WRGYOB";

/// The state after a scramble of the event.
fn played(rt: &impl Abort, text: &str) -> Held {
    let scramble = read::scramble(rt, Event::Bf333, text);
    Held::solved()
        .play(&scramble)
        .expect(rt, "a scramble of the event")
}

/// Words, and the colours that stand at U R F D L B after them.
static COLOURS_AFTER: [(&str, &[u8; 6]); 9] = [
    ("", b"WRGYOB"),
    ("R U2 F' D L2 B", b"WRGYOB"),
    ("Rw", b"GRYBOW"),
    ("Fw2", b"YOGWRB"),
    ("Uw'", b"WGOYBR"),
    ("L' Rw", b"GRYBOW"),
    ("Rw Uw", b"GWRBYO"),
    ("Uw Rw", b"RBYOGW"),
    ("Uw Uw Uw2", b"WRGYOB"),
];

// Which colours stand at U R F D L B after words, on a cube in the hand.
#[test]
fn colours_of_centres(rt: HostRuntime) {
    for (text, colours) in &COLOURS_AFTER {
        let centres = played(&rt, text).centres();
        for place in 0..6 {
            let centre = centres[place] as usize;
            assert!(rt; centre < 6);
            assert_eq!(rt; COLOURS[centre], colours[place], "{text} at {place}");
        }
    }
}

// A wide turn turns the opposite face, and a turn after it the face that has come there.
#[test]
fn faces_that_turn(rt: HostRuntime) {
    let solved = Cube::solved();
    assert!(rt; *played(&rt, "Rw").cube() == solved.turn(4, 1));
    assert!(rt; *played(&rt, "Rw2 U'").cube() == solved.turn(4, 2).turn(3, 3));
    assert!(rt; *played(&rt, "Rw Uw").cube() == solved.turn(4, 1).turn(5, 1));
    assert!(rt; *played(&rt, "Fw' R").cube() == solved.turn(5, 3).turn(3, 1));
    assert!(rt; *played(&rt, "L' Rw").cube() == solved);
    let turned = Held::solved().turn(0, 2, 1).turn(2, 1, 3);
    assert!(rt; turned == played(&rt, "Uw F'"));
}

/// Events, and scrambles of theirs that are none of a cube as it is held.
static REFUSED: [(Event, &str); 4] = [
    (Event::C555, "R Dw"),
    (Event::C555, "Lw2"),
    (Event::C666, "3Rw U"),
    (Event::Skewb, "U"),
];

// Letters that the event has not.
#[test]
fn no_turns_of_the_event(rt: HostRuntime) {
    for (event, text) in &REFUSED {
        let scramble = read::scramble(&rt, *event, text);
        assert!(rt; Held::solved().play(&scramble).is_none(), "{text}");
    }
    let of_333 = read::scramble(&rt, Event::C333, "R U F");
    assert!(rt; Held::solved().play(&of_333) == Some(played(&rt, "R U F")));
}

/// Numbers of held cubes, whether all edges of the cube are flipped in place or it is solved, and its centres.
static NUMBERS: [(u128, bool, [u8; 6]); 6] = [
    (0, false, [0, 1, 2, 3, 4, 5]),
    (1, false, [2, 1, 3, 5, 4, 0]),
    (6, false, [0, 5, 1, 3, 2, 4]),
    (7, false, [2, 0, 1, 5, 3, 4]),
    (49128, true, [0, 1, 2, 3, 4, 5]),
    (49151, true, [1, 2, 0, 4, 5, 3]),
];

#[test]
fn numbers(rt: HostRuntime) {
    let solved = Cube::solved();
    let flipped = CubeNumbers.state_at(2047);
    for (number, is_flipped, centres) in &NUMBERS {
        assert!(rt; *number < HeldNumbers.count());
        let cube = if *is_flipped { flipped } else { solved };
        is_number(&rt, &HeldNumbers, *number, Held::from_parts(cube, *centres));
    }
    assert_eq!(rt; HeldNumbers.count(), 1_038_048_078_587_756_544_000);
}

#[test]
fn numbers_of_holds(rt: HostRuntime) {
    assert_eq!(rt; played(&rt, "Rw Uw").hold(), 7);
    assert_eq!(rt; played(&rt, "Fw' Uw'").hold(), 23);
}

/// Centres that no cube has, however it is held.
static NO_CENTRES: [[u8; 6]; 3] = [[0, 1, 2, 3, 5, 4], [1, 0, 2, 3, 4, 5], [0; 6]];

#[test]
fn centres_of_no_cube(rt: HostRuntime) {
    for centres in &NO_CENTRES {
        assert!(rt; Held::from_parts(Cube::solved(), *centres).is_none());
    }
}
