//! Scrambles for fewest moves, and cubes joined and inverted.

use crate::read;
use scr_cube::{Cube, CubeNumbers, PowerTurned};
use scr_draw::{Numbering, Permit};
use scr_notation::{Event, Scramble, print};
use scr_stages::StageTables;
use scr_twophase::{DrawFewest, PruneTables, scramble_333fm};
use std::process::Abort;

/// A known word to the superflip, of 20 turns.
const SUPERFLIP: &str = "U R2 F B R B2 R U2 L B2 R U' D' R2 F R' L B2 U2 F2";

/// Words that lead to states from solved, how many tries are made, and how many turns the scrambles of these states may
/// have. Two frames leave nothing between them, so that their state has them alone as its scramble; a turn that solves a
/// cube alone stands between them as it is, beside a turn of the same face too.
static SCRAMBLES: [(&str, u32, usize); 9] = [
    ("R' U' F R' U' F", 2000, 6),
    ("R' U' F U R' U' F", 2000, 7),
    ("R' U' F F2 R' U' F", 2000, 7),
    ("R' U' F R2 R' U' F", 2000, 7),
    ("", 2000, 28),
    ("", 0, 58),
    ("F' U R F' U R", 2000, 28),
    ("R U R' F' D2 B L2 U' F R2 D' L B2 U F2", 0, 58),
    (SUPERFLIP, 2000, 58),
];

/// The scramble has its frames, so many turns at most, and this text where these are fewer than 28.
fn is_framed(rt: &impl Abort, scramble: &Scramble, most: usize, word: &str) {
    let text = print(scramble);
    assert!(rt; text.as_str().starts_with("R' U' F") && text.as_str().ends_with("R' U' F"));
    assert!(rt; scramble.turns().len() >= 6 && scramble.turns().len() <= most);
    if most < 28 {
        assert_eq!(rt; text.as_str(), word);
    }
}

/// The scrambles above are made so.
fn are_made(rt: &impl Abort, prune: &PruneTables, stages: &StageTables) {
    for (word, tries, most) in &SCRAMBLES {
        let cube = read::cube(rt, word);
        let scramble = scramble_333fm(prune, stages, &cube, *tries);
        is_framed(rt, &scramble, *most, word);
        assert!(rt; Cube::solved().play(&scramble) == Some(cube));
        assert!(rt; scramble.event() == Event::Fm333);
    }
}

#[test]
fn scrambles(rt: HostRuntime) {
    let prune = PruneTables::build(&rt, rt.alloc(), 1).expect(&rt, "tables");
    let stages = StageTables::build(&rt, rt.alloc(), 1).expect(&rt, "tables");
    are_made(&rt, &prune, &stages);
}

// The same numbers and minima as of the 3x3x3.
#[test]
fn drawn(rt: HostRuntime) {
    let drawn = DrawFewest::new();
    assert_eq!(rt; drawn.count(), 43_252_003_274_489_856_000);
    let flipped = drawn.state_at(2047);
    assert!(rt; flipped == CubeNumbers.state_at(2047) && drawn.number_of(&flipped) == 2047);
    assert!(rt; drawn.needs_at_least(&flipped, 5));
    assert!(rt; !drawn.needs_at_least(&Cube::solved().turned(7), 2));
}

/// Two words, and a word that leads to what the first and then the second lead to.
static JOINED: [(&str, &str, &str); 5] = [
    ("", "", ""),
    ("R", "U", "R U"),
    ("R U R' F'", "D2 B L2 U' F", "R U R' F' D2 B L2 U' F"),
    (SUPERFLIP, SUPERFLIP, ""),
    ("R' U' F", "F' U R", ""),
];

// One cube and then another is what one word and then the other lead to, and not the other way round.
#[test]
fn joined(rt: HostRuntime) {
    for (first, second, both) in &JOINED {
        let cube = read::cube(&rt, first);
        let next = read::cube(&rt, second);
        assert!(rt;
            cube.then(&next) == read::cube(&rt, both),
            "{first} and {second}"
        );
    }
    let right = Cube::solved().turn(1, 1);
    let up = Cube::solved().turn(0, 1);
    assert!(rt; right.then(&up) != up.then(&right));
}

/// Words, and the words that take them back.
static INVERTED: [(&str, &str); 5] = [
    ("", ""),
    ("R", "R'"),
    ("R U F", "F' U' R'"),
    ("R U R' F' D2 B L2 U' F", "F' U L2 B' D2 F R U' R'"),
    (SUPERFLIP, SUPERFLIP),
];

// A cube's inverse is what the word taken back leads to.
#[test]
fn inverted(rt: HostRuntime) {
    for (word, back) in &INVERTED {
        let cube = read::cube(&rt, word);
        let inverse = cube.inverse();
        assert!(rt; inverse == read::cube(&rt, back), "{word}");
        assert!(rt; cube.then(&inverse) == Cube::solved() && inverse.then(&cube) == Cube::solved());
    }
}
