//! Cubes known from elsewhere: solved by another program of the same two parts.

use crate::read;
use scr_cube::{Cube, CubeNumbers, Held, HeldNumbers, PowerTurned};
use scr_draw::{Numbering, Permit, attempt};
use scr_notation::{Event, Scramble, print};
use scr_stages::StageTables;
use scr_table::{TableName, TableSet};
use scr_twophase::{DrawHeld, PruneTables, needs_333, scramble_333, scramble_333bf, two_parts};
use scr_words::{ChaChaWords, Seed};
use std::process::Abort;

/// Words that lead to cubes from solved, how many tries are made, and the two parts of these cubes, if there are any.
static CUBES: [(&str, u32, Option<&str>); 10] = [
    ("", 2000, Some("")),
    ("", 0, None),
    ("U", 2000, Some("U'")),
    ("U2", 2000, Some("U2")),
    ("R U F", 1, Some("F' U' R U2 D2 R2 L2 U2 D2 L2")),
    (
        "R U R' F' D2 B L2 U' F R2 D' L B2 U F2",
        66,
        Some("U' B D R2 F' U R' D2 B' U F' L2 D' R2 U' L2 U2 L2 D B2 U2"),
    ),
    ("R U R' F' D2 B L2 U' F R2 D' L B2 U F2", 65, None),
    (
        "U2 F2 U R2 B2 U' B2 D2 U B2 R D2 R2 D B F2 D' U2 F L",
        2000,
        Some("L' F' U2 D F2 B' D' R2 D2 R' B2 U' D2 B2 U B2 R2 U' F2 U2"),
    ),
    (
        "U2 F2 U R2 B2 U' B2 D2 U B2 R D2 R2 D B F2 D' U2 F L",
        35,
        None,
    ),
    (
        "U R2 F B R B2 R U2 L B2 R U' D' R2 F R' L B2 U2 F2",
        2000,
        None,
    ),
];

/// Whether the turns found, if any, have this text.
fn are_of(found: Option<Scramble>, text: Option<&str>) -> bool {
    match (found, text) {
        (Some(parts), Some(text)) => print(&parts).as_str() == text,
        (None, None) => true,
        _ => false,
    }
}

/// The cubes to which the words above lead have these two parts, and their scrambles lead to them.
fn are_solved(rt: &impl Abort, prune: &PruneTables, stages: &StageTables) {
    for (word, tries, expected) in &CUBES {
        let cube = read::cube(rt, word);
        assert!(rt;
            are_of(two_parts(prune, &cube, *tries), *expected),
            "{word}"
        );
        let scramble = scramble_333(prune, stages, &cube, *tries);
        assert!(rt; Cube::solved().play(&scramble) == Some(cube));
        assert!(rt; scramble.turns().len() <= if expected.is_some() { 22 } else { 52 });
    }
}

/// The cubes above are solved as they say, and so is the one that a seed gives.
fn are_known(rt: &impl Abort, prune: &PruneTables, stages: &StageTables) {
    assert!(rt;
        prune.table(TableName::EdgeSlice).is_some() && prune.table(TableName::Flips).is_none()
    );
    are_solved(rt, prune, stages);
    // The cube that the seed of zeros gives first.
    let mut words = ChaChaWords::new(&Seed([0; 32]), 0);
    match attempt(&mut words, CubeNumbers.count()) {
        Some(number) => is_first(rt, prune, stages, &CubeNumbers.state_at(number)),
        None => assert!(rt; false),
    }
}

/// The cube that the seed of zeros gives needs five turns at least, and has this scramble.
fn is_first(rt: &impl Abort, prune: &PruneTables, stages: &StageTables, cube: &Cube) {
    assert!(rt; needs_333(cube, 5));
    assert_eq!(rt;
        print(&scramble_333(prune, stages, cube, 2000)).as_str(),
        "U2 F2 U R2 B2 U' B2 D2 U B2 R D2 R2 D B F2 D' U2 F L"
    );
}

/// Numbers of held cubes, how many tries are made, and how the scrambles of these cubes begin and end.
static HELD_CUBES: [(u128, u32, &str, &str); 7] = [
    (0, 2000, "", ""),
    (1, 2000, "L' Rw", "L' Rw"),
    (6, 2000, "D' Uw", "D' Uw"),
    (7, 2000, "", " Rw Uw"),
    (7, 0, "", " Rw Uw"),
    (49151, 2000, "", " Fw' Uw'"),
    (1_038_048_078_587_756_543_999, 2000, "", " Fw' Uw'"),
];

/// The held cubes with the numbers above have scrambles that begin and end so, and lead to them.
fn are_held(rt: &impl Abort, prune: &PruneTables, stages: &StageTables) {
    for (number, tries, begins, ends) in &HELD_CUBES {
        assert!(rt; *number < HeldNumbers.count());
        let state = HeldNumbers.state_at(*number);
        let scramble = scramble_333bf(prune, stages, &state, *tries);
        let text = print(&scramble);
        assert!(rt; text.as_str().starts_with(begins) && text.as_str().ends_with(ends));
        assert!(rt; Held::solved().play(&scramble) == Some(state));
        assert!(rt; scramble.event() == Event::Bf333);
    }
}

#[test]
fn tables_and_cubes(rt: HostRuntime) {
    let mut prune = PruneTables::build(&rt, rt.alloc(), 1).expect(&rt, "tables");
    let stages = StageTables::build(&rt, rt.alloc(), 1).expect(&rt, "tables");
    are_known(&rt, &prune, &stages);
    are_held(&rt, &prune, &stages);
    prune
        .prepare(&rt, rt.alloc(), 1_000, 3)
        .expect(&rt, "outlooks");
    are_known(&rt, &prune, &stages);
}

/// A cube that one turn solves needs one, and no more; the one with all edges flipped in place needs five.
#[test]
fn minima(rt: HostRuntime) {
    let flipped = CubeNumbers.state_at(2047);
    assert!(rt; needs_333(&flipped, 5) && needs_333(&flipped, 4));
    let turned = Cube::solved().turned(7);
    assert!(rt; needs_333(&turned, 1) && !needs_333(&turned, 2));
    assert!(rt; needs_333(&Cube::solved(), 0) && !needs_333(&Cube::solved(), 1));
    assert_eq!(rt; CubeNumbers.number_of(&flipped), 2047);
    assert_eq!(rt; CubeNumbers.count(), 43_252_003_274_489_856_000);
}

/// The same however a cube is held.
#[test]
fn minima_of_held_cubes(rt: HostRuntime) {
    let held = HeldNumbers.state_at(49151);
    let drawn = DrawHeld::new();
    assert!(rt; drawn.needs_at_least(&held, 5) && drawn.number_of(&held) == 49151);
    let solved = HeldNumbers.state_at(23);
    assert!(rt; drawn.needs_at_least(&solved, 0) && !drawn.needs_at_least(&solved, 1));
}
