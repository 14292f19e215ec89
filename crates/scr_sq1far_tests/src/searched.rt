//! What states need, by all that few turns lead to from them and from solved.
//!
//! The states are made by words of 0 to 14 turns, and each is asked for all of 0 to 11 turns. Among them are
//! such as need 0, 1 and so on up to 10, and such as need more.

use scr_sq1::Sq1;
use scr_sq1far::{NearSolved, needs_sq1_far};
use std::alloc::{AllocError, Global};
use std::collections::HashMap;
use std::test::Fail;

/// How many turns lead from each end to the middle.
const HALF: u32 = 5;

/// The most that a state is asked for.
const MOST: u32 = 11;

/// States as their units and their equator, each with the least number of turns that lead to it.
type Ball = HashMap<([u8; 24], bool), u32>;

/// States that were found last.
type Found = Vec<Sq1>;

/// Adds a state that so many turns lead to, unless fewer do.
fn add(state: &Sq1, turns: u32, ball: &mut Ball, found: &mut Found) -> Result<(), AllocError> {
    let key = (state.units(), state.equator());
    if !ball.contains_key(&key) {
        ball.insert(key, turns)?;
        found.push(*state)?;
    }
    Ok(())
}

/// Adds the states that one turn more leads to, and gives those that are new.
fn farther(alloc: Global, last: &Found, turns: u32, ball: &mut Ball) -> Result<Found, AllocError> {
    let mut found = Vec::new(alloc);
    for state in last {
        add(&state.twist(), turns, ball, &mut found)?;
        for number in 0..144u32 {
            if let Some(turned) = state.turn((number / 12) as i8 - 5, (number % 12) as i8 - 5) {
                add(&turned, turns, ball, &mut found)?;
            }
        }
    }
    Ok(found)
}

/// All states that five turns lead to from one, each with the least number of them.
fn ball_of(alloc: Global, center: &Sq1) -> Result<Ball, AllocError> {
    let mut ball = HashMap::new(alloc);
    let mut found = Vec::new(alloc);
    add(center, 0, &mut ball, &mut found)?;
    for turns in 0..HALF {
        found = farther(alloc, &found, turns + 1, &mut ball)?;
    }
    Ok(ball)
}

/// The least number of turns between the centers of two balls, or eleven where it is more than ten.
fn turns_between(one: &Ball, other: &Ball) -> u32 {
    let mut least = MOST;
    for (state, turns) in one.iter() {
        if let Some(others) = other.get(state) {
            least = least.min(turns.saturating_add(*others));
        }
    }
    least
}

/// The next of numbers that are spread.
fn next(number: u64) -> u64 {
    number
        .wrapping_mul(6_364_136_223_846_793_005)
        .wrapping_add(1_442_695_040_888_963_407)
}

/// A state after a turn of the layers that isn't barred, drawn by a number, and the number behind those that were used.
fn layers_turned(state: &Sq1, number: u64) -> (Sq1, u64) {
    let mut number = number;
    for _ in 0..1000 {
        number = next(number);
        let top = (number >> 40) % 12;
        let bottom = (number >> 50) % 12;
        if let Some(turned) = state.turn(top as i8 - 5, bottom as i8 - 5) {
            if top != 5 || bottom != 5 {
                return (turned, number);
            }
        }
    }
    (*state, number)
}

/// A state that a word of so many turns leads to from solved, in which turns of the layers and twists take turns.
fn state_of(turns: u32, number: u64) -> Sq1 {
    let mut number = next(number);
    let mut twists = number >> 63 == 0;
    let mut state = Sq1::solved();
    for _ in 0..turns {
        if twists {
            state = state.twist();
        } else {
            (state, number) = layers_turned(&state, number);
        }
        twists = !twists;
    }
    state
}

/// How many turns words have, and numbers by which they are drawn.
static WORDS: [(u32, u64); 20] = [
    (0, 0),
    (1, 0),
    (1, 1),
    (2, 2),
    (3, 3),
    (4, 4),
    (5, 5),
    (6, 6),
    (7, 7),
    (7, 17),
    (8, 8),
    (8, 18),
    (9, 9),
    (9, 19),
    (10, 10),
    (10, 20),
    (11, 11),
    (11, 21),
    (12, 12),
    (14, 14),
];

#[test]
fn needs_as_many_as_a_search_finds(rt: HostRuntime) -> Result<(), Fail> {
    let near = NearSolved::build(rt.alloc())?;
    let solved = ball_of(rt.alloc(), &Sq1::solved())?;
    assert_eq!(rt; solved.len(), 45_632);
    let mut found = [false; 12];
    for (turns, number) in &WORDS {
        let state = state_of(*turns, *number);
        let least = turns_between(&ball_of(rt.alloc(), &state)?, &solved);
        for asked in 0..12 {
            let needs = needs_sq1_far(&near, &state, asked);
            assert_eq!(rt;
                needs,
                asked <= least,
                "word {turns}, asked {asked}, {least}"
            );
        }
        if let Some(is_found) = found.get_mut(least as usize) {
            *is_found = true;
        }
    }
    assert_eq!(rt; found, [true; 12]);
    Ok(())
}
