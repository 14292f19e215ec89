//! Short scrambles of states known from elsewhere.

use scr_draw::Numbering;
use scr_notation::{Scramble, Turn, print};
use scr_sq1::{Sq1, Sq1Numbers};
use scr_sq1solve::{Sq1Tables, scramble_sq1_short};
use std::process::Abort;

/// Numbers of states, how many words are looked at, and how many twists the scramble may have: solved; solved but for
/// the equator; solved but for the edges 6 and 7, which the first word alone solves with 24. Where the scramble is
/// known, its text.
static STATES: [(u128, u32, usize, Option<&str>); 7] = [
    (3_810_646_425_600, 1, 0, Some("")),
    (3_810_646_425_600, 2, 0, Some("")),
    (3_810_646_425_600, 1000, 0, Some("")),
    (3_810_646_425_601, 1, 3, Some("(6,0) / (6,0) / (6,0) /")),
    (3_810_646_425_601, 1000, 3, None),
    (3_810_646_506_240, 2, 24, None),
    (3_810_646_506_240, 1000, 24, None),
];

/// A scramble has so many twists at most, and this text, if one is known.
fn is_short(rt: &impl Abort, scramble: &Scramble, most: usize, text: Option<&str>) {
    let turns = scramble.turns();
    let twists = turns
        .iter()
        .filter(|turn| matches!(turn, Turn::Twist))
        .count();
    assert!(rt; twists <= most);
    if let Some(text) = text {
        assert_eq!(rt; print(scramble).as_str(), text);
    }
}

/// The scrambles of the states above are made so.
fn are_made(rt: &impl Abort, tables: &Sq1Tables) {
    for (number, short, most, text) in &STATES {
        let state = Sq1Numbers.state_at(*number);
        let scramble = scramble_sq1_short(tables, &state, *short);
        is_short(rt, &scramble, *most, *text);
        assert!(rt; Sq1::solved().play(&scramble) == Some(state));
    }
}

#[test]
fn scrambles(rt: HostRuntime) {
    let tables = Sq1Tables::build(&rt, rt.alloc(), 2).expect(&rt, "tables");
    are_made(&rt, &tables);
}
