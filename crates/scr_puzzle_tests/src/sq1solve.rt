//! States known from elsewhere: counted and solved by another program of the same stages.

use scr_draw::Numbering;
use scr_notation::print;
use scr_sq1::Sq1Numbers;
use scr_sq1solve::{Sq1Tables, needs_sq1, scramble_sq1};
use scr_table::{TableName, TableSet};
use std::process::Abort;

/// Numbers of states, and their scrambles: solved; solved but for the equator; solved but for the edges 6 and 7.
static STATES: [(u128, &str); 3] = [
    (3_810_646_425_600, ""),
    (3_810_646_425_601, "(6,0) / (6,0) / (6,0) /"),
    (
        3_810_646_506_240,
        "(4,0) / (2,2) / (-5,-5) / (2,2) / (-2,4) / (2,2) / (1,1) / (-1,-1) / (1,-2) / (-1,-4) / (-2,-5) / (-1,2) / (-3,6) / (0,-3) / (-3,1) / (3,3) / (5,4) / (2,-4) / (4,-2) / (5,4) / (3,3) / (-1,4) / (6,0) / (6,0) /",
    ),
];

/// Numbers of states, and how many turns each needs: solved; solved but for the equator, which needs
/// more than any minimum asks for.
static MINIMA: [(u128, u32); 2] = [(3_810_646_425_600, 0), (3_810_646_425_601, 4)];

#[test]
fn minima(rt: HostRuntime) {
    for (number, needed) in &MINIMA {
        let state = Sq1Numbers.state_at(*number);
        for least in 0..5 {
            assert_eq!(rt; needs_sq1(&state, least), least <= *needed);
        }
    }
}

/// The states above have these scrambles.
fn are_solved(rt: &impl Abort, tables: &Sq1Tables) {
    for (number, scramble) in &STATES {
        let state = Sq1Numbers.state_at(*number);
        assert_eq!(rt; print(&scramble_sq1(tables, &state)).as_str(), *scramble);
    }
}

#[test]
fn tables_and_states(rt: HostRuntime) {
    let tables = Sq1Tables::build(&rt, rt.alloc(), 2).expect(&rt, "tables");
    assert!(rt;
        tables.table(TableName::Square).is_some() && tables.table(TableName::Corners).is_none()
    );
    are_solved(&rt, &tables);
}
