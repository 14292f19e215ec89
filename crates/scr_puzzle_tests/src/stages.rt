//! Cubes known from elsewhere: solved by another program of the same stages.

use crate::read;
use scr_notation::print;
use scr_stages::{StageTables, scramble_by_stages, solve_stages};
use scr_table::{TableName, TableSet};
use std::process::Abort;

/// Words that lead to cubes from solved, the last but two to the one with all edges flipped in place; the cubes'
/// solutions by stages; their scrambles.
static CUBES: [(&str, &str, &str); 6] = [
    ("U", "U U2", "U"),
    ("U2", "U2", "U2"),
    (
        "U R2 F B R B2 R U2 L B2 R U' D' R2 F R' L B2 U2 F2",
        "F U R D B L' F U' R U' R F2 L2 D' R R2 U F2 U' L2 U U2 R2 U2 B2 D2 F2 R2 D2 L2 U2",
        "U2 L2 D2 R2 F2 D2 B2 U2 R2 U L2 U F2 U' R D L2 F2 R' U R' U F' L B' D' R' U' F'",
    ),
    ("R U F", "F F2 U' R R2", "R U F"),
    (
        "R U R' F' D2 B L2 U' F R2 D' L B2 U F2",
        "R D F' R D2 B U2 L U' L U' B2 L2 D' R U R2 U' R2 U L2 F2 U R2 D U2 R2 U2 L2 D2 F2 U2 B2 L2 F2 U2",
        "U2 F2 L2 B2 U2 F2 D2 L2 U2 R2 U2 D' R2 U' F2 L2 U' R2 U R2 U' R' D L2 B2 U L' U L' U2 B' D2 R' F D' R'",
    ),
    (
        "U2 F2 U R2 B2 U' B2 D2 U B2 R D2 R2 D B F2 D' U2 F L",
        "D' L F' U2 B U2 F2 R U' D' R' F2 L R2 F2 U L2 U' F2 U R2 U U2 R2 F2 R2 D2 F2 R2 F2 L2 U2 F2",
        "F2 U2 L2 F2 R2 F2 D2 R2 F2 R2 U R2 U' F2 U L2 U' F2 R2 L' F2 R D U R' F2 U2 B' U2 F L' D",
    ),
];

/// The cubes to which these words lead have these solutions and these scrambles.
fn are_solved(rt: &impl Abort, tables: &StageTables, rows: &[(&str, &str, &str)]) {
    for &(word, solution, scramble) in rows {
        let cube = read::cube(rt, word);
        assert_eq!(rt; print(&solve_stages(tables, &cube)).as_str(), solution);
        assert_eq!(rt;
            print(&scramble_by_stages(tables, &cube)).as_str(),
            scramble
        );
    }
}

#[test]
fn tables_and_cubes(rt: HostRuntime) {
    let tables = StageTables::build(&rt, rt.alloc(), 4).expect(&rt, "tables");
    assert!(rt;
        tables.table(TableName::Halves).is_some() && tables.table(TableName::Corners).is_none()
    );
    are_solved(&rt, &tables, &CUBES);
}
