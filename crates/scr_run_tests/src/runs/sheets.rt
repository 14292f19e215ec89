//! Sheets.

use super::expected::SHEET;
use super::{ZEROS, run_with};
use std::process::Abort;
use std::test::Fail;

/// A list, an option, how its sheet begins, how many lines that has, and what is told at its end.
static SHEETS: [(&str, &str, &str, usize, &str); 11] = [
    (
        "222 1\nclock 1 0",
        "--attempts=1000",
        "Round 1: 2x2x2 Cube, at least 4\nGroup A\n1. R2 U R' F U2 F' U R U\n2. ",
        20,
        "",
    ),
    (
        "pyram 1\n222 1",
        "--attempts=1000",
        "Round 1: Pyraminx, at least 6\nGroup A\n1. R L' U' R B' U B' r' b'\n2. ",
        20,
        "",
    ),
    (
        "skewb 1\npyram 1",
        "--attempts=1000",
        "Round 1: Skewb, at least 7\nGroup A\n1. B R' L' R L U R'\n2. ",
        20,
        "",
    ),
    (
        "333oh 1\n333 1 5",
        "--attempts=1000",
        "Round 1: 3x3x3 One-Handed, at least 2\nGroup A\n1. U2 F2 U R2 B2 U' B2 D2 U B2 R D2 R2 ",
        20,
        "",
    ),
    (
        "333bf 1\n333 1",
        "--attempts=1000",
        "Round 1: 3x3x3 Blindfolded, at least 2\nGroup A\n1. ",
        18,
        "",
    ),
    // made in four stages, for want of tries
    (
        "333 1\n333oh 1 0",
        "--tries=0",
        "Round 1: 3x3x3 Cube, at least 2\nGroup A\n1. F2 U2 L2 F2 R2 F2 D2 R2 F2 R2 U R2 U' ",
        20,
        "",
    ),
    // the shortest of fifty solutions
    (
        "sq1 1\nclock 1 0",
        "--short=50",
        "Round 1: Square-1, at least 2\nGroup A\n1. (4,6) / (2,2) / (-2,4) / (-1,-1) / (-2,-5) / (-1,-1) / ",
        20,
        "",
    ),
    (
        "minx 1\n777 2",
        "--attempts=1",
        "Round 1: Megaminx, random moves\nGroup A\n1. R-- D++ R++ D-- R++ D++ ",
        25,
        "",
    ),
    (
        "555 2\n666 1",
        "--attempts=1000",
        "Round 1: 5x5x5 Cube, random moves\nGroup A\n1. L Bw2 D' Rw' L Fw2 Bw2 Rw2 F2 ",
        27,
        "",
    ),
    // a list of version 2
    (
        "version 2\nclock 1 : Final\nminx 1 : A: B \n555 1",
        "--attempts=1000",
        "Round 1: Clock, at least 2, Final\nGroup A\n1. UR4+ DR4+ DL5- UL5+ U3- R2+ D4+ L1- ALL3- y2 U3- R4+ D2- L4+ ALL3+\n2. ",
        30,
        "",
    ),
    // the sheet ends before a round with a slot that draws nothing
    (
        "minx 1\npyram 1 15",
        "--attempts=1",
        "Round 1: Megaminx, random moves\nGroup A\n1. R-- D++ R++ D-- R++ D++ ",
        10,
        "scramble: round 2 slot 1: no permitted state in 3 words\n",
    ),
];

#[test]
fn sheets_of_two_events(rt: HostRuntime) -> Result<(), Fail> {
    for (list, option, head, lines, err) in &SHEETS {
        let words = ["sheet", "--seed", ZEROS, option];
        let ran = run_with(&rt, &words, list.as_bytes(), 4096, [&[], &[], &[]])?;
        let sheet = ran.out.contents();
        assert!(rt; sheet.starts_with(head.as_bytes()));
        assert_eq!(rt; sheet.iter().filter(|byte| **byte == b'\n').count(), *lines);
        assert_eq!(rt; ran.err.contents(), err.as_bytes());
        assert_eq!(rt; ran.code, if err.is_empty() { 0 } else { 4 });
    }
    Ok(())
}

#[test]
fn a_whole_sheet(rt: HostRuntime) -> Result<(), Fail> {
    let seed = "000102030405060708090a0b0c0d0e0f101112131415161718191a1b1c1d1e1f";
    let words = ["sheet", "--seed", seed, "--attempts", "7", "--workers=3"];
    let list = b"clock 2 3\n\nclock 1 0\n";
    let mut sheet = Vec::new(rt.alloc());
    for line in SHEET {
        sheet.extend_from_slice(line.as_bytes())?;
    }
    for most in [1, 4096] {
        let whole = run_with(&rt, &words, list, most, [&[], &[], &[]])?;
        assert_eq!(rt; whole.code, 0);
        assert_eq!(rt; whole.out.contents(), sheet.as_slice());
    }
    Ok(())
}
