//! What `load` tells.

use super::{USAGE, ZEROS, check, run_with};
use scr_text::decimal;
use std::process::Abort;
use std::test::Fail;

/// The four lines of `load` on a sheet of so many rounds and scrambles.
fn told(rt: &impl AllocGlobal, rounds: u32, scrambles: u32, sheet: &[u8]) -> Result<Vec<u8>, Fail> {
    let mut bytes: u32 = 0;
    let mut sum: u32 = 0;
    for byte in sheet {
        bytes = bytes.wrapping_add(1);
        sum = sum.wrapping_add(u32::from(*byte));
    }
    let mut text = Vec::new(rt.alloc());
    for (label, number) in [
        ("rounds ", rounds),
        ("scrambles ", scrambles),
        ("bytes ", bytes),
        ("sum ", sum),
    ] {
        text.extend_from_slice(label.as_bytes())?;
        text.extend_from_slice(decimal(number).as_str().as_bytes())?;
        text.extend_from_slice(b"\n")?;
    }
    Ok(text)
}

/// A number; the seed and the list of its sheet; and how many rounds and scrambles that has.
static LOADS: [(&str, &str, &str, u32, u32); 4] = [
    ("0", ZEROS, "222 1", 1, 7),
    (
        "1",
        "0100000000000000000000000000000000000000000000000000000000000000",
        "333 2\n333oh 7",
        2,
        63,
    ),
    (
        "258",
        "0201000000000000000000000000000000000000000000000000000000000000",
        "777 3\nclock 8\nminx 5",
        3,
        106,
    ),
    (
        "15",
        "0f00000000000000000000000000000000000000000000000000000000000000",
        "666 8\n777 5\nclock 2\nminx 7\npyram 4\nskewb 1\nsq1 6\n222 3\n333 8\n333oh 5\n555 2\n666 7\n777 4\nclock 1\nminx 6\npyram 3",
        16,
        456,
    ),
];

/// Calls that fail, and what is written before.
static FAILING: [(u32, &str); 3] = [(1, ""), (2, "rounds 1\n"), (3, "rounds 1\nscrambles 7\n")];

// What `load` tells of a sheet, against the sheet of the same rounds as a list. Neither reads more than it asks for.
#[test]
fn loads_are_sheets_that_are_counted(rt: HostRuntime) -> Result<(), Fail> {
    for (number, seed, list, rounds, scrambles) in &LOADS {
        let words = ["sheet", "--seed", seed];
        let sheet = run_with(&rt, &words, list.as_bytes(), 4096, [&[], &[], &[]])?;
        assert_eq!(rt; sheet.code, 0);
        let lines = told(&rt, *rounds, *scrambles, sheet.out.contents())?;
        let load = run_with(&rt, &["load", number], b"x", 4096, [&[1], &[], &[]])?;
        assert_eq!(rt; load.code, 0);
        assert_eq!(rt; load.out.contents(), lines.as_slice());
    }
    for (call, written) in &FAILING {
        let failed = run_with(&rt, &["load", "0"], b"", 4096, [&[], &[*call], &[]])?;
        assert_eq!(rt; failed.code, 6);
        assert_eq!(rt; failed.out.contents(), written.as_bytes());
    }
    for number in ["10000", "-1", "00"] {
        check(&rt, &["load", number], b"", 2, "", USAGE)?;
    }
    Ok(())
}
