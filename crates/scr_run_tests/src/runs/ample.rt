//! Large runs. That they end well shows that memory is not wanting where it is ample, of which no contract speaks.

use super::{ZEROS, run_with};
use arrayvec::ArrayString;
use scr_outside::MemSink;
use scr_sheet::*;
use scr_words::Seed;
use std::process::Abort;
use std::test::Fail;

const ROUNDS: &[u8] =
    b"clock 1\nminx 1\n222 1\npyram 1\nskewb 1\nsq1 1\n333 1\n333 1\n333bf 1\n333fm 1\n555 1\n666 1\n777 1\nclock 1\nminx 1\n222 1\npyram 1\nskewb 1\nsq1 1\n333 1\n333 1\n333bf 1\n333fm 1\n555 1\n666 1\n777 1\n";

const NINE: &[&str] = &["sheet", "--seed", ZEROS, "--workers", "9"];

const MOST: &[&str] = &["sheet", "--seed", ZEROS, "--workers", "64"];

/// Forty cubes by nine workers, two hundred by sixty-four, twenty-six groups, twenty-six rounds, the largest tables, and
/// the longest list that follows from a number.
static RUNS: [(&[&str], &[u8]); 7] = [
    (NINE, b"333 6\n"),
    (MOST, b"333 26\n333 3\n"),
    (MOST, b"clock 26\n"),
    (NINE, ROUNDS),
    (&["tables", "333"], b""),
    (&["tables", "sq1"], b""),
    (&["load", "15"], b""),
];

#[test]
fn large_runs_end_well(rt: HostRuntime) -> Result<(), Fail> {
    for (words, list) in &RUNS {
        let ran = run_with(&rt, words, list, 4096, [&[], &[], &[]])?;
        assert_eq!(rt; ran.err.contents(), b"".as_slice());
        assert_eq!(rt; ran.code, 0);
    }
    Ok(())
}

// Lists ask of a name that no blank stands at its ends; a round that is made may have any.
#[test]
fn a_round_of_any_name(rt: HostRuntime) -> Result<(), Fail> {
    let mut name = ArrayString::new();
    name.push_str(" A\t");
    let round = Round {
        event: Event::Clock,
        groups: 1,
        least: 2,
        name,
    };
    let tables = Tables::of_event(&rt, rt.alloc(), Event::Clock)?;
    let seed = Seed([0; 32]);
    let options = Options::default();
    let made = make_round(
        &rt,
        rt.alloc(),
        &tables,
        &seed,
        0,
        &round,
        &options,
        &OpenGate,
    )?;
    assert_eq!(rt; made.scrambles().len(), 7);
    let mut out = MemSink::new(rt.alloc(), 4096, 4096, Vec::new(rt.alloc()))?;
    assert!(rt; write_round(&mut out, &made).is_ok());
    assert!(rt;
        out.contents()
            .starts_with(b"Round 1: Clock, at least 2,  A\t\nGroup A\n1. ")
    );
    Ok(())
}
