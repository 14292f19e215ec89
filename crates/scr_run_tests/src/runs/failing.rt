//! Calls that fail, one after another, over a list of one round of ten lines.

use super::{Ran, USAGE, ZEROS, run_with};
use std::process::Abort;
use std::test::Fail;
use std::thread::Threads;

const SHEET: [&str; 3] = ["sheet", "--seed", ZEROS];

const LIST: &[u8] = b"clock 1\n";

/// A run ended so, and wrote the first lines of the sheet, so many.
fn wrote(rt: &impl Abort, ran: &Ran, code: u8, sheet: &[u8], lines: usize) {
    let written = ran.out.contents();
    assert_eq!(rt; ran.code, code);
    assert!(rt; sheet.starts_with(written));
    assert_eq!(rt;
        written.iter().filter(|byte| **byte == b'\n').count(),
        lines
    );
    assert!(rt; written.is_empty() || written.ends_with(b"\n"));
}

#[test]
fn reads_that_fail(rt: HostRuntime) -> Result<(), Fail> {
    let whole = run_with(&rt, &SHEET, LIST, 4096, [&[], &[], &[]])?;
    let sheet = whole.out.contents();
    for call in 1..10 {
        let ran = run_with(&rt, &SHEET, LIST, 1, [&[call], &[], &[]])?;
        wrote(&rt, &ran, 5, sheet, 0);
    }
    // the ninth call tells the end
    let ran = run_with(&rt, &SHEET, LIST, 1, [&[10], &[], &[]])?;
    wrote(&rt, &ran, 0, sheet, 10);
    Ok(())
}

#[test]
fn writes_that_fail(rt: HostRuntime) -> Result<(), Fail> {
    let whole = run_with(&rt, &SHEET, LIST, 4096, [&[], &[], &[]])?;
    let sheet = whole.out.contents();
    for call in 1..11 {
        let ran = run_with(&rt, &SHEET, LIST, 4096, [&[], &[call], &[]])?;
        wrote(&rt, &ran, 6, sheet, call as usize - 1);
    }
    let ran = run_with(&rt, &SHEET, LIST, 4096, [&[], &[11], &[]])?;
    wrote(&rt, &ran, 0, sheet, 10);
    Ok(())
}

#[test]
fn messages_that_fail(rt: HostRuntime) -> Result<(), Fail> {
    for written in 0..USAGE.len() {
        let ran = run_with(&rt, &["sheet"], b"", 1, [&[], &[], &[written as u32 + 1]])?;
        assert_eq!(rt; ran.code, 2);
        assert!(rt; USAGE.as_bytes().starts_with(ran.err.contents()));
        assert_eq!(rt; ran.err.contents().len(), written);
    }
    Ok(())
}
