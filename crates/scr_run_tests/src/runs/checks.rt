//! Sheets that are checked.

use super::{USAGE, ZEROS, check, run_with};
use std::alloc::Global;
use std::process::Abort;
use std::test::Fail;

/// A list, the line behind it, and the sheet that is written for the list under an option.
fn input_of<R: AllocGlobal + std::thread::Threads + Sync>(
    rt: &R,
    list: &str,
    option: &str,
) -> Result<Vec<u8>, Fail> {
    let words = ["sheet", "--seed", ZEROS, option];
    let sheet = run_with(rt, &words, list.as_bytes(), 4096, [&[], &[], &[]])?;
    let mut input = Vec::new(rt.alloc());
    input.extend_from_slice(list.as_bytes())?;
    input.extend_from_slice(b"=====\n")?;
    input.extend_from_slice(sheet.out.contents())?;
    Ok(input)
}

/// An input in which the first of these texts stands in place of another; nothing where that isn't there.
fn with_text(alloc: Global, input: &[u8], old: &str, new: &str) -> Result<Vec<u8>, Fail> {
    let mut changed = Vec::new(alloc);
    if let Ok(text) = str::from_utf8(input) {
        if let Some((front, behind)) = text.split_once(old) {
            changed.extend_from_slice(front.as_bytes())?;
            changed.extend_from_slice(new.as_bytes())?;
            changed.extend_from_slice(behind.as_bytes())?;
        }
    }
    Ok(changed)
}

const CHECK: [&str; 3] = ["check", "--seed", ZEROS];

#[test]
fn sheets_of_clocks(rt: HostRuntime) -> Result<(), Fail> {
    let input = input_of(&rt, "clock 1\n", "--workers=1")?;
    check(&rt, &CHECK, &input, 0, "agrees\n", "")?;
    let other = with_text(rt.alloc(), &input, "U3-", "U2-")?;
    check(&rt, &CHECK, &other, 9, "", "scramble: line 3 differs\n")?;
    if let Some((_last, cut)) = input.split_last() {
        check(&rt, &CHECK, cut, 9, "", "scramble: line 10 differs\n")?;
    }
    let mut longer = input.to_vec(rt.alloc())?;
    longer.push(b'\n')?;
    check(&rt, &CHECK, &longer, 9, "", "scramble: line 11 differs\n")?;
    let lower = with_text(rt.alloc(), &input, "clock 1\n=", "clock 1 1\n=")?;
    check(&rt, &CHECK, &lower, 9, "", "scramble: line 1 differs\n")?;
    Ok(())
}

// Turns that undo each other change no state, and the way in which a scramble leads to it isn't asked.
#[test]
fn sheets_by_play(rt: HostRuntime) -> Result<(), Fail> {
    let input = input_of(
        &rt,
        "222 1\npyram 1\nskewb 1\n777 1\nminx 1\n",
        "--workers=3",
    )?;
    check(&rt, &CHECK, &input, 0, "agrees\n", "")?;
    let undone = with_text(rt.alloc(), &input, "\n2. ", " U U'\n2. ")?;
    check(&rt, &CHECK, &undone, 0, "agrees\n", "")?;
    let turned = with_text(rt.alloc(), &input, "\n2. ", " U\n2. ")?;
    check(&rt, &CHECK, &turned, 9, "", "scramble: line 3 differs\n")?;
    let label = with_text(rt.alloc(), &input, "\n2. ", "\n3. ")?;
    check(&rt, &CHECK, &label, 9, "", "scramble: line 4 differs\n")?;
    Ok(())
}

// A Square-1 may have another scramble under another option; one for fewest moves stands between its frames.
#[test]
fn sheets_by_more_than_play(rt: HostRuntime) -> Result<(), Fail> {
    let shorter = input_of(&rt, "sq1 1\n", "--short=50")?;
    check(&rt, &CHECK, &shorter, 0, "agrees\n", "")?;
    let fewest = input_of(&rt, "333fm 1\n", "--tries=0")?;
    check(&rt, &CHECK, &fewest, 0, "agrees\n", "")?;
    let undone = with_text(rt.alloc(), &fewest, "F\n2. ", "F U U'\n2. ")?;
    check(&rt, &CHECK, &undone, 9, "", "scramble: line 3 differs\n")?;
    Ok(())
}

#[test]
fn inputs_without_a_sheet(rt: HostRuntime) -> Result<(), Fail> {
    let missing = "scramble: round 1 slot 1: no permitted state in 3 words\n";
    let once = ["check", "--seed", ZEROS, "--attempts=1"];
    check(&rt, &CHECK, b"", 0, "agrees\n", "")?;
    check(&rt, &CHECK, b"=====", 0, "agrees\n", "")?;
    check(&rt, &CHECK, b"clock 1", 9, "", "scramble: line 1 differs\n")?;
    check(
        &rt,
        &CHECK,
        b"=====\n\n",
        9,
        "",
        "scramble: line 1 differs\n",
    )?;
    check(
        &rt,
        &CHECK,
        b"magic 1",
        3,
        "",
        "scramble: line 1: unknown event\n",
    )?;
    check(&rt, &CHECK[..2], b"", 2, "", USAGE)?;
    let head = b"222 1 11\n=====\nRound 1: 2x2x2 Cube, at least 11\nGroup A\n1. U\n";
    check(&rt, &once, head, 4, "", missing)?;
    Ok(())
}
