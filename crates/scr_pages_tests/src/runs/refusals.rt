//! Runs that write no pages, or only a first part of them, each with its exit code and its message.

use super::printed::{FIRST, sheet};
use super::{run_with, with_text};
use scr_outside::{MemSink, SliceSource};
use scr_pages::{MOST_BYTES, Pages, run_on_words};
use std::process::Abort;
use std::test::Fail;

const USAGE: &str =
    "usage: [--html] [--name COMPETITION] [--group N] [--pictures no|yes] [--regulations no|yes] < SHEET > PAGES";

const BARRED: &str = "line 3: a turn of the Square-1 is barred where it stands";

const NEAR: &str =
    "line 3: a Square-1 that fewer than 11 turns solve (Regulations 4b3): draw a new seed, and print all anew";

/// Runs with one word, writes nothing, and ends with this code and this message.
fn refused<R: Abort + AllocGlobal>(
    rt: &R,
    word: &str,
    sheet: &str,
    code: u8,
    message: &str,
) -> Result<(), Fail> {
    let told = format!(in rt.alloc(); "scramble-pages: {message}\n")?;
    let ran = run_with(rt.alloc(), &[word], sheet, &[], &[])?;
    assert_eq!(rt; ran.err.contents(), told.as_bytes());
    assert_eq!(rt; ran.code, code);
    assert_eq!(rt; ran.out.contents(), b"".as_slice());
    Ok(())
}

/// Words that ask for nothing.
static WORDS_REFUSED: [&[&str]; 8] = [
    &["sheet.txt"],
    &["--text"],
    &["--name"],
    &["--html", "--group"],
    &["--group", "0"],
    &["--group=4294967296"],
    &["--pictures", "maybe"],
    &["--regulations="],
];

// The words alone are at fault, and the input isn't read.
#[test]
fn words_that_ask_for_nothing(rt: HostRuntime) -> Result<(), Fail> {
    let told = format!(in rt.alloc(); "scramble-pages: {USAGE}\n")?;
    for words in &WORDS_REFUSED {
        let ran = run_with(rt.alloc(), words, "", &[1], &[])?;
        assert_eq!(rt; ran.code, 2);
        assert_eq!(rt; ran.err.contents(), told.as_bytes());
        assert_eq!(rt; ran.out.contents(), b"".as_slice());
    }
    Ok(())
}

/// A text, another in its place, by which a sheet is spoilt, and what is told of it.
static SPOILT: [(&str, &str, &str); 6] = [
    ("Round 2", "Round 3", "line 11: no head of the next round"),
    ("Group A", "Group B", "line 2: no name of the next group"),
    (
        "\n3. ",
        "\n4. ",
        "line 5: not the label of the next scramble",
    ),
    ("\n3. ", "\n3. U ", "line 5: no scramble of the event"),
    ("\n\n", "\n \n", "line 10: no empty line behind the group"),
    ("\n1. ", "\n1. (2,0) / ", BARRED),
];

#[test]
fn what_is_no_sheet(rt: HostRuntime) -> Result<(), Fail> {
    let sheet = sheet(rt.alloc(), 0, 13)?;
    for (old, new, message) in &SPOILT {
        let spoilt = with_text(rt.alloc(), sheet.as_str(), old, new)?;
        refused(&rt, "--html", spoilt.as_str(), 3, message)?;
        refused(&rt, "--regulations=no", spoilt.as_str(), 3, message)?;
    }
    let line = "Round 1: Skewb, at least 7\nGroup A\n1. U";
    refused(
        &rt,
        "--html",
        line,
        3,
        "line 3: no line feed ends the last line",
    )?;
    let begun = "Round 1: Skewb, at least 7\n";
    refused(
        &rt,
        "--html",
        begun,
        3,
        "line 2: the sheet ends within a round",
    )?;
    let group = "no such group: the sheet has 13";
    refused(&rt, "--group=14", sheet.as_str(), 3, group)
}

// A Square-1 that three turns solve.
#[test]
fn a_square_1_near_solved(rt: HostRuntime) -> Result<(), Fail> {
    let sheet = sheet(rt.alloc(), 0, 13)?;
    let near = with_text(rt.alloc(), sheet.as_str(), FIRST, "(1,0) / (-1,0)")?;
    refused(&rt, "--html", near.as_str(), 10, NEAR)?;
    refused(&rt, "--regulations=yes", near.as_str(), 10, NEAR)?;
    let ran = run_with(rt.alloc(), &["--regulations=no"], near.as_str(), &[], &[])?;
    assert_eq!(rt; ran.code, 0);
    Ok(())
}

// An input of one byte more than it may have.
#[test]
fn an_input_that_is_too_long(rt: HostRuntime) -> Result<(), Fail> {
    let bytes = vec![in rt.alloc(); 0u8; MOST_BYTES + 1]?;
    let mut source = SliceSource::new(&bytes);
    let mut out = MemSink::new(rt.alloc(), 256, 256, Vec::new(rt.alloc()))?;
    let mut err = MemSink::new(rt.alloc(), 256, 256, Vec::new(rt.alloc()))?;
    let words: [&str; 1] = ["--html"];
    let code = run_on_words(
        &Pages,
        rt.alloc(),
        Ok(&words),
        &mut source,
        &mut out,
        &mut err,
    );
    assert_eq!(rt; code, 3);
    assert_eq!(rt;
        err.contents(),
        b"scramble-pages: input is longer than 67108864 bytes\n".as_slice()
    );
    assert_eq!(rt; out.contents(), b"".as_slice());
    Ok(())
}

// Reads that fail at the begin, in the midst and at the end; writes of a thousand bytes that do.
#[test]
fn reads_and_writes_that_fail(rt: HostRuntime) -> Result<(), Fail> {
    let sheet = sheet(rt.alloc(), 0, 13)?;
    for read in [1, 2, 3] {
        let ran = run_with(rt.alloc(), &["--html"], sheet.as_str(), &[read], &[])?;
        assert_eq!(rt; ran.code, 5);
        assert_eq!(rt;
            ran.err.contents(),
            b"scramble-pages: input could not be read\n".as_slice()
        );
        assert_eq!(rt; ran.out.contents(), b"".as_slice());
    }
    for form in ["--html", "--group=8"] {
        let whole = run_with(rt.alloc(), &[form], sheet.as_str(), &[], &[])?;
        for write in [1, 2, 3, 4] {
            let ran = run_with(rt.alloc(), &[form], sheet.as_str(), &[], &[write])?;
            let part = ran.out.contents();
            assert_eq!(rt; ran.code, 6);
            assert_eq!(rt;
                ran.err.contents(),
                b"scramble-pages: output could not be written\n".as_slice()
            );
            assert!(rt; whole.out.contents().starts_with(part));
            assert!(rt; part.len() < whole.out.contents().len());
            assert_eq!(rt; part.is_empty(), write == 1);
        }
    }
    Ok(())
}
