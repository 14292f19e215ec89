//! Exit codes, of runs on words and where there are none.

use super::{USAGE, ZEROS};
use scr_outside::{MemSink, SliceSource};
use scr_sheet::{NoWords, run_on_words};
use std::process::Abort;
use std::test::Fail;

const LIST_OF_444: &str = "scramble: line 1: 444 is not supported\n";

const MISSED: &str = "scramble: round 1 slot 1: no permitted state in 3 words\n";

/// Words, or why there are none; an input; the exit code, and what is told.
static RUNS: [(Result<&[&str], NoWords>, &str, u8, &str); 7] = [
    (Ok(&["one", "clock", ZEROS]), "", 0, ""),
    (Ok(&["sheet"]), "", 2, USAGE),
    (Ok(&["sheet", "--seed", ZEROS]), "444 1\n", 3, LIST_OF_444),
    (
        Ok(&["sheet", "--seed", ZEROS, "--attempts=1"]),
        "pyram 1 15\n",
        4,
        MISSED,
    ),
    (
        Ok(&["check", "--seed", ZEROS]),
        "clock 1\n=====\nRound 2: Clock, at least 2\n",
        9,
        "scramble: line 1 differs\n",
    ),
    (Err(NoWords::NoMemory), "", 7, "scramble: out of memory\n"),
    (Err(NoWords::NotGiven), "", 1, ""),
];

#[test]
fn exit_codes(rt: HostRuntime) -> Result<(), Fail> {
    for (words, input, code, message) in &RUNS {
        let mut source = SliceSource::new(input.as_bytes());
        let mut out = MemSink::new(rt.alloc(), 4096, 4096, Vec::new(rt.alloc()))?;
        let mut err = MemSink::new(rt.alloc(), 256, 256, Vec::new(rt.alloc()))?;
        let given = run_on_words(&rt, rt.alloc(), *words, &mut source, &mut out, &mut err);
        assert_eq!(rt; given, *code);
        assert_eq!(rt; err.contents(), message.as_bytes());
    }
    Ok(())
}
