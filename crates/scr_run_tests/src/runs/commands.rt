//! Commands, lists and messages.

use super::expected::{
    BY_TABLES, NET_222, NET_333, NET_555, NET_666, NET_777, SCRAMBLE, SCRAMBLE_MINX,
};
use super::{NO_444, USAGE, ZEROS, check, run_with};
use scr_sheet::{Fault, ListCause, ListFault, Missing, Status, UsageFault};
use scr_table::TableName;
use std::process::Abort;
use std::test::Fail;

const JOINED: &str = "--seed=0000000000000000000000000000000000000000000000000000000000000000";

/// Words and a list, and what is written.
static RUNS: [(&[&str], &str, &str); 7] = [
    (&["one", "clock", ZEROS], "", SCRAMBLE),
    (&["one", "minx", ZEROS], "", SCRAMBLE_MINX),
    (&["tables", "clock"], "", "no tables\n"),
    (&["tables", "777"], "", "no tables\n"),
    (&["sheet", JOINED, "--workers=64"], "", ""),
    (&["sheet", JOINED], " \n\t\r\n", ""),
    (&["sheet", JOINED], "version 2\n\n", ""),
];

#[test]
fn words_and_lists(rt: HostRuntime) -> Result<(), Fail> {
    for (words, list, out) in &RUNS {
        check(&rt, words, list.as_bytes(), 0, out, "")?;
    }
    Ok(())
}

/// The nets of scrambled cubes, line by line.
static NETS: [(&str, &[&str]); 6] = [
    ("222", &NET_222),
    ("333", &NET_333),
    ("333oh", &NET_333),
    ("555", &NET_555),
    ("666", &NET_666),
    ("777", &NET_777),
];

#[test]
fn nets_of_scrambled_cubes(rt: HostRuntime) -> Result<(), Fail> {
    for (event, lines) in &NETS {
        let mut text = Vec::new(rt.alloc());
        for line in *lines {
            text.extend_from_slice(line.as_bytes())?;
        }
        let ran = run_with(&rt, &["net", event, ZEROS], b"", 4096, [&[], &[], &[]])?;
        assert_eq!(rt; ran.code, 0);
        assert_eq!(rt; ran.out.contents(), text.as_slice());
    }
    Ok(())
}

/// Words that are refused, and what is told.
static WORDS_REFUSED: [(&[&str], &str); 21] = [
    (&["net", "444", ZEROS], NO_444),
    (&["net", "pyram", ZEROS], USAGE),
    (&["net", "333bf", ZEROS], USAGE),
    (&["net", "333fm", ZEROS], USAGE),
    (&["check", JOINED, "--tries=1"], USAGE),
    (
        &["check", "--seed", "abc"],
        "scramble: seed has 3 characters, not 64\n",
    ),
    (&["tables", "444"], NO_444),
    (&["tables", "magic"], USAGE),
    (
        &[
            "one",
            "clock",
            "000000000000000000000000000000000000000000000000000000000000000g",
        ],
        "scramble: seed has no hexadecimal digit at 63\n",
    ),
    (
        &["one", "clock", "-x"],
        "scramble: seed has 2 characters, not 64\n",
    ),
    (
        &["one", "clock", ""],
        "scramble: seed has 0 characters, not 64\n",
    ),
    (&["one", "444", ZEROS], NO_444),
    (&["one", "magic", ZEROS], USAGE),
    (&["one", "clock"], USAGE),
    (&["one", "clock", ZEROS, ZEROS], USAGE),
    (&[], USAGE),
    (&["sheet"], USAGE),
    (
        &[
            "sheet",
            "--seed==0000000000000000000000000000000000000000000000000000000000000000",
        ],
        "scramble: seed has 65 characters, not 64\n",
    ),
    (
        &["sheet", "--seed", "abc"],
        "scramble: seed has 3 characters, not 64\n",
    ),
    (&["sheet", JOINED, "--workers", "65"], USAGE),
    (&["sheet", JOINED, "--attempts", "1000001"], USAGE),
];

/// Lists that are refused, and what is told.
static LISTS_REFUSED: [(&str, &str); 8] = [
    ("444 1", "scramble: line 1: 444 is not supported\n"),
    ("\nclock 27", "scramble: line 2: groups\n"),
    ("333", "scramble: line 1: words\n"),
    ("444bf 1", "scramble: line 1: unknown event\n"),
    ("clock 1 4", "scramble: line 1: minimum\n"),
    ("version 2\nclock 1 :", "scramble: line 2: name\n"),
    ("version 2\n: Final", "scramble: line 2: words\n"),
    ("version 3", "scramble: line 1: unknown event\n"),
];

#[test]
fn words_and_lists_refused(rt: HostRuntime) -> Result<(), Fail> {
    for (words, err) in &WORDS_REFUSED {
        check(&rt, words, b"", 2, "", err)?;
    }
    for (list, err) in &LISTS_REFUSED {
        check(&rt, &["sheet", JOINED], list.as_bytes(), 3, "", err)?;
    }
    Ok(())
}

#[test]
fn events_with_tables(rt: HostRuntime) -> Result<(), Fail> {
    for (event, scramble, tables) in BY_TABLES {
        check(&rt, &["one", event, ZEROS], b"", 0, scramble, "")?;
        check(&rt, &["tables", event], b"", 0, tables, "")?;
    }
    check(&rt, &["one", "333oh", ZEROS], b"", 0, BY_TABLES[3].1, "")?;
    for event in ["333bf", "333fm"] {
        check(&rt, &["tables", event], b"", 0, BY_TABLES[3].2, "")?;
    }
    // of the Pyraminx, two of the tips of its first draw aren't turned, so that it needs 13 turns at most
    let missed = "scramble: round 1 slot 1: no permitted state in 3 words\n";
    for list in ["222 1 11", "pyram 1 15"] {
        let words = ["sheet", "--seed", ZEROS, "--attempts=1"];
        check(&rt, &words, list.as_bytes(), 4, "", missed)?;
    }
    Ok(())
}

#[test]
fn faults_are_told(rt: HostRuntime) {
    let rounds = ListFault::Line {
        number: 65,
        cause: ListCause::Rounds,
    };
    let gap = Fault::Gap {
        table: TableName::CornerSlice,
        index: 17,
    };
    let limit = Fault::DrawLimit(Missing {
        round: 3,
        slot: 182,
        words: 3_000_000,
    });
    for (fault, code, message) in [
        (Fault::Usage(UsageFault::Grammar), 2, USAGE),
        (
            Fault::List(rounds),
            3,
            "scramble: line 65: too many rounds\n",
        ),
        (
            Fault::List(ListFault::TooLong { limit: 4096 }),
            3,
            "scramble: list is longer than 4096 bytes\n",
        ),
        (
            Fault::List(ListFault::TooLong { limit: 16_384 }),
            3,
            "scramble: list is longer than 16384 bytes\n",
        ),
        (
            limit,
            4,
            "scramble: round 3 slot 182: no permitted state in 3000000 words\n",
        ),
        (
            Fault::List(ListFault::Read),
            5,
            "scramble: input could not be read\n",
        ),
        (Fault::Write, 6, "scramble: output could not be written\n"),
        (Fault::NoMemory, 7, "scramble: out of memory\n"),
        (gap, 8, "scramble: table cornerslice has a gap at 17\n"),
    ] {
        assert_eq!(rt; fault.message().as_str(), message);
        assert_eq!(rt; Status::of(Err(fault)).code(), code);
    }
    assert_eq!(rt; Status::of(Ok(())).code(), 0);
}
