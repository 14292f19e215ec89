//! Lists from the manual's rules, each read one byte a call and in large pieces, and the table of events.

ghost use Rattle.std.specs.Prelude.{◌<◌};

use arrayvec::ArrayVec;
use scr_list::*;
use scr_notation::Event;
use scr_outside::MemSource;
use std::alloc::{AllocError, Global};
use std::test::Fail;

/// A round as a row: its event, its groups, its minimum and its name.
type Row = (Event, u8, u8, &'static str);

/// One group of Clock with the usual minimum.
const ONE: Row = (Event::Clock, 1, 2, "");

/// Whether these are the rounds of the rows.
fn are_rows(rounds: &[Round], rows: &[Row]) -> bool {
    rounds.len() == rows.len()
        && rounds.iter().zip(rows).all(|(round, row)| {
            (round.event, round.groups, round.least, round.name.as_str()) == *row
        })
}

/// Whether an answer is this one.
fn is_answer(
    answer: Result<ArrayVec<Round, ROUND_ROOM>, ListFault>,
    wanted: Result<&[Row], ListFault>,
) -> bool {
    match (answer, wanted) {
        (Ok(rounds), Ok(rows)) => are_rows(&rounds, rows),
        (Err(fault), Err(wanted)) => fault == wanted,
        _ => false,
    }
}

/// Whether the list is read so, by a source that gives at most so many bytes a call.
fn is_read(
    alloc: Global,
    list: &[u8],
    most: usize,
    wanted: Result<&[Row], ListFault>,
) -> Result<bool, AllocError>
    requires { 0 < most }
{
    let mut source = MemSource::new(list.to_vec(alloc)?, most, Vec::new(alloc));
    Ok(is_answer(read_rounds(&mut source), wanted))
}

/// Whether the list is read so, in single bytes, in two pieces and whole, and by its bytes in hand.
fn reads(
    rt: &impl AllocGlobal,
    list: &[u8],
    wanted: Result<&[Row], ListFault>,
) -> Result<bool, AllocError> {
    Ok(
        is_answer(rounds_of(list), wanted)
            && is_read(rt.alloc(), list, 1, wanted)?
            && is_read(rt.alloc(), list, 4097, wanted)?
            && is_read(rt.alloc(), list, 16_385, wanted)?,
    )
}

/// These bytes, and so many times this line behind them.
fn lengthened(
    alloc: Global,
    front: &[u8],
    line: &[u8],
    count: usize,
) -> Result<Vec<u8>, AllocError> {
    let mut list = front.to_vec(alloc)?;
    for _ in 0..count {
        list.extend_from_slice(line)?;
    }
    Ok(list)
}

/// Lists, and their rounds.
static READ: [(&str, &[Row]); 13] = [
    ("clock 1", &[ONE]),
    ("clock 1\r\n", &[ONE]),
    ("clock 1\r", &[ONE]),
    ("\tclock\t\t1 2 ", &[ONE]),
    ("\n \r\nclock 1\n\n", &[ONE]),
    ("version 2\nclock 1", &[ONE]),
    ("version 2\r\n\nclock 1\n", &[ONE]),
    ("", &[]),
    ("version 2", &[]),
    ("version 2\n", &[]),
    ("version 2\r\n\n", &[]),
    (
        "clock 26 3\n222 5\nminx 3\nclock 1",
        &[
            (Event::Clock, 26, 3, ""),
            (Event::C222, 5, 4, ""),
            (Event::Minx, 3, 0, ""),
            ONE,
        ],
    ),
    (
        "version 2\n333 2 : Final\n222 1 4:\t~ : 123456789012345678901234567890123456\nclock 1\nminx 1: x ",
        &[
            (Event::C333, 2, 2, "Final"),
            (
                Event::C222,
                1,
                4,
                "~ : 123456789012345678901234567890123456",
            ),
            ONE,
            (Event::Minx, 1, 0, "x"),
        ],
    ),
];

#[test]
fn lists_name_rounds(rt: HostRuntime) -> Result<(), Fail> {
    for (list, rounds) in &READ {
        assert!(rt; reads(&rt, list.as_bytes(), Ok(rounds))?, "{list}");
    }
    Ok(())
}

/// Lists that are refused, the line at fault, and its cause.
static REFUSED: [(&str, u32, ListCause); 18] = [
    ("444 1", 1, ListCause::No444),
    ("444", 1, ListCause::Words),
    ("333", 1, ListCause::Words),
    ("clock 1 2 3", 1, ListCause::Words),
    ("444bf 1", 1, ListCause::Event),
    ("magic 1", 1, ListCause::Event),
    ("\u{fe} 1", 1, ListCause::Event),
    ("\nclock 27", 2, ListCause::Groups),
    ("clock 0", 1, ListCause::Groups),
    ("clock 01", 1, ListCause::Groups),
    ("clock +1", 1, ListCause::Groups),
    ("clock 4294967297", 1, ListCause::Groups),
    ("clock 1\r\r\n", 1, ListCause::Groups),
    ("clock 0 4\nclock 1 4", 1, ListCause::Groups),
    ("clock 1 4", 1, ListCause::Minimum),
    ("222 1 12", 1, ListCause::Minimum),
    ("minx 1 0", 1, ListCause::Minimum),
    ("clock 1\n\nclock 1 -1", 3, ListCause::Minimum),
];

#[test]
fn lists_are_refused(rt: HostRuntime) -> Result<(), Fail> {
    for (list, number, cause) in &REFUSED {
        let fault = ListFault::Line {
            number: *number,
            cause: *cause,
        };
        assert!(rt; reads(&rt, list.as_bytes(), Err(fault))?, "{list}");
    }
    assert!(rt;
        reads(
            &rt,
            b"\xff 1",
            Err(ListFault::Line {
                number: 1,
                cause: ListCause::Event
            })
        )?
    );
    Ok(())
}

/// The same of lists of version 2, or that look like one.
static NAMES_REFUSED: [(&str, u32, ListCause); 24] = [
    // no list of version 2
    ("version 3", 1, ListCause::Event),
    (" version 2", 1, ListCause::Event),
    ("version 2 \n", 1, ListCause::Event),
    ("version 2\r", 1, ListCause::Event),
    ("version 2\rx", 1, ListCause::Event),
    ("version 2x", 1, ListCause::Event),
    ("\nversion 2", 2, ListCause::Event),
    ("clock 1:Final", 1, ListCause::Groups),
    ("clock 1 : Final", 1, ListCause::Words),
    // names
    ("version 2\nclock 1 :", 2, ListCause::Name),
    ("version 2\nclock 1 : \t ", 2, ListCause::Name),
    ("version 2\nclock 1 : a\tb", 2, ListCause::Name),
    ("version 2\nclock 1 : a\r\r\n", 2, ListCause::Name),
    ("version 2\nclock 1 : \u{e9}", 2, ListCause::Name),
    ("version 2\nclock 1 : \u{1f}", 2, ListCause::Name),
    ("version 2\nclock 1 : \u{7f}", 2, ListCause::Name),
    (
        "version 2\nclock 1 : 12345678901234567890123456789012345678901",
        2,
        ListCause::Name,
    ),
    ("version 2\n: Final", 2, ListCause::Words),
    ("version 2\n\n :", 3, ListCause::Words),
    ("version 2\nclock : Final", 2, ListCause::Words),
    ("version 2\nclock 1 2 3 : Final", 2, ListCause::Words),
    ("version 2\n444 1 :", 2, ListCause::No444),
    ("version 2\nclock 1 4 :", 2, ListCause::Minimum),
    ("version 2\nversion 2", 2, ListCause::Event),
];

#[test]
fn lists_with_names_are_refused(rt: HostRuntime) -> Result<(), Fail> {
    for (list, number, cause) in &NAMES_REFUSED {
        let fault = ListFault::Line {
            number: *number,
            cause: *cause,
        };
        assert!(rt; reads(&rt, list.as_bytes(), Err(fault))?, "{list}");
    }
    Ok(())
}

/// The front of a list, a line behind it, how often it stands there, and how many rounds the list has, if it has some.
static LONG: [(&str, &str, usize, Result<usize, ListFault>); 8] = [
    ("", "clock 1\n", 64, Ok(64)),
    (
        "",
        "clock 1\n",
        65,
        Err(ListFault::Line {
            number: 65,
            cause: ListCause::Rounds,
        }),
    ),
    ("clock 1\n", "\n", 4088, Ok(1)),
    (
        "clock 1\n",
        "\n",
        4089,
        Err(ListFault::TooLong { limit: 4096 }),
    ),
    ("version 2\n", "clock 1\n", 256, Ok(256)),
    (
        "version 2\n",
        "clock 1\n",
        257,
        Err(ListFault::Line {
            number: 258,
            cause: ListCause::Rounds,
        }),
    ),
    ("version 2\n", "\n", 16_374, Ok(0)),
    (
        "version 2\n",
        "\n",
        16_375,
        Err(ListFault::TooLong { limit: 16_384 }),
    ),
];

/// Whether the list is read as so many rounds of one group of Clock.
fn reads_clocks(
    rt: &impl AllocGlobal,
    list: &[u8],
    wanted: Result<usize, ListFault>,
) -> Result<bool, AllocError> {
    match wanted {
        Ok(count) => reads(rt, list, Ok(&vec![in rt.alloc(); ONE; count]?)),
        Err(fault) => reads(rt, list, Err(fault)),
    }
}

#[test]
fn long_lists(rt: HostRuntime) -> Result<(), Fail> {
    for (front, line, count, wanted) in &LONG {
        let list = lengthened(rt.alloc(), front.as_bytes(), line.as_bytes(), *count)?;
        assert!(rt; reads_clocks(&rt, &list, *wanted)?, "{count}");
    }
    Ok(())
}

/// The front of a list, how many empty lines stand behind it, and how many bytes a call gives; the second fails.
static FAILING: [(&str, usize, usize); 2] = [
    ("clock 1\n", 4089, 4000),
    ("version 2\n", 16_375, 4097),
];

#[test]
fn lists_that_fail(rt: HostRuntime) -> Result<(), Fail> {
    for (front, count, most) in &FAILING {
        assert!(rt; 0 < *most);
        let list = lengthened(rt.alloc(), front.as_bytes(), b"\n", *count)?;
        let mut source = MemSource::new(list, *most, vec![in rt.alloc(); 2]?);
        assert_eq!(rt; read_rounds(&mut source).err(), Some(ListFault::Read));
    }
    Ok(())
}

#[test]
fn a_round_again(rt: HostRuntime) {
    assert!(rt; are_rows(&[Round::default().copied()], &[ONE]));
}
