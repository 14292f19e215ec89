//! Sheets that are read, and sheets that are spoilt at one place.

use scr_notation::Event;
use scr_read::{SheetCause, SheetFault, SheetGroups, read};
use std::alloc::{AllocError, Global};
use std::test::Fail;

/// A head of each event's rounds, whether a group has five scrambles besides the extra ones and not three, and a
/// scramble.
static EVENTS: [(&str, bool, &str); 13] = [
    ("2x2x2 Cube, at least 4", true, "U R2 F'"),
    ("3x3x3 Cube, at least 0, First round", true, "U D2 L'"),
    ("3x3x3 One-Handed, at least 5", true, "R B2"),
    ("5x5x5 Cube, random moves", true, "Rw Bw2 U'"),
    ("6x6x6 Cube, random moves, a, b", false, "3Rw Bw2"),
    ("7x7x7 Cube, random moves", false, "3Bw' D"),
    ("Clock, at least 3", true, "UR0+ ALL5- y2"),
    ("Megaminx, random moves", true, "R++ D-- U'"),
    ("Pyraminx, at least 15", true, "U L' r b'"),
    ("Skewb, at least 11", true, "U B'"),
    ("Square-1, at least 4, Final", true, "(1,0) / (-3,6)"),
    ("3x3x3 Blindfolded, at least 2", false, "R Fw'"),
    ("3x3x3 Fewest Moves, at least 2", false, "R' U' F R' U' F"),
];

/// The labels of a group of five scrambles, and of three.
const FIVE: [&str; 7] = ["1. ", "2. ", "3. ", "4. ", "5. ", "E1. ", "E2. "];

const THREE: [&str; 5] = ["1. ", "2. ", "3. ", "E1. ", "E2. "];

/// A sheet of two rounds, the second of two groups. Its scrambles don't matter, and some are empty.
const SHEET: &str =
    "Round 1: 6x6x6 Cube, random moves\nGroup A\n1. 3Uw U\n2. Dw2\n3. B' Lw\nE1. \nE2. F2\n\n\
Round 2: Clock, at least 2, Final\nGroup A\n1. \n2. UR0+\n3. y2\n4. \n5. \nE1. \nE2. \n\n\
Group B\n1. \n2. \n3. \n4. \n5. \nE1. \nE2. \n\n";

/// A line in place of another, by its number, and the cause that is told of it.
static SPOILT: [(u32, &str, SheetCause); 19] = [
    (1, "Round 2: 6x6x6 Cube, random moves", SheetCause::Head),
    (1, "Round 1: 4x4x4 Cube, random moves", SheetCause::Head),
    (1, "Round 1: 6x6x6 Cube, at least 0", SheetCause::Head),
    (1, "Round 1: 6x6x6 Cube, random moves, ", SheetCause::Head),
    (1, "Group A", SheetCause::Head),
    (3, "2. Dw2", SheetCause::Label),
    (3, "1.3Uw U", SheetCause::Label),
    (4, "2. UR0+", SheetCause::Scramble),
    (5, "3. B'  Lw", SheetCause::Scramble),
    (5, "3. B' Lw ", SheetCause::Scramble),
    (6, "4. U", SheetCause::Label),
    (8, " ", SheetCause::GroupEnd),
    (9, "Round 2: Clock, at least 4, Final", SheetCause::Head),
    (9, "Round 2: Clock, at least 02", SheetCause::Head),
    (9, "Round 2: Clock, at least 2, Final ", SheetCause::Head),
    (10, "Round 3: Clock, at least 2", SheetCause::Head),
    (10, "Group B", SheetCause::Group),
    (19, "Group A", SheetCause::Group),
    (27, "E2. ", SheetCause::GroupEnd),
];

/// How many bytes of the sheet stand, and the line at fault and its cause, where they are no sheet.
static CUT: [(usize, Option<(u32, SheetCause)>); 7] = [
    (0, None),
    (80, None),
    (159, None),
    (34, Some((2, SheetCause::End))),
    (144, Some((15, SheetCause::End))),
    (139, Some((13, SheetCause::LineFeed))),
    (87, Some((9, SheetCause::LineFeed))),
];

/// The groups of the sheet: round, event, number, line with the name, scrambles, and the turns of the first of them.
static GROUPS: [(u32, Event, u32, u32, usize, usize); 3] = [
    (0, Event::C666, 0, 2, 5, 2),
    (1, Event::Clock, 0, 10, 7, 0),
    (1, Event::Clock, 1, 19, 7, 0),
];

/// What is told of a text, which is short.
fn told(text: &[u8]) -> Option<Result<(), SheetFault>> {
    if text.len() < 1000 {
        Some(read(text))
    } else {
        None
    }
}

/// What is told of the next group.
fn next_told(groups: &mut SheetGroups) -> Option<(u32, Event, u32, u32, usize, usize)> {
    let group = groups.next()?;
    let scrambles = group.scrambles();
    let turns = scrambles[0].turns().len();
    Some((
        group.round(),
        group.event(),
        group.number(),
        group.line(),
        scrambles.len(),
        turns,
    ))
}

/// The sheet of a round of one group.
fn one_group(
    alloc: Global,
    head: &str,
    labels: &[&str],
    scramble: &str,
) -> Result<String, AllocError> {
    let mut text = String::new(alloc);
    text.push_str("Round 1: ")?;
    text.push_str(head)?;
    text.push_str("\nGroup A\n")?;
    for label in labels {
        text.push_str(label)?;
        text.push_str(scramble)?;
        text.push_str("\n")?;
    }
    text.push_str("\n")?;
    Ok(text)
}

/// The sheet with a line in place of the one with this number.
fn with_line(alloc: Global, number: u32, line: &str) -> Result<String, AllocError> {
    let mut text = String::new(alloc);
    let mut left = number;
    for own in SHEET.lines() {
        text.push_str(if left == 1 { line } else { own })?;
        text.push_str("\n")?;
        left = left.saturating_sub(1);
    }
    Ok(text)
}

#[test]
fn each_event(rt: HostRuntime) -> Result<(), Fail> {
    for (head, has_five, scramble) in &EVENTS {
        let labels = if *has_five {
            FIVE.as_slice()
        } else {
            THREE.as_slice()
        };
        let text = one_group(rt.alloc(), head, labels, scramble)?;
        assert_eq!(rt; told(text.as_bytes()), Some(Ok(())), "{head}");
    }
    assert_eq!(rt; told(SHEET.as_bytes()), Some(Ok(())));
    Ok(())
}

#[test]
fn spoilt_lines(rt: HostRuntime) -> Result<(), Fail> {
    for (line, other, cause) in &SPOILT {
        let text = with_line(rt.alloc(), *line, other)?;
        let fault = SheetFault {
            line: *line,
            cause: *cause,
        };
        assert_eq!(rt; told(text.as_bytes()), Some(Err(fault)), "{other}");
    }
    Ok(())
}

#[test]
fn texts_that_end_early(rt: HostRuntime) -> Result<(), Fail> {
    for (bytes, fault) in &CUT {
        let found = match *fault {
            Some((line, cause)) => Err(SheetFault { line, cause }),
            None => Ok(()),
        };
        if let Some((part, _)) = SHEET.as_bytes().split_at_checked(*bytes) {
            assert_eq!(rt; told(part), Some(found), "{bytes}");
        }
    }
    Ok(())
}

#[test]
fn groups_of_a_sheet(rt: HostRuntime) -> Result<(), Fail> {
    match SheetGroups::of(SHEET.as_bytes()) {
        Ok(mut groups) => {
            for found in &GROUPS {
                assert_eq!(rt; next_told(&mut groups), Some(*found));
            }
            assert_eq!(rt; next_told(&mut groups), None);
        }
        Err(fault) => assert_eq!(rt; fault.line, 0),
    }
    Ok(())
}
