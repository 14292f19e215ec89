//! Sheets of a few lines checked, and inputs split, from sources that give one byte a call, that give all at once, and
//! that fail.

ghost use Rattle.std.specs.Prelude.{◌<◌};
ghost use Rattle.scr_tests.specs.CheckRows.{row_lines};

use scr_check::*;
use scr_outside::{Failed, MemSource};
use std::alloc::{AllocError, Global};
use std::process::Abort;
use std::test::Fail;

/// So many lines: each is `ab`, but the last, which is empty. The slot of one line may be missing.
#[derive(Drop, Clone, Copy)]
struct Rows {
    count: u8,
    missing: u8,
}

impl Expected for Rows {
    ghost lines = { λ rows. row_lines rows.count rows.missing };

    fn count(&self) -> u32 {
        u32::from(self.count)
    }

    fn agrees(&self, line: u32, text: &[u8]) -> Result<bool, Missing> {
        if line == u32::from(self.missing) {
            return Err(Missing {
                round: 1,
                slot: line,
                words: 3,
            });
        }
        let wanted: &[u8] = if line == u32::from(self.count) {
            b""
        } else {
            b"ab"
        };
        Ok(text == wanted)
    }
}

/// What a check says of a sheet, from a source that gives at most so many bytes a call and fails at these.
fn checked(
    alloc: Global,
    rows: Rows,
    sheet: &[u8],
    most: usize,
    fails: &[u32],
) -> Result<Result<(), CheckFault>, AllocError>
    requires { 0 < most }
{
    let mut source = MemSource::new(sheet.to_vec(alloc)?, most, fails.to_vec(alloc)?);
    let mut reader = ByteReader::new(&mut source);
    Ok(check_lines(&mut reader, &rows))
}

/// Whether a check says this of a sheet, in single bytes and whole.
fn comes_to(
    alloc: Global,
    rows: Rows,
    sheet: &[u8],
    wanted: Result<(), CheckFault>,
) -> Result<bool, AllocError> {
    let single = checked(alloc, rows, sheet, 1, &[])?;
    let whole = checked(alloc, rows, sheet, 4096, &[])?;
    Ok(single == wanted && whole == wanted)
}

/// That the second slot is missing.
const SECOND_LACKS: Result<(), CheckFault> = Err(CheckFault::Limit(Missing {
    round: 1,
    slot: 2,
    words: 3,
}));

/// How many lines are expected, the slot that is missing, if any, a sheet, and what its check says.
static SHEETS: [(u8, u8, &str, Result<(), CheckFault>); 16] = [
    (3, 0, "ab\nab\n\n", Ok(())),
    (0, 0, "", Ok(())),
    (1, 0, "\n", Ok(())),
    // The last byte left out, and with it the line that is a line feed alone.
    (3, 0, "ab\nab\n", Err(CheckFault::Differs { line: 3 })),
    (2, 0, "ab", Err(CheckFault::Differs { line: 1 })),
    // Something behind the last line.
    (3, 0, "ab\nab\n\n\n", Err(CheckFault::Differs { line: 4 })),
    (3, 0, "ab\nab\n\nx", Err(CheckFault::Differs { line: 4 })),
    (0, 0, "\n", Err(CheckFault::Differs { line: 1 })),
    (3, 0, "", Err(CheckFault::Differs { line: 1 })),
    (3, 0, "ab\nac\n\n", Err(CheckFault::Differs { line: 2 })),
    (3, 0, "ab\r\nab\n\n", Err(CheckFault::Differs { line: 1 })),
    // A missing slot, whatever stands in its place, where something does and nothing differs before it.
    (3, 2, "ab\nab\n\n", SECOND_LACKS),
    (3, 2, "ab\nx", SECOND_LACKS),
    (3, 2, "ab\n", Err(CheckFault::Differs { line: 2 })),
    (3, 2, "ac\nab\n\n", Err(CheckFault::Differs { line: 1 })),
    (3, 4, "ab\nab\n\nx", Err(CheckFault::Differs { line: 4 })),
];

#[test]
fn sheets_are_checked(rt: HostRuntime) -> Result<(), Fail> {
    for (count, missing, sheet, wanted) in &SHEETS {
        let rows = Rows {
            count: *count,
            missing: *missing,
        };
        assert!(rt;
            comes_to(rt.alloc(), rows, sheet.as_bytes(), *wanted)?,
            "{sheet}"
        );
    }
    Ok(())
}

/// The slot that is missing, if any, where two lines are expected, and what the check of a sheet with a long line says.
static OF_LONG_LINES: [(u8, Result<(), CheckFault>); 2] = [
    (0, Err(CheckFault::Differs { line: 1 })),
    (
        1,
        Err(CheckFault::Limit(Missing {
            round: 1,
            slot: 1,
            words: 3,
        })),
    ),
];

/// A line is judged by its first 1,301 bytes: the read behind them isn't made.
static READS_OF_A_LONG_LINE: [(u32, CheckFault); 2] = [
    (1302, CheckFault::Differs { line: 1 }),
    (1301, CheckFault::Read),
];

/// A sheet of one line is judged as one with a long line.
fn is_long<R: Abort + AllocGlobal>(rt: &R, sheet: &[u8]) -> Result<(), Fail> {
    for (missing, wanted) in &OF_LONG_LINES {
        let rows = Rows {
            count: 2,
            missing: *missing,
        };
        assert!(rt; comes_to(rt.alloc(), rows, sheet, *wanted)?);
    }
    Ok(())
}

/// A sheet of a long line is read so far as the line is judged.
fn is_read_in_part<R: Abort + AllocGlobal>(rt: &R, sheet: &[u8]) -> Result<(), Fail> {
    let rows = Rows {
        count: 2,
        missing: 0,
    };
    for (call, fault) in &READS_OF_A_LONG_LINE {
        assert!(rt; checked(rt.alloc(), rows, sheet, 1, &[*call])? == Err(*fault));
    }
    Ok(())
}

#[test]
fn long_lines(rt: HostRuntime) -> Result<(), Fail> {
    let mut sheet = vec![in rt.alloc(); b'a'; 1299]?;
    for _ in 0..3 {
        sheet.push(b'a')?;
        is_long(&rt, &sheet)?;
    }
    is_read_in_part(&rt, &sheet)
}

#[test]
fn reads_that_fail(rt: HostRuntime) -> Result<(), Fail> {
    let rows = Rows {
        count: 3,
        missing: 0,
    };
    // The eighth read would meet the end.
    for call in 1..10 {
        let answer = checked(rt.alloc(), rows, b"ab\nab\n\n", 1, &[call])?;
        let wanted = if call < 9 {
            Err(CheckFault::Read)
        } else {
            Ok(())
        };
        assert!(rt; answer == wanted, "{call}");
    }
    Ok(())
}

/// Whether an input is split so, by a source that gives at most so many bytes a call; the end is met once.
fn is_split(
    alloc: Global,
    input: &[u8],
    most: usize,
    list: &[u8],
    sheet: &[u8],
) -> Result<bool, AllocError>
    requires { 0 < most }
{
    let mut source = MemSource::new(input.to_vec(alloc)?, most, Vec::new(alloc));
    let mut reader = ByteReader::new(&mut source);
    let is_list = list_part(&mut reader).is_ok_and(|part| part.as_slice() == list);
    let mut is_sheet = true;
    for byte in sheet {
        is_sheet = is_sheet && reader.next() == Ok(Some(*byte));
    }
    Ok(is_list && is_sheet && reader.next() == Ok(None) && reader.next() == Ok(None))
}

/// Inputs, and the list and the sheet that each is split into.
static INPUTS: [(&str, &str, &str); 12] = [
    ("", "", ""),
    ("=====", "", ""),
    ("=====\n", "", ""),
    ("=====\nab\n", "", "ab\n"),
    ("clock 1\n=====\nab", "clock 1\n", "ab"),
    ("clock 1\n=====", "clock 1\n", ""),
    ("clock 1\n=====\n=====\n", "clock 1\n", "=====\n"),
    ("clock 1\n", "clock 1\n", ""),
    ("clock 1=====\n", "clock 1=====\n", ""),
    ("======\n", "======\n", ""),
    ("=====\r\n", "=====\r\n", ""),
    ("====\n\n=====\n", "====\n\n", ""),
];

#[test]
fn inputs_are_split(rt: HostRuntime) -> Result<(), Fail> {
    for (input, list, sheet) in &INPUTS {
        for most in [1, 4096] {
            assert!(rt;
                is_split(
                    rt.alloc(),
                    input.as_bytes(),
                    most,
                    list.as_bytes(),
                    sheet.as_bytes()
                )?,
                "{input}"
            );
        }
    }
    Ok(())
}

/// How many bytes the list part of an input has, unless reading fails.
fn list_length(alloc: Global, input: Vec<u8>) -> Option<usize> {
    let mut source = MemSource::new(input, 1000, Vec::new(alloc));
    let part = list_part(&mut ByteReader::new(&mut source));
    part.ok().map(|list| list.len())
}

#[test]
fn long_lists(rt: HostRuntime) -> Result<(), Fail> {
    let mut input = vec![in rt.alloc(); b'\n'; 16384]?;
    let list = input.to_vec(rt.alloc())?;
    input.extend_from_slice(b"=====\nab\n")?;
    assert!(rt; is_split(rt.alloc(), &input, 4096, &list, b"ab\n")?);
    input.insert(0, b'\n')?;
    assert_eq!(rt; list_length(rt.alloc(), input), Some(LIST_ROOM));
    Ok(())
}

#[test]
fn lists_that_fail(rt: HostRuntime) -> Result<(), Fail> {
    for call in 1..10 {
        let input = b"clock 1\n".to_vec(rt.alloc())?;
        let mut source = MemSource::new(input, 1, vec![in rt.alloc(); call]?);
        let part = list_part(&mut ByteReader::new(&mut source));
        assert_eq!(rt; part.err(), Some(Failed), "{call}");
    }
    Ok(())
}
