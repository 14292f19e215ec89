//! Lists as long as they may be, and longer.

use super::{ZEROS, run_with};
use std::process::Abort;
use std::test::Fail;

/// A line, and the same piece behind it so many times.
#[derive(Clone, Copy)]
struct Long {
    line: &'static str,
    piece: &'static str,
    times: u32,
}

const TOO_LONG: &str = "scramble: list is longer than 4096 bytes\n";

const TOO_MANY: &str = "scramble: line 65: too many rounds\n";

/// A list, how many rounds it has, and what is told.
static LISTS: [(Long, usize, &str); 5] = [
    (
        Long {
            line: "clock 1\n",
            piece: "clock 1\n",
            times: 63,
        },
        64,
        "",
    ),
    (
        Long {
            line: "clock 1\n",
            piece: "clock 1\n",
            times: 64,
        },
        0,
        TOO_MANY,
    ),
    (
        Long {
            line: "clock 1\n",
            piece: "\n",
            times: 4088,
        },
        1,
        "",
    ),
    (
        Long {
            line: "clock 1\n",
            piece: "\n",
            times: 4089,
        },
        0,
        TOO_LONG,
    ),
    (
        Long {
            line: "444 1",
            piece: "\n",
            times: 4092,
        },
        0,
        TOO_LONG,
    ),
];

#[test]
fn lists_at_their_limits(rt: HostRuntime) -> Result<(), Fail> {
    for (long, rounds, err) in &LISTS {
        let mut list = Vec::new(rt.alloc());
        list.extend_from_slice(long.line.as_bytes())?;
        for _ in 0..long.times {
            list.extend_from_slice(long.piece.as_bytes())?;
        }
        let ran = run_with(
            &rt,
            &["sheet", "--seed", ZEROS],
            &list,
            4096,
            [&[], &[], &[]],
        )?;
        let lines = ran
            .out
            .contents()
            .iter()
            .filter(|byte| **byte == b'\n')
            .count();
        assert_eq!(rt; ran.code, if err.is_empty() { 0 } else { 3 });
        assert_eq!(rt; ran.err.contents(), err.as_bytes());
        assert_eq!(rt; lines, 10 * *rounds);
    }
    Ok(())
}
