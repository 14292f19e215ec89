//! Runs that fill a file: what is written, and what is told of files and sheets that don't fit.

use crate::ran::check;
use std::test::Fail;

/// A file with what a sheet leaves as it is, up to the sets of a 6x6x6; sets, which a sheet replaces; and what stands
/// behind them, up to a Clock without sets.
const FRONT: &str =
    "{\"formatVersion\":\"1.0\",\"name\":\"\\u00c4 \\\"Cup\\\" \\/ \\ud83c\\udfb2\",\"persons\":[{\"registration\":null}],\
\"events\":[{\"id\":\"444\",\"rounds\":[{\"id\":\"444-r1\",\"scrambleSetCount\":1,\"scrambleSets\":[]}]},\
{\"id\":\"666\",\"rounds\":[{\"id\":\"666-r1\",\"scrambleSetCount\":1,\"scrambleSets\":";

const OLD_SETS: &str = "[{\"id\":7,\"scrambles\":[]}]";

const BEHIND: &str = ",\"cutoff\":null}]},\
{\"id\":\"clock\",\"rounds\":[{\"scrambleSetCount\":2,\"id\":\"clock-r1\",\"results\":[1.50,-0e1]";

const END: &str =
    "}],\"x\":{}}],\"schedule\":{\"events\":[{\"rounds\":[{\"id\":\"666-r1\"}]}]},\"extensions\":[]}";

/// The file's front as it is written: without needless escapes.
const WRITTEN: &str =
    "{\"formatVersion\":\"1.0\",\"name\":\"Ä \\\"Cup\\\" / 🎲\",\"persons\":[{\"registration\":null}],\
\"events\":[{\"id\":\"444\",\"rounds\":[{\"id\":\"444-r1\",\"scrambleSetCount\":1,\"scrambleSets\":[]}]},\
{\"id\":\"666\",\"rounds\":[{\"id\":\"666-r1\",\"scrambleSetCount\":1,\"scrambleSets\":";

/// The rounds of its sheet, and their sets.
const SIX: &str =
    "Round 1: 6x6x6 Cube, random moves, Final\nGroup A\n1. 3Uw U'\n2. Dw2\n3. B' Lw\nE1. F\nE2. F2\n\n";

const CLOCK_A: &str =
    "Round 2: Clock, at least 2\nGroup A\n1. UR1+\n2. UR2+\n3. y2\n4. ALL5-\n5. UL3-\nE1. U1+\nE2. U2+\n\n";

const CLOCK_B: &str = "Group B\n1. DR1+\n2. DR2+\n3. y2\n4. ALL0+\n5. DL3-\nE1. L1+\nE2. L2+\n\n";

const SIX_SETS: &str =
    "[{\"id\":1,\"scrambles\":[\"3Uw U'\",\"Dw2\",\"B' Lw\"],\"extraScrambles\":[\"F\",\"F2\"]}]";

const CLOCK_SETS: &str = ",\"scrambleSets\":[\
{\"id\":1,\"scrambles\":[\"UR1+\",\"UR2+\",\"y2\",\"ALL5-\",\"UL3-\"],\"extraScrambles\":[\"U1+\",\"U2+\"]},\
{\"id\":2,\"scrambles\":[\"DR1+\",\"DR2+\",\"y2\",\"ALL0+\",\"DL3-\"],\"extraScrambles\":[\"L1+\",\"L2+\"]}]";

/// The parts of the file, and of the sheet behind it.
static FILE: [&str; 4] = [FRONT, OLD_SETS, BEHIND, END];

static SHEET: [&str; 4] = ["\n=====\n", SIX, CLOCK_A, CLOCK_B];

/// Reads and writes that fail, the exit code, and what is written, in parts, and told.
static FILLED: [([&[u32]; 2], u8, &[&str], &str); 3] = [
    (
        [&[], &[]],
        0,
        &[WRITTEN, SIX_SETS, BEHIND, CLOCK_SETS, END],
        "left out: 444 1: Final",
    ),
    ([&[5], &[]], 5, &[], "input could not be read"),
    (
        [&[], &[2]],
        6,
        &["{\"formatV"],
        "output could not be written",
    ),
];

#[test]
fn a_file_is_filled(rt: HostRuntime) -> Result<(), Fail> {
    for (fails, code, out, message) in &FILLED {
        check(&rt, "fill", &FILE, &SHEET, *fails, *code, out, message)?;
    }
    Ok(())
}

/// A second round of another event, and a third round.
const OTHER_EVENT: &str =
    "Round 2: Skewb, at least 2\nGroup A\n1. U\n2. U\n3. U\n4. U\n5. U\nE1. U\nE2. U\n\n";

const THIRD: &str =
    "Round 3: Skewb, at least 2\nGroup A\n1. U\n2. U\n3. U\n4. U\n5. U\nE1. U\nE2. U\n\n";

/// Inputs behind the file, in parts, that are refused, and what is told of each.
static REFUSED: [(&[&str], &str); 11] = [
    (&["\n", SIX], "no line ===== between a file and a sheet"),
    (
        &["=====\n", SIX],
        "no line ===== between a file and a sheet",
    ),
    (&["\n====="], "no line ===== between a file and a sheet"),
    (
        &["\n=====\n=====\n", SIX],
        "sheet line 1: no head of the next round",
    ),
    (
        &[
            "\n=====\n",
            SIX,
            "Round 2: Clock, at least 2\nGroup A\n1. U\n",
        ],
        "sheet line 11: no scramble of the event",
    ),
    (
        &["\n=====\n", SIX, "Round 2: Clock, at least 2\n"],
        "sheet line 10: the sheet ends within a round",
    ),
    (&["\n=====\n"], "sheet round 1: missing"),
    (&["\n=====\n", SIX], "sheet round 2: missing"),
    (
        &["\n=====\n", SIX, CLOCK_A],
        "sheet round 2: another number of groups",
    ),
    (
        &["\n=====\n", SIX, OTHER_EVENT],
        "sheet round 2: another event",
    ),
    (
        &["\n=====\n", SIX, CLOCK_A, CLOCK_B, THIRD],
        "sheet round 3: not in the file",
    ),
];

/// Inputs without such a file, and what is told of each.
static NO_FILES: [(&str, &str); 2] = [
    ("[]\n=====\n", "no competition: no list of events"),
    ("{\"events\":[]\n=====\nx", "no JSON at byte 13"),
];

#[test]
fn what_does_not_fit_is_refused(rt: HostRuntime) -> Result<(), Fail> {
    for (input, message) in &REFUSED {
        check(&rt, "fill", &FILE, input, [&[], &[]], 3, &[], message)?;
    }
    for (input, message) in &NO_FILES {
        check(&rt, "fill", &[input], &[], [&[], &[]], 3, &[], message)?;
    }
    Ok(())
}
