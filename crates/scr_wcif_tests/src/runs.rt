//! Runs on files as competitions have them, on files that are refused, and with inputs and outputs that fail.

use crate::ran::check;
use std::test::Fail;

/// A file with what is left out, a name that needs escapes, and parts that no list needs.
const FILE: &str =
    "{\"formatVersion\":\"1.0\",\"name\":\"\\u00c4 \\\"Cup\\\"\",\"persons\":[{\"registration\":null}],
\"events\":[{\"id\":\"444bf\",\"rounds\":[{\"id\":\"444bf-r1\",\"scrambleSetCount\":1}]},
{\"id\":\"clock\",\"rounds\":[{\"id\":\"clock-r1\",\"scrambleSetCount\":26,\"cutoff\":null},
{\"scrambleSetCount\":1,\"scrambleSets\":[],\"id\":\"clock-r2\"}],\"competitorLimit\":null},
{\"id\":\"777\",\"rounds\":[]}],\"schedule\":{},\"extensions\":[]}";

const LIST: &str = "version 2\nclock 26: First round\nclock 1: Final\n";

const LEFT_OUT: &str = "left out: 444bf 1: Final";

#[test]
fn a_list_is_written(rt: HostRuntime) -> Result<(), Fail> {
    check(&rt, "list", &[FILE], &[], [&[], &[]], 0, &[LIST], LEFT_OUT)
}

/// Reads and writes that fail, the exit code, and what is written and told.
static FAILING: [([&[u32]; 2], u8, &str, &str); 2] = [
    ([&[3], &[]], 5, "", "input could not be read"),
    ([&[], &[2]], 6, "version 2", "output could not be written"),
];

#[test]
fn faults_are_told(rt: HostRuntime) -> Result<(), Fail> {
    for (fails, code, out, message) in &FAILING {
        check(&rt, "list", &[FILE], &[], *fails, *code, &[out], message)?;
    }
    Ok(())
}

/// Texts that are refused, and what is told of each.
static REFUSED: [(&str, &str); 10] = [
    ("{\"events\":[]", "no JSON at byte 12"),
    ("{\"events\":{}}", "no competition: no list of events"),
    ("[]", "no competition: no list of events"),
    (
        "{\"events\":[],\"\\u0065vents\":[]}",
        "an object has a key twice",
    ),
    (
        "{\"events\":[{\"id\":\"333\"}]}",
        "event 1: no id and rounds",
    ),
    (
        "{\"events\":[{\"id\":\"334\",\"rounds\":[]}]}",
        "event 1: unknown event",
    ),
    (
        "{\"events\":[{\"id\":\"444\",\"rounds\":[]},{\"id\":\"444\",\"rounds\":[]}]}",
        "event 2: the same event again",
    ),
    (
        "{\"events\":[{\"id\":\"333\",\"rounds\":[1,2,3,4,5]}]}",
        "event 1: more than four rounds",
    ),
    (
        "{\"events\":[{\"id\":\"333\",\"rounds\":[{\"id\":\"333-r2\"}]}]}",
        "event 1 round 1: id",
    ),
    (
        "{\"events\":[{\"id\":\"333\",\"rounds\":[{\"id\":\"333-r1\",\"scrambleSetCount\":27}]}]}",
        "event 1 round 1: scrambleSetCount",
    ),
];

#[test]
fn what_is_no_file_is_refused(rt: HostRuntime) -> Result<(), Fail> {
    for (text, message) in &REFUSED {
        check(&rt, "list", &[text], &[], [&[], &[]], 3, &[], message)?;
    }
    Ok(())
}
