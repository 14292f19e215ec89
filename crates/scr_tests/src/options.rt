//! Words that give values, and words that give none.

use scr_options::{OptionForm, OptionsFault, SplitOptions, split_options};
use std::alloc::Global;
use std::process::Abort;

const FORMS: [OptionForm; 2] = [
    OptionForm {
        name: "flag",
        has_value: false,
    },
    OptionForm {
        name: "value",
        has_value: true,
    },
];

/// Whether words give the flag, and this value.
fn gives<'w>(
    rt: &impl Abort,
    alloc: Global,
    words: &'w [&'w str],
    flag: bool,
    value: Option<&str>,
) {
    match split_options(alloc, &FORMS, words) {
        Ok(split) => has(rt, &split, flag, value),
        Err(_) => assert!(rt; false),
    }
}

/// Whether there are the flag, this value, and no other.
fn has(rt: &impl Abort, split: &SplitOptions<'_>, flag: bool, value: Option<&str>) {
    assert_eq!(rt; split.value("flag").is_some(), flag);
    has_value(rt, split, "value", value);
    has_value(rt, split, "other", None);
}

/// Whether an option has this value.
fn has_value(rt: &impl Abort, split: &SplitOptions<'_>, name: &str, value: Option<&str>) {
    assert_eq!(rt; split.value(name), value, "{name}");
}

/// Words, whether they give the flag, and the value that they give.
static GIVEN: [(&[&str], bool, Option<&str>); 8] = [
    (&[], false, None),
    (&["--flag"], true, None),
    (&["--value", "x", "--flag"], true, Some("x")),
    (&["--flag", "--value=-x=y"], true, Some("-x=y")),
    (&["--value", ""], false, Some("")),
    (&["--value="], false, Some("")),
    (&["--value==x"], false, Some("=x")),
    (&["--value=--value=x"], false, Some("--value=x")),
];

#[test]
fn values_given(rt: HostRuntime) {
    for (words, flag, value) in &GIVEN {
        gives(&rt, rt.alloc(), words, *flag, *value);
    }
}

/// Words that are refused.
static REFUSED: [[&str; 2]; 10] = [
    ["--flag", "--flag"],
    ["--value=x", "--value=y"],
    ["--value", "--flag"],
    ["--value", "-"],
    ["--value", "-x"],
    ["--flag=", "--value=x"],
    ["--flag", "x"],
    ["--fla", "--value=x"],
    ["-f", "--value=x"],
    ["--flag", "--"],
];

#[test]
fn words_refused(rt: HostRuntime) {
    for words in &REFUSED {
        let split = split_options(rt.alloc(), &FORMS, words);
        assert_eq!(&rt; split.err(), Some(OptionsFault::Usage));
    }
}
