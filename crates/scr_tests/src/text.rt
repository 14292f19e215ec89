//! Texts read and written, each by a table.

use scr_text::*;

/// Numbers and their texts.
static NUMBERS: [(u32, &str); 5] = [
    (0, "0"),
    (9, "9"),
    (10, "10"),
    (1_000_000, "1000000"),
    (u32::MAX, "4294967295"),
];

/// Texts, the numbers from and up to which they may be, and the number that each is, if any.
static READ: [(&str, u32, u32, Option<u32>); 18] = [
    ("0", 0, u32::MAX, Some(0)),
    ("9", 0, u32::MAX, Some(9)),
    ("10", 0, u32::MAX, Some(10)),
    ("1000000", 0, u32::MAX, Some(1_000_000)),
    ("4294967295", 0, u32::MAX, Some(u32::MAX)),
    ("", 0, u32::MAX, None),
    ("00", 0, u32::MAX, None),
    ("01", 0, u32::MAX, None),
    ("+1", 0, u32::MAX, None),
    ("-1", 0, u32::MAX, None),
    ("1 ", 0, u32::MAX, None),
    ("1\u{660}", 0, u32::MAX, None),
    ("4294967296", 0, u32::MAX, None),
    ("99999999999999999999", 0, u32::MAX, None),
    ("1", 1, 26, Some(1)),
    ("26", 1, 26, Some(26)),
    ("0", 1, 26, None),
    ("27", 1, 26, None),
];

#[test]
fn numbers(rt: HostRuntime) {
    for (number, text) in &NUMBERS {
        assert_eq!(rt; decimal(*number).as_str(), *text);
    }
    for (text, least, greatest, number) in &READ {
        assert_eq!(rt; number_within(text.as_bytes(), *least, *greatest), *number);
    }
}

/// Whether bytes are those of a text, or there is neither.
fn are_of(bytes: Option<&[u8]>, text: Option<&str>) -> bool {
    match (bytes, text) {
        (Some(bytes), Some(text)) => bytes == text.as_bytes(),
        (None, None) => true,
        _ => false,
    }
}

/// Texts, the first line of each, and what stands behind it, if anything does.
static LINES: [(&str, &str, Option<&str>); 5] = [
    ("", "", None),
    ("\n", "", Some("")),
    ("a 1\r\nb\n", "a 1", Some("b\n")),
    ("a\r\r\n", "a\r", Some("")),
    ("a\r", "a", None),
];

/// Texts, a place, and the word that stands there, if one does.
static WORDS: [(&str, usize, Option<&str>); 5] = [
    ("\tclock \t26  \u{fe} ", 0, Some("clock")),
    ("\tclock \t26  \u{fe} ", 1, Some("26")),
    ("\tclock \t26  \u{fe} ", 2, Some("\u{fe}")),
    (" a\t", 1, None),
    (" \t", 0, None),
];

#[test]
fn lines_and_words(rt: HostRuntime) {
    for (text, line, rest) in &LINES {
        let (first, others) = split_line(text.as_bytes());
        assert_eq!(rt; first, line.as_bytes());
        assert!(rt; are_of(others, *rest));
    }
    for (text, place, word) in &WORDS {
        assert!(rt; are_of(word_at(text.as_bytes(), *place), *word));
    }
}
