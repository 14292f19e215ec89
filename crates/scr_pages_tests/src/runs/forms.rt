//! Pages of a printed sheet in both forms, of which the words are read back.

use super::printed::sheet;
use super::run_with;
use std::alloc::{AllocError, Global};
use std::test::Fail;

/// Adds the words of a line, each with a line feed.
fn push_words(words: &mut String, line: &str) -> Result<(), AllocError> {
    for word in line.split(' ') {
        if !word.is_empty() {
            words.push_str(word)?;
            words.push_str("\n")?;
        }
    }
    Ok(())
}

/// The labels and words of a sheet.
fn words_of_sheet(alloc: Global, sheet: &str) -> Result<String, AllocError> {
    let mut words = String::new(alloc);
    for line in sheet.lines() {
        if !line.starts_with("Round ") && !line.starts_with("Group ") {
            push_words(&mut words, line)?;
        }
    }
    Ok(words)
}

/// Those of pages of text: of lines that begin with a space or an E.
fn words_of_text(alloc: Global, page: &str) -> Result<String, AllocError> {
    let mut words = String::new(alloc);
    for line in page.lines() {
        if line.starts_with(" ") || line.starts_with("E") {
            push_words(&mut words, line)?;
        }
    }
    Ok(words)
}

/// Those of pages as HTML: of the elements of two classes.
fn words_of_html(alloc: Global, page: &str) -> Result<String, AllocError> {
    let mut words = String::new(alloc);
    for line in page.lines() {
        if line.starts_with("<b class=\"label\">") || line.starts_with("<span class=\"word\" ") {
            if let Some((_tag, text)) = line.split_once(">") {
                if let Some((word, _end)) = text.split_once("<") {
                    push_words(&mut words, word)?;
                }
            }
        }
    }
    Ok(words)
}

/// How many lines of a page begin so.
fn lines(page: &str, begin: &str) -> usize {
    page.lines().filter(|line| line.starts_with(begin)).count()
}

/// The first of groups, how many, their form, and how many lines of pages begin with a picture, or as text with a row of a net.
type Wanted = (usize, usize, Form, usize);

/// What pages are read as.
#[derive(Clone, Copy)]
enum Form {
    Text,
    Html,
}

/// Words, and what the pages are that they make of the printed sheet.
static RUNS: [(&[&str], Wanted); 7] = [
    (&["--html"], (0, 13, Form::Html, 83)),
    (&["--html", "--pictures", "no"], (0, 13, Form::Html, 0)),
    (
        &["--group", "9", "--pictures=yes", "--html"],
        (8, 1, Form::Html, 5),
    ),
    (&[], (0, 13, Form::Text, 0)),
    (
        &["--pictures", "yes", "--name", "Open 1"],
        (0, 13, Form::Text, 558),
    ),
    (&["--pictures=no", "--group=11"], (10, 1, Form::Text, 0)),
    (&["--group=9", "--pictures=yes"], (8, 1, Form::Text, 105)),
];

// All groups and single ones, with how many pictures as HTML, and how many lines of nets as text: three times the layers of a
// cube for each scramble.
#[test]
fn words_of_pages(rt: HostRuntime) -> Result<(), Fail> {
    let alloc = rt.alloc();
    let sheet = sheet(alloc, 0, 13)?;
    for (words, (first, count, form, pictures)) in &RUNS {
        let ran = run_with(alloc, words, sheet.as_str(), &[], &[])?;
        assert_eq!(rt; ran.code, 0);
        assert_eq!(rt; ran.err.contents(), b"".as_slice());
        let page = str::from_utf8(ran.out.contents())?;
        let (read, begin) = match *form {
            Form::Text => (words_of_text(alloc, page)?, "|    "),
            Form::Html => (words_of_html(alloc, page)?, "<svg class=\"picture\" "),
        };
        let wanted = words_of_sheet(alloc, self::sheet(alloc, *first, *count)?.as_str())?;
        assert_eq!(rt; read.as_str(), wanted.as_str(), "{words:?}");
        assert_eq!(rt; lines(page, begin), *pictures, "{words:?}");
    }
    Ok(())
}
