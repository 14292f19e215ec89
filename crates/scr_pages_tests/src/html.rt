//! Documents of HTML.

ghost use Rattle.std.specs.Prelude.{◌≡◌, ◌+◌, All, IfOk, length};
ghost use Rattle.scr_notation.specs.Event.{per_group_of};

use arrayvec::ArrayString;
use scr_html::{write_group, write_head, write_tail};
use scr_layout::{Group, GroupPlace};
use scr_notation::{Event, NumberedWord, Scramble};
use std::alloc::{AllocError, Global};
use std::test::Fail;

/// A scramble of two turns.
fn short(event: Event) -> Scramble
    ensures { result.event ≡ event }
{
    NumberedWord::of(event, &[0, 4]).scramble()
}

/// So many of them.
fn scrambles(alloc: Global, event: Event, count: u32) -> Result<Vec<Scramble>, AllocError>
    ensures each { IfOk result (λ made. All (λ scramble. scramble.event ≡ event) made.items) }
    ensures count { IfOk result (λ made. length made.items ≡ count) }
{
    let mut made = Vec::new(alloc);
    for _slot in 0..count {
        made.push(short(event))?;
    }
    Ok(made)
}

/// A group of these scrambles, the third of three of a round.
fn group(event: Event, scrambles: &[Scramble]) -> Group<'_>
    requires each { All (λ scramble. scramble.event ≡ event) scrambles.now }
    requires slots { length scrambles.now ≡ per_group_of event + 2 }
{
    let place = GroupPlace {
        event,
        sheet_round: 12,
        event_round: 1,
        event_rounds: 2,
        number: 2,
        groups: 3,
        name: ArrayString::new(),
    };
    Group::new(place, scrambles)
}

/// How many lines of a page begin so.
fn lines(page: &str, begin: &str) -> usize {
    page.lines().filter(|line| line.starts_with(begin)).count()
}

/// What no clause says: that the calls succeed where there is memory, and what a document begins with, as text. The
/// marks of its pages are those of the definition.
#[test]
fn a_document(rt: HostRuntime) -> Result<(), Fail> {
    let mut page = String::new(rt.alloc());
    write_head(&mut page, "A & B")?;
    let begin =
        "<!DOCTYPE html>\n<html lang=\"en\">\n<head>\n<meta charset=\"utf-8\">\n<title class=\"document\">A &amp; B</title>\n";
    assert!(rt; page.as_str().starts_with(begin));
    let scrambles = scrambles(rt.alloc(), Event::Bf333, 5)?;
    let group = group(Event::Bf333, &scrambles[..]);
    write_group(&mut page, &group, "A & B", true)?;
    let head = "<section class=\"page\" data-round=\"12\" data-group=\"C\" ";
    assert_eq!(rt; lines(page.as_str(), head), 1);
    assert_eq!(rt;
        lines(
            page.as_str(),
            "<h1 class=\"competition\" dir=\"auto\">A &amp; B</h1>"
        ),
        1
    );
    assert_eq!(rt; lines(page.as_str(), "<span class=\"word\" "), 10);
    assert_eq!(rt;
        lines(
            page.as_str(),
            "<svg class=\"picture\" data-event=\"333bf\" "
        ),
        5
    );
    write_tail(&mut page)?;
    Ok(())
}

/// Fewest moves has a page for each attempt.
#[test]
fn attempts(rt: HostRuntime) -> Result<(), Fail> {
    let scrambles = scrambles(rt.alloc(), Event::Fm333, 5)?;
    let group = group(Event::Fm333, &scrambles[..]);
    let mut page = String::new(rt.alloc());
    write_group(&mut page, &group, "", false)?;
    assert_eq!(rt; lines(page.as_str(), "<section class=\"page\" "), 5);
    assert_eq!(rt; lines(page.as_str(), "<li>80</li>"), 5);
    assert_eq!(rt; lines(page.as_str(), "<h1"), 0);
    assert_eq!(rt; lines(page.as_str(), "<svg"), 0);
    Ok(())
}
