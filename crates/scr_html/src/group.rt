//! The pages of a group.

ghost use Rattle.std.specs.Prelude.{◌≡◌, ◌+◌, ◌<◌, [], ◌++◌, OnOk, Some, drop, flat_map, length, slice_get, string_bytes, zip};
ghost use Rattle.scr_markup.specs.Tokens.{Adds, HasNoLineFeed};
ghost use Rattle.scr_notation.specs.Event.{per_group_of};
ghost use Rattle.scr_layout.specs.Shown.{HasNoControl};
ghost use Rattle.scr_layout.specs.Texts.{labels_of};
ghost use Rattle.scr_html.specs.Pages.{head_marks, has_page_each, labelled, slot_marks, page_marks, attempt_marks};

use crate::heads::write_heads;
use crate::sizes::Sizes;
use crate::slot::write_slot;
use crate::tokens::{begin, end, plain};
use scr_layout::{Group, label};
use scr_notation::{Event, Puzzle, Scramble};
use scr_text::decimal;
use std::alloc::AllocError;

/// So many moves fit on the page of an attempt.
const FIELDS: u32 = 80;

/// How pages of a group look.
#[derive(Drop)]
struct Look<'a> {
    competition: &'a str,
    pictures: bool,
}

/// Adds the pages of a group: one, or of fewest moves one for each attempt. Above the scrambles stands a competition's
/// name, where it is not empty; with each stands its picture, where pictures are asked for.
pub fn write_group(
    page: &mut String,
    group: &Group<'_>,
    competition: &str,
    pictures: bool,
) -> Result<(), AllocError>
    requires { HasNoControl competition.now }
    ensures { OnOk result
        (Adds (string_bytes page.old) (string_bytes page.new) (page_marks pictures competition.now group.now)) }
{
    let look = Look {
        competition,
        pictures,
    };
    if has_page_each(group.event()) {
        write_attempts(page, group, group.scrambles(), 0, &look)
    } else {
        write_page(page, group, &look)
    }
}

/// Whether scrambles of an event have a page each.
fn has_page_each(event: Event) -> bool
    ensures { result ≡ has_page_each event }
{
    match event.puzzle() {
        Puzzle::Fewest333 => true,
        Puzzle::Cube222
        | Puzzle::Cube333
        | Puzzle::Held333
        | Puzzle::Cube555
        | Puzzle::Cube666
        | Puzzle::Cube777
        | Puzzle::Clock
        | Puzzle::Megaminx
        | Puzzle::Pyraminx
        | Puzzle::Skewb
        | Puzzle::Square1 => false,
    }
}

/// Adds one page with all scrambles of a group.
fn write_page(page: &mut String, group: &Group<'_>, look: &Look<'_>) -> Result<(), AllocError>
    requires { HasNoControl look.now.competition.now }
    ensures { OnOk result (Adds (string_bytes page.old) (string_bytes page.new)
        (head_marks look.now.pictures look.now.competition.now group.now
        ++ flat_map (slot_marks look.now.pictures) (labelled group.now))) }
{
    let slots = u32::from(group.event().per_group()) + 2;
    let style = Sizes::of(group, slots, look.pictures).style();
    write_heads(page, group, look.competition, style.as_str(), look.pictures)?;
    write_slots(page, group, group.scrambles(), 0, look.pictures)?;
    end(page, "section")?;
    Ok(())
}

/// Adds these scrambles, which are the last of a group, from the one at a place on. It calls itself once for each.
fn write_slots(
    page: &mut String,
    group: &Group<'_>,
    scrambles: &[Scramble],
    place: u32,
    pictures: bool,
) -> Result<(), AllocError>
    requires { place + length scrambles.now ≡ per_group_of group.now.event + 2 }
    ensures { OnOk result (Adds (string_bytes page.old) (string_bytes page.new)
        (flat_map (slot_marks pictures) (zip (drop place (labels_of group.now.event)) scrambles.now))) }
{
    match scrambles {
        [] => Ok(()),
        [scramble, rest @ ..] => {
            let label = label_of(group, place);
            write_slot(page, group, label, scramble, pictures)?;
            write_slots(page, group, rest, place + 1, pictures)?;
            Ok(())
        }
    }
}

/// The label of the scramble at a place of a group, from 0.
fn label_of(group: &Group<'_>, place: u32) -> &'static str
    requires { place < per_group_of group.now.event + 2 }
    ensures label { slice_get (labels_of group.now.event) place ≡ Some result.now }
    ensures line { HasNoLineFeed result.now }
{
    label(group.event(), place)
}

/// Adds a page with room for a solution for each of these scrambles, which are the last of a group, from the one at a
/// place on. It calls itself once for each.
fn write_attempts(
    page: &mut String,
    group: &Group<'_>,
    scrambles: &[Scramble],
    place: u32,
    look: &Look<'_>,
) -> Result<(), AllocError>
    requires competition { HasNoControl look.now.competition.now }
    requires places { place + length scrambles.now ≡ per_group_of group.now.event + 2 }
    ensures { OnOk result (Adds (string_bytes page.old) (string_bytes page.new)
        (flat_map (attempt_marks look.now.pictures look.now.competition.now group.now)
        (zip (drop place (labels_of group.now.event)) scrambles.now))) }
{
    match scrambles {
        [] => Ok(()),
        [scramble, rest @ ..] => {
            let label = label_of(group, place);
            write_attempt(page, group, label, scramble, look)?;
            write_attempts(page, group, rest, place + 1, look)?;
            Ok(())
        }
    }
}

/// Adds the page of an attempt.
fn write_attempt(
    page: &mut String,
    group: &Group<'_>,
    label: &str,
    scramble: &Scramble,
    look: &Look<'_>,
) -> Result<(), AllocError>
    requires competition { HasNoControl look.now.competition.now }
    requires label { HasNoLineFeed label.now }
    ensures { OnOk result (Adds (string_bytes page.old) (string_bytes page.new)
        (attempt_marks look.now.pictures look.now.competition.now group.now (label.now, scramble.now))) }
{
    let style = Sizes::of(group, 2, look.pictures).style();
    write_heads(page, group, look.competition, style.as_str(), look.pictures)?;
    write_slot(page, group, label, scramble, look.pictures)?;
    write_fields(page)?;
    end(page, "section")?;
    Ok(())
}

/// Adds room for who solves and for a solution, with a field for each move.
fn write_fields(page: &mut String) -> Result<(), AllocError>
    ensures { OnOk result (Adds (string_bytes page.old) (string_bytes page.new) []) }
{
    begin(page, "footer")?;
    plain(page, "span", "Competitor")?;
    plain(page, "span", "Moves")?;
    end(page, "footer")?;
    begin(page, "ol")?;
    write_numbers(page)?;
    end(page, "ol")?;
    Ok(())
}

fn write_numbers(page: &mut String) -> Result<(), AllocError>
    ensures { OnOk result (Adds (string_bytes page.old) (string_bytes page.new) []) }
{
    for number in 1..=FIELDS {
        let text = decimal(number);
        plain(page, "li", text.as_str())?;
    }
    Ok(())
}
