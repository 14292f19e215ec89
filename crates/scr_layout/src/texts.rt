//! The texts of a group's pages.

ghost use Rattle.std.specs.Prelude.{◌≡◌, ◌+◌, ◌<◌, ◌≤◌, ◌++◌, Some, length, slice_get};
ghost use Rattle.std.specs.Fmt.{decimal};
ghost use Rattle.arrayvec.specs.ArrayString.{array_string_len};
ghost use Rattle.scr_notation.specs.Event.{per_group_of};
ghost use Rattle.scr_layout.specs.Texts.{title_of, round_line_of, tag_of, place_of, group_letter, labels_of};

use crate::group::Group;
use arrayvec::ArrayString;
use scr_notation::Event;
use scr_text::decimal;

/// A text of a group has at most so many bytes.
pub const TEXT_ROOM: usize = 112;

/// The title of a group's pages: its event, its letter, and how many groups the round has.
pub fn title(group: &Group<'_>) -> ArrayString<TEXT_ROOM>
    ensures { result.bytes ≡ title_of group.now }
{
    let mut text = ArrayString::new();
    text.push_str(group.event().name());
    text.push_str(", ");
    push_letter(&mut text, group);
    text.push_str(" of ");
    text.push_str(decimal(group.place.groups).as_str());
    text
}

/// The line that tells which of the rounds of its event it is, and the round's name.
pub fn round_line(group: &Group<'_>) -> ArrayString<TEXT_ROOM>
    ensures { result.bytes ≡ round_line_of group.now }
{
    let mut text = ArrayString::new();
    text.push_str("Round ");
    push_place(&mut text, group);
    let name = group.place.name.as_str();
    if !name.is_empty() {
        text.push_str(": ");
        text.push_str(name);
    }
    text
}

/// The same in short, with the group's letter, as it stands at each scramble.
pub fn tag(group: &Group<'_>) -> ArrayString<TEXT_ROOM>
    ensures { result.bytes ≡ tag_of group.now }
{
    let mut text = ArrayString::new();
    text.push_str("round ");
    push_place(&mut text, group);
    text.push_str(", ");
    push_letter(&mut text, group);
    text
}

/// Adds which of the rounds of its event it is.
fn push_place(text: &mut ArrayString<TEXT_ROOM>, group: &Group<'_>)
    requires { array_string_len text.old ≤ 40 }
    ensures bytes { text.new.bytes ≡ text.old.bytes ++ place_of group.now }
    ensures short { array_string_len text.new ≤ array_string_len text.old + 24 }
{
    text.push_str(decimal(group.place.event_round).as_str());
    text.push_str(" of ");
    text.push_str(decimal(group.place.event_rounds).as_str());
}

/// Adds its letter.
fn push_letter(text: &mut ArrayString<TEXT_ROOM>, group: &Group<'_>)
    requires { array_string_len text.old ≤ 80 }
    ensures bytes { text.new.bytes ≡ text.old.bytes ++ group_letter group.now }
    ensures short { array_string_len text.new ≤ array_string_len text.old + 7 }
{
    text.push_str("group ");
    text.push((b'A' + group.number() as u8) as char);
}

/// The label of the scramble at a place of a group of an event, from 0.
pub fn label(event: Event, place: u32) -> &'static str
    requires { place < per_group_of event + 2 }
    ensures value { slice_get (labels_of event) place ≡ Some result.now }
    ensures short { length result.now ≤ 3 }
{
    let own = u32::from(event.per_group());
    match place {
        0 => "1.",
        1 => "2.",
        2 => "3.",
        3 if 3 < own => "4.",
        4 if 4 < own => "5.",
        _ if place == own => "E1.",
        _ => "E2.",
    }
}
