//! The names of rounds.

ghost use Rattle.std.specs.Prelude.{◌≡◌, ◌-◌, ◌<◌, ◌≤◌, None, Some, if◌then◌else◌, length, position, option_map, option_copied, IfSome};
ghost use Rattle.std.specs.List.{list_all, prefix_len, suffix_len};
ghost use Rattle.scr_text.specs.Lines.{is_blank};
ghost use Rattle.scr_list.specs.Names.{is_colon, told_part, name_part, trimmed, is_name_byte, is_name};

use arrayvec::ArrayString;
use scr_text::is_blank;

/// A name has at most so many bytes.
pub const NAME_ROOM: usize = 40;

/// What a line tells of its round and what of its name, which follows the first colon, where names are taken.
pub(crate) fn parted(takes_names: bool, line: &[u8]) -> (&[u8], Option<&[u8]>)
    ensures told { result.0.now ≡ told_part takes_names line.now }
    ensures name { option_copied result.1 ≡ name_part takes_names line.now }
{
    if !takes_names {
        return (line, None);
    }
    match first_colon(line) {
        Some(colon) => (&line[..colon], Some(&line[colon + 1..])),
        None => (line, None),
    }
}

/// The place of the first colon.
fn first_colon(line: &[u8]) -> Option<usize>
    ensures place { result ≡ position is_colon line.now }
    ensures within { IfSome result (λ colon. colon < length line.now) }
{
    line.iter().position(|byte| *byte == b':')
}

/// A text as a name: 1 to 40 bytes from the space to the tilde. `None` exactly where it is none.
pub fn name_of(text: &[u8]) -> Option<ArrayString<NAME_ROOM>>
    ensures { option_map (λ name. name.bytes) result ≡ (if is_name text.now then Some text.now else None) }
{
    if !is_name(text) {
        return None;
    }
    match str::from_utf8(text) {
        Ok(text) => {
            let mut name = ArrayString::new();
            name.push_str(text);
            Some(name)
        }
        Err(_) => unreachable!("such bytes are text"),
    }
}

/// A text without the blanks at both ends.
pub(crate) fn trimmed(text: &[u8]) -> &[u8]
    ensures { result.now ≡ trimmed text.now }
{
    let text = &text[..end_of(text)];
    &text[start_of(text)..]
}

/// Where the blanks end that a text begins with.
fn start_of(text: &[u8]) -> usize
    ensures within { result ≤ length text.now }
    ensures place { result ≡ prefix_len is_blank text.now }
{
    let mut start = 0;
    while start < text.len() && is_blank(text[start]) {
        start += 1;
    }
    start
}

/// Where the blanks begin that a text ends with.
fn end_of(text: &[u8]) -> usize
    ensures within { result ≤ length text.now }
    ensures place { result ≡ length text.now - suffix_len is_blank text.now }
{
    let mut end = text.len();
    while end > 0 && is_blank(text[end - 1]) {
        end -= 1;
    }
    end
}

fn is_name(text: &[u8]) -> bool
    ensures { result ≡ is_name text.now }
{
    1 <= text.len() && text.len() <= NAME_ROOM && are_name_bytes(text)
}

fn are_name_bytes(text: &[u8]) -> bool
    ensures { result ≡ list_all is_name_byte text.now }
{
    text.iter().all(|byte| 32 <= *byte && *byte <= 126)
}
