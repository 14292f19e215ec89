//! The lines of a text, and the words of a line.

ghost use Rattle.std.specs.Prelude.{◌≡◌, ◌+◌, ◌<◌, ◌∷◌, drop, length, slice_get, position, IfSome, option_copied};
ghost use Rattle.std.specs.Option.{option_map};
ghost use Rattle.std.specs.Str.Lines.{strip_carriage_return};
ghost use Rattle.scr_text.specs.Lines.{lines_of, is_line_feed, is_blank, line_words};
ghost use Rattle.scr_text.specs.Parts.{more_lines};

/// The first line of a text, without its line feed and a carriage return before that, and what follows
/// the line feed, where there is one.
pub fn split_line(text: &[u8]) -> (&[u8], Option<&[u8]>)
    ensures lines { lines_of text.now ≡ result.0.now ∷ more_lines (option_copied result.1) }
    ensures rest { option_copied result.1 ≡ option_map (λ end. drop (end + 1) text.now) (position is_line_feed text.now) }
    ensures shorter { IfSome result.1 (λ rest. length rest.now < length text.now) }
{
    match line_feed(text) {
        Some(end) => (without_return(&text[..end]), Some(&text[end + 1..])),
        None => (without_return(text), None),
    }
}

/// The place of the first line feed.
pub fn line_feed(text: &[u8]) -> Option<usize>
    ensures place { result ≡ position is_line_feed text.now }
    ensures within { IfSome result (λ end. end < length text.now) }
{
    text.iter().position(|byte| *byte == b'\n')
}

/// A line without the carriage return at its end, of which it loses one.
fn without_return(line: &[u8]) -> &[u8]
    ensures { result.now ≡ strip_carriage_return line.now }
{
    match line {
        [front @ .., b'\r'] => front,
        _ => line,
    }
}

/// The word at a place of a line, from 0. Words stand between blanks, which are spaces and tabs.
pub fn word_at(line: &[u8], place: usize) -> Option<&[u8]>
    ensures { option_copied result ≡ slice_get (line_words line.now) place }
{
    line.split(|byte| is_blank(*byte))
        .filter(|word| !word.is_empty())
        .nth(place)
}

/// Whether a byte is a blank, which is a space or a tab.
pub fn is_blank(byte: u8) -> bool
    ensures { result ≡ is_blank byte }
{
    byte == b' ' || byte == b'\t'
}
