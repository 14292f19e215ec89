//! Values and texts, with names for the bytes that the syntax needs.

ghost use Rattle.std.specs.Prelude.{◌≡◌, ℕ, true, false, ◌<◌, ◌≤◌, ◌∷◌, [], ◌++◌, OnOk, string_bytes, length, take, slice_index};
ghost use Rattle.scr_markup.specs.Tokens.{is_plain, escaped_byte, escaped};

use std::alloc::AllocError;

/// Adds a value or a text. The pieces between bytes that have names are copied whole.
pub(crate) fn push_escaped(page: &mut String, text: &str) -> Result<(), AllocError>
    ensures { OnOk result (string_bytes page.new ≡ string_bytes page.old ++ escaped text.now) }
{
    let mut rest = text;
    loop {
        let plain = plain_len(rest.as_bytes());
        page.push_str(&rest[..plain])?;
        if plain == rest.len() {
            return Ok(());
        }
        page.push_str(name_of(rest.as_bytes()[plain]))?;
        rest = &rest[plain + 1..];
    }
}

/// How many bytes stand before the first that has a name.
fn plain_len(text: &[u8]) -> usize
    ensures within { result ≤ length text.now }
    ensures plain { (k : ℕ) → k < result → is_plain (slice_index text.now k) ≡ true }
    ensures stops { result < length text.now → is_plain (slice_index text.now result) ≡ false }
{
    for (i, byte) in text.iter().enumerate() {
        if matches!(*byte, b'&' | b'<' | b'>' | b'"') {
            return i;
        }
    }
    text.len()
}

/// The name of such a byte.
fn name_of(byte: u8) -> &'static str
    requires { is_plain byte ≡ false }
    ensures { result.now ≡ escaped_byte byte }
{
    match byte {
        b'&' => "&amp;",
        b'<' => "&lt;",
        b'>' => "&gt;",
        _ => "&quot;",
    }
}
