//! Numbers as lists, commands and sheets write them.

ghost use Rattle.std.specs.Prelude.{◌≡◌, ◌+◌, ◌^◌, ◌-◌, ◌<◌, ◌≤◌, [], ◌∷◌, ◌++◌, true, IfSome};
ghost use Rattle.std.specs.Char.{is_ascii_digit};
ghost use Rattle.std.specs.Fmt.{decimal};
ghost use Rattle.std.specs.List.{list_all};
ghost use Rattle.arrayvec.specs.ArrayString.{array_string_len};
ghost use Rattle.std.specs.Str.Parse.{digits_value};
ghost use Rattle.scr_text.specs.Numbers.{number_between, in_range, has_plain_start, is_number};

use arrayvec::ArrayString;

/// The text of a number: its decimal digits, of which there are at most ten.
pub fn decimal(number: u32) -> ArrayString<10>
    ensures bytes { result.bytes ≡ decimal number }
    ensures at_most_ten { array_string_len result ≤ 10 }
{
    let mut digits = if number < 10 {
        ArrayString::new()
    } else {
        decimal(number / 10)
    };
    digits.push((b'0' + (number % 10) as u8) as char);
    digits
}

/// The number that a text is, where it lies from `least` to `greatest`. A number is decimal digits,
/// without a sign, and without leading zeros except in `0` itself. `None` exactly where the text is no
/// number, or one out of that range, however long.
pub fn number_within(text: &[u8], least: u32, greatest: u32) -> Option<u32>
    ensures exact { result ≡ number_between least greatest text.now }
    ensures range { IfSome result (λ number. (least ≤ number) × (number ≤ greatest)) }
{
    number(text).filter(|number| least <= *number && *number <= greatest)
}

/// The number that a text is, where it is below 2^32.
fn number(text: &[u8]) -> Option<u32>
    ensures { result ≡ number_between 0 (2 ^ 32 - 1) text.now }
{
    if !is_number(text) {
        return None;
    }
    match str::from_utf8(text) {
        Ok(digits) => digits.parse().ok(),
        Err(_) => unreachable!("digits are text"),
    }
}

/// Whether a text is a number.
fn is_number(text: &[u8]) -> bool
    ensures { result ≡ is_number text.now }
{
    are_digits(text) && starts_plainly(text)
}

/// Whether each byte of a text is a digit.
fn are_digits(text: &[u8]) -> bool
    ensures { result ≡ list_all is_ascii_digit text.now }
{
    text.iter().all(|byte| byte.is_ascii_digit())
}

/// Whether a text has bytes and begins with no 0, unless that stands alone.
fn starts_plainly(text: &[u8]) -> bool
    ensures { result ≡ has_plain_start text.now }
{
    match text {
        [] => false,
        [_] => true,
        [first, ..] => *first != b'0',
    }
}
