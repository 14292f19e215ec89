//! Seeds, and the text that spells one.

ghost use Rattle.std.specs.Prelude.{◌≡◌};
ghost use Rattle.scr_words.specs.Seed.{seed_of};

use hex::{FromHex, FromHexError};

/// A seed of 32 bytes.
#[derive(Debug, Clone, Copy, PartialEq, Eq)]
pub struct Seed(pub [u8; 32]);

/// Why a text spells no seed.
#[derive(Debug, Clone, Copy, PartialEq, Eq)]
pub enum SeedFault {
    /// The text hasn't 64 bytes: it has `got`, or more than 32 bits hold where `got` is `u32::MAX`.
    Length { got: u32 },
    /// The text has 64 bytes, and the one at `place`, from 0, is the first that is no digit.
    Digit { place: u32 },
}

/// Reads the seed that 64 hexadecimal digits spell, two for each byte, in either case.
///
/// A text of another length in bytes is refused for that, and otherwise at its first byte that is
/// no digit.
pub fn read_seed(text: &str) -> Result<Seed, SeedFault>
    ensures { result ≡ seed_of text.now }
{
    if text.len() != 64 {
        let got = u32::try_from(text.len()).unwrap_or(u32::MAX);
        return Err(SeedFault::Length { got });
    }
    let fault = match <[u8; 32]>::from_hex(text) {
        Ok(bytes) => return Ok(Seed(bytes)),
        Err(fault) => fault,
    };
    match fault {
        FromHexError::InvalidHexCharacter { index, .. } => Err(SeedFault::Digit {
            place: index as u32,
        }),
        _ => unreachable!(),
    }
}
