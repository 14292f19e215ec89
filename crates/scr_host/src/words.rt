//! The words of the command line.

ghost use Rattle.std.specs.Prelude.{◌≡◌, ◌↔◌, map, string_bytes, MatchResult};
ghost use Rattle.std.specs.IoError.{error_kind};
ghost use Rattle.std.specs.declared.io.ErrorKind.TheVariants as kind;
ghost use Rattle.scr_host.specs.declared.words.NoWords.TheVariants as without;

use std::alloc::{AllocError, Global};
use std::{env, io};

/// Why a program has no words of a command line.
#[derive(Clone, Copy, Debug, PartialEq, Eq)]
pub enum NoWords {
    /// Want of memory.
    NoMemory,
    /// The system gives none, or some that are no text.
    NotGiven,
}

impl From<io::Error> for NoWords {
    ghost from_gives = { λ error why. why ≡ without.NoMemory ↔ (error_kind error ≡ kind.OutOfMemory) };

    fn from(error: io::Error) -> NoWords {
        match error.kind() {
            io::ErrorKind::OutOfMemory => NoWords::NoMemory,
            _ => NoWords::NotGiven,
        }
    }
}

impl From<AllocError> for NoWords {
    ghost from_gives = { λ _ why. why ≡ without.NoMemory };

    fn from(_wanting: AllocError) -> NoWords {
        NoWords::NoMemory
    }
}

/// The words of the command line without the program's name, or why there are none. No clause can say which words the
/// system gives.
pub fn words_of(host: &HostRuntime) -> Result<Vec<String>, NoWords> {
    Ok(env::args(host)?.skip(1).collect(host.alloc())?)
}

/// These words, borrowed; or want of memory.
pub fn borrowed(alloc: Global, owned: &[String]) -> Result<Vec<&str>, NoWords>
    ensures { MatchResult result (λ words. map (λ word. word.now) words.items ≡ map string_bytes owned.now)
        (λ why. why ≡ without.NoMemory) }
{
    let mut words = Vec::new(alloc);
    for word in owned {
        if words.push(word.as_str()).is_err() {
            return Err(NoWords::NoMemory);
        }
    }
    Ok(words)
}
