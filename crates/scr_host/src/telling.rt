//! What a program tells on its error output.

ghost use Rattle.std.specs.Prelude.{◌≡◌};
ghost use Rattle.scr_outside.specs.Change.{change_of};
ghost use Rattle.scr_host.specs.Exit.{IsTold, TellsWithoutWords, code_without_words};

use crate::words::NoWords;
use scr_outside::{Sink, write_all};

/// Tells a text, or a first part of it where `err` fails, which is no more than that.
pub fn tell<E: Sink>(err: &mut E, text: &str)
    ensures { IsTold text.now (change_of E.held E.faults err.old err.new) }
{
    let _ = write_all(err, text.as_bytes());
}

/// Ends a program that has no words. Where memory was wanting for them it tells that by this message, and the exit code
/// is this one; else it tells nothing, and the exit code is 1.
pub fn end_without_words<E: Sink>(why: NoWords, code: u8, message: &str, err: &mut E) -> u8
    ensures code { result ≡ code_without_words code why }
    ensures tells { TellsWithoutWords message.now why (change_of E.held E.faults err.old err.new) }
{
    match why {
        NoWords::NoMemory => {
            tell(err, message);
            code
        }
        NoWords::NotGiven => 1,
    }
}
