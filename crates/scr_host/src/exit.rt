//! What a program ends with.

ghost use Rattle.std.specs.Prelude.{◌≡◌};
ghost use Rattle.std.specs.Process.{exit_status};

use std::io::Eprint;
use std::marker::Model;
use std::process::{ExitCode, Termination};

/// An exit code, with which a program has to end: it can't be dropped.
#[must_use]
pub struct Exit {
    code: u8,
}

// Clauses see the number.
impl Model for Exit {
    ghost use Rattle.std.specs.Prelude.{ℕ};

    ghost Value = { ℕ };

    ghost view = { λ exit. exit.code };
}

impl Exit {
    /// That of this code.
    pub fn of(code: u8) -> Exit
        ensures { result ≡ code }
    {
        Exit { code }
    }
}

impl Termination for Exit {
    fn report<R: Eprint>(self, _rt: &R) -> ExitCode
        ensures { exit_status result ≡ self }
    {
        let Exit { code } = self;
        ExitCode::from(code)
    }
}
