//! What a check finds.

ghost use Rattle.std.specs.Prelude.{◌≡◌};
ghost use Rattle.scr_check.specs.declared.fault.CheckFault.TheVariants.{Read};

use scr_outside::Failed;

/// A slot that has no scramble to compare with: within so many words nothing was drawn.
#[derive(Clone, Copy, Debug, PartialEq, Eq)]
pub struct Missing {
    /// Its round.
    pub round: u32,
    /// The slot in its round.
    pub slot: u32,
    /// How many words of its stream were read.
    pub words: u32,
}

/// Why a sheet isn't found to agree.
#[derive(Clone, Copy, Debug, PartialEq, Eq)]
pub enum CheckFault {
    /// The first line at fault is another than the one that is expected; or only one of the two sheets
    /// has it.
    Differs {
        /// Its number, from 1.
        line: u32,
    },
    /// The first line at fault is that of a slot that is missing.
    Limit(Missing),
    /// The source failed.
    Read,
}

impl From<Failed> for CheckFault {
    ghost from_gives = { λ _ fault. fault ≡ Read };

    fn from(_failed: Failed) -> CheckFault {
        CheckFault::Read
    }
}
