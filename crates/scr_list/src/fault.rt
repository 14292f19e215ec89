//! Why a list is refused.

ghost use Rattle.std.specs.Prelude.{◌≡◌};
ghost use Rattle.scr_list.specs.declared.fault.ListFault.TheVariants.{Read};

use scr_outside::Failed;

/// Why a line of a list names no round. Where more than one applies, it is the first of: words, 444,
/// event, groups, minimum, name, rounds.
#[derive(Clone, Copy, Debug, PartialEq, Eq)]
pub enum ListCause {
    /// The line has one word, or more than three, before its colon; or it has a colon and no word before it.
    Words,
    /// Its first word names no event that lists take.
    Event,
    /// Its first word is `444`; that event is not supported.
    No444,
    /// Its second word is no number from 1 to 26.
    Groups,
    /// Its third word is no number in the event's range, or the event takes none.
    Minimum,
    /// What follows its colon is no name: it hasn't 1 to 40 bytes, or one of them isn't from the space to the tilde.
    Name,
    /// As many rounds stand before it as a list may have.
    Rounds,
}

/// Why a list is refused, or was not read.
#[derive(Clone, Copy, Debug, PartialEq, Eq)]
pub enum ListFault {
    /// It has more bytes than a list of its version may have.
    TooLong {
        /// How many it may have.
        limit: u32,
    },
    /// The first line at fault.
    Line {
        /// Its number, from 1.
        number: u32,
        /// Why it names no round.
        cause: ListCause,
    },
    /// The source failed.
    Read,
}

impl From<Failed> for ListFault {
    ghost from_gives = { λ _ fault. fault ≡ Read };

    fn from(_failed: Failed) -> ListFault {
        ListFault::Read
    }
}
