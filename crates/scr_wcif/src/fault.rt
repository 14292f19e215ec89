//! What goes wrong in a run.

ghost use Rattle.std.specs.Prelude.{◌≡◌};
ghost use Rattle.scr_host.specs.declared.fault.Fault.TheVariants.{Own};
ghost use Rattle.scr_wcif.specs.declared.fault.FileFault.TheVariants.{SheetLine};

use scr_read::SheetCause;

/// Why an entry of the list of events tells no event. Where more than one applies, it is the first of: many, shape,
/// unknown, twice, rounds.
#[derive(Clone, Copy, Debug, PartialEq, Eq)]
pub enum EventCause {
    /// It is the eighteenth: the WCA has seventeen events.
    Many,
    /// It is no object with an `id`, which is a text, and `rounds`, which is a list.
    Shape,
    /// Its id is that of no event of the WCA.
    Unknown,
    /// An entry before it has the same id.
    Twice,
    /// It has more than four rounds.
    Rounds,
}

/// Why an entry of the list of an event's rounds tells no round.
#[derive(Clone, Copy, Debug, PartialEq, Eq)]
pub enum RoundCause {
    /// Its `id` isn't the event's with `-r` and its number from 1.
    Id,
    /// Its `scrambleSetCount` isn't a number from 1 to 26.
    Groups,
}

/// How the rounds of a sheet differ from those of a file.
#[derive(Clone, Copy, Debug, PartialEq, Eq)]
pub enum Difference {
    /// The round is one of another event.
    Event,
    /// The round has another number of groups.
    Groups,
    /// The sheet ends before it.
    Missing,
    /// The file has no more rounds.
    More,
}

/// Why a file tells no rounds, or doesn't take those of a sheet. Entries of lists and lines are counted from 1, and bytes
/// from 0.
#[derive(Clone, Copy, Debug, PartialEq, Eq)]
pub enum FileFault {
    /// No line `=====` stands in the input, behind which the sheet would be.
    NoParts,
    /// It is no text: at this byte it isn't UTF-8.
    NoText {
        place: u32,
    },
    /// It is no JSON, or arrays and objects nest in it more than 128 deep: the reader stopped at this byte.
    NoJson {
        place: u32,
    },
    /// An object in it has a key twice.
    KeyTwice,
    /// It is no object with `events`, which is a list.
    NoCompetition,
    /// This entry of `events` tells no event.
    Event {
        number: u32,
        cause: EventCause,
    },
    /// This entry of the `rounds` of this event tells no round.
    Round {
        event: u32,
        number: u32,
        cause: RoundCause,
    },
    /// The sheet is none: this line of it, counted behind the line `=====`, is its first at fault.
    SheetLine {
        line: u32,
        cause: SheetCause,
    },
    /// The round of the sheet with this number, from 1, isn't the one that the file has there.
    Sheet {
        number: u32,
        difference: Difference,
    },
}

/// What went wrong in a run.
pub type Fault = scr_host::Fault<FileFault>;

impl From<FileFault> for Fault {
    ghost from_gives = { λ file fault. fault ≡ Own file };

    fn from(fault: FileFault) -> Fault {
        Fault::Own(fault)
    }
}
