//! What goes wrong in a run, and how it is told.

ghost use Rattle.std.specs.Prelude.{◌≡◌, ◌++◌, ◌≤◌, ◌<◌, length};
ghost use Rattle.arrayvec.specs.ArrayString.{array_string_len};
ghost use Rattle.scr_fault.specs.declared.fault.Fault.TheVariants.{DrawLimit, List, NoMemory, Write};
ghost use Rattle.scr_fault.specs.declared.fault.MakeFault.TheVariants as make;
ghost use Rattle.scr_fault.specs.Faults.{fault_of_build, fault_of_command, fault_of_make, fault_of_check};
ghost use Rattle.scr_fault.specs.Message.{message_of, usage_text, seed_fault_text, list_text, cause_text};

use arrayvec::ArrayString;
use scr_check::{CheckFault, Missing};
use scr_command::{CommandFault, UsageFault};
use scr_list::{ListCause, ListFault};
use scr_outside::{Failed, NoMemory as Want};
use scr_table::{BuildFault, TableName};
use scr_text::decimal;
use scr_words::SeedFault;

/// What went wrong.
#[derive(Clone, Copy, Debug)]
pub enum Fault {
    /// The words are no command.
    Usage(UsageFault),
    /// The input is no round list, or could not be read.
    List(ListFault),
    /// The attempts of this slot gave no permitted state. Rounds and slots are counted from 1.
    DrawLimit(Missing),
    /// The output could not be written.
    Write,
    /// Want of memory.
    NoMemory,
    /// No word of as many turns as the table's bound leads from this position to a goal.
    Gap { table: TableName, index: u32 },
    /// This line of a sheet that is checked, from 1, is the first that differs from the one that is expected.
    Differs { line: u32 },
}

impl From<CommandFault> for Fault {
    ghost from_gives = { λ command fault. fault ≡ fault_of_command command };

    fn from(fault: CommandFault) -> Fault {
        match fault {
            CommandFault::Usage(fault) => Fault::Usage(fault),
            CommandFault::NoMemory => Fault::NoMemory,
        }
    }
}

impl From<ListFault> for Fault {
    ghost from_gives = { λ list fault. fault ≡ List list };

    fn from(fault: ListFault) -> Fault {
        Fault::List(fault)
    }
}

impl From<Failed> for Fault {
    ghost from_gives = { λ _ fault. fault ≡ Write };

    fn from(_failed: Failed) -> Fault {
        Fault::Write
    }
}

impl From<Want> for Fault {
    ghost from_gives = { λ _ fault. fault ≡ NoMemory };

    fn from(_wanting: Want) -> Fault {
        Fault::NoMemory
    }
}

impl From<BuildFault> for Fault {
    ghost from_gives = { λ build fault. fault ≡ fault_of_build build };

    fn from(fault: BuildFault) -> Fault {
        match fault {
            BuildFault::NoMemory => Fault::NoMemory,
            BuildFault::Gap { table, index } => Fault::Gap { table, index },
        }
    }
}

impl From<CheckFault> for Fault {
    ghost from_gives = { λ found fault. fault ≡ fault_of_check found };

    fn from(found: CheckFault) -> Fault {
        match found {
            CheckFault::Differs { line } => Fault::Differs { line },
            CheckFault::Limit(missing) => Fault::DrawLimit(missing),
            CheckFault::Read => Fault::List(ListFault::Read),
        }
    }
}

impl From<Missing> for Fault {
    ghost from_gives = { λ missing fault. fault ≡ DrawLimit missing };

    fn from(missing: Missing) -> Fault {
        Fault::DrawLimit(missing)
    }
}

/// Why scrambles were not made and written. No such fault is want of memory: what draws and writes takes none.
#[derive(Clone, Copy, Debug)]
pub enum MakeFault {
    /// The attempts of this slot gave no permitted state. Rounds and slots are counted from 1.
    DrawLimit(Missing),
    /// The output could not be written.
    Write,
}

impl From<Missing> for MakeFault {
    ghost from_gives = { λ missing fault. fault ≡ make.DrawLimit missing };

    fn from(missing: Missing) -> MakeFault {
        MakeFault::DrawLimit(missing)
    }
}

impl From<Failed> for MakeFault {
    ghost from_gives = { λ _ fault. fault ≡ make.Write };

    fn from(_failed: Failed) -> MakeFault {
        MakeFault::Write
    }
}

impl From<MakeFault> for Fault {
    ghost from_gives = { λ made fault. fault ≡ fault_of_make made };

    fn from(made: MakeFault) -> Fault {
        match made {
            MakeFault::DrawLimit(missing) => Fault::DrawLimit(missing),
            MakeFault::Write => Fault::Write,
        }
    }
}

/// The length of the longest message, and a little more.
const LONGEST: usize = 224;

/// The words that are commands.
const GRAMMAR: &str =
    "usage: one EVENT SEED | sheet --seed HEX [--workers N] [--tries N] [--attempts N] [--short N] | tables EVENT | load NUMBER | net EVENT SEED | check --seed HEX [--attempts N]";

impl Fault {
    /// The line that tells it, with its line feed.
    pub fn message(self) -> ArrayString<LONGEST>
        ensures { result.bytes ≡ message_of self }
    {
        let mut line = ArrayString::new();
        line.push_str("scramble: ");
        match self {
            Fault::Usage(fault) => push_usage(&mut line, fault),
            Fault::List(fault) => push_list(&mut line, fault),
            Fault::DrawLimit(Missing { round, slot, words }) => {
                line.push_str("round ");
                line.push_str(decimal(round).as_str());
                line.push_str(" slot ");
                line.push_str(decimal(slot).as_str());
                line.push_str(": no permitted state in ");
                line.push_str(decimal(words).as_str());
                line.push_str(" words");
            }
            Fault::Write => line.push_str("output could not be written"),
            Fault::NoMemory => line.push_str("out of memory"),
            Fault::Gap { table, index } => {
                line.push_str("table ");
                line.push_str(table.text());
                line.push_str(" has a gap at ");
                line.push_str(decimal(index).as_str());
            }
            Fault::Differs { line: number } => {
                line.push_str("line ");
                line.push_str(decimal(number).as_str());
                line.push_str(" differs");
            }
        }
        line.push_str("\n");
        line
    }
}

fn push_usage(line: &mut ArrayString<LONGEST>, fault: UsageFault)
    requires { array_string_len line.old ≤ 10 }
    ensures bytes { line.new.bytes ≡ line.old.bytes ++ usage_text fault }
    ensures room { array_string_len line.new < LONGEST }
{
    match fault {
        UsageFault::No444 => line.push_str("444 is not supported"),
        UsageFault::NoSeed(fault) => push_seed_fault(line, fault),
        UsageFault::Grammar => line.push_str(GRAMMAR),
    }
}

fn push_seed_fault(line: &mut ArrayString<LONGEST>, fault: SeedFault)
    requires { array_string_len line.old ≤ 10 }
    ensures bytes { line.new.bytes ≡ line.old.bytes ++ seed_fault_text fault }
    ensures room { array_string_len line.new < LONGEST }
{
    match fault {
        SeedFault::Length { got } => {
            line.push_str("seed has ");
            line.push_str(decimal(got).as_str());
            line.push_str(" characters, not 64");
        }
        SeedFault::Digit { place } => {
            line.push_str("seed has no hexadecimal digit at ");
            line.push_str(decimal(place).as_str());
        }
    }
}

fn push_list(line: &mut ArrayString<LONGEST>, fault: ListFault)
    requires { array_string_len line.old ≤ 10 }
    ensures bytes { line.new.bytes ≡ line.old.bytes ++ list_text fault }
    ensures room { array_string_len line.new < LONGEST }
{
    match fault {
        ListFault::Read => line.push_str("input could not be read"),
        ListFault::TooLong { limit } => {
            line.push_str("list is longer than ");
            line.push_str(decimal(limit).as_str());
            line.push_str(" bytes");
        }
        ListFault::Line { number, cause } => {
            line.push_str("line ");
            line.push_str(decimal(number).as_str());
            line.push_str(": ");
            line.push_str(cause_words(cause));
        }
    }
}

/// Why a line was refused: a few words.
fn cause_words(cause: ListCause) -> &'static str
    ensures words { result.now ≡ cause_text cause }
    ensures few { length result.now ≤ 20 }
{
    match cause {
        ListCause::Words => "words",
        ListCause::No444 => "444 is not supported",
        ListCause::Event => "unknown event",
        ListCause::Groups => "groups",
        ListCause::Minimum => "minimum",
        ListCause::Name => "name",
        ListCause::Rounds => "too many rounds",
    }
}
