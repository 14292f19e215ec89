//! The words of the command line.

ghost use Rattle.std.specs.Prelude.{◌≡◌, ◌∷◌, false, codes, Some, MatchResult, Ok, IfOk, ok_or};
ghost use Rattle.scr_command.specs.declared.command.UsageFault.TheVariants.{Grammar, NoSeed};
ghost use Rattle.scr_command.specs.declared.command.CommandFault.TheVariants.{Usage, NoMemory};
ghost use Rattle.scr_options.specs.Split.{found_values};
ghost use Rattle.scr_options.specs.Words.{texts};
ghost use Rattle.scr_command.specs.OptionTable.{option_row, sheet_options, check_options, IsSettable};
ghost use Rattle.scr_command.specs.Command.{command_of, sheet_of, check_of, single_of, event_for, number_in};
ghost use Rattle.std.specs.Str.{bytes_eq};
ghost use Rattle.scr_command.specs.Reading.{IsRefusal, IsCommand, fault_of_options};

use crate::options::{OptionName, Options, SEED, check_options, sheet_options};
use scr_list::event_named;
use scr_notation::Event;
use scr_options::{OptionsFault, SplitOptions, split_options};
use scr_text::number_within;
use scr_words::{Seed, SeedFault, read_seed};
use std::alloc::Global;

/// What the program is asked to do.
#[derive(Clone, Copy, Debug, PartialEq, Eq)]
pub enum Command {
    /// One scramble of an event, of stream 0 of a seed.
    One(Event, Seed),
    /// A sheet of the rounds that the input lists.
    Sheet(Seed, Options),
    /// How many positions the tables of an event have at each distance.
    Tables(Event),
    /// What a sheet amounts to whose list follows from this number, from 0 to 9,999.
    Load(u32),
    /// One scramble of a cube's event, of stream 0 of a seed, and the net of the scrambled cube.
    Net(Event, Seed),
    /// Whether the sheet in the input is one of the rounds that the input lists before it, made with a seed; the draw
    /// of a slot has so many attempts.
    Check(Seed, u32),
}

/// Why the words ask for nothing.
#[derive(Clone, Copy, Debug, PartialEq, Eq)]
pub enum UsageFault {
    /// They ask for the event 444.
    No444,
    /// Only the seed is amiss.
    NoSeed(SeedFault),
    /// They are no command.
    Grammar,
}

impl From<SeedFault> for UsageFault {
    ghost from_gives = { λ fault usage. usage ≡ NoSeed fault };

    fn from(fault: SeedFault) -> UsageFault {
        UsageFault::NoSeed(fault)
    }
}

/// Why no command was read.
#[derive(Clone, Copy, Debug, PartialEq, Eq)]
pub enum CommandFault {
    /// The words are no command.
    Usage(UsageFault),
    /// Want of memory.
    NoMemory,
}

impl From<OptionsFault> for CommandFault {
    ghost from_gives = { λ options fault. fault ≡ fault_of_options options };

    fn from(options: OptionsFault) -> CommandFault {
        match options {
            OptionsFault::Usage => CommandFault::Usage(UsageFault::Grammar),
            OptionsFault::NoMemory => CommandFault::NoMemory,
        }
    }
}

impl From<UsageFault> for CommandFault {
    ghost from_gives = { λ usage fault. fault ≡ Usage usage };

    fn from(usage: UsageFault) -> CommandFault {
        CommandFault::Usage(usage)
    }
}

/// Reads the words of the command line, without the program's name. It takes memory only where the
/// first word is `sheet` or `check`.
pub fn read_command(alloc: Global, words: &[&str]) -> Result<Command, CommandFault>
    ensures answer { MatchResult result (λ command. command_of (texts words.now) ≡ Ok command)
        (IsRefusal (texts words.now)) }
    ensures command { IfOk result IsCommand }
{
    let [command, words @ ..] = words else {
        return Err(CommandFault::Usage(UsageFault::Grammar));
    };
    if *command == "sheet" {
        let split = split_options(alloc, &sheet_options(), words)?;
        Ok(read_options(&split)?)
    } else if *command == "check" {
        let split = split_options(alloc, &check_options(), words)?;
        Ok(read_seed_and_attempts(&split)?)
    } else {
        Ok(read_without_options(command, words)?)
    }
}

/// Reads the words after the name of a command that has no options.
fn read_without_options(command: &str, words: &[&str]) -> Result<Command, UsageFault>
    requires no_sheet { bytes_eq command.now (codes "sheet") ≡ false }
    requires no_check { bytes_eq command.now (codes "check") ≡ false }
    ensures answer { result ≡ command_of (command.now ∷ texts words.now) }
    ensures command { IfOk result IsCommand }
{
    if command == "one" {
        read_single(words, false)
    } else if command == "tables" {
        let [event] = words else {
            return Err(UsageFault::Grammar);
        };
        Ok(Command::Tables(read_event(event)?))
    } else if command == "load" {
        let [number] = words else {
            return Err(UsageFault::Grammar);
        };
        let number = number_within(number.as_bytes(), 0, 9999).ok_or(UsageFault::Grammar)?;
        Ok(Command::Load(number))
    } else if command == "net" {
        read_single(words, true)
    } else {
        Err(UsageFault::Grammar)
    }
}

/// Reads the words after `one`, or after `net`, which takes an event that has nets.
fn read_single(words: &[&str], nets: bool) -> Result<Command, UsageFault>
    ensures answer { result ≡ single_of nets (texts words.now) }
    ensures command { IfOk result IsCommand }
{
    let [event, seed] = words else {
        return Err(UsageFault::Grammar);
    };
    let event = read_event(event)?;
    if nets && event.net_side().is_none() {
        return Err(UsageFault::Grammar);
    }
    let seed = read_seed(seed)?;
    Ok(if nets {
        Command::Net(event, seed)
    } else {
        Command::One(event, seed)
    })
}

/// Reads the word of an event.
fn read_event(event: &str) -> Result<Event, UsageFault>
    ensures answer { result ≡ event_for event.now }
{
    if event == "444" {
        return Err(UsageFault::No444);
    }
    event_named(event.as_bytes()).ok_or(UsageFault::Grammar)
}

/// Reads the options of `sheet`, which are split.
fn read_options(split: &SplitOptions<'_>) -> Result<Command, UsageFault>
    ensures answer { result ≡ sheet_of (found_values split.now) }
    ensures command { IfOk result IsCommand }
{
    let options = Options {
        workers: read_number(split, OptionName::Workers)?,
        tries: read_number(split, OptionName::Tries)?,
        attempts: read_number(split, OptionName::Attempts)?,
        short: read_number(split, OptionName::Short)?,
    };
    let seed = split.value(SEED).ok_or(UsageFault::Grammar)?;
    let seed = read_seed(seed)?;
    Ok(Command::Sheet(seed, options))
}

/// Reads the options of `check`, which are split.
fn read_seed_and_attempts(split: &SplitOptions<'_>) -> Result<Command, UsageFault>
    ensures answer { result ≡ check_of (found_values split.now) }
    ensures command { IfOk result IsCommand }
{
    let attempts = read_number(split, OptionName::Attempts)?;
    let seed = split.value(SEED).ok_or(UsageFault::Grammar)?;
    let seed = read_seed(seed)?;
    Ok(Command::Check(seed, attempts))
}

/// Reads an option's number in its range; the usual one stands where the option isn't there.
fn read_number(split: &SplitOptions<'_>, option: OptionName) -> Result<u32, UsageFault>
    ensures answer { result ≡ number_in (found_values split.now) (option_row option) }
    ensures range { IfOk result (IsSettable (option_row option).range) }
{
    let range = option.range();
    match split.value(option.name()) {
        Some(text) => {
            number_within(text.as_bytes(), range.least, range.greatest).ok_or(UsageFault::Grammar)
        }
        None => Ok(range.usual),
    }
}
