//! Words that are taken and words that are refused, each by a table.

use scr_command::*;
use scr_notation::Event;
use scr_words::{Seed, SeedFault};
use std::alloc::Global;
use std::process::Abort;

const ZEROS: &str = "0000000000000000000000000000000000000000000000000000000000000000";

const BAD_DIGIT: &str = "000000000000000000000000000000000000000000000000000000000000000g";

const JOINED: &str = "--seed=0000000000000000000000000000000000000000000000000000000000000000";

fn reads(rt: &impl Abort, alloc: Global, words: &[&str], expected: Result<Command, CommandFault>) {
    assert_eq!(rt; read_command(alloc, words), expected);
}

const SEED: Seed = Seed([0; 32]);

/// Words that are read, and the command that they are.
static READ: [(&[&str], Command); 10] = [
    (&["one", "clock", ZEROS], Command::One(Event::Clock, SEED)),
    (&["tables", "222"], Command::Tables(Event::C222)),
    (&["load", "0"], Command::Load(0)),
    (&["load", "15"], Command::Load(15)),
    (&["load", "9999"], Command::Load(9999)),
    (
        &["sheet", "--seed", ZEROS],
        Command::Sheet(
            SEED,
            Options {
                workers: 1,
                tries: 2000,
                attempts: 1000,
                short: 1,
            },
        ),
    ),
    (
        &["sheet", JOINED, "--workers=2"],
        Command::Sheet(
            SEED,
            Options {
                workers: 2,
                tries: 2000,
                attempts: 1000,
                short: 1,
            },
        ),
    ),
    (
        &[
            "sheet",
            "--workers",
            "64",
            "--attempts",
            "1000000",
            "--short=1000",
            "--tries",
            "100000",
            "--seed",
            ZEROS,
        ],
        Command::Sheet(
            SEED,
            Options {
                workers: 64,
                tries: 100_000,
                attempts: 1_000_000,
                short: 1000,
            },
        ),
    ),
    (&["check", "--seed", ZEROS], Command::Check(SEED, 1000)),
    (&["check", "--attempts=7", JOINED], Command::Check(SEED, 7)),
];

#[test]
fn commands_read(rt: HostRuntime) {
    for (words, command) in &READ {
        reads(&rt, rt.alloc(), words, Ok(*command));
    }
}

/// That the last character of a seed is no digit.
const DIGIT: UsageFault = UsageFault::NoSeed(SeedFault::Digit { place: 63 });

/// Words that are refused, and why.
static REFUSED: [(&[&str], UsageFault); 11] = [
    (&["one", "444", ZEROS], UsageFault::No444),
    (&["one", "444", "x"], UsageFault::No444),
    (&["tables", "444"], UsageFault::No444),
    (
        &["one", "clock", "-x"],
        UsageFault::NoSeed(SeedFault::Length { got: 2 }),
    ),
    (
        &["one", "clock", ""],
        UsageFault::NoSeed(SeedFault::Length { got: 0 }),
    ),
    (&["one", "clock", BAD_DIGIT], DIGIT),
    (
        &["sheet", "--seed", "abc"],
        UsageFault::NoSeed(SeedFault::Length { got: 3 }),
    ),
    (&["sheet", "--seed", BAD_DIGIT], DIGIT),
    (
        &["sheet", "--workers=1", "--seed=-x"],
        UsageFault::NoSeed(SeedFault::Length { got: 2 }),
    ),
    (
        &["check", "--seed", "abc"],
        UsageFault::NoSeed(SeedFault::Length { got: 3 }),
    ),
    (&["check", "--seed", BAD_DIGIT], DIGIT),
];

/// Words that are no command.
static NO_COMMANDS: [&[&str]; 35] = [
    &[],
    &["one", "444"],
    &["one", "444bf", ZEROS],
    &["one", "clock", ZEROS, ZEROS],
    &["tables"],
    &["tables", "magic"],
    &["tables", "222", ZEROS],
    &["sheet"],
    &["Sheet", "--seed", ZEROS],
    &["sheet", "--seed"],
    &["sheet", "--seed", "-x"],
    &["sheet", "--seed", "-"],
    &["sheet", "--seed", "--"],
    &["sheet", "--seed", "--workers=2"],
    &["sheet", "--workers=0", "--seed=-x"],
    &["sheet", "--workers", "2"],
    &["sheet", "--se", ZEROS],
    &["sheet", "--seed", ZEROS, "--seed", ZEROS],
    &["sheet", "--seed", ZEROS, "--workers", "0"],
    &["sheet", "--seed", ZEROS, "--workers", "65"],
    &["sheet", "--seed", ZEROS, "--workers", "01"],
    &["sheet", "--seed", ZEROS, "--workers", "+1"],
    &["check"],
    &["check", "--seed", ZEROS, "--attempts=0"],
    &["check", "--seed", ZEROS, "--attempts=1000001"],
    &["check", "--seed", ZEROS, "--tries=1"],
    &["check", "--seed", ZEROS, "--workers=1"],
    &["load"],
    &["load", "15", "15"],
    &["load", "10000"],
    &["load", "015"],
    &["load", "+15"],
    &["load", "-1"],
    &["load", ""],
    &["load", "x"],
];

/// Words that `sheet` refuses besides its seed.
static LAST_REFUSED: [&str; 23] = [
    "--workers=0",
    "--workers=65",
    "--workers=01",
    "--workers=+1",
    "--workers",
    "--tries=100001",
    "--attempts=0",
    "--attempts=1000001",
    "--attempts=",
    "--seed=x",
    "--",
    "-",
    "",
    "x",
    "--help",
    "-h",
    "--version",
    "-V",
    "--se=x",
    "--seeds=x",
    "--SEED=x",
    "-s",
    "--=2",
];

/// Refuses a word besides the seed of `sheet`, behind and before it.
fn refuses_last(rt: &impl Abort, alloc: Global, last: &str) {
    let usage = Err(CommandFault::Usage(UsageFault::Grammar));
    reads(rt, alloc, &["sheet", "--seed", ZEROS, last], usage);
    reads(rt, alloc, &["sheet", last, "--seed", ZEROS], usage);
}

#[test]
fn commands_refused(rt: HostRuntime) {
    for (words, fault) in &REFUSED {
        reads(&rt, rt.alloc(), words, Err(CommandFault::Usage(*fault)));
    }
    let usage = Err(CommandFault::Usage(UsageFault::Grammar));
    for words in &NO_COMMANDS {
        reads(&rt, rt.alloc(), words, usage);
    }
    for last in &LAST_REFUSED {
        refuses_last(&rt, rt.alloc(), last);
    }
}
