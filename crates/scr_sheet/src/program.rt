//! The top call.

ghost use Rattle.scr_outside.specs.Change.{change_of, intake_of};
ghost use Rattle.scr_options.specs.Words.{texts};
ghost use Rattle.scr_sheet.specs.Outcome.{IsRun, IsPerformed, Tells};
ghost use Rattle.scr_slots.specs.Events.{promised_of};
ghost use Rattle.scr_sheet.specs.Headline.{AreFairScrambles, IsFairRun};

use crate::check::{tests_of_list, write_check};
use crate::load::{load_rounds, load_seed, write_load};
use crate::making::workers_of;
use crate::parts::{write_event_tables, write_sheet};
use crate::ready::Ready;
use crate::single::write_single;
use scr_check::ByteReader;
use scr_check::laws::what_the_source_gave;
use scr_command::{Command, read_command};
use scr_fault::{Fault, Status};
use scr_list::read_rounds;
use scr_outside::{Sink, Source};
use scr_slots::Tables;
use scr_workers::Gate;
use std::alloc::Global;
use std::thread::Threads;

/// Does all that the program does, on its words without its own name: reads the round list from `source` where they ask
/// for a sheet, and a list and a sheet where they ask for a check; writes what they ask for to `out`, tells on `err`
/// what goes wrong, and gives the status.
///
/// Whatever the number of workers says, it writes exactly the sheet that the definitions give for its seed and round
/// list, or the named part of it at a refusal; every state of an event of random states that turns reach and that needs
/// at least the set number of turns is drawn by equally many lists of numbers; every printed scramble of such a state,
/// played on the solved puzzle, gives it within the puzzle's bound:
///
/// | event | bound |
/// |---|---|
/// | 222, skewb | 11 turns |
/// | pyram | 15 turns, tips included |
/// | clock | 14 amounts |
/// | 333, with one hand too | 22 turns where the search for two parts finds them, else 52 |
/// | 333bf | that of 333, and at most two wide turns |
/// | 333fm | that of 333, between R' U' F and R' U' F |
/// | sq1 | 76 twists |
///
/// For minx, 555, 666 and 777 no state is drawn: each random move is taken by equally many numbers.
///
/// Want of memory comes only where the first word is `sheet` or `check`, where tables are needed, or where rounds are
/// made for `load`. It tells nothing of what is drawn or judged: it comes from calls that see no seed, and before the
/// first draw, so then nothing is written. A fault of `err` changes no status.
///
/// The slots of a round are claimed by as many workers as the words ask for, and each passes `gate` before it is drawn.
pub fn run<'w, R: Threads + Sync, S: Source, O: Sink, E: Sink, G: Gate + Sync>(
    rt: &R,
    alloc: Global,
    words: &'w [&'w str],
    source: &mut S,
    out: &mut O,
    err: &mut E,
    gate: &G,
) -> Status
    // What `source` gave, what `out` and `err` gained, and the status, are those of an end that the definitions allow;
    // and wherever scrambles are made, each of their rounds is drawn fairly, and each scramble gives its state within
    // its bound; of random moves each step is fair.
    ensures whole { IsRun (texts words.now) result (intake_of S.left S.faults S.ends source.old source.new)
        (change_of O.held O.faults out.old out.new) (change_of E.held E.faults err.old err.new) }
    // Of this, what speaks of fairness and of play alone: the slots of what is written are drawn fairly, and their
    // scrambles stand in order, each as it is spelled, and give the states that were drawn, within their puzzles'
    // bounds. What else a round has below its head, and what `net` writes below its line, is left to `whole`.
    ensures headline { IsFairRun (λ event. AreFairScrambles (promised_of event)) (texts words.now)
        (change_of O.held O.faults out.old out.new) }
{
    let ended = perform(rt, alloc, words, source, out, gate);
    tell(err, ended);
    Status::of(ended)
}

/// Does what the words ask for. Of all calls below it none but this has both memory to give and a seed: what takes
/// memory sees no seed, and what sees one is handed what was got ready, or why it was not.
fn perform<R: Threads + Sync, S: Source, O: Sink, G: Gate + Sync>(
    rt: &R,
    alloc: Global,
    words: &[&str],
    source: &mut S,
    out: &mut O,
    gate: &G,
) -> Result<(), Fault>
    ensures { IsPerformed (texts words.now) (intake_of S.left S.faults S.ends source.old source.new)
        (change_of O.held O.faults out.old out.new) result }
{
    match read_command(alloc, words)? {
        Command::One(event, seed) => {
            let tables = Tables::of_event(rt, alloc, event);
            write_single(tables, event, &seed, None, out)
        }
        Command::Sheet(seed, options) => {
            let rounds = read_rounds(source)?;
            let ready = Ready::for_rounds(rt, alloc, &rounds, workers_of(&options));
            write_sheet(rt, ready, &seed, &options, &rounds, out, gate)
        }
        Command::Tables(event) => write_event_tables(rt, alloc, event, out),
        Command::Load(number) => {
            let rounds = load_rounds(number);
            let ready = Ready::for_rounds(rt, alloc, &rounds, 1);
            write_load(rt, ready, &load_seed(number), &rounds, out, gate)
        }
        Command::Net(event, seed) => {
            let tables = Tables::of_event(rt, alloc, event);
            write_single(tables, event, &seed, event.net_side(), out)
        }
        Command::Check(seed, attempts) => {
            what_the_source_gave(source);
            let mut reader = ByteReader::new(source);
            let tests = tests_of_list(rt, alloc, &mut reader);
            write_check(tests, &seed, attempts, &mut reader, out)
        }
    }
}

/// Tells what went wrong, if it did.
fn tell<E: Sink>(err: &mut E, ended: Result<(), Fault>)
    ensures { Tells (change_of E.held E.faults err.old err.new) ended }
{
    if let Err(fault) = ended {
        scr_host::tell(err, fault.message().as_str());
    }
}
