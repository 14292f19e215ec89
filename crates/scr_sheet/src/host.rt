//! A run on the system's words and streams.

ghost use Rattle.std.specs.Result.{result_map_both};
ghost use Rattle.scr_outside.specs.Change.{change_of, intake_of};
ghost use Rattle.scr_options.specs.Words.{texts};
ghost use Rattle.scr_host.specs.Exit.{EndsOnStreams, IsExitCode};
ghost use Rattle.scr_sheet.specs.Exit.{EndsScramble};

use crate::program::run;
use scr_fault::{Fault, Status};
use scr_host::{Exit, NoWords, borrowed, end_without_words, words_of};
use scr_outside::{Sink, Source, StdSink, StdSource};
use scr_workers::OpenGate;
use std::alloc::Global;
use std::thread::Threads;

/// Runs on the words of the command line without the program's name, the standard input, output and error output, and
/// gives the exit code with which the program has to end. `rt` and `host` are the same runtime: the one starts threads,
/// the other has the words and the streams.
pub fn run_on_host<R: Threads + Sync>(rt: &R, host: &HostRuntime) -> Exit
    ensures { IsExitCode EndsScramble result }
{
    match words_of(host) {
        Ok(owned) => match borrowed(host.alloc(), &owned) {
            Ok(words) => run_on_streams(rt, host, Ok(&words)),
            Err(why) => run_on_streams(rt, host, Err(why)),
        },
        Err(why) => run_on_streams(rt, host, Err(why)),
    }
}

/// Runs on these words, over the system's streams.
fn run_on_streams<R: Threads + Sync>(
    rt: &R,
    host: &HostRuntime,
    words: Result<&[&str], NoWords>,
) -> Exit
    ensures { EndsOnStreams EndsScramble (result_map_both (λ given. texts given.now) (λ why. why) words.entry) result }
{
    let mut source = StdSource::new(host.stdin());
    let mut out = StdSink::new(host.stdout());
    let mut err = StdSink::new(host.stderr());
    Exit::of(run_on_words(rt, host.alloc(), words, &mut source, &mut out, &mut err))
}

/// Runs on these words, without the program's own name, and gives the exit code of the run's status. Where there are no
/// words it tells want of memory, if that is why, and the exit code is that of it or 1.
pub fn run_on_words<'w, R: Threads + Sync, S: Source, O: Sink, E: Sink>(
    rt: &R,
    alloc: Global,
    words: Result<&'w [&'w str], NoWords>,
    source: &mut S,
    out: &mut O,
    err: &mut E,
) -> u8
    ensures { EndsScramble (result_map_both (λ given. texts given.now) (λ why. why) words.entry) result
        (intake_of S.left S.faults S.ends source.old source.new)
        (change_of O.held O.faults out.old out.new) (change_of E.held E.faults err.old err.new) }
{
    match words {
        Ok(words) => run(rt, alloc, words, source, out, err, &OpenGate).code(),
        Err(why) => {
            let message = Fault::NoMemory.message();
            end_without_words(why, Status::NoMemory.code(), message.as_str(), err)
        }
    }
}
