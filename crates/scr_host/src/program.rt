//! Programs that read one input, over the system's words and streams.

ghost use Rattle.std.specs.Prelude.{map};
ghost use Rattle.std.specs.Result.{result_map_both};
ghost use Rattle.scr_outside.specs.Change.{change_of, intake_of};
ghost use Rattle.scr_host.specs.Exit.{EndsOnStreams, IsExitCode};
ghost use Rattle.scr_host.specs.Runs.{IsRun, EndsRun};

use crate::exit::Exit;
use crate::fault::{Fault, OwnFault};
use crate::telling::{end_without_words, tell};
use crate::words::{NoWords, borrowed, words_of};
use scr_outside::{Sink, Source, StdSink, StdSource};
use std::alloc::Global;

/// A program without threads that reads one input, by what it does on words over any source and output. (One with threads
/// takes a runtime that may be shared among them, which an impl of a trait can't yet know.)
pub trait Program {
    ghost use Rattle.std.specs.Prelude.{ℕ, List, Result, map};
    ghost use Rattle.scr_outside.specs.Change.{Change, change_of, intake_of};
    ghost use Rattle.scr_host.specs.declared.fault.Fault.{Fault as FaultOf};
    ghost use Rattle.scr_host.specs.Runs.{told_text};

    /// What goes wrong in it alone.
    type Own: OwnFault;

    /// How it may end on these words: what it did to its source and its output, and what is then to be told, or what went
    /// wrong.
    ghost Ends: { List (List ℕ) → Change → Change → Result (List ℕ) (FaultOf Self.Own) → Type 0 };

    /// Does what these words ask for, which are those of its command line without its own name, and gives what is to be
    /// told where all went well.
    fn perform<'w, S: Source, O: Sink>(
        &self,
        alloc: Global,
        words: &'w [&'w str],
        source: &mut S,
        out: &mut O,
    ) -> Result<String, Fault<Self::Own>>
        ensures { Ends (map (λ word. word.now) words.now)
            (intake_of S.left S.faults S.ends source.old source.new)
            (change_of O.held O.faults out.old out.new) (told_text result) };
}

/// Does all that a program does on these words: tells on `err` what there is to be told, or what went wrong, and gives
/// how it ended. A fault of `err` changes nothing of that.
pub fn run<'w, P: Program, S: Source, O: Sink, E: Sink>(
    program: &P,
    alloc: Global,
    words: &'w [&'w str],
    source: &mut S,
    out: &mut O,
    err: &mut E,
) -> Result<(), Fault<P::Own>>
    ensures { IsRun P.Ends P.Own.telling (map (λ word. word.now) words.now) result
        (intake_of S.left S.faults S.ends source.old source.new)
        (change_of O.held O.faults out.old out.new) (change_of E.held E.faults err.old err.new) }
{
    match program.perform(alloc, words, source, out) {
        Ok(told) => {
            tell(err, told.as_str());
            Ok(())
        }
        Err(fault) => {
            tell(err, fault.message().as_str());
            Err(fault)
        }
    }
}

/// Runs a program on these words, or ends it for want of them, and gives the exit code: that of its run, or, where there
/// are no words, that of want of memory, which is told, or 1.
#[tactic(auto, unfolding(crate::specs::Runs::EndsRun))]
pub fn run_on_words<'w, P: Program, S: Source, O: Sink, E: Sink>(
    program: &P,
    alloc: Global,
    words: Result<&'w [&'w str], NoWords>,
    source: &mut S,
    out: &mut O,
    err: &mut E,
) -> u8
    ensures { EndsRun P.Ends P.Own.telling
        (result_map_both (λ given. map (λ word. word.now) given.now) (λ why. why) words.entry) result
        (intake_of S.left S.faults S.ends source.old source.new)
        (change_of O.held O.faults out.old out.new) (change_of E.held E.faults err.old err.new) }
{
    match words {
        Ok(words) => match run(program, alloc, words, source, out, err) {
            Ok(()) => 0,
            Err(why) => why.code(),
        },
        Err(why) => {
            let wanting: Fault<P::Own> = Fault::NoMemory;
            end_without_words(why, wanting.code(), wanting.message().as_str(), err)
        }
    }
}

/// Runs a program on the words of the command line without its own name, the standard input, output and error output, and
/// gives the exit code with which it has to end.
pub fn run_on_host<P: Program>(program: &P, host: &HostRuntime) -> Exit
    ensures { IsExitCode (EndsRun P.Ends P.Own.telling) result }
{
    match words_of(host) {
        Ok(owned) => match borrowed(host.alloc(), &owned) {
            Ok(words) => run_on_streams(program, host, Ok(&words)),
            Err(why) => run_on_streams(program, host, Err(why)),
        },
        Err(why) => run_on_streams(program, host, Err(why)),
    }
}

/// Runs a program on these words, over the system's streams.
fn run_on_streams<P: Program>(
    program: &P,
    host: &HostRuntime,
    words: Result<&[&str], NoWords>,
) -> Exit
    ensures { EndsOnStreams (EndsRun P.Ends P.Own.telling)
        (result_map_both (λ given. map (λ word. word.now) given.now) (λ why. why) words.entry) result }
{
    let mut source = StdSource::new(host.stdin());
    let mut out = StdSink::new(host.stdout());
    let mut err = StdSink::new(host.stderr());
    Exit::of(run_on_words(
        program,
        host.alloc(),
        words,
        &mut source,
        &mut out,
        &mut err,
    ))
}
