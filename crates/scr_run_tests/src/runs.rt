//! Whole runs over sources and sinks in memory, against words, sheets and messages as the manual has them.

ghost use Rattle.std.specs.Prelude.{◌<◌};

use scr_outside::{MemSink, MemSource};
use scr_sheet::*;
use std::process::Abort;
use std::test::Fail;
use std::thread::Threads;

mod ample;
mod checks;
mod commands;
mod exits;
mod expected;
mod failing;
mod limits;
mod loads;
mod sheets;
mod workers;

pub(crate) const ZEROS: &str = "0000000000000000000000000000000000000000000000000000000000000000";

pub(crate) const USAGE: &str =
    "scramble: usage: one EVENT SEED | sheet --seed HEX [--workers N] [--tries N] [--attempts N] [--short N] | tables EVENT | load NUMBER | net EVENT SEED | check --seed HEX [--attempts N]\n";

pub(crate) const NO_444: &str = "scramble: 444 is not supported\n";

/// What a run gave.
pub(crate) struct Ran {
    pub code: u8,
    pub out: MemSink,
    pub err: MemSink,
}

// By hand, so that the proof of whoever lets one go meets one call, and not the letting go of each of its parts.
impl Drop for Ran {
    fn drop(self) {
        let Ran {
            code: _,
            out: _,
            err: _,
        } = self;
    }
}

/// Runs on these words and this list, in pieces of so many bytes, where these calls fail.
pub(crate) fn run_with<R: AllocGlobal + Threads + Sync>(
    rt: &R,
    words: &[&str],
    list: &[u8],
    most: usize,
    fails: [&[u32]; 3],
) -> Result<Ran, Fail>
    requires { 0 < most }
{
    let [source_fails, out_fails, err_fails] = fails;
    let list = list.to_vec(rt.alloc())?;
    let mut source = MemSource::new(list, most, source_fails.to_vec(rt.alloc())?);
    let mut out = MemSink::new(rt.alloc(), 200_000, most, out_fails.to_vec(rt.alloc())?)?;
    let mut err = MemSink::new(rt.alloc(), 256, most, err_fails.to_vec(rt.alloc())?)?;
    let status = run(
        rt,
        rt.alloc(),
        words,
        &mut source,
        &mut out,
        &mut err,
        &OpenGate,
    );
    Ok(Ran {
        code: status.code(),
        out,
        err,
    })
}

/// Runs on these words and this list, and compares what the run gave.
pub(crate) fn check<R: Abort + AllocGlobal + Threads + Sync>(
    rt: &R,
    words: &[&str],
    list: &[u8],
    code: u8,
    out: &str,
    err: &str,
) -> Result<(), Fail> {
    let ran = run_with(rt, words, list, 4096, [&[], &[], &[]])?;
    assert_eq!(rt; ran.code, code);
    assert_eq!(rt; ran.out.contents(), out.as_bytes());
    assert_eq!(rt; ran.err.contents(), err.as_bytes());
    Ok(())
}
