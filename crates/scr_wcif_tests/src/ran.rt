//! What a run gives over an input and outputs in memory.

use scr_outside::{MemSink, MemSource};
use scr_wcif::{Wcif, run_on_words};
use std::alloc::{AllocError, Global};
use std::process::Abort;
use std::test::Fail;

/// What a run gave: its exit code, what it wrote, and what it told.
struct Ran {
    code: u8,
    out: MemSink,
    err: MemSink,
}

// By hand, so that the proof of whoever lets one go meets one call, and not the letting go of each of its parts.
impl Drop for Ran {
    fn drop(self) {
        let Ran {
            code: _,
            out: _,
            err: _,
        } = self;
    }
}

/// Runs this command on an input, where these reads and these writes fail.
fn run_with(
    alloc: Global,
    command: &str,
    input: &str,
    reads: &[u32],
    writes: &[u32],
) -> Result<Ran, Fail> {
    let bytes = input.as_bytes().to_vec(alloc)?;
    let mut source = MemSource::new(bytes, 100, reads.to_vec(alloc)?);
    let mut out = MemSink::new(alloc, 20_000, 9, writes.to_vec(alloc)?)?;
    let mut err = MemSink::new(alloc, 1_000, 100, Vec::new(alloc))?;
    let words = [command];
    let code = run_on_words(&Wcif, alloc, Ok(&words), &mut source, &mut out, &mut err);
    Ok(Ran { code, out, err })
}

/// Texts, one behind the other.
fn joined(alloc: Global, front: &[&str], behind: &[&str]) -> Result<String, AllocError> {
    let mut joined = String::new(alloc);
    for text in front {
        joined.push_str(text)?;
    }
    for text in behind {
        joined.push_str(text)?;
    }
    Ok(joined)
}

/// Runs this command on an input, in parts of its front and parts behind it, where these reads and these writes fail;
/// and compares its exit code, what it writes, in parts, and the message that it tells.
pub(crate) fn check<R: Abort + AllocGlobal>(
    rt: &R,
    command: &str,
    front: &[&str],
    behind: &[&str],
    fails: [&[u32]; 2],
    code: u8,
    out: &[&str],
    message: &str,
) -> Result<(), Fail> {
    let [reads, writes] = fails;
    let input = joined(rt.alloc(), front, behind)?;
    let out = joined(rt.alloc(), out, &[])?;
    let told = joined(rt.alloc(), &["scramble-wcif: ", message, "\n"], &[])?;
    let ran = run_with(rt.alloc(), command, input.as_str(), reads, writes)?;
    assert_eq!(rt; ran.err.contents(), told.as_bytes());
    assert_eq!(rt; ran.code, code);
    assert_eq!(rt; ran.out.contents(), out.as_bytes());
    Ok(())
}
