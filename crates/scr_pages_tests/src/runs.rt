//! Whole runs over sources and sinks in memory.

ghost use Rattle.std.specs.Prelude.{◌<◌};

use scr_outside::{MemSink, MemSource};
use scr_pages::{Pages, run_on_words};
use std::alloc::Global;
use std::test::Fail;

mod forms;
mod printed;
mod refusals;

/// What a run gave: its exit code, what it wrote, and what it told.
pub(crate) struct Ran {
    pub code: u8,
    pub out: MemSink,
    pub err: MemSink,
}

// By hand, so that the proof of whoever lets one go meets one call, and not the letting go of each of its parts.
impl Drop for Ran {
    fn drop(self) {
        let Ran {
            code: _,
            out: _,
            err: _,
        } = self;
    }
}

/// Runs on these words and this sheet, in pieces of at most a thousand bytes, where these reads and these writes fail.
pub(crate) fn run_with(
    alloc: Global,
    words: &[&str],
    sheet: &str,
    reads: &[u32],
    writes: &[u32],
) -> Result<Ran, Fail> {
    let bytes = sheet.as_bytes().to_vec(alloc)?;
    let mut source = MemSource::new(bytes, 1000, reads.to_vec(alloc)?);
    let mut out = MemSink::new(alloc, 4_000_000, 1000, writes.to_vec(alloc)?)?;
    let mut err = MemSink::new(alloc, 256, 256, Vec::new(alloc))?;
    let code = run_on_words(&Pages, alloc, Ok(words), &mut source, &mut out, &mut err);
    Ok(Ran { code, out, err })
}

/// A sheet in which the first of these texts stands in place of another; nothing where that isn't there.
pub(crate) fn with_text(alloc: Global, sheet: &str, old: &str, new: &str) -> Result<String, Fail> {
    let mut changed = String::new(alloc);
    if let Some((front, behind)) = sheet.split_once(old) {
        changed.push_str(front)?;
        changed.push_str(new)?;
        changed.push_str(behind)?;
    }
    Ok(changed)
}
