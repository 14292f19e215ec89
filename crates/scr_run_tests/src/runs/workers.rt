//! Several workers: they change nothing of what is written, and two of them are at work at once.

ghost use Rattle.std.specs.Prelude.{◌≡◌};

use super::{ZEROS, run_with};
use scr_outside::{MemSink, SliceSource};
use scr_sheet::{Gate, run};
use scr_workers::{Jobs, both, run_chunks};
use std::process::Abort;
use std::sync::atomic::{AtomicU64, Ordering};
use std::test::Fail;

/// How many turns a slot waits at most.
const TURNS: u64 = 100_000_000;

/// A gate at which slot 0 waits until another slot has passed, or for all its turns.
#[derive(Drop)]
struct Meeting {
    awaited: u32,
    has_passed: AtomicU64,
    is_missed: AtomicU64,
}

impl Meeting {
    fn new(awaited: u32) -> Meeting {
        Meeting {
            awaited,
            has_passed: AtomicU64::new(0),
            is_missed: AtomicU64::new(0),
        }
    }

    /// Whether slot 0 met the limit of its turns.
    fn is_missed(&self) -> bool {
        self.is_missed.load(Ordering::SeqCst) == 1
    }

    /// Waits until the other slot has passed.
    fn wait(&self) {
        for _turn in 0..TURNS {
            if self.has_passed.load(Ordering::SeqCst) == 1 {
                return;
            }
        }
        self.is_missed.store(1, Ordering::SeqCst);
    }
}

impl Gate for Meeting {
    fn pass(&self, slot: u32) {
        if slot == self.awaited {
            self.has_passed.store(1, Ordering::SeqCst);
        }
        if slot == 0 {
            self.wait();
        }
    }
}

/// Seven slots, each answered by its number.
#[derive(Drop)]
struct Numbers;

impl Jobs for Numbers {
    type Out = u32;

    ghost slots = { λ _. 7 };

    ghost is_answer = { λ _ slot answer. answer ≡ slot };

    fn job(&self, slot: u32) -> u32 {
        slot
    }
}

// Two workers have the slots 0 to 3 and 4 to 6; one has all of them, one after another.
#[test]
fn two_chunks_at_once(rt: HostRuntime) -> Result<(), Fail> {
    for (workers, is_missed) in [(2, false), (1, true)] {
        let gate = Meeting::new(4);
        let mut out = [None; 7];
        run_chunks(&rt, &Numbers, &mut out, workers, &gate);
        assert_eq!(rt; gate.is_missed(), is_missed);
    }
    Ok(())
}

// While the first of two calls waits, the second is made; by one worker, not before the first has ended.
#[test]
fn two_calls_at_once(rt: HostRuntime) {
    for (workers, is_missed) in [(2, false), (1, true)] {
        let gate = Meeting::new(1);
        both(&rt, workers, || gate.pass(0), || gate.pass(1));
        assert_eq!(rt; gate.is_missed(), is_missed);
    }
}

// While one worker waits in slot 0, the other claims slot 1.
#[test]
fn two_workers_at_once(rt: HostRuntime) -> Result<(), Fail> {
    for (workers, is_missed) in [("2", false), ("1", true)] {
        let gate = Meeting::new(1);
        let words = ["sheet", "--seed", ZEROS, "--workers", workers];
        let mut source = SliceSource::new(b"clock 1");
        let mut out = MemSink::new(rt.alloc(), 4096, 4096, Vec::new(rt.alloc()))?;
        let mut err = MemSink::new(rt.alloc(), 256, 256, Vec::new(rt.alloc()))?;
        let status = run(
            &rt,
            rt.alloc(),
            &words,
            &mut source,
            &mut out,
            &mut err,
            &gate,
        );
        assert_eq!(rt; status.code(), 0);
        assert_eq!(rt; gate.is_missed(), is_missed);
    }
    Ok(())
}

// With 64 workers there are more workers than slots in every round.
#[test]
fn a_sheet_by_any_number_of_workers(rt: HostRuntime) -> Result<(), Fail> {
    let list =
        b"222 2\n333 2\n333bf 2\n333fm 2\npyram 2\nskewb 2\nsq1 2\nclock 2\nminx 2\n555 2\n666 2\n777 2\n";
    let one = ["sheet", "--seed", ZEROS];
    let by_one = run_with(&rt, &one, list, 4096, [&[], &[], &[]])?;
    assert_eq!(rt; by_one.code, 0);
    for workers in ["2", "7", "64"] {
        let words = ["sheet", "--seed", ZEROS, "--workers", workers];
        let ran = run_with(&rt, &words, list, 4096, [&[], &[], &[]])?;
        assert_eq!(rt; ran.code, 0);
        assert_eq!(rt; ran.out.contents(), by_one.out.contents());
    }
    Ok(())
}
