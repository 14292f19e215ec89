//! Slots answered by workers: that a board can be made, and that each way leaves what it must.

ghost use Rattle.std.specs.Prelude.{◌≡◌, ◌*◌};

use scr_workers::{Board, Gate, Jobs, OpenGate, run_chunks, run_claims};
use std::process::Abort;
use std::sync::atomic::{AtomicU64, Ordering};
use std::test::Fail;
use std::thread::Threads;

/// Some slots, each answered by its square.
#[derive(Drop)]
struct Squares {
    slots: u32,
}

impl Jobs for Squares {
    type Out = u64;

    ghost slots = { λ jobs. jobs.slots };

    ghost is_answer = { λ _ slot answer. answer ≡ slot * slot };

    fn job(&self, slot: u32) -> u64 {
        u64::from(slot) * u64::from(slot)
    }
}

/// The squares of 0, 1 and 2.
static ANSWERS: [Option<u64>; 3] = [Some(0), Some(1), Some(4)];

fn expect_chunks<R: Abort + Threads + Sync>(rt: &R) {
    let mut out = [None; 3];
    run_chunks(rt, &Squares { slots: 3 }, &mut out, 2, &OpenGate);
    assert_eq!(rt; out, ANSWERS);
}

fn expect_lanes(rt: &impl Abort, board: &Board<u64>) {
    let seated = board.lanes().iter().filter(|lane| lane.seat().is_some());
    assert_eq!(rt; seated.count(), 1);
    for lane in board.lanes() {
        assert!(rt; lane.own().is_empty());
    }
}

#[test]
fn three_slots_by_two_workers(rt: HostRuntime) -> Result<(), Fail> {
    expect_chunks(&rt);
    let board = Board::new(rt.alloc(), 2, 3)?;
    assert_eq!(rt; board.lanes().len(), 2);
    let mut out = [None; 3];
    let after = run_claims(&rt, board, &Squares { slots: 3 }, &mut out, &OpenGate);
    assert_eq!(rt; out, ANSWERS);
    expect_lanes(&rt, &after);
    Ok(())
}

/// How many slots passed their gate, how many were answered, and whether one worker ever had these two out of step.
struct Steps {
    passed: AtomicU64,
    answered: AtomicU64,
    is_late: AtomicU64,
}

// By hand, so that the proof of whoever lets one go meets one call, and not the letting go of each of its parts.
impl Drop for Steps {
    fn drop(self) {
        let Steps {
            passed: _,
            answered: _,
            is_late: _,
        } = self;
    }
}

impl Steps {
    fn new() -> Steps {
        Steps {
            passed: AtomicU64::new(0),
            answered: AtomicU64::new(0),
            is_late: AtomicU64::new(0),
        }
    }
}

impl Gate for Steps {
    fn pass(&self, _slot: u32) {
        let passed = self.passed.fetch_add(1, Ordering::SeqCst);
        if self.answered.load(Ordering::SeqCst) != passed {
            self.is_late.store(1, Ordering::SeqCst);
        }
    }
}

/// Five slots, each answered by its number, and counted.
#[derive(Drop)]
struct Counted<'a> {
    steps: &'a Steps,
}

impl<'a> Jobs for Counted<'a> {
    type Out = u32;

    ghost slots = { λ _. 5 };

    ghost is_answer = { λ _ slot answer. answer ≡ slot };

    fn job(&self, slot: u32) -> u32 {
        self.steps.answered.fetch_add(1, Ordering::SeqCst);
        slot
    }
}

fn expect_steps(rt: &impl Abort, steps: &Steps) {
    assert_eq!(rt; steps.passed.load(Ordering::SeqCst), 5);
    assert_eq!(rt; steps.is_late.load(Ordering::SeqCst), 0);
}

fn expect_steps_of_chunks<R: Abort + Threads + Sync>(rt: &R) {
    let steps = Steps::new();
    let mut out = [None; 5];
    run_chunks(rt, &Counted { steps: &steps }, &mut out, 1, &steps);
    expect_steps(rt, &steps);
}

// One worker passes the gate of each slot, does its job, and goes on to the next.
#[test]
fn a_gate_before_each_job(rt: HostRuntime) -> Result<(), Fail> {
    expect_steps_of_chunks(&rt);
    let board = Board::new(rt.alloc(), 1, 5)?;
    let steps = Steps::new();
    let mut out = [None; 5];
    run_claims(&rt, board, &Counted { steps: &steps }, &mut out, &steps);
    expect_steps(&rt, &steps);
    Ok(())
}
