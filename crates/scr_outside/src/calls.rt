//! The calls of a source or a sink in memory.

ghost use Rattle.std.specs.Prelude.{◌≡◌, ◌^◌, ◌<◌, ◌↔◌, Contains, IsTrue};
ghost use Rattle.scr_outside.specs.Memory.{no_calls, one_more, failed, NextFails};

use std::marker::Model;

/// How many calls there were, which of them fail, and how many failed. Both counts stay at 2^64 - 1.
#[derive(Drop)]
pub(crate) struct Calls {
    fails: Vec<u32>,
    made: u64,
    faults: u64,
}

impl Model for Calls {
    ghost use Rattle.std.specs.Prelude.{◌^◌, ◌<◌};
    ghost use Rattle.scr_outside.specs.Memory.{CallsMade};

    ghost Value = { CallsMade };

    ghost view = { λ c. record { fails = c.fails.items; made = c.made; faults = c.faults } };

    ghost invariant = { λ c. c.faults < 2 ^ 64 };
}

impl Calls {
    /// No call so far, where those with these numbers, from 1, fail.
    pub(crate) fn new(fails: Vec<u32>) -> Calls
        ensures { result ≡ no_calls fails.items }
    {
        Calls {
            fails,
            made: 0,
            faults: 0,
        }
    }

    /// Counts a call, and says whether it is one of those that fail.
    pub(crate) fn count(&mut self) -> bool
        ensures fails { IsTrue result ↔ NextFails self.old }
        ensures counted { self.new ≡ one_more self.old }
        ensures at_most { self.new.faults < 2 ^ 64 }
    {
        self.made = self.made.saturating_add(1);
        stands_in(&self.fails, self.made)
    }

    /// Counts a fault.
    pub(crate) fn raise(&mut self)
        ensures failed { self.new ≡ failed self.old }
        ensures at_most { self.new.faults < 2 ^ 64 }
    {
        self.faults = self.faults.saturating_add(1);
    }
}

fn stands_in(numbers: &[u32], number: u64) -> bool
    ensures { IsTrue result ↔ Contains numbers.now number }
{
    numbers.iter().any(|n| u64::from(*n) == number)
}
