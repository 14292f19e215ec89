//! The rule of the claim word, and its four kinds of step.

ghost use Rattle.std.specs.Prelude.{[]};
ghost use Rattle.scr_workers.specs.Rule.{claims, Holds, HasClaimed, HasLooked, rest_of, part_of, joined, spent};

use atomic_table::{Join, Play, Seat, Split, TableRule};
use std::collections::LinkedList;

/// What a seat has: a weight, which is its part of the right to know all claims, and the numbers that it claimed, in
/// order. It is said in clauses alone: no value of it is made.
pub struct Claims {
    pub(crate) weight: u64,
    pub(crate) list: LinkedList<u64>,
}

/// A worker's seat at the claim word.
pub type ClaimSeat = Seat<(), Claims>;

/// Each number below the word was claimed once, by one of the seats.
pub struct ClaimRule;

impl TableRule<(), Claims, ()> for ClaimRule {
    ghost holds = { λ _. Holds };

    ghost first = { λ _. claims 64 [] };
}

/// One fetch-and-add of 1, which claims the old word.
pub(crate) struct Claim;

impl Play<(), Claims> for Claim {
    ghost then = { HasClaimed };
}

/// A load by the seat that has the whole weight.
pub(crate) struct Look;

impl Play<(), Claims> for Look {
    ghost then = { HasLooked };
}

/// A seat that claimed nothing is cut in two.
pub(crate) struct Cut;

impl Split<Claims> for Cut {
    ghost left = { rest_of };

    ghost right = { part_of };
}

/// Two seats become one.
pub(crate) struct Both;

impl Join<Claims> for Both {
    ghost both = { joined };

    ghost spent = { spent };
}
