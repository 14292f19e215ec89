//! What a table over the states of a puzzle is.

use scr_notation::Event;
use scr_table::TableName;

/// A table over the states of a puzzle, whose states are two parts.
#[derive(Clone, Copy)]
pub struct StateTable {
    /// The event that it solves.
    pub event: Event,
    /// What it is called.
    pub name: TableName,
    /// How many turns a state is at most from solved.
    pub bound: u32,
    /// How many positions the part has whose numbers follow each other.
    pub low: u32,
    /// How many the other part has.
    pub high: u32,
}
