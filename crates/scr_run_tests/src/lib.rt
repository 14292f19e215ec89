//! The tests of whole runs: words, lists, sheets, messages and statuses from outside. They stand in a crate above all
//! others, since a check of tests proves the crate that they stand in anew.
#![tactic(auto)]

#[cfg(test)]
mod runs;
