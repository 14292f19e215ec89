//! The test of what a Square-1 needs, against a search that tries all turns from both ends. It stands in a crate of its
//! own, since a check of tests proves the crate that they stand in anew.
#![tactic(auto)]

#[cfg(test)]
mod searched;
