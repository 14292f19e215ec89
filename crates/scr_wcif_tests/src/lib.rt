//! The tests of runs on a competition's own file. They stand in a crate of their own, since a check of tests proves the
//! crate that they stand in anew.
#![tactic(auto)]

#[cfg(test)]
mod fills;
#[cfg(test)]
mod ran;
#[cfg(test)]
mod runs;
