//! The tests of `scramble-pages`: of the crates that it stands on, a file for each, and of its whole runs, by words,
//! sheets, pages, messages and exit codes. They stand in a crate of their own, since a check of tests proves the crate
//! that they stand in anew.
#![tactic(auto)]

#[cfg(test)]
mod drawing;
#[cfg(test)]
mod html;
#[cfg(test)]
mod markup;
#[cfg(test)]
mod read;
#[cfg(test)]
mod runs;
