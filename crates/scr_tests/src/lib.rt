//! The tests of the crates that know no puzzle, up to the round list and the command line: rows and texts from outside,
//! a file for each. They stand in a crate of their own, since a check of tests proves the crate that they stand in
//! anew. Those of turns, puzzles and their solvers stand in `scr_puzzle_tests`, so that both are checked side by side,
//! and those of whole runs in `scr_run_tests`, so that these need not wait for all of the program.
#![tactic(auto)]

#[cfg(test)]
mod check;
#[cfg(test)]
mod command;
#[cfg(test)]
mod draw;
#[cfg(test)]
mod list;
#[cfg(test)]
mod options;
#[cfg(test)]
mod orbit;
#[cfg(test)]
mod outside;
#[cfg(test)]
mod rank;
#[cfg(test)]
mod table;
#[cfg(test)]
mod table_text;
#[cfg(test)]
mod text;
#[cfg(test)]
mod words;
#[cfg(test)]
mod workers;
