//! The tests of turns, puzzles and their solvers: rows, vectors and texts from outside, a file for each crate or puzzle.
//! They stand in a crate of their own, since a check of tests proves the crate that they stand in anew.
#![tactic(auto)]

#[cfg(test)]
mod bigs;
#[cfg(test)]
mod clock;
#[cfg(test)]
mod coord;
#[cfg(test)]
mod cube;
#[cfg(test)]
mod fewest;
#[cfg(test)]
mod held;
#[cfg(test)]
mod net;
#[cfg(test)]
mod notation;
#[cfg(test)]
mod numbered;
#[cfg(test)]
mod picture;
#[cfg(test)]
mod pyram;
#[cfg(test)]
mod read;
#[cfg(test)]
mod skewb;
#[cfg(test)]
mod small;
#[cfg(test)]
mod sq1;
#[cfg(test)]
mod sq1short;
#[cfg(test)]
mod sq1solve;
#[cfg(test)]
mod stages;
#[cfg(test)]
mod twophase;
