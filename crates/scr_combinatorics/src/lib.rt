//! Lists of numbers, and words of turns over any puzzle: what a permutation is, what even means, how lists are
//! composed, what the number of a list means; and, where a turn may be barred, what a word makes of a state, which
//! states turns reach, how many counted turns a state needs, the first word to a goal, solving by stages, words taken
//! back and tidied.
//!
//! The definitions stand in `specs/`: `Lists` (counts, sums, picking, the order of a dictionary), `Permutations`
//! (permutations, parity, inverses, numbers), `PlaceSets` (sets of places), `Pairings` (places in pairs), `Digits`
//! (digits, each below a base of its own), `Twists` (digits whose sum is fixed), `Numbered` (numbered states) and
//! `Numbering` (what it is for states or lists to be numbered); `Play`, `Reach` (a puzzle), `FirstWord`, `Stages`,
//! `Back`, `Tidy` and `Lawful`; `PowerLetters` (letters as powers of a puzzle's generators, and their numbers). The
//! crate stands on nothing but `std`, names no puzzle and has no code but [`laws::rows`], lists worked by hand. What is
//! proved of lists is stated in `scr_laws`, and what is proved of words and of letters for each puzzle in
//! `scr_puzzle_laws`.
#![tactic(auto)]

pub mod laws;
