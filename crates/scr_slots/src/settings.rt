//! What a sheet is made with.
use scr_words::Seed;

/// How much work the solvers may do for a scramble.
#[derive(Clone, Copy, Debug)]
pub struct Effort {
    /// How many first parts the solver of a 3x3x3 tries, up to 100,000.
    pub tries: u32,
    /// How many ways to the square shape the solver of a Square-1 tries, from 1 to 1,000.
    pub short: u32,
}

/// The seed of a sheet, and how much work its scrambles may take.
#[derive(Clone, Copy, Debug)]
pub struct Settings {
    /// The seed: the key of all streams.
    pub seed: Seed,
    /// How many attempts the draw of a slot has, from 1 to 1,000,000.
    pub attempts: u32,
    /// What the solvers do for a state that was drawn.
    pub effort: Effort,
}
