//! The Square-1 solved in stages by complete tables: every state within 76 twists, with no refusal.
//!
//! The stages and the tables by which their words are found are those of `scr_sq1tables`. The turns that end the first
//! and the last of the three stages that have tables are stages of at most one letter, found by trying. The first stage
//! of all turns the equator alone, where the others would leave it turned. [`total_from`] joins the words of the later
//! stages to a word to the square shape, and tidies the whole, its total (`specs/Totals.antt`); and [`scramble_sq1`]
//! takes the total of the first of these words back. That each state has exactly one solution, which leads to solved, is
//! a law (`solutions` of `scr_solver_laws`); so each state is reached ([`laws::reached`]). [`needs_sq1`] tests minima by
//! looking at all short words, and [`DrawSq1`] draws by it.
//!
//! Another word to the square shape may end where the later stages are shorter. So [`scramble_sq1_short`] looks at the
//! first so many of these words, from 1 to 1,000, in the order of words, solves on from each, and takes back the total
//! of the fewest twists, the earliest among equals (`specs/ShortScrambles.antt`). Its contract is the theorem: a state
//! has one such scramble, which leads to it from solved and has no more twists than the scramble by stages.
//!
//! No call takes memory. The crate stands on the Square-1 of `scr_sq1` and on its tables.
#![tactic(auto)]

mod draw;
pub mod laws;
mod minima;
mod moves;
mod short;
mod solving;
mod stages;
mod totals;
mod walks;

pub use draw::DrawSq1;
pub use minima::needs_sq1;
pub use scr_sq1tables::Sq1Tables;
pub use short::scramble_sq1_short;
pub use solving::scramble_sq1;
pub use totals::total_from;
