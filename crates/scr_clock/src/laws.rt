//! What holds of Clock whatever the code: calls that do nothing, whose contracts are the laws.
//!
//! That Clocks are drawn fairly is the law of `scr_draw` for any event that it draws.

ghost use Rattle.std.specs.Prelude.{ℕ, ◌↔◌, List};
ghost use Rattle.scr_combinatorics.specs.Reach.{IsReached};
ghost use Rattle.scr_clock.specs.Dials.{IsClock, clock_puzzle};

/// Turns lead from solved to every list of fourteen dials below 12, and to nothing else.
#[tactic(auto, using(crate::proofs::Cited::each_clock_is_reached))]
pub fn each_clock_is_reached()
    ensures { (dials : List ℕ) → IsClock dials ↔ IsReached clock_puzzle dials }
{}
