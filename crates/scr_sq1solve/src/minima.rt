//! The minimum of a Square-1, by looking at all short words.
ghost use Rattle.std.specs.Prelude.{◌≡◌, ◌≤◌, ◌↔◌, IsTrue};
ghost use Rattle.scr_combinatorics.specs.Reach.{Needs};
ghost use Rattle.scr_sq1.specs.Units.{sq1_puzzle};
ghost use Rattle.scr_sq1solve.specs.Minima.{needs_test_sq1};

use crate::draw::DrawSq1;
use scr_draw::Permit;
use scr_sq1::Sq1;

/// Whether no word of fewer than `least` turns, of the layers and twists, brings a Square-1 to solved. `least` is at
/// most 4.
pub fn needs_sq1(state: &Sq1, least: u32) -> bool
    requires { least ≤ 4 }
    ensures exact { IsTrue result ↔ Needs sq1_puzzle state.now least }
    ensures tested { result ≡ needs_test_sq1 state.now least }
{
    state.is_valid();
    DrawSq1::new().needs_at_least(state, least)
}
