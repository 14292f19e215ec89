//! The test of a minimum: whether a Clock needs at least so many turns, of any pin sets on either side.
//!
//! Turns commute, and a turn of a side moves that side's centre by its amount. So what two turns of different sides
//! turned by can be read off the centres, and most states are decided by dials that such turns would leave alone.
ghost use Rattle.std.specs.Prelude.{◌≡◌, ◌<◌, ◌≤◌, ◌↔◌, ◌⊎◌, true, false, [], ◌∷◌, IsTrue};
ghost use Rattle.scr_combinatorics.specs.Reach.{Needs};
ghost use Rattle.scr_clock.specs.Dials.{IsClock, solved, clock_puzzle};
ghost use Rattle.scr_clock.specs.Least.{turns_lead, needs_test_clock};
ghost use Rattle.scr_clock.specs.Sides.{SidesLead, IsOtherSolved, AreBackEdgesCarried, centre_amount};

use crate::clock::Clock;

/// Whether no word of fewer than `least` counted turns, of any pin sets on either side, brings `clock` to solved.
/// `least` is at most 3.
///
/// It takes no memory. A random state is decided after a handful of comparisons of dials. One whose back edges each
/// show 12 or what the back's centre shows, one in 1,296, takes up to 15 turns more, and one whose back is solved, or
/// the edges and centre of its front, up to 180 turns with 15 turns after each.
#[tactic(auto, unfolding(crate::specs::Least::needs_test_clock))]
pub fn needs_at_least(clock: &Clock, least: u32) -> bool
    requires { least ≤ 3 }
    ensures test { result ≡ needs_test_clock clock.now least }
    ensures exact { IsTrue result ↔ Needs clock_puzzle clock.now least }
{
    least == 0 || !turns_lead(clock, least - 1)
}

/// Whether so many turns, at most two, lead to solved. Some of them may be by 0.
#[tactic(auto, using(crate::proofs::Cited::turns_lead))]
fn turns_lead(clock: &Clock, turns: u32) -> bool
    requires { turns ≤ 2 }
    ensures value { result ≡ turns_lead turns clock.now }
    ensures valid { IsClock clock.now }
{
    match turns {
        0 => is_solved(clock),
        1 => turn_of_side_leads(clock, false) || turn_of_side_leads(clock, true),
        _ => two_turns_lead(clock),
    }
}

/// Whether two turns lead to solved. Where they are of both sides, that of the back may come first.
fn two_turns_lead(clock: &Clock) -> bool
    ensures exact { IsTrue result
        ↔ ((SidesLead (false ∷ false ∷ []) clock.now ⊎ SidesLead (true ∷ true ∷ []) clock.now)
        ⊎ SidesLead (true ∷ false ∷ []) clock.now) }
    ensures valid { IsClock clock.now }
{
    turns_of_side_lead(clock, false) || turns_of_side_lead(clock, true) || turns_of_both_lead(clock)
}

/// Whether one turn of this side leads to solved.
fn turn_of_side_leads(clock: &Clock, back: bool) -> bool
    ensures exact { IsTrue result ↔ SidesLead (back ∷ []) clock.now }
    ensures valid { IsClock clock.now }
{
    if !is_other_solved(clock, back) {
        return false;
    }
    let amount = amount_of_centre(clock, back);
    for pins in 1..16 {
        if is_solved(&clock.pins(back, pins, amount)) {
            return true;
        }
    }
    false
}

/// Whether two turns of this side lead to solved.
fn turns_of_side_lead(clock: &Clock, back: bool) -> bool
    ensures exact { IsTrue result ↔ SidesLead (back ∷ back ∷ []) clock.now }
    ensures valid { IsClock clock.now }
{
    if !is_other_solved(clock, back) {
        return false;
    }
    for pins in 1..16 {
        for amount in 0..12 {
            if turn_of_side_leads(&clock.pins(back, pins, amount), back) {
                return true;
            }
        }
    }
    false
}

/// Whether a turn of the back and then one of the front lead to solved.
fn turns_of_both_lead(clock: &Clock) -> bool
    ensures exact { IsTrue result ↔ SidesLead (true ∷ false ∷ []) clock.now }
    ensures valid { IsClock clock.now }
{
    if !are_back_edges_carried(clock) {
        return false;
    }
    let amount = amount_of_centre(clock, true);
    for pins in 1..16 {
        if turn_of_side_leads(&clock.pins(true, pins, amount), false) {
            return true;
        }
    }
    false
}

/// Whether all dials show 12.
fn is_solved(clock: &Clock) -> bool
    ensures exact { IsTrue result ↔ (clock.now ≡ solved) }
    ensures valid { IsClock clock.now }
{
    clock.dials() == [0; 14]
}

/// Whether the dials that no turn of this side moves show 12.
fn is_other_solved(clock: &Clock, back: bool) -> bool
    ensures exact { IsTrue result ↔ IsOtherSolved back clock.now }
    ensures valid { IsClock clock.now }
{
    let dials = clock.dials();
    if back {
        dials[1] == 0 && dials[3] == 0 && dials[4] == 0 && dials[5] == 0 && dials[7] == 0
    } else {
        dials[9] == 0 && dials[10] == 0 && dials[11] == 0 && dials[12] == 0 && dials[13] == 0
    }
}

/// The amount by which this side's centre comes to 12.
#[tactic(auto, unfolding(crate::specs::Sides::centre_amount))]
fn amount_of_centre(clock: &Clock, back: bool) -> u8
    ensures value { result ≡ centre_amount back clock.now }
    ensures hours { result < 12 }
{
    let dials = clock.dials();
    let centre = if back { dials[11] } else { dials[4] };
    (12 - centre) % 12
}

/// Whether each edge of the back shows 12 or what the back's centre shows.
fn are_back_edges_carried(clock: &Clock) -> bool
    ensures exact { IsTrue result ↔ AreBackEdgesCarried clock.now }
    ensures valid { IsClock clock.now }
{
    let dials = clock.dials();
    let centre = dials[11];
    is_carried(dials[9], centre)
        && is_carried(dials[10], centre)
        && is_carried(dials[12], centre)
        && is_carried(dials[13], centre)
}

/// Whether an edge shows 12 or what its centre shows.
fn is_carried(dial: u8, centre: u8) -> bool
    ensures { IsTrue result ↔ ((dial ≡ 0) ⊎ (dial ≡ centre)) }
{
    dial == 0 || dial == centre
}
