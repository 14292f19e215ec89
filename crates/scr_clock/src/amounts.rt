//! The scramble of a Clock as fourteen amounts.
ghost use Rattle.std.specs.Prelude.{◌≡◌, ℕ, ◌%◌, List, Some};
ghost use Rattle.std.specs.List.{sum};
ghost use Rattle.std.specs.Simd.Lanes.{products};
ghost use Rattle.scr_clock.specs.Dials.{IsClock, solved};
ghost use Rattle.scr_clock.specs.Held.{clock_after};
ghost use Rattle.scr_clock.specs.Written.{written};

use crate::clock::Clock;

/// How often the hour of each dial counts in each amount, modulo 12, where minus once is eleven times.
///
/// The rows are the pin sets in their order, UR DR DL UL U R D L ALL of the front and U R D L ALL of the back, and the
/// columns the dials, UL U UR L C R DL D DR of the front and U L C R D of the back.
///
/// The back turns alone move the back, so its dials give their amounts. From each corner of the front they are taken
/// back by its two edges of the back less the back's centre, which therefore stand with it in a row. There each corner
/// pin's amount is the centre less the two edges that it doesn't touch, plus the opposite corner; the other amounts
/// follow in the same way.
const AMOUNTS: [[u8; 14]; 14] = [
    [0, 0, 0, 11, 1, 0, 1, 11, 0, 0, 0, 11, 1, 1],
    [1, 11, 0, 11, 1, 0, 0, 0, 0, 1, 0, 11, 1, 0],
    [0, 11, 1, 0, 1, 11, 0, 0, 0, 1, 1, 11, 0, 0],
    [0, 0, 0, 0, 1, 11, 0, 11, 1, 0, 1, 11, 0, 1],
    [0, 0, 0, 1, 11, 1, 11, 1, 11, 0, 11, 2, 11, 10],
    [11, 1, 0, 1, 11, 0, 11, 1, 0, 11, 0, 2, 10, 11],
    [11, 1, 11, 1, 11, 1, 0, 0, 0, 10, 11, 2, 11, 0],
    [0, 1, 11, 0, 11, 1, 0, 1, 11, 11, 10, 2, 0, 11],
    [1, 11, 1, 11, 1, 11, 1, 11, 1, 2, 2, 8, 2, 2],
    [0, 0, 0, 0, 0, 0, 0, 0, 0, 0, 0, 1, 0, 11],
    [0, 0, 0, 0, 0, 0, 0, 0, 0, 0, 11, 1, 0, 0],
    [0, 0, 0, 0, 0, 0, 0, 0, 0, 11, 0, 1, 0, 0],
    [0, 0, 0, 0, 0, 0, 0, 0, 0, 0, 0, 1, 11, 0],
    [0, 0, 0, 0, 0, 0, 0, 0, 0, 1, 1, 9, 1, 1],
];

/// The amounts, from 0 to 11, of the one scramble that leads from solved to this state.
#[tactic(auto, using(crate::proofs::Cited::solve))]
pub fn solve(clock: &Clock) -> [u8; 14]
    ensures amounts { IsClock result }
    ensures gives { clock_after solved (written result) ≡ Some clock.now }
    ensures only { (amounts : List ℕ)
        → IsClock amounts → clock_after solved (written amounts) ≡ Some clock.now → amounts ≡ result }
{
    let dials = clock.dials();
    let mut amounts = [0; 14];
    for turn in 0..14 {
        amounts[turn] = hour(&AMOUNTS[turn], &dials);
    }
    amounts
}

/// The hour from 0 to 11 that the dials come to, each counted so many times.
#[tactic(auto, using(crate::proofs::Cited::hour))]
fn hour(times: &[u8; 14], dials: &[u8; 14]) -> u8
    ensures { result ≡ sum (products times.now dials.now) % 12 }
{
    let mut hours = 0;
    for dial in 0..14 {
        hours += times[dial] as u32 * dials[dial] as u32;
    }
    (hours % 12) as u8
}
