//! The state of a Clock and its turns.
ghost use Rattle.std.specs.Prelude.{◌≡◌, ℕ, ◌<◌, ◌≤◌, ◌↔◌, List, All, IsSome, IfSome};
ghost use Rattle.scr_clock.specs.Dials.{IsClock, gain_at, dials_turned, solved, dial_turn};
ghost use Rattle.scr_clock.specs.Held.{clock_after};

use scr_notation::{Scramble, Turn};
use std::marker::Model;

/// The pins next to each dial that a front turn moves, in the order of the dials.
const FRONT_PINS: [u8; 14] = [8, 9, 1, 12, 15, 3, 4, 6, 2, 0, 0, 0, 0, 0];

/// The pins, as seen from the back, next to each dial that a back turn moves.
const BACK_PINS: [u8; 14] = [1, 0, 8, 0, 0, 0, 2, 0, 4, 9, 12, 15, 3, 6];

/// A Clock: fourteen dials, each at an hour from 0 to 11.
#[derive(Clone, Copy, Debug, PartialEq, Eq)]
pub struct Clock {
    pub(crate) dials: [u8; 14],
}

impl Model for Clock {
    ghost use Rattle.std.specs.Prelude.{ℕ, ◌<◌, List, All};

    ghost Value = { List ℕ };

    ghost view = { λ c. c.dials };

    ghost invariant = { λ c. All (λ d. d < 12) c.dials };

    ghost inverse = { λ dials. record { dials = dials } };
}

impl Clock {
    /// The Clock whose dials all show 12.
    pub fn solved() -> Clock
        ensures { result ≡ solved }
    {
        Clock { dials: [0; 14] }
    }

    /// The Clock with these dials, UL U UR L C R DL D DR of the front and then U L C R D of the back. `None` comes
    /// exactly where a dial isn't below 12.
    pub fn from_dials(dials: [u8; 14]) -> Option<Clock>
        ensures valid { IsSome result ↔ IsClock dials }
        ensures value { IfSome result (λ clock. clock ≡ dials) }
    {
        if dials.iter().all(|dial| *dial < 12) {
            Some(Clock { dials })
        } else {
            None
        }
    }

    /// The dials, in the order of `from_dials`.
    pub fn dials(&self) -> [u8; 14]
        ensures same { result ≡ self.now }
        ensures valid { IsClock self.now }
    {
        self.dials
    }

    /// The Clock after a turn by `amount` hours, from 0 to 11, of the side that faces the scrambler: the back or the
    /// front. `pins` says which pins are up on that side, as a sum of 1 for UR, 2 for DR, 4 for DL and 8 for UL as seen
    /// there, from 1 to 15.
    #[tactic(auto, using(crate::proofs::Cited::pins))]
    pub fn pins(&self, back: bool, pins: u8, amount: u8) -> Clock
        requires some_pin { 0 < pins }
        requires four_pins { pins < 16 }
        requires hours { amount < 12 }
        ensures { result ≡ dials_turned self.now (dial_turn back pins amount) }
    {
        let mut dials = [0; 14];
        for dial in 0..14 {
            dials[dial] = (self.dials[dial] + gain_at(dial, back, pins, amount)) % 12;
        }
        Clock { dials }
    }

    /// The Clock after the turns of a scramble, with the front facing the scrambler at first; `y2` changes the side
    /// that does. `None` comes exactly where a turn is none of Clock's.
    #[tactic(auto, using(crate::proofs::Cited::play))]
    pub fn play(&self, scramble: &Scramble) -> Option<Clock>
        ensures { result ≡ clock_after self.now scramble.now.turns }
    {
        let mut clock = *self;
        let mut back = false;
        for turn in scramble.turns() {
            match *turn {
                Turn::Pins { pins, amount } => clock = clock.pins(back, pins, amount),
                Turn::Over => back = !back,
                _ => return None,
            }
        }
        Some(clock)
    }
}

/// What a dial gains by a turn: minus the amount is what is left of it to twelve.
#[tactic(auto, unfolding(crate::specs::Dials::gain_at))]
fn gain_at(dial: usize, back: bool, pins: u8, amount: u8) -> u8
    requires fourteen { dial < 14 }
    requires hours { amount < 12 }
    ensures value { result ≡ gain_at (dial_turn back pins amount) dial }
    ensures most { result ≤ 12 }
{
    let next_to = if back {
        BACK_PINS[dial]
    } else {
        FRONT_PINS[dial]
    };
    if next_to & pins == 0 {
        0
    } else if back && dial < 9 {
        12 - amount
    } else {
        amount
    }
}
