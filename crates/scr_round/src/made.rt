//! A round that was made.

ghost use Rattle.std.specs.Prelude.{◌≡◌, ◌<◌, length};

use scr_list::Round;
use scr_notation::Scramble;
use std::marker::Model;

/// A round with its scrambles, one for each slot in order.
#[derive(Drop)]
pub struct RoundResult {
    round: Round,
    index: u32,
    scrambles: Vec<Scramble>,
}

impl Model for RoundResult {
    ghost use Rattle.scr_round.specs.Made.{Made, IsMade};

    ghost Value = { Made };

    ghost view = { λ m. record { round = m.round; index = m.index; scrambles = m.scrambles.items } };

    ghost invariant = { λ m. IsMade (record { round = m.round; index = m.index; scrambles = m.scrambles.items }) };
}

impl RoundResult {
    ghost use Rattle.scr_round.specs.Round.{IsInRange, slots_of};
    ghost use Rattle.scr_round.specs.Made.{Made, IsMade};

    /// Round `index` of a list, counted from 0 and below 256, with a scramble for each slot. It has 1 to 26 groups,
    /// and a minimum of its event's range; its name may be any.
    pub fn new(round: Round, index: u32, scrambles: Vec<Scramble>) -> RoundResult
        requires round { IsInRange round }
        requires index { index < 256 }
        requires each_slot { length scrambles.items ≡ slots_of round }
        ensures { result ≡ record { round = round; index = index; scrambles = scrambles.items } }
    {
        RoundResult {
            round,
            index,
            scrambles,
        }
    }

    /// The round.
    pub fn round(&self) -> &Round
        ensures value { result.now ≡ self.now.round }
        ensures valid { IsMade self.now }
    {
        &self.round
    }

    /// Its place in the list, from 0.
    pub fn index(&self) -> u32
        ensures value { result ≡ self.now.index }
        ensures valid { IsMade self.now }
    {
        self.index
    }

    /// Its scrambles, in the order of the slots.
    pub fn scrambles(&self) -> &[Scramble]
        ensures value { result.now ≡ self.now.scrambles }
        ensures valid { IsMade self.now }
    {
        &self.scrambles
    }
}
