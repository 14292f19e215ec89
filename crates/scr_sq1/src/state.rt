//! The state of a Square-1 and its turns.
ghost use Rattle.std.specs.Prelude.{◌≡◌, ◌<◌, ◌↔◌, Some, IsTrue, IsSome, IfSome};
ghost use Rattle.scr_combinatorics.specs.Play.{play};
ghost use Rattle.scr_notation.specs.declared.event.Event.TheVariants.{Sq1 as EventSq1};
ghost use Rattle.scr_notation.specs.declared.turn.Turn.TheVariants.{Layers};
ghost use Rattle.scr_notation.specs.Layers.{is_twelfths, is_layer_turn};
ghost use Rattle.scr_notation.specs.TurnNumbers.{layer_turn_at};
ghost use Rattle.scr_combinatorics.specs.Permutations.{IsPermutation};
ghost use Rattle.scr_sq1.specs.Shapes.{shape_of};
ghost use Rattle.scr_sq1.specs.Numbers.{corners_of, edges_of};
ghost use Rattle.scr_sq1.specs.Units.{IsSq1, solved_sq1, after_layers, twisted, sq1_after};

use crate::turning::{TWIST_PLACES, UNITS, clockwise, is_open_turned, place_before};
use scr_notation::{NumberedWord, Scramble, Turn};
use std::marker::Model;

/// How many turns there are: one for each two amounts of twelfths from -5 to 6, but that the twist stands in the place
/// of the one by which neither layer is turned.
pub const TURNS: u32 = 144;

/// The number of the twist.
pub const TWIST: u32 = 65;

/// A Square-1 that can be put together, and that can twist: no corner lies across the cut.
///
/// Units 0 to 11 are the top layer, clockwise as seen from above, from the cut at the back on; 12 to 23 are the bottom
/// layer, clockwise as seen from below, from the cut at the front on. Corners are pieces 0 to 7, and fill two units;
/// edges are pieces 8 to 15, and fill one.
#[derive(Clone, Copy, Debug, PartialEq, Eq)]
pub struct Sq1 {
    pub(crate) units: [u8; UNITS],
    pub(crate) equator: bool,
}

// Clauses see the units and the equator.
impl Model for Sq1 {
    ghost use Rattle.scr_sq1.specs.Units.{Sq1State, IsSq1};

    ghost Value = { Sq1State };

    ghost view = { λ s. record { units = s.units; equator = s.equator } };

    ghost invariant = { λ s. IsSq1 (record { units = s.units; equator = s.equator }) };

    ghost inverse = { λ s. record { units = s.units; equator = s.equator } };
}

impl Sq1 {
    /// The solved state.
    #[tactic(auto, using(crate::proofs::Cited::solved))]
    pub fn solved() -> Sq1
        ensures { result ≡ solved_sq1 }
    {
        Sq1 {
            units: [
                0, 0, 8, 1, 1, 9, 2, 2, 10, 3, 3, 11, 12, 4, 4, 13, 5, 5, 14, 6, 6, 15, 7, 7,
            ],
            equator: false,
        }
    }

    /// The state in which each unit is of this piece, and whose equator stands turned or not. `None` comes exactly
    /// where these aren't the sixteen pieces, each in its own units, or where a corner lies across the cut.
    #[tactic(auto, using(crate::proofs::Cited::from_units))]
    pub fn from_units(units: [u8; UNITS], equator: bool) -> Option<Sq1>
        ensures valid { IsSome result ↔ IsSq1 (record { units = units; equator = equator }) }
        ensures value { IfSome result (λ state. state ≡ record { units = units; equator = equator }) }
    {
        for piece in 0..16 {
            let mut filled: usize = 0;
            let mut first: usize = 0;
            for unit in (0..UNITS).rev() {
                if units[unit] == piece {
                    filled += 1;
                    first = unit;
                }
            }
            let is_whole = if piece < 8 {
                filled == 2 && first % 6 < 5 && units[first + 1] == piece
            } else {
                filled == 1
            };
            if !is_whole {
                return None;
            }
        }
        Some(Sq1 { units, equator })
    }

    /// Which piece each unit is of.
    pub fn units(&self) -> [u8; UNITS]
        ensures same { result ≡ self.now.units }
        ensures valid { IsSq1 self.now }
    {
        self.units
    }

    /// Does nothing: the state is valid.
    pub fn is_valid(&self)
        ensures { IsSq1 self.now }
    {
        let _units = self.units();
    }

    /// Whether the equator stands turned, as it does after an odd number of twists from solved.
    pub fn equator(&self) -> bool
        ensures same { result ≡ self.now.equator }
        ensures valid { IsSq1 self.now }
    {
        self.equator
    }

    /// The state after the layers are turned by so many twelfths, from -5 to 6, each clockwise as seen from its own side.
    /// `None` comes exactly where a corner would lie across the cut.
    #[inline]
    #[tactic(auto, using(crate::proofs::Cited::turn))]
    pub fn turn(&self, top: i8, bottom: i8) -> Option<Sq1>
        requires top { IsTrue (is_twelfths top) }
        requires bottom { IsTrue (is_twelfths bottom) }
        ensures value { result ≡ after_layers self.now top bottom }
        ensures valid { IsSq1 self.now }
    {
        let top_places = clockwise(top);
        let bottom_places = clockwise(bottom);
        if !is_open_turned(&self.units, top_places, bottom_places) {
            return None;
        }
        let mut units = [0; UNITS];
        for unit in 0..UNITS {
            units[unit] = self.units[usize::from(place_before(
                top_places,
                bottom_places,
                unit as u8,
            ))];
        }
        Some(Sq1 {
            units,
            equator: self.equator,
        })
    }

    /// The state after the half at the right of the cut is turned over, with its part of the equator.
    #[inline]
    #[tactic(auto, using(crate::proofs::Cited::twist), unfolding(crate::specs::Units::twisted, crate::specs::Units::twist_places))]
    pub fn twist(&self) -> Sq1
        ensures value { result ≡ twisted self.now }
        ensures valid { IsSq1 self.now }
    {
        let mut units = [0; UNITS];
        for unit in 0..UNITS {
            units[unit] = self.units[usize::from(TWIST_PLACES[unit])];
        }
        Sq1 {
            units,
            equator: !self.equator,
        }
    }

    /// The state after the turn of this number, below 144: 12 a + b turns the top layer by a - 5 twelfths and the bottom
    /// layer by b - 5, but 65 is the twist. `None` comes exactly where it is barred.
    #[inline]
    pub fn turn_at(&self, number: u32) -> Option<Sq1>
        requires { number < 144 }
        ensures after { result ≡ sq1_after self.now (layer_turn_at number) }
        ensures valid { IsSq1 self.now }
    {
        if number == TWIST {
            Some(self.twist())
        } else {
            self.turn((number / 12) as i8 - 5, (number % 12) as i8 - 5)
        }
    }

    /// The state after the turns of a Square-1's word. `None` comes exactly where one of them is barred in its place.
    #[tactic(auto, using(crate::proofs::Cited::play))]
    pub fn after_word(&self, word: &NumberedWord) -> Option<Sq1>
        requires { word.now.event ≡ EventSq1 }
        ensures { result ≡ play sq1_after self.now word.now.turns }
    {
        let mut state = *self;
        for number in word.numbers() {
            state = state.turn_at(u32::from(*number))?;
        }
        Some(state)
    }

    /// The state after the turns of a scramble. `None` comes exactly where one of them isn't a turn of a Square-1, or
    /// is barred in its place.
    #[tactic(auto, using(crate::proofs::Cited::play))]
    pub fn play(&self, scramble: &Scramble) -> Option<Sq1>
        ensures { result ≡ play sq1_after self.now scramble.now.turns }
    {
        let mut state = *self;
        for turn in scramble.turns() {
            state = after(&state, *turn)?;
        }
        Some(state)
    }
}

/// The state after a letter's turn. `None` comes exactly where it isn't a turn of a Square-1, or is barred.
#[tactic(auto, unfolding(crate::specs::Units::sq1_after))]
fn after(state: &Sq1, letter: Turn) -> Option<Sq1>
    ensures { result ≡ sq1_after state.now letter }
{
    match letter {
        Turn::Layers { top, bottom } => {
            if (-5 <= top && top <= 6)
                && (-5 <= bottom && bottom <= 6)
                && !(top == 0 && bottom == 0)
            {
                state.turn(top, bottom)
            } else {
                None
            }
        }
        Turn::Twist => Some(state.twist()),
        _ => None,
    }
}
