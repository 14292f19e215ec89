//! The turns, and their numbers.
ghost use Rattle.std.specs.Prelude.{◌≡◌, ◌<◌, ◌==◌, IsTrue};
ghost use Rattle.std.specs.List.{list_any};
ghost use Rattle.scr_notation.specs.declared.event.Kind.TheVariants.{PinSets};
ghost use Rattle.scr_notation.specs.Kinds.{IsKind};
ghost use Rattle.scr_notation.specs.Layers.{is_twelfths as twelfths};
ghost use Rattle.scr_notation.specs.Pins.{pin_sets};
ghost use Rattle.scr_notation.specs.Turns.{has_turn, permits};
ghost use Rattle.scr_notation.specs.TurnNumbers.{turn_count, turn_at};

use crate::event::{Event, Kind};

/// A turn (WCA Regulations, article 12). Which turns an event has stands in `specs/Turns.antt`, and how they are written
/// in `specs/Spelling.antt`.
#[derive(Clone, Copy, Debug, PartialEq, Eq)]
pub enum Turn {
    /// The `depth` outer layers at a face of a cube, clockwise by `amount` quarters. The faces U R F D L B are 0 to 5.
    Face { face: u8, depth: u8, amount: u8 },
    /// The large turn about an axis of a Pyraminx or a Skewb, clockwise by `amount` thirds. The axes U L R B are 0 to
    /// 3.
    Axis { axis: u8, amount: u8 },
    /// A tip of a Pyraminx, clockwise by `amount` thirds. The tips u l r b are 0 to 3.
    Tip { tip: u8, amount: u8 },
    /// The two layers of a Square-1, clockwise by so many twelfths each.
    Layers { top: i8, bottom: i8 },
    /// The half turn of a Square-1's right side.
    Twist,
    /// The wheels of a Clock by `amount` hours on the side that faces the scrambler, with these pins up there: a sum of
    /// 1 for UR, 2 for DR, 4 for DL and 8 for UL.
    Pins { pins: u8, amount: u8 },
    /// A Clock turned over, so that its other side faces the scrambler.
    Over,
    /// A wide turn of a Megaminx: the letter R is 0, D is 1, U is 2.
    Wide { letter: u8, plus: bool },
}

impl Default for Turn {
    ghost use Rattle.std.specs.Prelude.{◌≡◌};
    ghost use Rattle.scr_notation.specs.declared.turn.Turn.TheVariants.{Twist};

    ghost is_default = { λ t. t ≡ Twist };

    /// What fills the unused room of a scramble.
    fn default() -> Turn {
        Turn::Twist
    }
}

impl Turn {
    /// Whether an event has this turn.
    pub fn is_of(self, event: Event) -> bool
        ensures { result ≡ permits event self }
    {
        is_of_kind(event.row().kind, self)
    }
}

/// The pin sets of a Clock's turns, in the order of their names: UR DR DL UL U R D L ALL.
pub const PIN_SETS: [u8; 9] = [1, 2, 4, 8, 9, 3, 6, 12, 15];

/// Whether a kind of puzzles has this turn.
pub(crate) fn is_of_kind(kind: Kind, turn: Turn) -> bool
    ensures { result ≡ has_turn kind turn }
{
    match (kind, turn) {
        (
            Kind::Faces { near, far },
            Turn::Face {
                face,
                depth,
                amount,
            },
        ) => {
            let layers = match face {
                0..=2 => near,
                3..=5 => far,
                _ => 0,
            };
            1 <= depth && depth <= layers && 0 < amount && amount < 4
        }
        (Kind::Axes { .. }, Turn::Axis { axis, amount }) => axis < 4 && 0 < amount && amount < 3,
        (Kind::Axes { tips }, Turn::Tip { tip, amount }) => {
            tips && tip < 4 && 0 < amount && amount < 3
        }
        (Kind::LayersAndTwist, Turn::Layers { top, bottom }) => {
            is_twelfths(top) && is_twelfths(bottom) && !(top == 0 && bottom == 0)
        }
        (Kind::PinSets, Turn::Pins { pins, amount }) => is_pin_set(pins) && amount <= 11,
        (Kind::WideTurns, Turn::Wide { letter, .. }) => letter < 3,
        (Kind::LayersAndTwist, Turn::Twist) | (Kind::PinSets, Turn::Over) => true,
        _ => false,
    }
}

/// Whether this is an amount of twelfths from -5 to 6.
fn is_twelfths(amount: i8) -> bool
    ensures { result ≡ twelfths amount }
{
    -5 <= amount && amount <= 6
}

/// Whether a Clock's turns have this pin set.
fn is_pin_set(pins: u8) -> bool
    ensures { result ≡ list_any (λ set. set == pins) pin_sets }
{
    PIN_SETS.iter().any(|set| *set == pins)
}

/// How many turns a kind has.
pub fn turn_count(kind: Kind) -> u8
    requires { IsKind kind }
    ensures { result ≡ turn_count kind }
{
    match kind {
        Kind::Faces { near, far } => 9 * (near + far),
        Kind::Axes { tips } => { if tips { 16 } else { 8 } }
        Kind::LayersAndTwist => 144,
        Kind::PinSets => 109,
        Kind::WideTurns => 6,
    }
}

/// The turn of a kind with this number, below the count.
#[tactic(auto, using(crate::proofs::NumberLaws::has_turn_at), unfolding(crate::specs::TurnNumbers::turn_at, crate::specs::TurnNumbers::face_turn_at, crate::specs::TurnNumbers::axis_turn_at, crate::specs::TurnNumbers::layer_turn_at, crate::specs::TurnNumbers::clock_turn_at, crate::specs::TurnNumbers::wide_turn_at))]
pub fn turn_at(kind: Kind, number: u8) -> Turn
    requires kind { IsKind kind }
    requires below { number < turn_count kind }
    ensures value { result ≡ turn_at kind number }
    ensures of_kind { IsTrue (has_turn kind (turn_at kind number)) }
{
    match kind {
        Kind::Faces { .. } => Turn::Face {
            face: number / 3 % 6,
            depth: number / 18 + 1,
            amount: number % 3 + 1,
        },
        Kind::Axes { .. } if number < 8 => Turn::Axis {
            axis: number / 2,
            amount: number % 2 + 1,
        },
        Kind::Axes { .. } => Turn::Tip {
            tip: (number - 8) / 2,
            amount: number % 2 + 1,
        },
        Kind::LayersAndTwist if number == 65 => Turn::Twist,
        Kind::LayersAndTwist => Turn::Layers {
            top: (number / 12) as i8 - 5,
            bottom: (number % 12) as i8 - 5,
        },
        Kind::PinSets if number == 108 => Turn::Over,
        Kind::PinSets => Turn::Pins {
            pins: PIN_SETS[(number / 12) as usize],
            amount: number % 12,
        },
        Kind::WideTurns => Turn::Wide {
            letter: number / 2,
            plus: number % 2 == 0,
        },
    }
}

/// The number of a turn of a kind other than Clock's.
pub(crate) fn number_of(kind: Kind, turn: Turn) -> u8
    requires kind { IsKind kind }
    requires not_clock { kind ≡ PinSets → ⊥ }
    requires of_kind { IsTrue (has_turn kind turn) }
    ensures turn { turn_at kind result ≡ turn }
    ensures below { result < turn_count kind }
{
    match turn {
        Turn::Face {
            face,
            depth,
            amount,
        } => 18 * (depth - 1) + 3 * face + (amount - 1),
        Turn::Axis { axis, amount } => 2 * axis + (amount - 1),
        Turn::Tip { tip, amount } => 8 + 2 * tip + (amount - 1),
        Turn::Layers { top, bottom } => 12 * (top + 5) as u8 + (bottom + 5) as u8,
        Turn::Twist => 65,
        Turn::Wide { letter, plus } => 2 * letter + !plus as u8,
        Turn::Pins { .. } | Turn::Over => unreachable!(),
    }
}
