//! A 3x3x3 as it is held.
ghost use Rattle.std.specs.Prelude.{◌≡◌, ◌<◌, ◌≤◌, ◌↔◌, Contains, IfSome, IsSome, Some};
ghost use Rattle.scr_combinatorics.specs.Play.{play};
ghost use Rattle.scr_notation.specs.declared.turn.Turn.TheVariants.{Face};
ghost use Rattle.scr_cube.specs.Held.{IsHeld, held_cube_after, hold_centres, hold_of, holds, solved_held};

use crate::cube::Cube;
use scr_notation::{Event, PowerTurned, Scramble, Turn};
use std::marker::Model;

/// A 3x3x3 and how it is held: which face's centre stands at each of the places U R F D L B, where turns are done.
/// Places are 0 to 5, and so are the faces, each the number of the place where its centre stands on a cube that is held
/// as it was solved. The cube's corners and edges are told by their places among the centres, whatever the hold.
///
/// There are 24 holds. Hold `a + 6 * b` is the one that two turns give from solved: number `a` of none, `Rw`, `Rw2`, `Rw'`,
/// `Fw` and `Fw'`, and then number `b` of none, `Uw`, `Uw2` and `Uw'`.
#[derive(Clone, Copy, Debug, PartialEq, Eq)]
pub struct Held {
    pub(crate) cube: Cube,
    pub(crate) centres: [u8; 6],
}

// Clauses see the cube and the centres.
impl Model for Held {
    ghost use Rattle.std.specs.Prelude.{Contains};
    ghost use Rattle.scr_cube.specs.Held.{HeldState, holds};

    ghost Value = { HeldState };

    ghost view = { λ h. record { cube = h.cube; centres = h.centres } };

    ghost invariant = { λ h. Contains holds h.centres };

    ghost inverse = { λ s. record { cube = s.cube; centres = s.centres } };
}

/// The centres of the 24 holds, in the order of their numbers.
pub(crate) static HOLDS: [[u8; 6]; 24] = [
    [0, 1, 2, 3, 4, 5],
    [2, 1, 3, 5, 4, 0],
    [3, 1, 5, 0, 4, 2],
    [5, 1, 0, 2, 4, 3],
    [4, 0, 2, 1, 3, 5],
    [1, 3, 2, 4, 0, 5],
    [0, 5, 1, 3, 2, 4],
    [2, 0, 1, 5, 3, 4],
    [3, 2, 1, 0, 5, 4],
    [5, 3, 1, 2, 0, 4],
    [4, 5, 0, 1, 2, 3],
    [1, 5, 3, 4, 2, 0],
    [0, 4, 5, 3, 1, 2],
    [2, 4, 0, 5, 1, 3],
    [3, 4, 2, 0, 1, 5],
    [5, 4, 3, 2, 1, 0],
    [4, 3, 5, 1, 0, 2],
    [1, 0, 5, 4, 3, 2],
    [0, 2, 4, 3, 5, 1],
    [2, 3, 4, 5, 0, 1],
    [3, 5, 4, 0, 2, 1],
    [5, 0, 4, 2, 3, 1],
    [4, 2, 3, 1, 5, 0],
    [1, 2, 0, 4, 5, 3],
];

impl Held {
    /// The solved cube, held as it was solved.
    pub fn solved() -> Held
        ensures { result ≡ solved_held }
    {
        Held {
            cube: Cube::solved(),
            centres: [0, 1, 2, 3, 4, 5],
        }
    }

    /// A cube with these centres at the places U R F D L B. `None` comes exactly where they aren't those of one of the
    /// 24 holds.
    pub fn from_parts(cube: Cube, centres: [u8; 6]) -> Option<Held>
        ensures valid { IsSome result ↔ Contains holds centres }
        ensures value { IfSome result (λ state. state ≡ record { cube = cube; centres = centres }) }
    {
        if HOLDS.contains(&centres) {
            Some(Held { cube, centres })
        } else {
            None
        }
    }

    /// The cube.
    pub fn cube(&self) -> &Cube
        ensures same { result.now ≡ self.now.cube }
        ensures valid { IsHeld self.now }
    {
        self.cube.is_valid();
        &self.cube
    }

    /// Which face's centre stands at each of the places U R F D L B.
    pub fn centres(&self) -> [u8; 6]
        ensures same { result ≡ self.now.centres }
        ensures valid { IsHeld self.now }
    {
        self.cube.is_valid();
        self.centres
    }

    /// The number of the hold, below 24.
    pub fn hold(&self) -> u8
        ensures number { result ≡ hold_of self.now.centres }
        ensures below { result < 24 }
        ensures centres { hold_centres result ≡ self.now.centres }
        ensures valid { IsHeld self.now }
    {
        let centres = self.centres();
        for hold in 0..24u8 {
            if HOLDS[hold as usize] == centres {
                return hold;
            }
        }
        unreachable!()
    }

    /// The state after a turn at a place, below 6, by `amount` quarters, from 1 to 3, of one layer; or of two layers at
    /// U, R or F, the places 0 to 2. A turn of one layer turns the face whose centre stands at the place. A wide turn
    /// turns the face whose centre stands opposite, by the same amount, and the whole cube along.
    pub fn turn(&self, place: u8, depth: u8, amount: u8) -> Held
        requires place { place < 6 }
        requires layers { (1 ≤ depth) × (depth ≤ 2) }
        requires wide { depth ≡ 2 → place < 3 }
        requires quarters { (0 < amount) × (amount ≤ 3) }
        ensures { held_cube_after self.now (Face place depth amount) ≡ Some result }
    {
        let (turned, quarters) = if depth == 1 {
            (place, 0)
        } else {
            ((place + 3) % 6, amount)
        };
        let mut centres = self.centres;
        for _quarter in 0..quarters {
            let [up, right, front, down, left, back] = centres;
            centres = match place {
                0 => [up, back, right, down, front, left],
                1 => [front, right, down, back, left, up],
                _ => [left, up, front, right, down, back],
            };
        }
        Held {
            cube: self.cube.turn(self.centres[turned as usize], amount),
            centres,
        }
    }

    /// The state after the turns of a scramble. `None` comes exactly where one of them is no turn of the event 333bf.
    pub fn play(&self, scramble: &Scramble) -> Option<Held>
        ensures { result ≡ play held_cube_after self.now scramble.now.turns }
    {
        let mut state = *self;
        for turn in scramble.turns() {
            if !turn.is_of(Event::Bf333) {
                return None;
            }
            let Turn::Face {
                face: place,
                depth,
                amount,
            } = *turn
            else {
                unreachable!();
            };
            state = state.turn(place, depth, amount);
        }
        Some(state)
    }
}
