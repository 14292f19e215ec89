//! The 3x3x3 as states are drawn of it: with two hands or with one, for fewest moves, and as it is held.
ghost use Rattle.std.specs.Prelude.{◌↔◌, ℕ, IsTrue};
ghost use Rattle.std.proofs.Props.{props};
ghost use Rattle.scr_combinatorics.specs.Reach.{Needs};
ghost use Rattle.scr_orbit.specs.PowerPuzzles.{power_puzzle};
ghost use Rattle.scr_cube.specs.Cube333.{CubeState, cube_numbered, cube_powers};
ghost use Rattle.scr_cube.specs.Held.{HeldState, IsHeld, held_numbered, held_puzzle};
ghost use Rattle.scr_twophase.specs.Minima.{needs_turns};

use crate::needs::needs_333;
use scr_cube::{Cube, CubeNumbers, Held, HeldNumbers};
use scr_draw::{NumberedStates, Numbering, Permit};

/// The 3x3x3: its states by their numbers, and the test of its minima, which needs no tables. Its scrambles have so
/// many frames, 2 or none.
#[derive(Clone, Copy)]
pub struct DrawCube<const FRAMES: usize> {
    ghost exact: { (cube : CubeState) (least : ℕ)
        → IsTrue (needs_turns cube least) ↔ Needs (power_puzzle cube_powers) cube least } by { Prim.hlevel props },
}

/// The 3x3x3, with two hands or with one.
pub type Draw333 = DrawCube<0>;

/// The 3x3x3 for fewest moves.
pub type DrawFewest = DrawCube<2>;

impl<const FRAMES: usize> DrawCube<FRAMES> {
    /// The 3x3x3.
    pub fn new() -> DrawCube<FRAMES> {
        DrawCube {}
    }
}

impl<const FRAMES: usize> NumberedStates<Cube> for DrawCube<FRAMES> {
    ghost numbered = { λ _. cube_numbered };
}

impl<const FRAMES: usize> Numbering for DrawCube<FRAMES> {
    type State = Cube;

    fn count(&self) -> u128 {
        CubeNumbers.count()
    }

    fn state_at(&self, number: u128) -> Cube {
        CubeNumbers.state_at(number)
    }

    fn number_of(&self, state: &Cube) -> u128 {
        CubeNumbers.number_of(state)
    }
}

impl<const FRAMES: usize> Permit<Cube> for DrawCube<FRAMES> {
    ghost puzzle = { λ _. power_puzzle cube_powers };

    ghost greatest = { λ _. 5 };

    ghost needs = { λ _. needs_turns };

    fn needs_at_least(&self, state: &Cube, least: u32) -> bool {
        needs_333(state, least)
    }

    ghost exact = { λ event cube least _ _ _. event.exact cube least };
}

/// The 3x3x3 as it is held: its states by their numbers, and the test of its minima, which is that of the cube alone.
#[derive(Clone, Copy)]
pub struct DrawHeld {
    ghost exact: { (s : HeldState) (least : ℕ) → IsHeld s
        → IsTrue (needs_turns s.cube least) ↔ Needs held_puzzle s least } by { Prim.hlevel props },
}

impl DrawHeld {
    /// The 3x3x3 as it is held.
    pub fn new() -> DrawHeld {
        DrawHeld {}
    }
}

impl NumberedStates<Held> for DrawHeld {
    ghost numbered = { λ _. held_numbered };
}

impl Numbering for DrawHeld {
    type State = Held;

    fn count(&self) -> u128 {
        HeldNumbers.count()
    }

    fn state_at(&self, number: u128) -> Held {
        HeldNumbers.state_at(number)
    }

    fn number_of(&self, state: &Held) -> u128 {
        HeldNumbers.number_of(state)
    }
}

impl Permit<Held> for DrawHeld {
    ghost puzzle = { λ _. held_puzzle };

    ghost greatest = { λ _. 5 };

    ghost needs = { λ _ s least. needs_turns s.cube least };

    fn needs_at_least(&self, state: &Held, least: u32) -> bool {
        needs_333(state.cube(), least)
    }

    ghost exact = { λ event held least _ _ valid. event.exact held least valid };
}
