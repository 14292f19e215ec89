//! Turns of both cubes. The faces U R F D L B are the generators 0 to 5.
ghost use Rattle.std.proofs.Common.{lit≤};
ghost use Rattle.scr_orbit.specs.PowerPuzzles.{after_letter};
ghost use Rattle.scr_orbit.proofs.TurnedAt.{HasGenerators-puzzle};
ghost use Rattle.scr_cube.specs.Cube333.{cube_powers};
ghost use Rattle.scr_cube.specs.Cube222.{powers_222};

use crate::corners::Corners222;
use crate::cube::Cube;
use crate::tables::{corner_turns, edge_turns, turns_222};
use scr_notation::{Faces, PowerTurned};

impl PowerTurned for Cube {
    type Kind = Faces;

    ghost GENERATORS = { 6 };

    const GENERATORS: u8 = 6;

    ghost after = { (after_letter cube_powers) };

    fn turned(&self, number: usize) -> Cube {
        Cube {
            corners: self.corners.turned(&corner_turns()[number], 3),
            edges: self.edges.turned(&edge_turns()[number], 2),
        }
    }

    ghost generators = { HasGenerators-puzzle cube_powers (lit≤ tt) };
}

impl PowerTurned for Corners222 {
    type Kind = Faces;

    ghost GENERATORS = { 3 };

    const GENERATORS: u8 = 3;

    ghost after = { (after_letter powers_222) };

    fn turned(&self, number: usize) -> Corners222 {
        Corners222 {
            corners: self.corners.turned(&turns_222()[number], 3),
        }
    }

    ghost generators = { HasGenerators-puzzle powers_222 (lit≤ tt) };
}
