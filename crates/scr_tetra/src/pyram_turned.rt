//! Turns of a Pyraminx, without its tips and with them. The axes U L R B are the generators 0 to 3, the tips 4 to 7.
ghost use Rattle.std.proofs.Common.{lit≤};
ghost use Rattle.scr_orbit.specs.PowerPuzzles.{after_letter};
ghost use Rattle.scr_orbit.proofs.TurnedAt.{HasGenerators-puzzle};
ghost use Rattle.scr_tetra.specs.Pyraminx.{tetraminx_powers, pyram_powers};

use crate::pyram_tables::{axial_turns, edge_turns};
use crate::pyraminx::Pyraminx;
use crate::tetraminx::{Tetraminx, turned_in_place};
use scr_notation::{Axes, PowerTurned};

impl PowerTurned for Tetraminx {
    type Kind = Axes;

    ghost GENERATORS = { 4 };

    const GENERATORS: u8 = 4;

    ghost after = { (after_letter tetraminx_powers) };

    fn turned(&self, number: usize) -> Tetraminx {
        let added = axial_turns()[number];
        Tetraminx {
            edges: self.edges.turned(&edge_turns()[number], 2),
            axials: turned_in_place(self.axials, added),
        }
    }

    ghost generators = { HasGenerators-puzzle tetraminx_powers (lit≤ tt) };
}

impl PowerTurned for Pyraminx {
    type Kind = Axes;

    ghost GENERATORS = { 8 };

    const GENERATORS: u8 = 8;

    ghost after = { (after_letter pyram_powers) };

    fn turned(&self, number: usize) -> Pyraminx {
        let body = self.body();
        let tips = self.tips();
        if number < 8 {
            Pyraminx {
                body: body.turned(number),
                tips,
            }
        } else {
            let added = axial_turns()[number - 8];
            Pyraminx {
                body,
                tips: turned_in_place(tips, added),
            }
        }
    }

    ghost generators = { HasGenerators-puzzle pyram_powers (lit≤ tt) };
}
