//! Turns of a Skewb. The axes U L R B are the generators 0 to 3.
ghost use Rattle.std.proofs.Common.{lit≤};
ghost use Rattle.scr_orbit.specs.PowerPuzzles.{after_letter};
ghost use Rattle.scr_orbit.proofs.TurnedAt.{HasGenerators-puzzle};
ghost use Rattle.scr_tetra.specs.Skewb.{skewb_powers};

use crate::skewb::Skewb;
use crate::skewb_tables::{centre_turns, four_turns, three_turns};
use scr_notation::{Axes, PowerTurned};

impl PowerTurned for Skewb {
    type Kind = Axes;

    ghost GENERATORS = { 4 };

    const GENERATORS: u8 = 4;

    ghost after = { (after_letter skewb_powers) };

    fn turned(&self, number: usize) -> Skewb {
        Skewb {
            four: self.four.turned(&four_turns()[number], 3),
            three: self.three.turned(&three_turns()[number], 3),
            centres: self.centres.turned(&centre_turns()[number], 1),
        }
    }

    ghost generators = { HasGenerators-puzzle skewb_powers (lit≤ tt) };
}
