//! The state of a Pyraminx.
ghost use Rattle.std.specs.Prelude.{◌≡◌, ◌↔◌, ◌<◌, ◌+◌, ◌*◌, Some, IsTrue, IsSome, IfSome};
ghost use Rattle.scr_orbit.specs.PowerPuzzles.{after_letter};
ghost use Rattle.scr_notation.specs.declared.turn.Turn.TheVariants.{Tip};
ghost use Rattle.scr_tetra.specs.Pyraminx.{IsPyram, solved_pyram, pyram_powers};

use crate::tetraminx::{Tetraminx, are_thirds};
use scr_notation::PowerTurned;
use std::marker::Model;

/// A Pyraminx that can be put together without taking one apart: the list of edges is even, flips sum to 0 modulo 2,
/// and axial pieces and tips stand turned by 0 to 2 thirds.
///
/// Edge places and pieces: 0 UL, 1 UR, 2 UB, 3 LR, 4 LB, 5 RB. Axes: 0 U, 1 L, 2 R, 3 B.
#[derive(Clone, Copy, Debug, PartialEq, Eq)]
pub struct Pyraminx {
    pub(crate) body: Tetraminx,
    pub(crate) tips: [u8; 4],
}

// Clauses see the state without tips, and the digits of the tips.
impl Model for Pyraminx {
    ghost use Rattle.scr_tetra.specs.Pyraminx.{PyramState, IsPyram};

    ghost Value = { PyramState };

    ghost view = { λ s. record { body = s.body; tips = s.tips } };

    ghost invariant = { λ s. IsPyram (record { body = s.body; tips = s.tips }) };

    ghost inverse = { λ s. record { body = s.body; tips = s.tips } };
}

impl Pyraminx {
    /// The solved state.
    #[tactic(auto, unfolding(crate::specs::Pyraminx::solved_pyram))]
    pub fn solved() -> Pyraminx
        ensures { result ≡ solved_pyram }
    {
        Pyraminx {
            body: Tetraminx::solved(),
            tips: [0; 4],
        }
    }

    /// The state with these edges at the places, with these flips, 0 or 1, and with axial pieces and tips that stand
    /// turned by so many thirds. `None` comes exactly where they aren't those of a valid state.
    pub fn from_lists(
        edges: [u8; 6],
        flips: [u8; 6],
        axials: [u8; 4],
        tips: [u8; 4],
    ) -> Option<Pyraminx>
        ensures valid { IsSome result ↔ IsPyram (record {
          body = record { edges = record { pieces = edges; digits = flips }; axials = axials };
          tips = tips;
        }) }
        ensures value { IfSome result (λ state. state ≡ record {
          body = record { edges = record { pieces = edges; digits = flips }; axials = axials };
          tips = tips;
        }) }
    {
        let body = Tetraminx::from_lists(edges, flips, axials)?;
        if are_thirds(&tips) {
            Some(Pyraminx { body, tips })
        } else {
            None
        }
    }

    /// Whether each piece stands at its place, unflipped and unturned.
    pub fn is_solved(&self) -> bool
        ensures { IsTrue result ↔ (self.now ≡ solved_pyram) }
    {
        *self == Pyraminx::solved()
    }

    /// The state without the tips.
    pub fn body(&self) -> Tetraminx
        ensures same { result ≡ self.now.body }
        ensures valid { IsPyram self.now }
    {
        self.body
    }

    /// Which edge stands at each place.
    pub fn edges(&self) -> [u8; 6]
        ensures same { result ≡ self.now.body.edges.pieces }
        ensures valid { IsPyram self.now }
    {
        self.body.edges()
    }

    /// The flip of the edge at each place, 0 or 1.
    pub fn flips(&self) -> [u8; 6]
        ensures same { result ≡ self.now.body.edges.digits }
        ensures valid { IsPyram self.now }
    {
        self.body.flips()
    }

    /// How many thirds clockwise each axial piece stands turned, from 0 to 2.
    pub fn axials(&self) -> [u8; 4]
        ensures same { result ≡ self.now.body.axials }
        ensures valid { IsPyram self.now }
    {
        self.body.axials()
    }

    /// How many thirds clockwise each tip stands turned against the axial piece below it, from 0 to 2.
    pub fn tips(&self) -> [u8; 4]
        ensures same { result ≡ self.now.tips }
        ensures valid { IsPyram self.now }
    {
        self.tips
    }

    /// The state after a turn of a tip alone, 0 to 3 for u l r b, clockwise by `amount` thirds, 1 or 2.
    #[tactic(auto, using(crate::proofs::Cited::tip))]
    pub fn tip(&self, tip: u8, amount: u8) -> Pyraminx
        requires tip { tip < 4 }
        requires some { 0 < amount }
        requires amount { amount < 3 }
        ensures { (after_letter pyram_powers) self.now (Tip tip amount) ≡ Some result }
    {
        self.turn(4 + tip, amount)
    }
}
