//! The events that are scrambled by random moves.

ghost use Rattle.scr_notation.specs.declared.event.Event.TheVariants.{Minx};
ghost use Rattle.scr_bigs.specs.BigCubes.{IsSide, cube_event};
ghost use Rattle.scr_bigs.proofs.BitLaws.{fair-bits};
ghost use Rattle.scr_bigs.proofs.TurnOrder.{fair-turns};

use crate::event::MoveEvent;
use crate::settings::Settings;
use scr_bigs::{big_cube, megaminx};
use scr_notation::Scramble;
use scr_words::ChaChaWords;

/// A cube with `SIDE` layers, from 5 to 7.
#[derive(Drop)]
pub(crate) struct CubeMoves<const SIDE: usize> {
    ghost side: { IsSide SIDE },
}

impl<const SIDE: usize> MoveEvent for CubeMoves<SIDE> {
    ghost use Rattle.scr_slots.specs.Events.{cube_random_moves};

    ghost event = { λ _. cube_event SIDE };

    ghost random = { λ _. cube_random_moves SIDE };

    fn scramble(&self, settings: &Settings, stream: u64) -> Option<Scramble> {
        let mut words = ChaChaWords::new(&settings.seed, stream);
        let scramble = big_cube::<_, SIDE>(&mut words, settings.attempts).ok()?;
        let _turns = scramble.turns();
        Some(scramble)
    }

    ghost are_fair = { λ moves. fair-turns SIDE moves.side };
}

/// The Megaminx.
#[derive(Drop)]
pub(crate) struct MegaminxMoves;

impl MoveEvent for MegaminxMoves {
    ghost use Rattle.scr_slots.specs.Events.{moves_minx};

    ghost event = { λ _. Minx };

    ghost random = { λ _. moves_minx };

    fn scramble(&self, settings: &Settings, stream: u64) -> Option<Scramble> {
        let mut words = ChaChaWords::new(&settings.seed, stream);
        let scramble = megaminx(&mut words);
        let _turns = scramble.turns();
        Some(scramble)
    }

    ghost are_fair = { λ _. fair-bits };
}
