//! Fairness in pictures: the headline of a run with pictures of puzzles in place of their pieces, so that who reads it
//! need not believe a table of pieces. A picture is what turns make of a solved puzzle by moving stickers in space
//! (`scr_picture`, `scr_net`).
//!
//! `specs/Pictured.antt` says what puzzles of pictures are, and `specs/FairPictures.antt` what is promised of each
//! event, in place of what the headline promises of its states. It holds since a picture shows a state: turns lead from
//! picture to picture as they do from state to state, and only one state has each picture (`proofs/TwoModels.antt`, of
//! any two models of a puzzle). So the same is reached, by as many turns, and a fair draw of states is one of pictures.
//! No program stands on this crate.
#![tactic(auto)]

ghost use Rattle.scr_outside.specs.Change.{change_of};
ghost use Rattle.scr_options.specs.Words.{texts};
ghost use Rattle.scr_sheet.specs.Headline.{IsFairRun};
ghost use Rattle.scr_picture_laws.specs.FairPictures.{AreFairPictures};

use scr_outside::{Sink, Source};
use scr_sheet::{Status, run};
use scr_workers::Gate;
use std::alloc::Global;
use std::thread::Threads;

/// A run, told in pictures: every picture of a puzzle that turns reach from the solved one, and that needs at least the
/// set number of turns, is drawn by equally many lists of numbers, and no other by any; every printed scramble, played
/// on the solved picture by moving stickers, gives the picture that was drawn, within the puzzle's bound. It is so of
/// each event whose states are drawn. The Clock and the Square-1 show their state. Of random moves nothing is said.
pub fn run_in_pictures<'w, R: Threads + Sync, S: Source, O: Sink, E: Sink, G: Gate + Sync>(
    rt: &R,
    alloc: Global,
    words: &'w [&'w str],
    source: &mut S,
    out: &mut O,
    err: &mut E,
    gate: &G,
) -> Status
    ensures { IsFairRun AreFairPictures (texts words.now) (change_of O.held O.faults out.old out.new) }
{
    run(rt, alloc, words, source, out, err, gate)
}
