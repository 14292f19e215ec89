//! The words of the stages from a cube, by the tables.
ghost use Rattle.scr_combinatorics.specs.Stages.{IsStageWord};
ghost use Rattle.scr_orbit.specs.PowerPuzzles.{after_letter};
ghost use Rattle.scr_cube.specs.Cube333.{IsCube, cube_powers};
ghost use Rattle.scr_stages.specs.Stages.{flips_stage, slice_stage, tetrads_stage, halves_stage};
ghost use Rattle.scr_stages.specs.Numbers.{IsUnflippedCube, IsDominoCube, IsHalfCube};

use crate::corner_lists::CornerNumbers;
use crate::corners::corner_index;
use crate::half_corners::HalfCorners;
use crate::half_parts::{FIRST_EDGES, MIDDLE_EDGES, SECOND_EDGES, block_number, half_number};
use crate::tables::StageTables;
use arrayvec::ArrayVec;
use scr_coord::places_of;
use scr_cube::Cube;
use scr_rank::{Choose, TwistRank};
use scr_table::GREATEST_BOUND;

/// The word of the first stage.
pub(crate) fn flips_word(tables: &StageTables, cube: &Cube) -> ArrayVec<u8, GREATEST_BOUND>
    ensures word { IsStageWord (after_letter cube_powers) flips_stage cube.now result.items }
    ensures valid { IsCube cube.now }
{
    let number = TwistRank::<12, 2>::rank(&cube.flips()) as u32;
    tables.flips.descend(number)
}

/// The word of the second stage, from a cube without flips.
#[tactic(auto, using(crate::proofs::Cited::places_of_edges))]
pub(crate) fn slice_word(tables: &StageTables, cube: &Cube) -> ArrayVec<u8, GREATEST_BOUND>
    requires { IsUnflippedCube cube.now }
    ensures { IsStageWord (after_letter cube_powers) slice_stage cube.now result.items }
{
    let mut middle = [0; 4];
    places_of(&MIDDLE_EDGES[..], &cube.edges()[..], &mut middle[..]);
    let twists = TwistRank::<8, 3>::rank(&cube.twists()) as u32;
    let places = Choose::<12, 4>::rank(&middle) as u32;
    tables.slice.descend(twists + 2187 * places)
}

/// The word of the third stage, from a domino.
#[tactic(auto, using(crate::proofs::Cited::places_of_edges))]
pub(crate) fn tetrads_word(tables: &StageTables, cube: &Cube) -> ArrayVec<u8, GREATEST_BOUND>
    requires { IsDominoCube cube.now }
    ensures { IsStageWord (after_letter cube_powers) tetrads_stage cube.now result.items }
{
    let mut first = [0; 4];
    places_of(&FIRST_EDGES[..], &cube.edges()[..], &mut first[..]);
    let places = Choose::<8, 4>::rank(&first) as u32;
    tables
        .tetrads
        .descend(places + 70 * corner_index(&cube.corners()))
}

/// The word of the last stage, from a cube that half turns solve.
pub(crate) fn halves_word(tables: &StageTables, cube: &Cube) -> ArrayVec<u8, GREATEST_BOUND>
    requires { IsHalfCube cube.now }
    ensures { IsStageWord (after_letter cube_powers) halves_stage cube.now result.items }
{
    let edges = cube.edges();
    tables.halves.descend(half_number(
        block_number(&MIDDLE_EDGES, &edges),
        block_number(&SECOND_EDGES, &edges),
        block_number(&FIRST_EDGES, &edges),
        HalfCorners::number_of(&cube.corners()),
    ))
}
