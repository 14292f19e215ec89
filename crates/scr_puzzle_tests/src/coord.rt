//! The lists of the 3x3x3's corners and edges at their real sizes, walked by words of known order: a face's turn has
//! order 4, and R U has order 105, which is 15 on the corners, 5 on their places, and 7 on the edges.
ghost use Rattle.std.specs.Prelude.{◌≡◌, ◌*◌, ◌^◌, ◌<◌};

use scr_coord::{Lists, PlaceSet, Twists};
use scr_outside::NoMemory;
use scr_positions::{Coord, MoveTable, Product};
use scr_stages::{corners_turned, edges_turned};
use std::alloc::Global;
use std::process::Abort;
use std::test::Fail;

const U: u32 = 0;

const R: u32 = 1;

const F: u32 = 2;

/// The numbers of the quarter turns U, R and F.
const TURNS: [u8; 3] = [0, 3, 6];

/// How many times two turns are made, one after the other, until they lead back to a position, if at most 1000 times.
fn order_of<C: Coord>(coord: &C, start: u32, first: u32, second: u32) -> Option<u32>
    requires start { start < (C.coordinate coord.now).count }
    requires first { first < (C.coordinate coord.now).turns }
    requires second { second < (C.coordinate coord.now).turns }
{
    let mut position = start;
    for made in 0..1000 {
        let between = coord.after(position, first)?;
        position = coord.after(between, second)?;
        if position == start {
            return Some(made + 1);
        }
    }
    None
}

/// A coordinate's count, its one goal, and rows of a start, two turns and the order that they have from there.
type Known<'a> = (u32, u32, &'a [(u32, u32, u32, u32)]);

/// Tries a coordinate.
fn try_out<C: Coord>(rt: &impl Abort, coord: &C, known: &Known<'_>) {
    let (count, goal, rows) = *known;
    assert_eq!(rt; coord.count(), count);
    has_goal(rt, coord, goal);
    for &(start, first, second, order) in rows {
        assert!(rt; start < coord.count() && first < coord.turns() && second < coord.turns());
        assert_eq!(rt; order_of(coord, start, first, second), Some(order));
    }
}

/// This is the coordinate's one goal.
fn has_goal<C: Coord>(rt: &impl Abort, coord: &C, goal: u32) {
    for position in 0..coord.count() {
        assert_eq!(rt; coord.is_goal(position), position == goal);
    }
}

// Position 1 has the first digit and the last, so that their sum is 0; position 40,319 is the list backwards.
static FLIPS: Known<'static> = (2048, 0, &[(1, U, U, 2), (0, F, U, 7)]);

static FLIP_MOVES: Known<'static> = (2048, 0, &[(1, U, R, 7), (0, F, U, 7)]);

static TWISTS: Known<'static> = (2187, 0, &[(0, U, R, 15), (0, R, R, 1), (1, R, R, 2)]);

static CORNERS: Known<'static> = (40320, 0, &[(40319, U, R, 5)]);

static CORNER_MOVES: Known<'static> = (40320, 0, &[(40319, R, R, 2), (40319, U, R, 5)]);

// Half turns keep the edges of the slice in it.
static SLICE: Known<'static> = (495, 494, &[(494, R, R, 1), (494, U, R, 7)]);

static SLICE_MOVES: Known<'static> = (495, 494, &[(494, U, R, 7)]);

// U keeps the corners of its own layer in it.
static TETRAD: Known<'static> = (70, 0, &[(0, U, U, 1), (69, U, R, 5)]);

static BOTH: Known<'static> = (
    1013760,
    2048 * 494,
    &[(2048 * 494 + 1, U, R, 7), (0, F, U, 7)],
);

static BOTH_MOVES: Known<'static> = (1013760, 2048 * 494, &[(0, F, U, 7)]);

/// Tries the moves of a coordinate.
fn try_moves<C: Coord>(
    rt: &impl Abort,
    alloc: Global,
    coord: &C,
    known: &Known<'_>,
) -> Result<(), NoMemory> {
    let moves = MoveTable::build(alloc, coord)?;
    try_out(rt, &moves, known);
    Ok(())
}

/// Tries the moves of two coordinates as one.
fn try_pair<L: Coord, H: Coord>(
    rt: &impl Abort,
    alloc: Global,
    low: &L,
    high: &H,
) -> Result<(), NoMemory>
    requires same_turns { (H.coordinate high.now).turns ≡ (L.coordinate low.now).turns }
    requires fits { (L.coordinate low.now).count * (H.coordinate high.now).count < 2 ^ 32 }
{
    let low_moves = MoveTable::build(alloc, low)?;
    let high_moves = MoveTable::build(alloc, high)?;
    try_out(rt, &Product::new(&low_moves, &high_moves), &BOTH);
    try_out(rt, &Product::of_moves(alloc, low, high)?, &BOTH_MOVES);
    Ok(())
}

#[test]
fn walks_of_known_order(rt: HostRuntime) -> Result<(), Fail> {
    let edge_turns = edges_turned(&TURNS);
    let corner_turns = corners_turned(&TURNS);
    let flips = Twists::<12, 2>::new(&edge_turns[..]);
    let twists = Twists::<8, 3>::new(&corner_turns[..]);
    let corners = Lists::<8>::new(&corner_turns[..]);
    let slice = PlaceSet::<12, 4>::new(&edge_turns[..], [8, 9, 10, 11]);
    let tetrad = PlaceSet::<8, 4>::new(&corner_turns[..], [0, 1, 2, 3]);
    try_out(&rt, &flips, &FLIPS);
    try_out(&rt, &twists, &TWISTS);
    try_out(&rt, &corners, &CORNERS);
    try_out(&rt, &slice, &SLICE);
    try_out(&rt, &tetrad, &TETRAD);
    try_moves(&rt, rt.alloc(), &flips, &FLIP_MOVES)?;
    try_moves(&rt, rt.alloc(), &corners, &CORNER_MOVES)?;
    try_moves(&rt, rt.alloc(), &slice, &SLICE_MOVES)?;
    try_pair(&rt, rt.alloc(), &flips, &slice)?;
    Ok(())
}
