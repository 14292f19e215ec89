ghost use Rattle.std.specs.Prelude.{◌<◌, ◌≤◌};
ghost use Rattle.scr_table.specs.Distances.{Measures};
ghost use Rattle.scr_table.specs.Row.{row_coordinate};

use arrayvec::ArrayVec;
use scr_laws::table as laws;
use scr_positions::Coord;
use scr_table::{BuildFault, DistanceTable, Moves, TableName, no_shorter, table_named};
use std::alloc::Global;
use std::process::Abort;
use std::thread::Threads;

/// A row of positions: from each but the first, one turn leads to the position before, and the first is the goal. The
/// turn can't be undone.
#[derive(Clone, Copy)]
struct Row(u32);

impl Coord for Row {
    ghost coordinate = { λ r. row_coordinate r.0 };

    fn count(&self) -> u32 {
        self.0
    }

    fn turns(&self) -> u32 {
        1
    }

    fn after(&self, position: u32, _turn: u32) -> Option<u32> {
        if position == 0 {
            None
        } else {
            Some(position - 1)
        }
    }

    fn is_goal(&self, position: u32) -> bool {
        position == 0
    }
}

/// A circle of positions, and steps by powers of 4 both ways: turns that can be undone.
struct Circle;

const SIZE: u32 = 1048576;

const STEPS: [u32; 20] = [
    1, 1048575, 4, 1048572, 16, 1048560, 64, 1048512, 256, 1048320, 1024, 1047552, 4096, 1044480,
    16384, 1032192, 65536, 983040, 262144, 786432,
];

impl Coord for Circle {
    ghost use Rattle.std.specs.Prelude.{◌+◌, ◌%◌, ◌==◌, Some, slice_index};
    ghost use Rattle.scr_tests.specs.declared.table.TheConstants.{STEPS};

    ghost coordinate = { λ _. record {
      count = 1048576;
      turns = 20;
      after = λ p t. Some ((p + slice_index STEPS t) % 1048576);
      is_goal = λ p. p == 0;
    } };

    fn count(&self) -> u32 {
        SIZE
    }

    fn turns(&self) -> u32 {
        20
    }

    fn after(&self, position: u32, turn: u32) -> Option<u32> {
        let moved = u64::from(position) + u64::from(STEPS[turn as usize]);
        Some((moved % u64::from(SIZE)) as u32)
    }

    fn is_goal(&self, position: u32) -> bool {
        position == 0
    }
}

/// A table that is known to measure a row, so that it can be walked down wherever it is handed to.
#[derive(Drop)]
struct Measured {
    table: DistanceTable,
    ghost measures: { Measures (row_coordinate 21) table },
}

fn walked(measured: &Measured, position: u32) -> ArrayVec<u8, 24>
    requires { position < 21 }
{
    measured.table.descend(&Row(21), position)
}

/// Two lamps. The first turn switches the first lamp; the second turn switches the second lamp, and is refused where
/// the first is on. Solved is both off.
struct Lamps;

impl Moves for Lamps {
    ghost use Rattle.std.specs.Prelude.{◌==◌, not, ◌&&◌, Some, None, if◌then◌else◌};

    type State = (bool, bool);

    ghost moves = { λ _. record {
      count = 2;
      after = λ s t. if t == 0 then Some (record { 0 = not s.0; 1 = s.1 })
          else if s.0 then None else Some (record { 0 = s.0; 1 = not s.1 });
      is_solved = λ s. not s.0 && not s.1;
    } };

    fn count(&self) -> u32 {
        2
    }

    fn after(&self, state: &(bool, bool), turn: u32) -> Option<(bool, bool)> {
        if turn == 0 {
            Some((!state.0, state.1))
        } else if state.0 {
            None
        } else {
            Some((state.0, !state.1))
        }
    }

    fn is_solved(&self, state: &(bool, bool)) -> bool {
        !state.0 && !state.1
    }

    // A switch turned twice is as it was.
    fn is_idle(&self, first: u32, second: u32) -> bool {
        first == second
    }
}

/// A number: the first turn takes one away, and is refused at 0; the second halves it, and is refused where it is odd.
struct Halving;

impl Moves for Halving {
    ghost use Rattle.std.specs.Prelude.{◌-◌, ◌/◌, ◌%◌, ◌==◌, Some, None, if◌then◌else◌};

    type State = u32;

    ghost moves = { λ _. record {
      count = 2;
      after = λ s t. if t == 0 then (if s == 0 then None else Some (s - 1))
          else if s % 2 == 0 then Some (s / 2) else None;
      is_solved = λ s. s == 0;
    } };

    fn count(&self) -> u32 {
        2
    }

    fn after(&self, state: &u32, turn: u32) -> Option<u32> {
        if turn == 0 {
            state.checked_sub(1)
        } else if state % 2 == 0 {
            Some(state / 2)
        } else {
            None
        }
    }

    fn is_solved(&self, state: &u32) -> bool {
        *state == 0
    }
}

/// The table of a row has the distances from 0 on, and `greatest` is the last.
fn expect_row<R: Abort + Threads + Sync>(
    rt: &R,
    alloc: Global,
    count: u32,
    bound: u32,
    greatest: u32,
)
    requires some { 0 < count }
    requires bound { bound ≤ 24 }
{
    match DistanceTable::build(rt, alloc, TableName::Square, &Row(count), bound, 2) {
        Ok(table) => {
            assert_eq!(rt; [table.bound(), table.positions()], [bound, count]);
            expect_distances(rt, &table, count, greatest);
        }
        Err(_) => assert!(rt; false, "{count} positions at bound {bound}"),
    }
}

fn expect_distances(rt: &impl Abort, table: &DistanceTable, count: u32, greatest: u32)
    requires some { 0 < count }
    requires measures { Measures (row_coordinate count) table.now }
{
    assert_eq!(rt; table.name(), TableName::Square);
    assert_eq!(rt; table.distance(count - 1), greatest);
    let word = table.descend(&Row(count), count - 1);
    assert_eq!(rt; word.len(), greatest as usize);
    let counts = table.counts();
    for distance in 0..25 {
        assert_eq!(rt; counts[distance as usize], u32::from(distance <= greatest));
    }
}

fn expect_gap<R: Abort + Threads + Sync>(rt: &R, alloc: Global, count: u32, bound: u32, index: u32)
    requires { bound ≤ 24 }
{
    let fault = DistanceTable::build(rt, alloc, TableName::Square, &Row(count), bound, 1).err();
    let table = TableName::Square;
    assert_eq!(rt; fault, Some(BuildFault::Gap { table, index }));
}

#[test]
fn rows(rt: HostRuntime) {
    expect_row(&rt, rt.alloc(), 21, 20, 20);
    expect_row(&rt, rt.alloc(), 25, 24, 24);
    expect_row(&rt, rt.alloc(), 1, 0, 0);
    expect_gap(&rt, rt.alloc(), 22, 20, 21);
    expect_gap(&rt, rt.alloc(), 2, 0, 1);
    if let Ok(table) = DistanceTable::build(&rt, rt.alloc(), TableName::Skewb, &Row(21), 24, 1) {
        let measured = Measured { table };
        assert_eq!(rt; walked(&measured, 7).as_slice(), [0; 7].as_slice());
    }
}

/// A row of 21 positions has one block: the distances up to 13, the mark of seven deep ones, and that of no position.
#[test]
fn blocks_of_a_row(rt: HostRuntime) {
    for workers in [1, 2, 7, 64] {
        match DistanceTable::build(&rt, rt.alloc(), TableName::Square, &Row(21), 20, workers) {
            Ok(table) => expect_blocks(&rt, &table),
            Err(_) => assert!(rt; false),
        }
    }
}

fn expect_blocks(rt: &impl Abort, table: &DistanceTable) {
    assert_eq!(rt; table.blocks().len(), 1);
    assert_eq!(rt; &table.blocks()[0][..12], ROW_BYTES.as_slice());
    assert_eq!(rt; table.deep(), &DEEP_ROW[..]);
}

static ROW_BYTES: [u8; 12] = [
    0x10, 0x32, 0x54, 0x76, 0x98, 0xba, 0xdc, 0xee, 0xee, 0xee, 0xfe, 0xff,
];

static DEEP_ROW: [(u32, u8); 7] = [
    (14, 14),
    (15, 15),
    (16, 16),
    (17, 17),
    (18, 18),
    (19, 19),
    (20, 20),
];

#[test]
fn a_circle(rt: HostRuntime) {
    match DistanceTable::build(&rt, rt.alloc(), TableName::Corners, &Circle, 20, 4) {
        Ok(table) => {
            assert_eq!(rt; table.descend(&Circle, 3).as_slice(), [0, 3].as_slice());
            expect_circle(&rt, &table);
        }
        Err(_) => assert!(rt; false),
    }
    assert_eq!(rt; TableName::CornerSlice.text(), "cornerslice");
}

fn expect_circle(rt: &impl Abort, table: &DistanceTable) {
    let counts = table.counts();
    assert!(rt; table.positions() == SIZE);
    assert_eq!(rt; [counts[0], counts[1], table.distance(2)], [1, 20, 2]);
    let tables = [table, table];
    assert!(rt; table_named(&tables, TableName::Corners).is_some());
    assert!(rt; table_named(&tables, TableName::Flips).is_none());
}

/// States of the lamps, and how many turns each needs.
static LAMP_STATES: [((bool, bool), u32); 4] = [
    ((false, false), 0),
    ((true, false), 1),
    ((false, true), 1),
    ((true, true), 2),
];

/// Numbers, and how many turns each needs.
static NUMBERS: [(u32, u32); 5] = [(0, 0), (3, 3), (8, 4), (16, 5), (24, 6)];

#[test]
fn minima(rt: HostRuntime) {
    for (state, needs) in &LAMP_STATES {
        for least in 0..6 {
            assert_eq!(rt; no_shorter(&Lamps, state, least), least <= *needs);
        }
    }
    for (state, needs) in &NUMBERS {
        for least in 0..6 {
            assert_eq!(rt; no_shorter(&Halving, state, least), least <= *needs);
        }
    }
    laws::minima(&Lamps);
}
