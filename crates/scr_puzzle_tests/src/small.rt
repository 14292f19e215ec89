//! Draws and scrambles known from elsewhere: found by another solver.
ghost use Rattle.std.specs.Prelude.{◌≡◌, ◌^◌, ◌≤◌};
ghost use Rattle.scr_notation.specs.declared.event.Event.TheVariants.{C222, Pyram, Skewb as EventSkewb};

use scr_cube::{Corners222, Numbers222, PowerTurned};
use scr_draw::{Numbering, Permit, draw, laws as draw_laws};
use scr_notation::{Event, print};
use scr_small::{
    Small222, SmallPyram, SmallSkewb, SmallTables, laws, needs_222, needs_pyram, needs_skewb,
    scramble_222, scramble_pyram, scramble_skewb,
};
use scr_solver_laws::small as solver_laws;
use scr_table::{DistanceTable, TableName};
use scr_tetra::{PyramNumbers, Pyraminx, Skewb, SkewbNumbers, TetraminxNumbers};
use scr_words::{ChaChaWords, ListWords, Seed, Words};
use std::process::Abort;

/// Numbers of 2x2x2s, how many turns each needs, and its scramble.
static CUBES: [(u32, u32, &str); 4] = [
    (0, 0, ""),
    (1574640, 1, "U"),
    (3015702, 9, "R2 U R' F U2 F' U R U"),
    (3674159, 9, "U2 F' R2 U R F2 R' U R2"),
];

/// Numbers of Pyraminxes, how many turns each needs, and its scramble.
static PYRAMINXES: [(u32, u32, &str); 6] = [
    (0, 0, ""),
    (55, 2, "u b'"),
    (15116625, 1, "U"),
    (52354422, 9, "R L' U' R B' U B' r' b'"),
    (75582719, 12, "B R' U L B' L B' U u' l' r' b'"),
    (3644, 15, "B L B L U' L B' R U L' U' u' l' r' b'"),
];

/// The words of number 55.
static TWO_TIPS: [u32; 3] = [55, 0, 0];

/// Numbers of Skewbs, how many turns each needs, and its scramble.
static SKEWBS: [(u32, u32, &str); 6] = [
    (0, 0, ""),
    (9423, 1, "B"),
    (1718795, 2, "B U"),
    (1965942, 7, "B R' L' R L U R'"),
    (3149279, 9, "U' B' R' U B' R' B L U"),
    (44, 11, "B R U' L B' U' L U R L U'"),
];

/// The words of number 9423.
static AFTER_B: [u32; 3] = [9423, 0, 0];

/// A list of no words, whose words are zeros.
const NO_WORDS: [u32; 0] = [];

/// The number of the state after U.
static AFTER_U: [u32; 3] = [1574640, 0, 0];

/// The least number that is refused, then the greatest that is accepted.
static LAST: [u32; 6] = [
    0xfff1_c980,
    0xffff_ffff,
    0xffff_ffff,
    0xfff1_c97f,
    0xffff_ffff,
    0xffff_ffff,
];

/// The 2x2x2s of these numbers need just so many turns, and have these scrambles, which lead to them from solved.
fn scrambled_cubes(rt: &impl Abort, tables: &SmallTables, rows: &[(u32, u32, &str)])
    requires { tables.now.event ≡ C222 }
{
    for &(number, turns, text) in rows {
        assert!(rt; number < 3674160 && turns < 12);
        let state = Numbers222.state_at(u128::from(number));
        let scramble = scramble_222(tables, &state);
        assert_eq!(rt; print(&scramble).as_str(), text);
        assert!(rt; Corners222::solved().play(&scramble) == Some(state));
        assert!(rt; needs_222(tables, &state, turns) && !needs_222(tables, &state, turns + 1));
    }
}

/// The Pyraminxes of these numbers need just so many turns, and have these scrambles, which lead to them from solved.
fn scrambled_pyraminxes(rt: &impl Abort, tables: &SmallTables, rows: &[(u32, u32, &str)])
    requires { tables.now.event ≡ Pyram }
{
    for &(number, turns, text) in rows {
        assert!(rt; number < 75582720 && turns < 16);
        let state = PyramNumbers.state_at(u128::from(number));
        let scramble = scramble_pyram(tables, &state);
        assert_eq!(rt; print(&scramble).as_str(), text);
        assert!(rt; Pyraminx::solved().play(&scramble) == Some(state));
        assert!(rt; needs_pyram(tables, &state, turns) && !needs_pyram(tables, &state, turns + 1));
    }
}

/// The Skewbs of these numbers need just so many turns, and have these scrambles, which lead to them from solved.
fn scrambled_skewbs(rt: &impl Abort, tables: &SmallTables, rows: &[(u32, u32, &str)])
    requires { tables.now.event ≡ EventSkewb }
{
    for &(number, turns, text) in rows {
        assert!(rt; number < 3149280 && turns < 12);
        let state = SkewbNumbers.state_at(u128::from(number));
        let scramble = scramble_skewb(tables, &state);
        assert_eq!(rt; print(&scramble).as_str(), text);
        assert!(rt; Skewb::solved().play(&scramble) == Some(state));
        assert!(rt; needs_skewb(tables, &state, turns) && !needs_skewb(tables, &state, turns + 1));
    }
}

/// Drawing from these words at a minimum gives the state of a number, or none.
fn expect_draw<W: Words, P: Numbering + Permit<P::State>>(
    rt: &impl Abort,
    puzzle: &P,
    words: &mut W,
    least: u32,
    attempts: u32,
    drawn: Option<u128>,
)
    requires least { least ≤ P.greatest puzzle.now }
    requires attempts { attempts ≤ 1000000 }
    requires room { W.taken words.old ≤ 2 ^ 62 }
{
    let number = match draw(words, puzzle, least, attempts) {
        Ok(state) => Some(puzzle.number_of(&state)),
        Err(limit) => {
            assert_eq!(rt; limit.words, 3 * attempts);
            None
        }
    };
    assert!(rt; number == drawn);
}

/// The same from a list of words, and then zeros.
fn expect_listed<P: Numbering + Permit<P::State>>(
    rt: &impl Abort,
    puzzle: &P,
    list: &[u32],
    least: u32,
    attempts: u32,
    drawn: Option<u128>,
)
    requires least { least ≤ P.greatest puzzle.now }
    requires attempts { attempts ≤ 1000000 }
{
    let mut words = ListWords::new(list);
    expect_draw(rt, puzzle, &mut words, least, attempts, drawn);
}

#[test]
fn scrambles_of_222(rt: HostRuntime) {
    let tables = SmallTables::build(&rt, rt.alloc(), Event::C222, 1).expect(&rt, "tables");
    assert!(rt;
        tables.table(TableName::Corners).is_some() && tables.table(TableName::Flips).is_none()
    );
    scrambled_cubes(&rt, &tables, &CUBES);
}

/// The 2x2x2's table has 3,589 blocks and no deep position, whoever builds it.
#[test]
fn blocks_of_222(rt: HostRuntime) {
    let one = SmallTables::build(&rt, rt.alloc(), Event::C222, 1).expect(&rt, "tables");
    for workers in [2, 7, 64] {
        let more = SmallTables::build(&rt, rt.alloc(), Event::C222, workers).expect(&rt, "tables");
        match (
            one.table(TableName::Corners),
            more.table(TableName::Corners),
        ) {
            (Some(one), Some(more)) => are_blocks(&rt, one, more),
            _ => assert!(rt; false),
        }
    }
}

/// The tables are as that of a 2x2x2.
fn are_blocks(rt: &impl Abort, one: &DistanceTable, more: &DistanceTable) {
    assert_eq!(rt; [one.blocks().len(), one.deep().len()], [3589, 0]);
    assert!(rt; one.blocks() == more.blocks() && one.deep() == more.deep());
}

#[test]
fn draws_of_222(rt: HostRuntime) {
    let tables = SmallTables::build(&rt, rt.alloc(), Event::C222, 1).expect(&rt, "tables");
    drawn_cubes(&rt, &tables);
    fair_cubes(&tables);
}

/// Does nothing: draws of 2x2x2s are fair.
fn fair_cubes(tables: &SmallTables)
    requires { tables.now.event ≡ C222 }
{
    solver_laws::measured::<Numbers222>();
    laws::reached_by_table::<Numbers222>(tables);
    draw_laws::drawn_fairly(&Small222::new(tables));
}

fn drawn_cubes(rt: &impl Abort, tables: &SmallTables)
    requires { tables.now.event ≡ C222 }
{
    let cube = Small222::new(tables);
    let mut zeros = ChaChaWords::new(&Seed([0; 32]), 0);
    expect_draw(rt, &cube, &mut zeros, 0, 1, Some(3015702));
    expect_listed(rt, &cube, &LAST, 0, 2, Some(3674159));
    expect_listed(rt, &cube, &LAST, 0, 1, None);
    // the state after U needs one turn, and not four
    expect_listed(rt, &cube, &AFTER_U, 1, 1, Some(1574640));
    expect_listed(rt, &cube, &AFTER_U, 4, 1, None);
    expect_listed(rt, &cube, &NO_WORDS, 1, 5, None);
    expect_listed(rt, &cube, &NO_WORDS, 0, 1, Some(0));
}

#[test]
fn scrambles_of_pyram(rt: HostRuntime) {
    let tables = SmallTables::build(&rt, rt.alloc(), Event::Pyram, 2).expect(&rt, "tables");
    assert!(rt;
        tables.table(TableName::Pyramid).is_some() && tables.table(TableName::Flips).is_none()
    );
    scrambled_pyraminxes(&rt, &tables, &PYRAMINXES);
    drawn_pyraminxes(&rt, &tables);
    fair_pyraminxes(&tables);
}

/// Does nothing: draws of Pyraminxes are fair.
fn fair_pyraminxes(tables: &SmallTables)
    requires { tables.now.event ≡ Pyram }
{
    solver_laws::shown_by_parts::<TetraminxNumbers>();
    laws::pyram_reached_by_table(tables);
    draw_laws::drawn_fairly(&SmallPyram::new(tables));
}

fn drawn_pyraminxes(rt: &impl Abort, tables: &SmallTables)
    requires { tables.now.event ≡ Pyram }
{
    let pyraminx = SmallPyram::new(tables);
    expect_listed(rt, &pyraminx, &TWO_TIPS, 2, 1, Some(55));
    expect_listed(rt, &pyraminx, &TWO_TIPS, 3, 1, None);
    assert_eq!(rt;
        print(&pyraminx.scramble(&PyramNumbers.state_at(55))).as_str(),
        "u b'"
    );
}

#[test]
fn scrambles_of_skewb(rt: HostRuntime) {
    let tables = SmallTables::build(&rt, rt.alloc(), Event::Skewb, 7).expect(&rt, "tables");
    assert!(rt;
        tables.table(TableName::Skewb).is_some() && tables.table(TableName::Flips).is_none()
    );
    scrambled_skewbs(&rt, &tables, &SKEWBS);
    drawn_skewbs(&rt, &tables);
    solver_laws::shown_by_parts::<SkewbNumbers>();
}

fn drawn_skewbs(rt: &impl Abort, tables: &SmallTables)
    requires { tables.now.event ≡ EventSkewb }
{
    let skewb = SmallSkewb::new(tables);
    expect_listed(rt, &skewb, &AFTER_B, 1, 1, Some(9423));
    expect_listed(rt, &skewb, &AFTER_B, 2, 1, None);
    assert_eq!(rt;
        print(&skewb.scramble(&SkewbNumbers.state_at(9423))).as_str(),
        "B"
    );
}
