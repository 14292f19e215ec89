//! Scrambles of known words, whole, against those that an independent program of the definitions gives.

ghost use Rattle.std.specs.Prelude.{◌^◌, ◌≤◌};
ghost use Rattle.scr_bigs.specs.BigCubes.{IsSide};

use scr_bigs::*;
use scr_draw::DrawLimit;
use scr_notation::print;
use scr_words::{ChaChaWords, ListWords, Seed, Words};

/// The scrambles of stream 0 of the seed of zeros.
const MEGAMINX: &str =
    "R-- D++ R++ D-- R++ D++ R++ D-- R-- D-- U' R-- D++ R++ D++ R-- D++ R-- D-- R-- D-- U' R-- D++ \
    R++ D++ R++ D-- R++ D++ R-- D++ U R-- D++ R-- D-- R-- D-- R-- D++ R-- D++ U R++ D-- R-- D-- R++ \
    D++ R++ D++ R++ D-- U' R++ D++ R++ D++ R-- D-- R-- D-- R-- D-- U' R++ D-- R-- D++ R-- D-- R-- \
    D-- R-- D-- U'";

const CUBE_555: &str =
    "L Bw2 D' Rw' L Fw2 Bw2 Rw2 F2 Rw' D L2 U' Rw U Fw2 L2 Dw' B2 R2 Dw' Lw B2 L Dw B2 Bw' R Uw Dw2 \
    Bw' U' L' D B' Rw' L Bw2 R2 U L2 U R' U' Rw D Bw Uw2 B2 R2 Lw F2 Bw2 L2 Lw' F' U F L2 Bw";

const CUBE_666: &str =
    "Lw Dw2 B' U' R Uw2 R2 Bw2 Rw2 D' Lw Dw2 3Rw' F 3Uw D2 Lw2 B' Dw2 Rw2 Fw' R 3Rw2 U 3Rw B2 D' F U \
    3Fw2 3Rw' Fw' B' 3Uw Dw' 3Rw' B Dw2 R2 Bw Rw2 Fw 3Fw' B' Dw 3Rw L Bw2 L2 Fw2 B D2 Bw2 Dw2 3Rw' \
    U' D Fw Dw2 L 3Fw U Bw' D' Bw R2 Lw2 D' Bw D Rw L Fw B2 3Uw B' R' Lw B Dw";

const CUBE_777: &str =
    "R Fw2 3Uw' 3Rw' Dw 3Bw2 3Dw2 3Lw2 U2 B' R 3Dw2 R' B 3Uw B2 Bw2 3Dw' F2 3Lw2 Fw' 3Lw F2 Fw Lw \
    3Dw2 3Lw' 3Fw R 3Bw2 Rw' Lw' Bw' 3Dw Rw' U' 3Fw 3Lw2 U2 F U2 3Fw 3Lw' Bw' 3Dw Lw D B2 3Rw2 Bw2 \
    3Lw U2 Uw2 Bw2 D' R' 3Rw 3Uw L2 D 3Rw L 3Bw' Uw' Lw F2 Dw2 3Lw' Bw 3Lw F R Uw B2 Uw Bw' L' F \
    3Uw 3Bw 3Dw R' Fw' Dw Lw F Lw2 3Lw' Fw' 3Uw D' Dw2 Rw' 3Uw2 3Fw' 3Lw' 3Bw2 Dw 3Fw Lw";

/// For each side, and 0 for the Megaminx: so many attempts a turn, and the scramble.
static SCRAMBLES: [(u8, u32, &str); 4] = [
    (0, 1, MEGAMINX),
    (5, 1000, CUBE_555),
    (6, 1000, CUBE_666),
    (7, 1, CUBE_777),
];

/// Three words of the last number that is accepted where there are 36 choices, and of the first that is refused.
const ACCEPTED: [u32; 3] = [0xffffffe3, 0xffffffff, 0xffffffff];

const REFUSED: [u32; 3] = [0xffffffe4, 0xffffffff, 0xffffffff];

/// The scrambles that begin with the last turn and with the first, where zeros follow.
const FROM_LAST: &str =
    "Bw' U Uw D Dw R U Uw D Dw R U Uw D Dw R U Uw D Dw R U Uw D Dw R U Uw D Dw R U Uw D Dw R U Uw D \
    Dw R U Uw D Dw R U Uw D Dw R U Uw D Dw R U Uw D Dw";

const FROM_FIRST: &str =
    "U Uw D Dw R U Uw D Dw R U Uw D Dw R U Uw D Dw R U Uw D Dw R U Uw D Dw R U Uw D Dw R U Uw D Dw R \
    U Uw D Dw R U Uw D Dw R U Uw D Dw R U Uw D Dw R";

/// Whether words give this scramble of a big cube.
fn gives<W: Words, const SIDE: usize>(words: &mut W, attempts: u32, wanted: &str) -> bool
    requires side { IsSide SIDE }
    requires few { attempts ≤ 1000000 }
    requires room { W.taken words.old ≤ 2 ^ 62 }
{
    match big_cube::<W, SIDE>(words, attempts) {
        Ok(scramble) => print(&scramble).as_str() == wanted,
        Err(_) => false,
    }
}

/// Whether the words of the seed of zeros, of stream 0, give the scramble of a side that is wanted.
fn gives_of_stream(side: u8, attempts: u32, wanted: &str) -> bool
    requires { attempts ≤ 1000000 }
{
    let mut words = ChaChaWords::new(&Seed([0; 32]), 0);
    match side {
        5 => gives::<_, 5>(&mut words, attempts, wanted),
        6 => gives::<_, 6>(&mut words, attempts, wanted),
        7 => gives::<_, 7>(&mut words, attempts, wanted),
        _ => print(&megaminx(&mut words)).as_str() == wanted,
    }
}

#[test]
fn scrambles_of_a_stream(rt: HostRuntime) {
    for (side, attempts, wanted) in &SCRAMBLES {
        assert!(rt; *attempts <= 1000000);
        assert!(rt; gives_of_stream(*side, *attempts, wanted));
    }
}

/// Lists of words, so many attempts a turn, and the scrambles that they give.
static LISTS: [([u32; 3], u32, &str); 2] = [(ACCEPTED, 1, FROM_LAST), (REFUSED, 2, FROM_FIRST)];

#[test]
fn attempts_of_a_list(rt: HostRuntime) {
    for (list, attempts, wanted) in &LISTS {
        assert!(rt; *attempts <= 1000000);
        assert!(rt; gives::<_, 5>(&mut ListWords::new(list), *attempts, wanted));
    }
    let refused = big_cube::<_, 5>(&mut ListWords::new(&REFUSED), 1).err();
    assert_eq!(rt; refused, Some(DrawLimit { words: 3 }));
}
