//! Nets that are known from elsewhere: by hand, from the superflip as solvers write it, and from a model that turns
//! stickers in space by matrices.
ghost use Rattle.scr_net.specs.Nets.{IsSide};

use crate::read;
use scr_cube::{Corners222, PowerTurned};
use scr_net::{Net, of_corners, of_cube, write_net};
use scr_notation::{Event, Scramble};
use scr_outside::MemSink;
use std::process::Abort;

/// The net of a solved cube after a scramble.
fn after<const SIDE: usize>(rt: &impl Abort, scramble: &Scramble) -> Net<SIDE>
    requires { IsSide SIDE }
{
    Net::<SIDE>::solved()
        .play(scramble)
        .expect(rt, "turns of the cube")
}

/// Writes the net of a solved cube after a scramble.
fn write_after<const SIDE: usize>(rt: &impl Abort, out: &mut MemSink, scramble: &Scramble)
    requires { IsSide SIDE }
{
    assert!(rt; write_net(out, &after::<SIDE>(rt, scramble)).is_ok());
}

/// Writes the net of a solved cube of an event after a scramble.
fn write_of(rt: &impl Abort, out: &mut MemSink, event: Event, scramble: &Scramble) {
    match event {
        Event::C222 => write_after::<2>(rt, out, scramble),
        Event::C333 => write_after::<3>(rt, out, scramble),
        Event::C555 => write_after::<5>(rt, out, scramble),
        Event::C666 => write_after::<6>(rt, out, scramble),
        _ => write_after::<7>(rt, out, scramble),
    }
}

/// Events, turns, and the net of a solved cube after them.
static NETS: [(Event, &str, &str); 8] = [
    (
        Event::C222,
        "U",
        "   UU
   UU
FF RR BB LL
LL FF RR BB
   DD
   DD
",
    ),
    (
        Event::C333,
        "R",
        "    UUF
    UUF
    UUF
LLL FFD RRR UBB
LLL FFD RRR UBB
LLL FFD RRR UBB
    DDB
    DDB
    DDB
",
    ),
    (
        Event::C333,
        "U R2 F B R B2 R U2 L B2 R U' D' R2 F R' L B2 U2 F2",
        "    UBU
    LUR
    UFU
LUL FUF RUR BUB
BLF LFR FRB RBL
LDL FDF RDR BDB
    DFD
    LDR
    DBD
",
    ),
    (
        Event::C333,
        "F2 D' B R2 U L' F D2 R B' U2 L2 F' D R'",
        "    DFD
    UUL
    RUL
LRD BBU BUR FUF
DLF DFF RRL DBR
FRF UDB LLR ULU
    RBD
    BDB
    LFB
",
    ),
    (
        Event::C222,
        "R U2 F' R' U F2 R2 U'",
        "   FF
   LD
LU BB RL DU
LB RR DF UB
   UF
   DR
",
    ),
    (
        Event::C555,
        "Dw Rw2 Uw' B L' Fw Bw2 R D' Lw F2 Uw B' Rw' L2 Dw2",
        "      LLBBB
      LRRRU
      LBURD
      BBURD
      FLLBF
UDDUR UUULD RRRFU RRRFF
UDDUD RUUFU RRFLF RDRFF
RLLLF DLFDL BBRBF RDBFU
FFRBF RDFFF DBBLB ULFDL
BBLRD RRUFF DBBLB UDDLD
      BBFDL
      UUDBD
      FUDLU
      LUULD
      LUBBL
",
    ),
    (
        Event::C666,
        "3Rw' Dw2 3Uw B2 3Fw2 Lw'",
        "       BBDFFF
       BBUUUU
       UUUUUU
       RRDFFF
       RRDFFF
       RRDFFF
LLRDDD BBBDDD RRRBBR UUUFDD
LLRDDD BBBDDD RRRBBR UUUFDD
LLRDDD BBUFFF LLLBBL BBBDDD
FFFLRR FFRRRR UUURRF LLLLUU
FFFLRR FFRRRR UUULLF LLLLUU
LLRBBB UURRRR UUULLF LLLLDD
       LLBBBB
       LLBBBB
       LLBBBB
       DDFDDD
       FFFDDD
       FFUUUU
",
    ),
    (
        Event::C777,
        "3Dw2 3Bw' 3Lw Rw U' 3Fw",
        "        FFFFBBB
        FFFFBBB
        LLLUUUU
        LLLUUUU
        LLLLDDL
        LLLLDDL
        LLLLDDL
UUBBFFF UUUURRD FFFFFDD LLLRRRR
DDDDFFF UUUURRD FFFRRRR UUBBLLL
DDDDFFF UUUURRD FFFRRRR UUBBLLL
RRRLDDD BBBFFFD FFFRRRR UUBBDDD
RRRLDDD BBBFFFD FFFUUUU LLBBDDD
RRRLBBB RRRDDDD FFFUUUU LLBBDDD
RRRLBBB RRRDDDD FFFUUUU LLBBDDD
        UUULLLR
        UUULLLR
        UUULLLR
        FFFDDBB
        BBBRRBB
        BBBRRBB
        BBBRRBB
",
    ),
];

#[test]
fn known_nets(rt: HostRuntime) {
    for (event, turns, net) in &NETS {
        let mut out = MemSink::new(rt.alloc(), 4096, 4096, Vec::new(rt.alloc())).expect(
            &rt, "a sink",
        );
        write_of(&rt, &mut out, *event, &read::scramble(&rt, *event, turns));
        assert_eq!(&rt; out.contents(), net.as_bytes());
    }
}

// The nets by pieces, a turn that no cube of the size has, and a single letter.
#[test]
fn nets_by_pieces(rt: HostRuntime) {
    let turns = "F2 D' B R2 U L' F D2 R B' U2 L2 F' D R'";
    let net = after::<3>(&rt, &read::scramble(&rt, Event::C333, turns));
    assert!(rt; of_cube(&read::cube(&rt, turns)) == net);
    let small = read::scramble(&rt, Event::C222, "R U2 F' R' U F2 R2 U'");
    let corners = Corners222::solved()
        .play(&small)
        .expect(&rt, "turns of the cube");
    assert!(rt; of_corners(&corners) == after::<2>(&rt, &small));
    let wide = read::scramble(&rt, Event::C555, "R Uw");
    assert!(rt; Net::<2>::solved().play(&wide).is_none());
    assert!(rt; Net::<3>::solved().play(&wide).is_some());
    assert!(rt; Net::<3>::solved().turn(1, 1, 1).cell(0, 2, 2) == 2);
}
