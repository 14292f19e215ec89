//! Pictures that are known from elsewhere: the superflip and a checkerboard as solvers write them, some by hand, and the
//! others from a model that turns the puzzles in space by real rotations.
use crate::read;
use scr_notation::Event;
use scr_picture::Picture;
use std::process::Abort;

/// Events, turns, and the picture that they make of a solved puzzle.
static PICTURES: [(Event, &str, &str); 23] = [
    (Event::C222, "R U' F2", "FFBDLDBRDFLLUUDBURLFRRUB"),
    (
        Event::C333,
        "U R2 F B R B2 R U2 L B2 R U' D' R2 F R' L B2 U2 F2",
        "UBULURUFURURFRBRDRFUFLFRFDFDFDLDRDBDLULBLFLDLBUBRBLBDB",
    ),
    (
        Event::C333,
        "U2 D2 R2 L2 F2 B2",
        "UDUDUDUDURLRLRLRLRFBFBFBFBFDUDUDUDUDLRLRLRLRLBFBFBFBFB",
    ),
    (
        Event::Fm333,
        "R U R' U' R U R' U' R U R' U' R U R' U' R U R' U' R U R' U'",
        "UUUUUUUUURRRRRRRRRFFFFFFFFFDDDDDDDDDLLLLLLLLLBBBBBBBBB",
    ),
    (
        Event::Bf333,
        "Rw' Uw2 F",
        "BBUBBULRRBLLBLLURRFDDUDDUBBRLLDFFDFFRRDRRFLLFFUUFUUDDB",
    ),
    (
        Event::C555,
        "Lw D' Uw2 B Rw'",
        "LLRDLUUUDLUUUBLUUUBLUUUBLFFFFFLLRRDLLRRBLLRRBLLRRBBBBRDBBBBBUUFBBUUFBBRRRBBDDDDDDDDDDDDDFF\
             FFFFFRRLRRBRRRRBRRRRULLLLULLLLUUFFFULBUUFFBUUDDBFFDDDFFDDDFF",
    ),
    (
        Event::C666,
        "3Rw' Lw2 U 3Fw D",
        "DDDDDDDDDDDDUUUUUULLLLLULLLLLULLLLLUBBBBFFBBBRRRBBBRRRBBBRRRBBBRRRUUUUURBBBBBRBBBBBRFFFFFR\
             UUUUURUUUUURLLLFFFUUURRRUUURRRDDDRRRFFFRRRFFFRRRFFFDDDBBFUUULLLUUULLLDDDLLLFFFLLLFFFDDDBFF\
             LLLLLLDDDBFFDDDBFFDDDBFFDDDBFFBBBRRR",
    ),
    (
        Event::C777,
        "3Rw Uw' 3Lw2 F 3Bw' D",
        "BBLLLLLBBLLLLLBBLLLLLDDDUUUUDDDUUUUDDDUUUUUULLLLLDFFFDDDDFFFDDDDRRRDDDURRRFFFURRRFFFURRRFF\
             FDDDDDLLRRBBBBBRRBBBBBRRBBBBBFFFFFLLDDDDDLLDDDDDLLBBBBUUBRRRUFFRRRRUFFRRRRUFFRRRRDDDRRRRBB\
             BRDDDBBBFDDDBBBFUUULLLFUUULLLFUUULLLFDDDLLLDBBBLLLBBBBBUUBRRUUUUUFFFFFLLFFFFFLLFFFFFLLRRBB\
             BBBRRUUUUURRUUUUUURRRFFF",
    ),
    (
        Event::Clock,
        "ALL1+ y2 ALL1+",
        "12 1 12 1 1 1 12 1 12 12 1 12 1 1 1 12 1 12",
    ),
    (
        Event::Clock,
        "UR1+",
        "12 1 1 12 1 1 12 12 12 11 12 12 12 12 12 12 12 12",
    ),
    (Event::Pyram, "U", "RRRRFFFFFLLLLRRRRRFFFFLLLLLDDDDDDDDD"),
    (Event::Pyram, "u'", "LFFFFFFFFFRRRRRRRRRLLLLLLLLDDDDDDDDD"),
    (
        Event::Pyram,
        "R' L B' u r'",
        "RLFRLLLRDLDRFFDLLLFRLDDDFDDRRRDRFFFF",
    ),
    (
        Event::Pyram,
        "U L' R B u l r' b'",
        "LDRLFDDDFFDLLRFFDRRRFFLRLFLDRLFDRRLD",
    ),
    (Event::Skewb, "R", "UFUUURDDDDFFFFLDBBBBLLLULRBRRR"),
    (Event::Skewb, "U L' B R'", "RBBRURUULLDFDBBUDRLDBFLFLRDFFU"),
    (
        Event::Minx,
        "U",
        "U U U U U U U U U U U F R R F F F F F F F R R BR BR R R R R R R R BR BR BL BL BR BR BR BR \
             BR BR BR BL BL L L BL BL BL BL BL BL BL L L F F L L L L L L L F D D D D D D D D D D D B B \
             B B B B B B B B B DBR DBR DBR DBR DBR DBR DBR DBR DBR DBR DBR DR DR DR DR DR DR DR DR DR D\
             R DR DL DL DL DL DL DL DL DL DL DL DL DBL DBL DBL DBL DBL DBL DBL DBL DBL DBL DBL",
    ),
    (
        Event::Minx,
        "R++",
        "DL DL U U U DL DL DL DL DL DL DBL DBL DBL DBL DBL DBL DBL DBL F F F D D D D D D D D D D D \
             DR DR DR DR DR DR DR DR DR DR DR F F BL BL BL F F F F F F L L L L L L L L L L L BR BR BR B\
             R BR BR BR BR BR BR BR R R R R R R R R R R R DBR DBR DBR DBR DBR DBR DBR DBR DBR DBR DBR \
             B B B B B B B B B B B BL BL BL BL BL BL BL BL DL DL DL U U DBL DBL DBL U U U U U U",
    ),
    (
        Event::Minx,
        "D++",
        "U U U U U U U U U U U BL F F BL BL BL BL BL BL BL F L R R L L L L L L L R F BR BR F F F F \
             F F F BR R BL BL R R R R R R R BL BR L L BR BR BR BR BR BR BR L D D D D D D D D D D D DR D\
             R DR DR DR DR DR DR DR DR DR DL DL DL DL DL DL DL DL DL DL DL DBL DBL DBL DBL DBL DBL DBL \
             DBL DBL DBL DBL B B B B B B B B B B B DBR DBR DBR DBR DBR DBR DBR DBR DBR DBR DBR",
    ),
    (
        Event::Minx,
        "R++ D-- R-- D++ U'",
        "B U U B B B B B B B U DBR L L DBL DBL DBR DBR DBR DBR DBR L D DBL DBL D D D D D D D F DBL \
             BL BL DBL F F F F DR DR BL BL BR BR BL BL BL DL DL DL BL BR BR DBR BL BR BR BR BR BR BR B\
             R DBR F BL BL F F F F F D D D L L L L L L L L DR DR DR DL DBR DBR DL DL DL DL DL DL DL DB\
             R DR DR B B B DBL DBL DR DR DR DR R R R R R R R R R R R U U U U U U U U DBL DBL DBL",
    ),
    (
        Event::Minx,
        "R++ D++ R-- D-- R++ D++ R-- D-- R++ D++ U R-- D++ R++ D-- U'",
        "F D U DBL DBL BL DR DR DR F BL DR DBL BR DR D D D B B D F R R F R R B L B B D B U DL DL DB\
             L DR DR DR U U U DL L L D F F L BR BR R L D DL DL L DL DBL DBR DBR R R DL DL B L L B L L B\
             R BR U U DBL BL DBR DBR BL BL BL DL DL L R DBR BR D BR BR D BR BL F F DBL F DBR DBR DBL DB\
             L DL BL R DBR DBR DBR DBR D BL B B B U U F R R BL DBL F DR DR BR DR BL BR DBL U U",
    ),
    (Event::Sq1, "/", "c44d5522a33b008119e66f77/"),
    (Event::Sq1, "(3,0)", "33b00811922ac44d55e66f77-"),
];

/// The turns make this picture of a solved puzzle.
fn make(rt: &impl Abort, event: Event, turns: &str, letters: &str) {
    let scramble = read::scramble(rt, event, turns);
    let picture = Picture::of(&scramble).expect(rt, turns);
    assert_eq!(rt; picture.letters(), letters);
}

#[test]
fn known_pictures(rt: HostRuntime) {
    for (event, turns, letters) in &PICTURES {
        make(&rt, *event, turns, letters);
    }
    // A corner would lie across the cut.
    assert!(rt; Picture::of(&read::scramble(&rt, Event::Sq1, "(2,0)")).is_none());
}
