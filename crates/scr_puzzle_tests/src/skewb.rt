//! States of the Skewb that are known from elsewhere.

use crate::numbered::is_number;
use crate::read;
use scr_draw::Numbering;
use scr_notation::Event;
use scr_tetra::{PowerTurned, Skewb, SkewbNumbers};

const IN_PLACE: [u8; 6] = [0, 1, 2, 3, 4, 5];

/// Numbers of states, with their four corners, their three, each list with its twists, and their centres; the second is
/// after B and U.
static STATES: [(u128, ([u8; 4], [u8; 4]), ([u8; 3], [u8; 3]), [u8; 6]); 3] = [
    (0, ([0, 1, 2, 3], [0; 4]), ([0, 1, 2], [0; 3]), IN_PLACE),
    (
        1718795,
        ([1, 3, 2, 0], [2, 0, 0, 2]),
        ([2, 0, 1], [0, 2, 2]),
        [3, 1, 2, 4, 0, 5],
    ),
    (
        3149279,
        ([3, 2, 1, 0], [2; 4]),
        ([1, 2, 0], [2; 3]),
        [5, 4, 3, 2, 0, 1],
    ),
];

#[test]
fn known_skewbs(rt: HostRuntime) {
    for (number, (four, four_twists), (three, three_twists), centres) in &STATES {
        assert!(rt; *number < SkewbNumbers.count());
        let skewb = Skewb::from_lists(*four, *four_twists, *three, *three_twists, *centres);
        is_number(&rt, &SkewbNumbers, *number, skewb);
    }
    let up = Skewb::solved().turn(0, 1);
    let four = (up.four(), up.four_twists());
    let three = (up.three(), up.three_twists());
    assert!(rt; Skewb::from_lists(four.0, four.1, three.0, three.1, up.centres()) == Some(up));
    assert!(rt; SkewbNumbers.count() == 3149280);
}

#[test]
fn scrambles_played(rt: HostRuntime) {
    let solved = Skewb::solved();
    let played = solved.play(&read::scramble(&rt, Event::Skewb, "B U"));
    assert!(rt; played == Some(SkewbNumbers.state_at(1718795)));
    assert!(rt; played == Some(solved.turn(3, 1).turn(0, 1)));
    let other = solved.play(&read::scramble(&rt, Event::Skewb, "B R"));
    assert!(rt; other == Some(SkewbNumbers.state_at(351357)));
    assert!(rt;
        solved
            .play(&read::scramble(&rt, Event::Pyram, "B u"))
            .is_none()
    );
}

const FOUR: [u8; 4] = [0, 1, 2, 3];

/// Four corners with their twists, the twists of the three in their places, the centres, and whether turns lead to
/// them: all in place; two exchanged centres, two exchanged corners, a corner twice, a twisted corner of the four, one
/// of the three, and the four in another class.
static REACHED: [([u8; 4], [u8; 4], [u8; 3], [u8; 6], bool); 7] = [
    (FOUR, [0; 4], [0; 3], IN_PLACE, true),
    (FOUR, [0; 4], [0; 3], [1, 0, 2, 3, 4, 5], false),
    ([1, 0, 2, 3], [0; 4], [0; 3], IN_PLACE, false),
    ([0, 0, 2, 3], [0; 4], [0; 3], IN_PLACE, false),
    (FOUR, [1, 0, 0, 0], [0; 3], IN_PLACE, false),
    (FOUR, [0; 4], [1, 0, 0], IN_PLACE, false),
    ([1, 2, 0, 3], [0; 4], [0; 3], IN_PLACE, false),
];

#[test]
fn what_no_turns_reach(rt: HostRuntime) {
    for (four, four_twists, three_twists, centres, is_reached) in &REACHED {
        let skewb = Skewb::from_lists(*four, *four_twists, [0, 1, 2], *three_twists, *centres);
        assert_eq!(rt; skewb.is_some(), *is_reached);
    }
}
