//! Texts and turns that are known from elsewhere.
ghost use Rattle.std.specs.Prelude.{◌≡◌, IsTrue};
ghost use Rattle.scr_notation.specs.declared.event.Event.TheVariants.{Clock};
ghost use Rattle.scr_notation.specs.Event.{kind_of};
ghost use Rattle.scr_notation.specs.Turning.{has_merging};

use crate::read;
use arrayvec::ArrayString;
use scr_notation::{
    EVENTS, Event, EventSet, Family, NotationFault, Scramble, Turn, inverse, parse, print, tidy,
    turn_at, turn_count,
};
use std::process::Abort;

/// Reads the text, which has so many turns, and prints it again.
fn reads(rt: &impl Abort, event: Event, text: &str, turns: usize) {
    let scramble = read::scramble(rt, event, text);
    assert_eq!(rt; scramble.turns().len(), turns);
    assert_eq!(rt; print(&scramble).as_str(), text);
}

/// The text is refused with this fault.
fn refused(rt: &impl Abort, event: Event, text: &str, fault: NotationFault) {
    match parse(event, text) {
        Ok(_) => assert!(rt; false),
        Err(found) => assert_eq!(rt; found, fault),
    }
}

/// Texts of events, and how many turns each has.
static READ: [(Event, &str, usize); 12] = [
    (Event::C333, "", 0),
    (Event::C333, "R U2 F'", 3),
    (Event::C222, "R U2 F'", 3),
    (Event::C555, "Dw Rw2 Uw' B L' Fw", 6),
    (Event::Bf333, "D' L2 B Fw' Uw2", 5),
    (Event::C666, "3Rw' Dw2 3Uw B2 3Fw2 Lw'", 6),
    (Event::C777, "3Dw2 3Bw' 3Lw Rw U' 3Fw", 6),
    (Event::Clock, "UR6+ DL1- y2 ALL5- U0+", 5),
    (
        Event::Minx,
        "R-- D++ R++ D-- R++ D++ R++ D-- R-- D-- U'",
        11,
    ),
    (Event::Pyram, "U L' R B' u' l r b'", 8),
    (Event::Skewb, "B U", 2),
    (Event::Sq1, "(3,0) / (-3,6) / (0,-5) (-1,0)", 6),
];

/// Texts that are refused, and the place at which each is.
static WRONG: [(Event, &str, u32); 34] = [
    (Event::C333, " U", 0),
    (Event::C333, "u", 0),
    (Event::C333, "U2'", 0),
    (Event::C333, "Uw", 0),
    (Event::Bf333, "Dw", 0),
    (Event::Bf333, "U Lw2", 2),
    (Event::Bf333, "3Rw", 0),
    (Event::C333, "U\tR", 0),
    (Event::C333, "R3", 0),
    (Event::C333, "y2", 0),
    (Event::C333, " ", 0),
    (Event::C333, "R  U", 2),
    (Event::C333, "U ", 2),
    (Event::C333, "U2 R' x", 6),
    (Event::C222, "D", 0),
    (Event::C555, "3Uw", 0),
    (Event::C666, "3Dw", 0),
    (Event::C666, "Dw 3Dw", 3),
    (Event::C777, "4Uw", 0),
    (Event::C777, "3U", 0),
    (Event::Clock, "UR6-", 0),
    (Event::Clock, "UR0-", 0),
    (Event::Clock, "UR7+", 0),
    (Event::Clock, "UR06+", 0),
    (Event::Clock, "Y2", 0),
    (Event::Minx, "R+", 0),
    (Event::Minx, "U++", 0),
    (Event::Pyram, "U2", 0),
    (Event::Skewb, "U u", 2),
    (Event::Sq1, "(0,0)", 0),
    (Event::Sq1, "(-6,0)", 0),
    (Event::Sq1, "( 1,0)", 0),
    (Event::Sq1, "(+1,0)", 0),
    (Event::Sq1, "(01,0)", 0),
];

#[test]
fn known_texts(rt: HostRuntime) {
    for (event, text, turns) in &READ {
        reads(&rt, *event, text, *turns);
    }
    for (event, text, place) in &WRONG {
        refused(&rt, *event, text, NotationFault::Spelling { place: *place });
    }
}

#[test]
fn known_lengths(rt: HostRuntime) {
    let mut text: ArrayString<400> = ArrayString::new();
    let _ = text.try_push_str("U");
    for _ in 0..159 {
        let _ = text.try_push_str(" U");
    }
    reads(&rt, Event::C333, text.as_str(), 160);
    let _ = text.try_push_str(" U");
    refused(
        &rt,
        Event::C333,
        text.as_str(),
        NotationFault::TooLong { place: 320 },
    );
    let mut scramble = Scramble::new(Event::Clock);
    assert_eq!(rt; scramble.event(), Event::Clock);
    for _ in 0..160 {
        assert!(rt; scramble.push(Turn::Over));
    }
    assert!(rt; !scramble.push(Turn::Over));
    assert_eq!(rt; scramble.turns().len(), 160);
}

/// All turns of an event are printed and read again.
fn each_turn(rt: &impl Abort, event: Event) {
    let mut scramble = Scramble::new(event);
    let kind = event.kind();
    for number in 0..turn_count(kind) {
        assert!(rt; scramble.push(turn_at(kind, number)));
    }
    let again = read::scramble(rt, event, print(&scramble).as_str());
    assert_eq!(rt; again.turns().len(), turn_count(kind) as usize);
    assert!(rt; again.turns() == scramble.turns());
}

/// The scramble is taken back by this one.
fn taken_back(rt: &impl Abort, event: Event, text: &str, back: &str)
    requires { event ≡ Clock → ⊥ }
{
    let scramble = read::scramble(rt, event, text);
    assert_eq!(rt; print(&inverse(&scramble)).as_str(), back);
}

/// The scramble is tidied to this one.
fn tidied(rt: &impl Abort, event: Event, text: &str, tidy_text: &str)
    requires { IsTrue (has_merging (kind_of event)) }
{
    let scramble = read::scramble(rt, event, text);
    assert_eq!(rt; print(&tidy(&scramble)).as_str(), tidy_text);
}

/// Words of cubes, and what they are tidied to.
static TIDIED: [(&str, &str); 3] = [("U U2 U", ""), ("R U U' R", "R2"), ("U U2", "U'")];

/// Words of a Square-1, and what they are tidied to.
static TIDIED_SQUARES: [(&str, &str); 3] = [
    ("(3,0) (-3,6)", "(0,6)"),
    ("(1,0) / / (-1,0)", ""),
    ("/ (4,-5) (3,-2) /", "/ (-5,5) /"),
];

#[test]
fn known_turnings(rt: HostRuntime) {
    for (text, tidy_text) in &TIDIED {
        tidied(&rt, Event::C333, text, tidy_text);
        tidied(&rt, Event::C222, text, tidy_text);
    }
    tidied(&rt, Event::C333, "R L R'", "R L R'");
    for (text, tidy_text) in &TIDIED_SQUARES {
        tidied(&rt, Event::Sq1, text, tidy_text);
    }
    taken_back(&rt, Event::C333, "R L2 U'", "U L2 R'");
    taken_back(&rt, Event::C666, "3Rw' Dw2 U", "U' Dw2 3Rw");
    taken_back(&rt, Event::Bf333, "L' Rw Uw2", "Uw2 Rw' L");
    taken_back(&rt, Event::Minx, "R++ D-- U'", "U D++ R--");
    taken_back(&rt, Event::Pyram, "U L' u r'", "r u' L U'");
    taken_back(&rt, Event::Skewb, "B U'", "U B'");
    taken_back(&rt, Event::Sq1, "(-3,6) / (5,0)", "(-5,0) / (3,6)");
}

#[test]
fn known_events(rt: HostRuntime) {
    for event in EVENTS {
        assert_eq!(rt; Event::from_id(event.id()), Some(event));
        each_turn(&rt, event);
    }
    assert_eq!(rt; Event::from_id("444"), None);
}

#[test]
fn sets_of_events(rt: HostRuntime) {
    let mut set = EventSet::new();
    for event in EVENTS {
        assert!(rt; !set.contains(event));
    }
    set.insert(Event::C222);
    set.insert(Event::Sq1);
    set.insert(Event::C222);
    for event in EVENTS {
        let square = event.family() == Some(Family::Square1);
        assert_eq!(rt; set.contains(event), square || event == Event::C222);
    }
}
