//! States and scrambles that are known from elsewhere.
ghost use Rattle.std.specs.Prelude.{◌<◌, ◌≤◌};
ghost use Rattle.scr_clock.specs.Numbers.{clock_numbers};

use crate::read;
use scr_clock::{Clock, ClockNumbers, laws, needs_at_least, scramble_clock};
use scr_draw::{DrawLimit, Numbering, draw, laws as draw_laws};
use scr_notation::{Event, print};
use scr_words::ListWords;
use std::process::Abort;

/// The number of a Clock, its dials, and the text of its scramble, each made of the one before, and the text played.
fn shows(rt: &impl Abort, number: u128, dials: [u8; 14], text: &str)
    requires { number < clock_numbers.count }
{
    let clock = ClockNumbers.state_at(number);
    assert_eq!(rt; clock.dials(), dials);
    assert_eq!(rt; ClockNumbers.number_of(&clock), number);
    is_scrambled(rt, &clock, text);
}

/// The text of a Clock's scramble, and the text played.
fn is_scrambled(rt: &impl Abort, clock: &Clock, text: &str) {
    assert_eq!(rt; print(&scramble_clock(clock)).as_str(), text);
    let scramble = read::scramble(rt, Event::Clock, text);
    assert_eq!(rt; Clock::solved().play(&scramble), Some(*clock));
}

/// Numbers of Clocks, their dials, and their scrambles.
static CLOCKS: [(u128, [u8; 14], &str); 3] = [
    (
        985395116423286,
        [6, 4, 8, 9, 7, 8, 2, 1, 2, 8, 2, 6, 2, 9],
        "UR4+ DR4+ DL5- UL5+ U3- R2+ D4+ L1- ALL3- y2 U3- R4+ D2- L4+ ALL3+",
    ),
    (
        0,
        [0; 14],
        "UR0+ DR0+ DL0+ UL0+ U0+ R0+ D0+ L0+ ALL0+ y2 U0+ R0+ D0+ L0+ ALL0+",
    ),
    (
        863089361917349,
        [5, 0, 10, 0, 0, 0, 1, 0, 6, 4, 7, 9, 0, 8],
        "UR0+ DR0+ DL0+ UL0+ U0+ R0+ D0+ L0+ ALL0+ y2 U1+ R2+ D5+ L3- ALL4+",
    ),
];

#[test]
fn known_scrambles(rt: HostRuntime) {
    for (number, dials, text) in &CLOCKS {
        assert!(rt; *number < ClockNumbers.count());
        shows(&rt, *number, *dials, text);
    }
    shows(
        &rt,
        39089244,
        Clock::solved().pins(false, 5, 1).dials(),
        "UR0+ DR1- DL0+ UL1- U1+ R1+ D1+ L1+ ALL1- y2 U0+ R0+ D0+ L0+ ALL0+",
    );
    assert!(rt; Clock::from_dials([12; 14]).is_none());
    assert!(rt; Clock::from_dials([11; 14]).is_some());
}

#[test]
fn known_plays(rt: HostRuntime) {
    let scramble = read::scramble(&rt, Event::Clock, "UR1+ y2 ALL2- y2 U6+");
    let solved = Clock::solved();
    let turned = solved
        .pins(false, 1, 1)
        .pins(true, 15, 10)
        .pins(false, 9, 6);
    assert_eq!(rt; solved.play(&scramble), Some(turned));
    assert_eq!(rt;
        solved.play(&read::scramble(&rt, Event::C333, "")),
        Some(solved)
    );
    assert_eq!(rt; solved.play(&read::scramble(&rt, Event::C333, "U")), None);
}

/// Turns from solved, each of the back or the front, with these pins up, by so many hours; and how many turns the Clock
/// needs to which they lead.
static MINIMA: [(&[(bool, u8, u8)], u32); 6] = [
    (&[], 0),
    (&[(false, 5, 1)], 1),
    (&[(true, 9, 7)], 1),
    (&[(false, 5, 1), (false, 3, 8)], 2),
    (&[(true, 15, 6), (false, 15, 6)], 2),
    (&[(true, 2, 1), (true, 4, 11)], 2),
];

/// The Clock to which turns lead from solved.
fn turned(rt: &impl Abort, turns: &[(bool, u8, u8)]) -> Clock {
    let mut clock = Clock::solved();
    for &(back, pins, amount) in turns {
        assert!(rt; 0 < pins && pins < 16 && amount < 12);
        clock = clock.pins(back, pins, amount);
    }
    clock
}

/// The Clock needs just so many turns, or three at least.
fn needs(rt: &impl Abort, clock: &Clock, least: u32)
    requires { least ≤ 3 }
{
    assert!(rt; needs_at_least(clock, least));
    assert!(rt; least == 3 || !needs_at_least(clock, least + 1));
}

#[test]
fn known_minima(rt: HostRuntime) {
    for (turns, least) in &MINIMA {
        assert!(rt; *least <= 3);
        needs(&rt, &turned(&rt, turns), *least);
    }
    needs(&rt, &ClockNumbers.state_at(985395116423286), 3);
}

#[test]
fn known_draws(rt: HostRuntime) {
    let list = [39089244, 0, 0];
    let mut words = ListWords::new(&list);
    assert_eq!(rt;
        draw(&mut words, &ClockNumbers, 1, 1),
        Ok(Clock::solved().pins(false, 5, 1))
    );
    let mut words = ListWords::new(&list);
    assert_eq!(rt;
        draw(&mut words, &ClockNumbers, 2, 1),
        Err(DrawLimit { words: 3 })
    );
    assert_eq!(rt; ClockNumbers.count(), 1283918464548864);
    laws::each_clock_is_reached();
    draw_laws::drawn_fairly(&ClockNumbers);
}
