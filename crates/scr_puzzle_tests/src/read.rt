//! Scrambles for tests, from their texts.
ghost use Rattle.std.specs.Prelude.{◌≡◌};

use scr_cube::{Cube, PowerTurned};
use scr_notation::{Event, Scramble, parse};
use std::process::Abort;

/// The scramble that a text spells.
pub(crate) fn scramble(rt: &impl Abort, event: Event, text: &str) -> Scramble
    ensures { result.event ≡ event }
{
    parse(event, text).expect(rt, text)
}

/// The 3x3x3 to which a text leads from solved.
pub(crate) fn cube(rt: &impl Abort, text: &str) -> Cube {
    Cube::solved()
        .play(&scramble(rt, Event::C333, text))
        .expect(rt, text)
}
