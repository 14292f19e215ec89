//! Drawings of pictures.

use scr_drawing::draw;
use scr_notation::{Event, Scramble};
use scr_picture::Picture;
use std::test::Fail;

/// Events, and in how many elements the solved puzzle of each is drawn.
static LINES: [(Event, usize); 12] = [
    (Event::C222, 11),
    (Event::C333, 11),
    (Event::C555, 11),
    (Event::C666, 11),
    (Event::C777, 10),
    (Event::Clock, 10),
    (Event::Minx, 28),
    (Event::Pyram, 8),
    (Event::Skewb, 10),
    (Event::Sq1, 11),
    (Event::Bf333, 11),
    (Event::Fm333, 11),
];

/// Each solved puzzle is drawn, in as many elements as stand above.
#[test]
fn solved_puzzles(rt: HostRuntime) -> Result<(), Fail> {
    for (event, lines) in &LINES {
        let picture = Picture::of(&Scramble::new(*event)).ok_or("no picture")?;
        let mut page = String::new(rt.alloc());
        draw(&mut page, *event, &picture)?;
        assert_eq!(rt; page.lines().count(), *lines, "{event:?}");
    }
    Ok(())
}
