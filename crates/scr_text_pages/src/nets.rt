//! The nets of cubes, below their scrambles. Each line of one begins with a bar, which no row of words does.

ghost use Rattle.std.specs.Prelude.{◌≡◌, ◌≢◌, ◌≤◌, ◌<◌, [], ◌∷◌, All, OnOk, IfSome, string_bytes};
ghost use Rattle.scr_notation.specs.Event.{puzzle_of};
ghost use Rattle.scr_net.specs.Nets.{IsSide};
ghost use Rattle.scr_net.specs.NetText.{net_lines};
ghost use Rattle.scr_text_pages.specs.Adding.{AddsLines, words_read};
ghost use Rattle.scr_text_pages.specs.Nets.{lines_below, played_lines, side_of};

use scr_net::{Net, net_line};
use scr_notation::{Event, Puzzle, Scramble};
use std::alloc::AllocError;

/// How many layers a cube has, if the puzzle of an event is one.
pub(crate) fn side_of(event: Event) -> Option<u32>
    ensures value { result ≡ side_of (puzzle_of event) }
    ensures few { IfSome result (λ side. side ≤ 7) }
    ensures known { IfSome result (λ side. (2 ≤ side) × (side ≢ 4)) }
{
    match event.puzzle() {
        Puzzle::Cube222 => Some(2),
        Puzzle::Cube333 | Puzzle::Held333 | Puzzle::Fewest333 => Some(3),
        Puzzle::Cube555 => Some(5),
        Puzzle::Cube666 => Some(6),
        Puzzle::Cube777 => Some(7),
        Puzzle::Clock | Puzzle::Megaminx | Puzzle::Pyraminx | Puzzle::Skewb | Puzzle::Square1 =>
            None,
    }
}

/// Adds the net of what a scramble makes of a cube, and of other puzzles nothing.
pub(crate) fn write_net(text: &mut String, scramble: &Scramble) -> Result<(), AllocError>
    ensures { OnOk result
        (AddsLines (words_read (lines_below scramble.now)) (string_bytes text.old) (string_bytes text.new)) }
{
    match side_of(scramble.event()) {
        None => Ok(()),
        Some(2) => write_played::<2>(text, scramble),
        Some(3) => write_played::<3>(text, scramble),
        Some(5) => write_played::<5>(text, scramble),
        Some(6) => write_played::<6>(text, scramble),
        Some(7) => write_played::<7>(text, scramble),
        Some(_) => unreachable!(),
    }
}

/// The same of a cube with so many layers.
fn write_played<const SIDE: usize>(text: &mut String, scramble: &Scramble) -> Result<(), AllocError>
    requires { IsSide SIDE }
    ensures { OnOk result (AddsLines (words_read (played_lines scramble.now.turns SIDE))
        (string_bytes text.old) (string_bytes text.new)) }
{
    match Net::<SIDE>::solved().play(scramble) {
        Some(net) => write_lines(text, &net),
        None => Ok(()),
    }
}

/// Adds the lines of a net.
fn write_lines<const SIDE: usize>(text: &mut String, net: &Net<SIDE>) -> Result<(), AllocError>
    requires { IsSide SIDE }
    ensures { OnOk result
        (AddsLines (words_read (net_lines SIDE net.now)) (string_bytes text.old) (string_bytes text.new)) }
{
    for place in 0..3 * SIDE {
        write_line(text, net_line(net, place).as_str())?;
    }
    Ok(())
}

/// Adds a line behind a bar.
fn write_line(text: &mut String, line: &str) -> Result<(), AllocError>
    requires { All (λ byte. 31 < byte) line.now }
    ensures { OnOk result (AddsLines (words_read (line.now ∷ [])) (string_bytes text.old) (string_bytes text.new)) }
{
    text.push_str("|    ")?;
    text.push_str(line)?;
    text.push_str("\n")?;
    Ok(())
}
