//! Where the parts of each kind of drawing lie, by their numbers, and which colours they have.

ghost use Rattle.std.specs.Prelude.{◌≡◌, ◌<◌, ◌≤◌, true};
ghost use Rattle.scr_drawing.specs.Outlines.{is_steps};

use crate::letters::Letters;
use crate::shape::{Part, part_of};
use crate::shapes::{HANDS, INVERTED, PYRAMINX, SKEWB_FACE, SQUARE1_MORE, UPRIGHT, WEDGES};

/// Where the faces U R F D L B lie in a net, in faces to the right and down.
static NET_FACES: [(u8, u8); 6] = [(1, 0), (2, 1), (1, 1), (1, 2), (0, 1), (3, 1)];

/// The sizes of the net of a cube.
#[derive(Clone, Copy)]
struct NetSizes {
    /// The layers of the cube.
    side: usize,
    /// The stickers of a face.
    cells: usize,
    /// From a sticker to the next.
    step: u8,
    /// From a face to the next: those of its stickers, a line, and a gap of 4.
    pitch: u8,
    /// A sticker, as a line that is as wide as it is long.
    steps: &'static str,
    ghost some_layers: { 0 < side },
    ghost some_cells: { 0 < cells },
    ghost short: { is_steps steps.now ≡ true },
}

/// The sizes for a cube of so many layers.
fn net_sizes(side: u8) -> NetSizes {
    let (side, cells, step, pitch, steps) = match side {
        2 => (2, 4, 19, 43, "h18"),
        3 => (3, 9, 13, 44, "h12"),
        5 => (5, 25, 9, 50, "h8"),
        6 => (6, 36, 7, 47, "h6"),
        _ => (7, 49, 7, 54, "h6"),
    };
    NetSizes {
        side,
        cells,
        step,
        pitch,
        steps,
    }
}

/// A sticker of the net of a cube.
pub(crate) fn net_part(side: u8, number: usize, letters: &Letters) -> Option<Part> {
    let colour = *letters.get(number)?;
    let sizes = net_sizes(side);
    let (across, down) = *NET_FACES.get(number / sizes.cells)?;
    let cell = number % sizes.cells;
    let x = cell_at(sizes, across, cell % sizes.side);
    let y = cell_at(sizes, down, cell / sizes.side);
    let half = sizes.step / 2;
    Some(Part {
        colour,
        x,
        y: y.saturating_add(half),
        steps: sizes.steps,
        mark_x: x.saturating_add(half),
        mark_y: y.saturating_add(half),
    })
}

/// Where a row or a column of stickers begins, behind the lines before it.
fn cell_at(sizes: NetSizes, faces: u8, cells: usize) -> u8 {
    let cells = cells.min(255) as u8;
    faces
        .saturating_mul(sizes.pitch)
        .saturating_add(cells.saturating_mul(sizes.step))
        .saturating_add(2)
}

/// A sticker of the net of a Skewb, whose faces are 36 wide, with gaps of 4.
pub(crate) fn skewb_part(number: usize, letters: &Letters) -> Option<Part> {
    let colour = *letters.get(number)?;
    let (across, down) = *NET_FACES.get(number / 5)?;
    let x = across.saturating_mul(40).saturating_add(1);
    let y = down.saturating_mul(40).saturating_add(1);
    part_of(&SKEWB_FACE, number % 5, (x, y), colour)
}

/// A sticker of a Pyraminx.
pub(crate) fn pyraminx_part(number: usize, letters: &Letters) -> Option<Part> {
    let colour = *letters.get(number)?;
    part_of(&PYRAMINX, number, (0, 0), colour)
}

/// Where the faces U F R BR BL L D B DBR DR DL DBL of a Megaminx lie, whether they have a corner above, and how many
/// stickers further, around the face, the first of a picture is than the first of the table.
static MEGAMINX_FACES: [(u8, u8, bool, u8); 12] = [
    (39, 38, true, 0),
    (39, 79, false, 0),
    (78, 51, false, 8),
    (63, 5, false, 6),
    (15, 5, false, 4),
    (0, 51, false, 2),
    (163, 46, false, 0),
    (163, 5, true, 4),
    (124, 33, true, 2),
    (139, 79, true, 0),
    (187, 79, true, 0),
    (202, 33, true, 6),
];

/// A sticker of a Megaminx.
pub(crate) fn megaminx_part(number: usize, letters: &Letters) -> Option<Part> {
    let colour = *letters.get(number)?;
    let (x, y, is_upright, turn) = *MEGAMINX_FACES.get(number / 11)?;
    let sticker = number % 11;
    let place = if sticker == 0 {
        0
    } else {
        1 + (sticker + 9 + turn as usize) % 10
    };
    if is_upright {
        part_of(&UPRIGHT, place, (x, y), colour)
    } else {
        part_of(&INVERTED, place, (x, y), colour)
    }
}

/// The colours that the pieces of a Square-1 show: that of the layer, and those of their sides, clockwise as seen from
/// there; edges have but one side.
static SQUARE1_COLOURS: [[u8; 3]; 16] = [
    [0, 5, 1],
    [0, 1, 2],
    [0, 2, 4],
    [0, 4, 5],
    [3, 2, 1],
    [3, 1, 5],
    [3, 5, 4],
    [3, 4, 2],
    [0, 1, 1],
    [0, 2, 2],
    [0, 4, 4],
    [0, 5, 5],
    [3, 2, 2],
    [3, 1, 1],
    [3, 5, 5],
    [3, 4, 4],
];

/// A part of a Square-1: three for each unit, then the two parts of the equator, and the cuts.
pub(crate) fn square1_part(number: usize, letters: &Letters) -> Option<Part> {
    let is_turned = *letters.get(24)? == 17;
    match number {
        0..72 => unit_part(number / 3, number % 3, letters),
        72 => part_of(&SQUARE1_MORE, 0, (0, 0), 2),
        73 if is_turned => part_of(&SQUARE1_MORE, 1, (0, 0), 5),
        73 => part_of(&SQUARE1_MORE, 2, (0, 0), 2),
        74 => part_of(&SQUARE1_MORE, 3, (0, 0), 6),
        75 => part_of(&SQUARE1_MORE, 4, (0, 0), 6),
        _ => None,
    }
}

/// What a unit of a Square-1 shows: its piece's wedge and its sides, at the unit where the piece begins.
fn unit_part(unit: usize, shown: usize, letters: &Letters) -> Option<Part>
    requires unit { unit < 24 }
    requires shown { shown < 3 }
{
    let layer = unit / 12;
    let at = unit % 12;
    let piece = *letters.get(unit)?;
    let before = *letters.get(12 * layer + (at + 11) % 12)?;
    let is_corner = piece < 8;
    let is_shown = if is_corner {
        piece != before
    } else {
        shown < 2
    };
    if !is_shown {
        return None;
    }
    // The units of the bottom layer begin 30 degrees further left.
    let direction = (at + 11 * layer) % 12;
    let place = 5 * direction + shown + if is_corner { 2 } else { 0 };
    let colour = *SQUARE1_COLOURS.get(piece as usize)?.get(shown)?;
    part_of(
        &WEDGES,
        place,
        (if layer == 0 { 0 } else { 116 }, 0),
        colour,
    )
}

/// A hand of a Clock.
pub(crate) fn clock_part(number: usize, letters: &Letters) -> Option<Part> {
    if number >= 18 {
        return None;
    }
    let hour = *letters.get(number)?;
    let x = (124 * (number / 9) + 38 * (number % 3) + 1) as u8;
    let y = (38 * (number % 9 / 3) + 1) as u8;
    part_of(&HANDS, hour as usize, (x, y), 0)
}
