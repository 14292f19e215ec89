//! Where the words of a scramble stand: in even rows, each below the other.

ghost use Rattle.std.specs.Prelude.{◌≡◌, ◌<◌, ◌≤◌, length};
ghost use Rattle.scr_layout.specs.Rows.{rows_of};

use arrayvec::ArrayVec;
use scr_notation::{MOST_TURNS, Puzzle, Scramble, Turn};

/// Where a word stands.
#[derive(Clone, Copy, Debug, Default, PartialEq, Eq)]
pub struct Place {
    /// Its row, from 0. A row without words is a gap between others.
    pub row: u8,
    /// How many letters wide the room is before it in its row.
    pub column: u8,
}

/// How the words of a puzzle are laid out.
#[derive(Clone, Copy)]
struct Columns {
    /// At most so many cells stand in a row.
    across: u32,
    /// So many letters wide each of them is.
    width: u32,
}

/// In a row of ten cells and more a gap stands behind each fifth, and of eight rows and more one behind each fifth.
const FIFTH: u32 = 5;

/// Where the words of a scramble stand, one after another. A row has as many cells as the others or one more, so that
/// none is left over for a row of its own. A cell is a word, but of a Square-1 a turn of the layers with the twist
/// behind it.
pub fn places(scramble: &Scramble) -> ArrayVec<Place, MOST_TURNS>
    ensures { length result.items ≡ length scramble.now.turns }
{
    let puzzle = scramble.event().puzzle();
    let turns = scramble.turns();
    let cells = cell_count(turns).max(1);
    let mut places = ArrayVec::new();
    let mut cell = 0;
    for (index, turn) in turns.iter().enumerate() {
        if index > 0 && !joins(turns, index) {
            cell += 1;
        }
        let indent = if is_twist(*turn) { 8 } else { 0 };
        places.push(place_of_cell(puzzle, cells, cell.min(cells - 1), indent));
    }
    places
}

/// How many rows these places take, with the gaps between: at least one.
pub fn row_count(places: &[Place]) -> u32
    ensures value { result ≡ rows_of places.now }
    ensures few { result ≤ 256 }
{
    let mut rows = 1;
    for place in places {
        rows = rows.max(u32::from(place.row) + 1);
    }
    rows
}

/// How many cells turns fill.
fn cell_count(turns: &[Turn]) -> u32
    requires { length turns.now ≤ 160 }
    ensures { result ≤ length turns.now }
{
    let mut cells = 0;
    for index in 0..turns.len() {
        if !joins(turns, index) {
            cells += 1;
        }
    }
    cells
}

/// Whether a turn stands in the cell of the one before it: a twist behind a turn of the layers does.
fn joins(turns: &[Turn], index: usize) -> bool
    requires { index < length turns.now }
{
    index > 0 && is_twist(turns[index]) && !is_twist(turns[index - 1])
}

fn is_twist(turn: Turn) -> bool {
    matches!(turn, Turn::Twist)
}

/// Where a cell, or what stands behind an indent in it, has its place, of so many cells.
fn place_of_cell(puzzle: Puzzle, cells: u32, cell: u32, indent: u32) -> Place
    requires cells { cells ≤ 160 }
    requires cell { cell < cells }
    requires indent { indent ≤ 8 }
{
    let Columns { across, width } = columns_of(puzzle);
    let (row, column) = row_and_column(puzzle, across, cells, cell);
    let (row, column) = (row.min(100), column.min(15));
    let gaps = if cells.div_ceil(across) >= 8 {
        row / FIFTH
    } else {
        0
    };
    let wide = if across >= 10 {
        2 * (column / FIFTH)
    } else {
        0
    };
    Place {
        row: (row + gaps) as u8,
        column: (column * width + wide + indent) as u8,
    }
}

/// The columns of a puzzle's rows.
fn columns_of(puzzle: Puzzle) -> Columns
    ensures across { (5 ≤ result.across) × (result.across ≤ 15) }
    ensures width { result.width ≤ 12 }
{
    let (across, width) = match puzzle {
        Puzzle::Cube222 | Puzzle::Skewb => (11, 4),
        Puzzle::Cube333 | Puzzle::Fewest333 => (10, 4),
        Puzzle::Cube555 | Puzzle::Held333 => (10, 5),
        Puzzle::Cube666 | Puzzle::Cube777 => (10, 6),
        Puzzle::Clock => (6, 7),
        Puzzle::Megaminx => (11, 5),
        Puzzle::Pyraminx => (15, 4),
        Puzzle::Square1 => (5, 12),
    };
    Columns { across, width }
}

/// The row of a cell, and how many stand before it there. A Clock's scramble has its first four pairs of pins in a row,
/// the other turns before its `y2` in the next, and this with all behind it in the last.
fn row_and_column(puzzle: Puzzle, across: u32, cells: u32, cell: u32) -> (u32, u32)
    requires across { 0 < across }
    requires cells { cells ≤ 160 }
    requires cell { cell < cells }
{
    if matches!(puzzle, Puzzle::Clock) && cells == 15 {
        return match cell {
            0..4 => (0, cell),
            4..9 => (1, cell - 4),
            _ => (2, cell - 9),
        };
    }
    let rows = cells.div_ceil(across);
    let least = cells / rows;
    let longer = (cells % rows).saturating_mul(least + 1);
    if cell < longer {
        (cell / (least + 1), cell % (least + 1))
    } else {
        (
            cells % rows + (cell - longer) / least,
            (cell - longer) % least,
        )
    }
}
