//! How large things are on a page, so that a group fits on one of A4 and of letter paper. Nothing of it is promised.

ghost use Rattle.std.specs.Prelude.{◌≡◌, ◌+◌, ◌<◌, ◌≤◌, length};
ghost use Rattle.arrayvec.specs.ArrayString.{array_string_len};
ghost use Rattle.scr_markup.specs.Tokens.{HasNoLineFeed};

use arrayvec::ArrayString;
use scr_layout::{Group, Place, places, row_count};
use scr_notation::{Event, Puzzle, Turn};
use scr_text::decimal;

/// The room for the scrambles of a page below its heads, in tenths of a point.
const PAGE_HEIGHT: u32 = 6300;

/// The room beside a scramble's label for its words and its picture, in tenths of a millimetre.
const ROW_WIDTH: u32 = 1620;

/// A millimetre, in thousandths of a point.
const POINTS: u32 = 2835;

/// What the line above a scramble and the margins about it take of its height, in tenths of a point.
const MARGINS: u32 = 80;

/// The height of which no scramble needs more, in tenths of a point.
const MOST_HEIGHT: u32 = 1300;

/// The largest letters that words are written in, in tenths of a point.
const LARGEST: u32 = 170;

/// The smallest letters with which a group is put on one page, in tenths of a point.
const SMALLEST: u32 = 65;

/// The letters of a group that would need smaller ones for one page and takes more pages, in tenths of a point.
const ON_MORE_PAGES: u32 = 100;

/// How wide a letter is, in thousandths of its size. All are of one width.
const LETTER_WIDTH: u32 = 605;

/// The least height of a row of words, in hundredths of the size of its letters.
const LEAST_ROW: u32 = 115;

/// The greatest height of a row of words, in hundredths of the size of its letters.
const MOST_ROW: u32 = 145;

/// A style has at most so many bytes.
const STYLE_ROOM: usize = 144;

/// How large things are on a page.
#[derive(Clone, Copy)]
pub(crate) struct Sizes {
    /// The letters of words, in tenths of a point.
    letters: u32,
    /// The height of a row of words, in tenths of a point.
    row: u32,
    /// The least height of a scramble, in tenths of a point.
    slot: u32,
    /// The width of a picture, in tenths of a millimetre.
    picture: u32,
}

impl Sizes {
    /// The largest that fit on a page with so many scrambles of a group, which are at least one.
    pub(crate) fn of(group: &Group<'_>, slots: u32, pictures: bool) -> Sizes
        requires { 0 < slots }
    {
        let (rows, columns) = extent(group);
        let picture = if pictures {
            picture_width(group.event())
        } else {
            0
        };
        let slot = PAGE_HEIGHT / slots;
        let height = slot.saturating_sub(MARGINS);
        let width = (ROW_WIDTH - picture) * POINTS / 1000;
        let letters = letters_of(
            height * 100 / (rows * LEAST_ROW),
            width * 1000 / (columns * LETTER_WIDTH),
        );
        Sizes {
            letters,
            row: (height / rows)
                .min(letters * MOST_ROW / 100)
                .max(letters * LEAST_ROW / 100),
            slot: slot.min(MOST_HEIGHT),
            picture,
        }
    }

    /// The style that gives them to the elements of a page.
    pub(crate) fn style(self) -> ArrayString<STYLE_ROOM>
        ensures { HasNoLineFeed result.bytes }
    {
        let mut style = ArrayString::new();
        push_text(&mut style, "--letters:");
        push_tenths(&mut style, self.letters);
        push_text(&mut style, "pt;--row:");
        push_tenths(&mut style, self.row);
        push_text(&mut style, "pt;--slot:");
        push_tenths(&mut style, self.slot);
        push_text(&mut style, "pt;--picture:");
        push_tenths(&mut style, self.picture);
        push_text(&mut style, "mm");
        style
    }
}

/// Adds a number of tenths.
fn push_tenths(text: &mut ArrayString<STYLE_ROOM>, tenths: u32)
    requires line { HasNoLineFeed text.old.bytes }
    requires room { array_string_len text.old ≤ 120 }
    ensures line { HasNoLineFeed text.new.bytes }
    ensures room { array_string_len text.new ≤ array_string_len text.old + 21 }
{
    push_number(text, tenths / 10);
    push_text(text, ".");
    push_number(text, tenths % 10);
}

fn push_number(text: &mut ArrayString<STYLE_ROOM>, number: u32)
    requires line { HasNoLineFeed text.old.bytes }
    requires room { array_string_len text.old ≤ 134 }
    ensures line { HasNoLineFeed text.new.bytes }
    ensures room { array_string_len text.new ≤ array_string_len text.old + 10 }
{
    let digits = decimal(number);
    push_text(text, digits.as_str());
}

/// Adds a text in one line.
fn push_text(text: &mut ArrayString<STYLE_ROOM>, more: &str)
    requires line { HasNoLineFeed text.old.bytes }
    requires more { HasNoLineFeed more.now }
    requires room { array_string_len text.old + length more.now ≤ STYLE_ROOM }
    ensures line { HasNoLineFeed text.new.bytes }
    ensures room { array_string_len text.new ≡ array_string_len text.old + length more.now }
{
    text.push_str(more);
}

/// The size of letters of which the first are the largest that fit by height, and the second by width.
fn letters_of(by_height: u32, by_width: u32) -> u32
    ensures { (1 ≤ result) × (result ≤ LARGEST) }
{
    let most = if by_height < SMALLEST {
        ON_MORE_PAGES
    } else {
        by_height.min(LARGEST)
    };
    by_width.min(most).max(1)
}

/// The most rows of a scramble of a group, and the most letters in a row.
fn extent(group: &Group<'_>) -> (u32, u32)
    ensures rows { (1 ≤ result.0) × (result.0 ≤ 256) }
    ensures columns { (1 ≤ result.1) × (result.1 ≤ 300) }
{
    let mut rows = 1;
    let mut columns = 1;
    for scramble in group.scrambles() {
        let places = places(scramble);
        rows = row_count(places.as_slice()).max(rows);
        columns = width_of(scramble.event(), scramble.turns(), places.as_slice()).max(columns);
    }
    (rows, columns)
}

/// The most letters in a row of these turns of an event, which stand at these places.
fn width_of(event: Event, turns: &[Turn], places: &[Place]) -> u32
    ensures { result ≤ 300 }
{
    let mut most = 0;
    for (turn, place) in turns.iter().zip(places) {
        most = (u32::from(place.column) + word_width(event, *turn)).max(most);
    }
    most
}

/// At most so many letters has a turn of an event.
fn word_width(event: Event, turn: Turn) -> u32
    ensures { result ≤ 7 }
{
    match event.puzzle() {
        Puzzle::Cube222 | Puzzle::Cube333 | Puzzle::Fewest333 | Puzzle::Pyraminx | Puzzle::Skewb =>
            2,
        Puzzle::Cube555 | Puzzle::Held333 | Puzzle::Megaminx => 3,
        Puzzle::Cube666 | Puzzle::Cube777 => 4,
        Puzzle::Clock => 5,
        Puzzle::Square1 if matches!(turn, Turn::Twist) => 1,
        Puzzle::Square1 => 7,
    }
}

/// How wide the picture of an event is, in tenths of a millimetre.
fn picture_width(event: Event) -> u32
    ensures { result ≤ 600 }
{
    match event.puzzle() {
        Puzzle::Skewb | Puzzle::Pyraminx => 340,
        Puzzle::Cube222 | Puzzle::Cube333 | Puzzle::Clock => 380,
        Puzzle::Cube555 | Puzzle::Square1 => 400,
        Puzzle::Held333 | Puzzle::Megaminx => 480,
        Puzzle::Cube666 | Puzzle::Cube777 => 500,
        Puzzle::Fewest333 => 560,
    }
}
