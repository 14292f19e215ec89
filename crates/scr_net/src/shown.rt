//! Letters by face, row and column, from a rule that says which letter each sticker has.
ghost use Rattle.std.specs.Prelude.{◌≡◌, ℕ, ◌-◌, ◌<◌, length, slice_index, []};
ghost use Rattle.std.specs.List.{slice_index_or};
ghost use Rattle.scr_net.specs.declared.geometry.Sticker.{Sticker as Place};
ghost use Rattle.scr_net.specs.Geometry.{IsSticker, sticker_at};
ghost use Rattle.scr_net.specs.Nets.{HasShape, cell};

use crate::geometry::{Sticker, sticker_at};

/// The letters of all faces.
#[inline(always)]
pub(crate) fn shown<const SIDE: usize, F: Fn(Sticker) -> u8>(letter: F) -> [[[u8; SIDE]; SIDE]; 6]
    requires side { 0 < SIDE }
    requires callable { (s : Place) → IsSticker (SIDE - 1) s → F.pre letter s }
    ensures shape { HasShape SIDE result }
    ensures each { (face row column : ℕ) → face < 6 → row < SIDE → column < SIDE
        → F.post letter (sticker_at (SIDE - 1) face row column) (cell result face row column) }
{
    [
        shown_face(&letter, 0),
        shown_face(&letter, 1),
        shown_face(&letter, 2),
        shown_face(&letter, 3),
        shown_face(&letter, 4),
        shown_face(&letter, 5),
    ]
}

/// The letters of a face, row by row.
#[inline(always)]
fn shown_face<const SIDE: usize, F: Fn(Sticker) -> u8>(letter: &F, face: u8) -> [[u8; SIDE]; SIDE]
    requires side { 0 < SIDE }
    requires face { face < 6 }
    requires callable { (s : Place) → IsSticker (SIDE - 1) s → F.pre letter.now s }
    ensures long { length result ≡ SIDE }
    ensures rows { (row : ℕ) → row < SIDE → length (slice_index_or result row []) ≡ SIDE }
    ensures each { (row column : ℕ) → row < SIDE → column < SIDE
        → F.post letter.now (sticker_at (SIDE - 1) face row column) (slice_index (slice_index_or result row []) column) }
{
    let mut rows = [[0; SIDE]; SIDE];
    for row in 0..SIDE {
        rows[row] = shown_row(letter, face, row);
    }
    rows
}

/// The letters of a row of a face.
#[inline(always)]
fn shown_row<const SIDE: usize, F: Fn(Sticker) -> u8>(
    letter: &F,
    face: u8,
    row: usize,
) -> [u8; SIDE]
    requires face { face < 6 }
    requires row { row < SIDE }
    requires callable { (s : Place) → IsSticker (SIDE - 1) s → F.pre letter.now s }
    ensures long { length result ≡ SIDE }
    ensures each { (column : ℕ) → column < SIDE
        → F.post letter.now (sticker_at (SIDE - 1) face row column) (slice_index result column) }
{
    let mut letters = [0; SIDE];
    for column in 0..SIDE {
        letters[column] = letter(sticker_at(SIDE - 1, face, row, column));
    }
    letters
}
