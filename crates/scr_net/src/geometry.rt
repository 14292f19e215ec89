//! The stickers of a cube, and quarter turns of them.
ghost use Rattle.std.specs.Prelude.{◌≡◌, ◌<◌, ◌≤◌, ◌^◌};
ghost use Rattle.scr_space.specs.Spins.{IsWithin, is_moved};
ghost use Rattle.scr_net.specs.Geometry.{IsSticker, point_at, sticker_at, row_of, column_of, outward, quarter, face_at, turned_sticker, brought_from, carried_sticker};

use scr_space::{Coordinate, Counted, Point, Spin};

/// A sticker, at a point and on a face. The faces U R F D L B are 0 to 5. Of a point x counts from left to right, y from
/// bottom to top and z from back to front, each from 0.
#[derive(Clone, Copy)]
pub struct Sticker {
    pub point: Point,
    pub face: u8,
}

/// What is said of each of the faces U R F D L B.
macro_rules! by_face {
    ($face:expr; $u:expr, $r:expr, $f:expr, $d:expr, $l:expr, $b:expr $(,)?) => {
        match $face {
            0 => $u,
            1 => $r,
            2 => $f,
            3 => $d,
            4 => $l,
            _ => $b,
        }
    };
}

pub(crate) use by_face;

/// The point with these coordinates.
#[inline(always)]
fn make_point(x: usize, y: usize, z: usize) -> Point
    ensures { result ≡ record { x = x; y = y; z = z } }
{
    Point { x, y, z }
}

/// The point at a row and a column of a face, where `last` is the greatest coordinate. L, F, R and B are seen with U
/// above them, U with F below it, D with F above it.
#[inline(always)]
fn point_at(last: usize, face: u8, row: usize, column: usize) -> Point
    requires row { row ≤ last }
    requires column { column ≤ last }
    ensures { result ≡ point_at last face row column }
{
    by_face! { face;
        make_point(column, last, row),
        make_point(last, last - row, last - column),
        make_point(column, last - row, last),
        make_point(column, 0, last - row),
        make_point(0, last - row, column),
        make_point(last - column, last - row, 0),
    }
}

/// The sticker at a row and a column of a face.
#[inline(always)]
pub(crate) fn sticker_at(last: usize, face: u8, row: usize, column: usize) -> Sticker
    requires row { row ≤ last }
    requires column { column ≤ last }
    ensures { result ≡ sticker_at last face row column }
{
    Sticker {
        point: point_at(last, face, row, column),
        face,
    }
}

/// The row of a point on a face.
#[inline(always)]
pub(crate) fn row_of(last: usize, face: u8, point: Point) -> usize
    requires { IsWithin last point }
    ensures { result ≡ row_of last face point }
{
    by_face! { face; point.z, last - point.y, last - point.y, last - point.z, last - point.y, last - point.y }
}

/// The column of a point on a face.
#[inline(always)]
pub(crate) fn column_of(last: usize, face: u8, point: Point) -> usize
    requires { IsWithin last point }
    ensures { result ≡ column_of last face point }
{
    by_face! { face; point.x, last - point.z, point.x, point.x, point.z, last - point.x }
}

/// The coordinate that is greatest on a face.
#[inline(always)]
pub(crate) fn outward(face: u8) -> Coordinate
    ensures { result ≡ outward face }
{
    by_face! { face;
        Coordinate::Y,
        Coordinate::X,
        Coordinate::Z,
        Coordinate::MirroredY,
        Coordinate::MirroredX,
        Coordinate::MirroredZ,
    }
}

/// A quarter turn of `depth` layers at a face.
#[inline(always)]
fn quarter(last: usize, face: u8, depth: usize) -> Spin
    requires { last < 2 ^ 32 }
    ensures { result ≡ quarter last face depth }
{
    let (x, y, z) = by_face! { face;
        (Coordinate::MirroredZ, Coordinate::Y, Coordinate::X),
        (Coordinate::X, Coordinate::Z, Coordinate::MirroredY),
        (Coordinate::Y, Coordinate::MirroredX, Coordinate::Z),
        (Coordinate::Z, Coordinate::Y, Coordinate::MirroredX),
        (Coordinate::X, Coordinate::MirroredZ, Coordinate::Y),
        (Coordinate::MirroredY, Coordinate::X, Coordinate::Z),
    };
    Spin {
        x,
        y,
        z,
        counted: Counted::One(outward(face)),
        least: (last + 1).saturating_sub(depth),
    }
}

/// Where a quarter turn of each face takes what is on each.
static TURNED_FACES: [[u8; 6]; 6] = [
    [0, 2, 4, 3, 5, 1],
    [5, 1, 0, 2, 4, 3],
    [1, 3, 2, 4, 0, 5],
    [0, 5, 1, 3, 2, 4],
    [2, 1, 3, 5, 4, 0],
    [4, 0, 2, 1, 3, 5],
];

/// Where a quarter turn of `depth` layers at a face takes a sticker that it moves.
#[inline(always)]
fn turned_sticker(last: usize, face: u8, depth: usize, sticker: Sticker) -> Sticker
    requires small { last < 2 ^ 32 }
    requires face { face < 6 }
    requires sticker { IsSticker last sticker }
    ensures { result ≡ turned_sticker last (quarter last face depth) sticker }
{
    Sticker {
        point: sticker.point.rotated(last, quarter(last, face, depth)),
        face: TURNED_FACES[usize::from(face)][usize::from(sticker.face)],
    }
}

/// Whether a quarter turn of `depth` layers at a face moves a sticker.
#[inline(always)]
fn is_turned(last: usize, face: u8, depth: usize, sticker: Sticker) -> bool
    requires small { last < 2 ^ 32 }
    requires face { face < 6 }
    requires sticker { IsSticker last sticker }
    ensures { result ≡ is_moved last (quarter last face depth) sticker.point }
{
    sticker.point.is_moved(last, quarter(last, face, depth))
}

/// Where the sticker was before that a quarter turn of `depth` layers at a face takes here: the other way about a face
/// is clockwise about the opposite one.
#[inline(always)]
pub(crate) fn brought_from(last: usize, face: u8, depth: usize, sticker: Sticker) -> Sticker
    requires small { last < 2 ^ 32 }
    requires face { face < 6 }
    requires sticker { IsSticker last sticker }
    ensures { result ≡ brought_from last face depth sticker }
{
    if is_turned(last, face, depth, sticker) {
        turned_sticker(last, (face + 3) % 6, depth, sticker)
    } else {
        sticker
    }
}

/// Where a quarter turn of `depth` layers at a face takes a sticker.
#[inline(always)]
pub(crate) fn carried_sticker(last: usize, face: u8, depth: usize, sticker: Sticker) -> Sticker
    requires small { last < 2 ^ 32 }
    requires face { face < 6 }
    requires sticker { IsSticker last sticker }
    ensures { result ≡ carried_sticker last face depth sticker }
{
    if is_turned(last, face, depth, sticker) {
        turned_sticker(last, face, depth, sticker)
    } else {
        sticker
    }
}
