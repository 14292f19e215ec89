//! The nets of a 3x3x3 and of a 2x2x2 by their pieces.
ghost use Rattle.std.specs.Prelude.{◌≡◌, ◌<◌, ◌==◌, All, IfSome, length, position};
ghost use Rattle.std.specs.List.{list_all};
ghost use Rattle.scr_orbit.specs.Stickers.{standing};
ghost use Rattle.scr_space.specs.Spins.{IsWithin, value};
ghost use Rattle.scr_net.specs.Geometry.{IsSticker, outward};
ghost use Rattle.scr_net.specs.Pieces.{corner_faces_222, letter_of_pieces, place_at, cube_letter, corners_letter, net_of_cube, net_of_corners};

use crate::geometry::{Sticker, outward};
use crate::net::Net;
use scr_cube::{Corners222, Cube};
use scr_space::Point;

/// The faces of the corner places of a 3x3x3, clockwise, that of U or D first: URF, UFL, ULB, UBR, DFR, DLF, DBL, DRB.
/// They are the letters of the corners.
static CORNER_FACES: [[u8; 3]; 8] = [
    [0, 1, 2],
    [0, 2, 4],
    [0, 4, 5],
    [0, 5, 1],
    [3, 2, 1],
    [3, 4, 2],
    [3, 5, 4],
    [3, 1, 5],
];

/// Those of the edge places: UR, UF, UL, UB, DR, DF, DL, DB, FR, FL, BL, BR.
static EDGE_FACES: [[u8; 2]; 12] = [
    [0, 1],
    [0, 2],
    [0, 4],
    [0, 5],
    [3, 1],
    [3, 2],
    [3, 4],
    [3, 5],
    [2, 1],
    [2, 4],
    [5, 4],
    [5, 1],
];

/// The net of a 3x3x3.
pub fn of_cube(cube: &Cube) -> Net<3>
    ensures { result ≡ net_of_cube cube.now }
{
    Net::of_rule(|sticker: Sticker| cube_letter(cube, sticker))
}

/// The net of a 2x2x2.
pub fn of_corners(state: &Corners222) -> Net<2>
    ensures { result ≡ net_of_corners state.now }
{
    Net::of_rule(|sticker: Sticker| corners_letter(state, sticker))
}

/// The letter at a sticker of a 3x3x3. A centre's is that of its face.
fn cube_letter(cube: &Cube, sticker: Sticker) -> u8
    requires { IsSticker 2 sticker }
    ensures value { result ≡ cube_letter cube.now sticker }
    ensures below { result < 6 }
{
    let (corners, twists) = (cube.corners(), cube.twists());
    let (edges, flips) = (cube.edges(), cube.flips());
    let corner = letter_of_pieces(2, &CORNER_FACES[..], &corners[..], &twists[..], sticker);
    let edge = letter_of_pieces(2, &EDGE_FACES[..], &edges[..], &flips[..], sticker);
    corner.unwrap_or(edge.unwrap_or(sticker.face))
}

/// The letter at a sticker of a 2x2x2. Those of the corner DBL are those of their faces.
fn corners_letter(state: &Corners222, sticker: Sticker) -> u8
    requires { IsSticker 1 sticker }
    ensures value { result ≡ corners_letter state.now sticker }
    ensures below { result < 6 }
{
    let (corners, twists) = (state.corners(), state.twists());
    let places = places_222();
    let corner = letter_of_pieces(1, &places[..], &corners[..], &twists[..], sticker);
    corner.unwrap_or(sticker.face)
}

/// The faces of the corner places of a 2x2x2, which counts no DBL.
fn places_222() -> [[u8; 3]; 7]
    ensures { result ≡ corner_faces_222 }
{
    [
        CORNER_FACES[0],
        CORNER_FACES[1],
        CORNER_FACES[2],
        CORNER_FACES[3],
        CORNER_FACES[4],
        CORNER_FACES[5],
        CORNER_FACES[7],
    ]
}

/// The letter at a sticker, where one of these pieces is. Letter k of a piece stands at the place's face k plus the
/// piece's digit, its twist or its flip.
fn letter_of_pieces<const K: usize>(
    last: usize,
    places: &[[u8; K]],
    pieces: &[u8],
    digits: &[u8],
    sticker: Sticker,
) -> Option<u8>
    requires sticker { IsSticker last sticker }
    requires pieces { length pieces.now ≡ length places.now }
    requires digits { length digits.now ≡ length places.now }
    requires in_place { All (λ piece. piece < length places.now) pieces.now }
    requires below { All (λ digit. digit < K) digits.now }
    ensures { result ≡ letter_of_pieces last places.now (record { pieces = pieces.now; digits = digits.now }) sticker }
{
    let place = place_at(last, places, sticker.point)?;
    let number = number_at(&places[place][..], digits[place], sticker.face)?;
    Some(places[usize::from(pieces[place])][number])
}

/// Of places that are named by their faces: the one whose faces all meet at a point.
fn place_at<const K: usize>(last: usize, places: &[[u8; K]], point: Point) -> Option<usize>
    requires { IsWithin last point }
    ensures value { result ≡ place_at last places.now point }
    ensures below { IfSome result (λ place. place < length places.now) }
{
    places.iter().position(
        |faces: &[u8; K]| -> bool
            requires { IsWithin last point }
            ensures { result ≡ list_all (λ face. value last (outward face) point == last) faces.now }
        { meet_at(last, &faces[..], point) },
    )
}

/// Whether these faces all meet at a point.
fn meet_at(last: usize, faces: &[u8], point: Point) -> bool
    requires { IsWithin last point }
    ensures { result ≡ list_all (λ face. value last (outward face) point == last) faces.now }
{
    faces
        .iter()
        .all(|face| point.value(last, outward(*face)) == last)
}

/// Which letter of a piece with this digit stands at a face, where its place is named by these faces.
fn number_at(faces: &[u8], digit: u8, face: u8) -> Option<usize>
    requires { digit < length faces.now }
    ensures value { result ≡ position (λ f. f == face) (standing faces.now digit) }
    ensures below { IfSome result (λ number. number < length faces.now) }
{
    let (front, back) = faces.split_at(usize::from(digit));
    back.iter().chain(front.iter()).position(|f| *f == face)
}
