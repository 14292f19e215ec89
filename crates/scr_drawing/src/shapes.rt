//! The shapes of parts. Their corners were computed from angles and lengths, and rounded: a Pyraminx by its small
//! triangles, 22 wide and 19 high; a Megaminx by pentagons whose corners lie 24 from their middle, with centres of 0.45
//! of that size and sides cut at 0.345 and 0.655 of their length; a Square-1 by a square of 60 with sides outside it up
//! to 1.28 of its size, cut each 30 degrees; the hands of a Clock 14 long and 4 wide. Marks stand in the middle of each.

use crate::shape::Shape;

/// A small triangle of a Pyraminx with a corner above.
const UP: &str = "l11 19h-22z";

/// One with a corner below.
const DOWN: &str = "h22l-11 19z";

/// The stickers of a Pyraminx: the faces F, R, L and D.
pub(crate) static PYRAMINX: [Shape; 36] = [
    Shape(73, 2, UP, 73, 15),
    Shape(62, 21, UP, 62, 34),
    Shape(62, 21, DOWN, 73, 27),
    Shape(84, 21, UP, 84, 34),
    Shape(51, 40, UP, 51, 53),
    Shape(51, 40, DOWN, 62, 46),
    Shape(73, 40, UP, 73, 53),
    Shape(73, 40, DOWN, 84, 46),
    Shape(95, 40, UP, 95, 53),
    Shape(78, 2, DOWN, 89, 8),
    Shape(89, 21, DOWN, 100, 27),
    Shape(100, 2, UP, 100, 15),
    Shape(100, 2, DOWN, 111, 8),
    Shape(100, 40, DOWN, 111, 46),
    Shape(111, 21, UP, 111, 34),
    Shape(111, 21, DOWN, 122, 27),
    Shape(122, 2, UP, 122, 15),
    Shape(122, 2, DOWN, 133, 8),
    Shape(46, 2, DOWN, 57, 8),
    Shape(24, 2, DOWN, 35, 8),
    Shape(46, 2, UP, 46, 15),
    Shape(35, 21, DOWN, 46, 27),
    Shape(2, 2, DOWN, 13, 8),
    Shape(24, 2, UP, 24, 15),
    Shape(13, 21, DOWN, 24, 27),
    Shape(35, 21, UP, 35, 34),
    Shape(24, 40, DOWN, 35, 46),
    Shape(62, 102, DOWN, 73, 108),
    Shape(73, 83, DOWN, 84, 89),
    Shape(73, 83, UP, 73, 96),
    Shape(51, 83, DOWN, 62, 89),
    Shape(84, 64, DOWN, 95, 70),
    Shape(84, 64, UP, 84, 77),
    Shape(62, 64, DOWN, 73, 70),
    Shape(62, 64, UP, 62, 77),
    Shape(40, 64, DOWN, 51, 70),
];

/// The stickers of a face of a Skewb.
pub(crate) static SKEWB_FACE: [Shape; 5] = [
    Shape(0, 0, "h18l-18 18z", 6, 6),
    Shape(36, 0, "v18l-18-18z", 30, 6),
    Shape(18, 0, "l18 18-18 18-18-18z", 18, 18),
    Shape(0, 36, "v-18l18 18z", 6, 30),
    Shape(36, 36, "h-18l18-18z", 30, 30),
];

/// The stickers of a face of a Megaminx with a corner above: its centre, and clockwise from below those along its sides
/// and at its corners. Its middle is at 24 24.
pub(crate) static UPRIGHT: [Shape; 11] = [
    Shape(18, 33, "l-4-12 10-8 10 8-4 12z", 24, 24),
    Shape(28, 43, "h-8l-2-10h12z", 24, 38),
    Shape(20, 43, "h-10l-3-9 11-1z", 14, 38),
    Shape(7, 34, "l-3-8 10-5 4 12z", 11, 28),
    Shape(4, 26, "l-3-9 8-6 5 10z", 7, 19),
    Shape(9, 11, "l7-5 8 7-10 8z", 16, 13),
    Shape(16, 6, "l8-6 8 6-8 7z", 24, 6),
    Shape(32, 6, "l7 5-5 10-10-8z", 32, 13),
    Shape(39, 11, "l8 6-3 9-10-5z", 41, 19),
    Shape(44, 26, "l-3 8-11-1 4-12z", 37, 28),
    Shape(41, 34, "l-3 9h-10l2-10z", 34, 38),
];

/// The same of a face with a corner below, from above.
pub(crate) static INVERTED: [Shape; 11] = [
    Shape(30, 15, "l4 12-10 8-10-8 4-12z", 24, 24),
    Shape(20, 5, "h8l2 10h-12z", 24, 10),
    Shape(28, 5, "h10l3 9-11 1z", 34, 10),
    Shape(41, 14, "l3 8-10 5-4-12z", 37, 20),
    Shape(44, 22, "l3 9-8 6-5-10z", 41, 29),
    Shape(39, 37, "l-7 5-8-7 10-8z", 32, 35),
    Shape(32, 42, "l-8 6-8-6 8-7z", 24, 42),
    Shape(16, 42, "l-7-5 5-10 10 8z", 16, 35),
    Shape(9, 37, "l-8-6 3-9 10 5z", 7, 29),
    Shape(4, 22, "l3-8 11 1-4 12z", 11, 20),
    Shape(7, 14, "l3-9h10l-2 10z", 14, 10),
];

/// What a piece of a Square-1 shows that begins at each twelfth of its layer, clockwise from 15 degrees right of above:
/// as an edge its wedge and its side, as a corner its wedge and its two sides. The middle is at 58 58.
pub(crate) static WEDGES: [Shape; 60] = [
    Shape(58, 58, "l8-30 14 8z", 68, 41),
    Shape(66, 28, "l2-8 18 10-6 6z", 75, 28),
    Shape(58, 58, "l8-30h22v22z", 74, 42),
    Shape(66, 28, "l2-8h28l-8 8z", 80, 24),
    Shape(88, 28, "l8-8v28l-8 2z", 92, 36),
    Shape(58, 58, "l22-22 8 14z", 75, 48),
    Shape(80, 36, "l6-6 10 18-8 2z", 88, 41),
    Shape(58, 58, "l22-22 19 11-11 19z", 80, 52),
    Shape(80, 36, "l6-6 24 14-11 3z", 94, 39),
    Shape(99, 47, "l11-3-14 24-8-2z", 98, 56),
    Shape(58, 58, "l30-8v16z", 78, 58),
    Shape(88, 50, "l8-2v20l-8-2z", 92, 58),
    Shape(58, 58, "l30-8 11 19-19 11z", 80, 64),
    Shape(88, 50, "l8-2 14 24-11-3z", 98, 60),
    Shape(99, 69, "l11 3-24 14-6-6z", 94, 77),
    Shape(58, 58, "l30 8-8 14z", 75, 68),
    Shape(88, 66, "l8 2-10 18-6-6z", 88, 75),
    Shape(58, 58, "l30 8v22h-22z", 74, 74),
    Shape(88, 66, "l8 2v28l-8-8z", 92, 80),
    Shape(88, 88, "l8 8h-28l-2-8z", 80, 92),
    Shape(58, 58, "l22 22-14 8z", 68, 75),
    Shape(80, 80, "l6 6-18 10-2-8z", 75, 88),
    Shape(58, 58, "l22 22-11 19-19-11z", 64, 80),
    Shape(80, 80, "l6 6-14 24-3-11z", 77, 94),
    Shape(69, 99, "l3 11-24-14 2-8z", 60, 98),
    Shape(58, 58, "l8 30h-16z", 58, 78),
    Shape(66, 88, "l2 8h-20l2-8z", 58, 92),
    Shape(58, 58, "l8 30-19 11-11-19z", 52, 80),
    Shape(66, 88, "l2 8-24 14 3-11z", 56, 98),
    Shape(47, 99, "l-3 11-14-24 6-6z", 39, 94),
    Shape(58, 58, "l-8 30-14-8z", 48, 75),
    Shape(50, 88, "l-2 8-18-10 6-6z", 41, 88),
    Shape(58, 58, "l-8 30h-22v-22z", 42, 74),
    Shape(50, 88, "l-2 8h-28l8-8z", 36, 92),
    Shape(28, 88, "l-8 8v-28l8-2z", 24, 80),
    Shape(58, 58, "l-22 22-8-14z", 41, 68),
    Shape(36, 80, "l-6 6-10-18 8-2z", 28, 75),
    Shape(58, 58, "l-22 22-19-11 11-19z", 36, 64),
    Shape(36, 80, "l-6 6-24-14 11-3z", 22, 77),
    Shape(17, 69, "l-11 3 14-24 8 2z", 18, 60),
    Shape(58, 58, "l-30 8v-16z", 38, 58),
    Shape(28, 66, "l-8 2v-20l8 2z", 24, 58),
    Shape(58, 58, "l-30 8-11-19 19-11z", 36, 52),
    Shape(28, 66, "l-8 2-14-24 11 3z", 18, 56),
    Shape(17, 47, "l-11-3 24-14 6 6z", 22, 39),
    Shape(58, 58, "l-30-8 8-14z", 41, 48),
    Shape(28, 50, "l-8-2 10-18 6 6z", 28, 41),
    Shape(58, 58, "l-30-8v-22h22z", 42, 42),
    Shape(28, 50, "l-8-2v-28l8 8z", 24, 36),
    Shape(28, 28, "l-8-8h28l2 8z", 36, 24),
    Shape(58, 58, "l-22-22 14-8z", 48, 41),
    Shape(36, 36, "l-6-6 18-10 2 8z", 41, 28),
    Shape(58, 58, "l-22-22 11-19 19 11z", 52, 36),
    Shape(36, 36, "l-6-6 14-24 3 11z", 39, 22),
    Shape(47, 17, "l-3-11 24 14-2 8z", 56, 18),
    Shape(58, 58, "l-8-30h16z", 58, 38),
    Shape(50, 28, "l-2-8h20l-2 8z", 58, 24),
    Shape(58, 58, "l-8-30 19-11 11 19z", 64, 36),
    Shape(50, 28, "l-2-8 24-14-3 11z", 60, 18),
    Shape(69, 17, "l3-11 14 24-6 6z", 77, 22),
];

/// The left part of the equator, its right part turned, and as it is when solved; the cuts of the two layers.
pub(crate) static SQUARE1_MORE: [Shape; 5] = [
    Shape(81, 118, "h26v14h-26z", 94, 125),
    Shape(107, 118, "h26v14h-26z", 120, 125),
    Shape(107, 118, "h44v14h-44z", 129, 125),
    Shape(71, 4, "h2l-28 108h-2z", 58, 58),
    Shape(159, 4, "h2l28 108h-2z", 174, 58),
];

/// The hands of a dial of a Clock at each hour, around 20 20.
pub(crate) static HANDS: [Shape; 12] = [
    Shape(18, 20, "l2-14 2 14z", 20, 20),
    Shape(18, 19, "l9-11-5 13z", 20, 20),
    Shape(19, 18, "l13-5-11 9z", 20, 20),
    Shape(20, 18, "l14 2-14 2z", 20, 20),
    Shape(21, 18, "l11 9-13-5z", 20, 20),
    Shape(22, 19, "l5 13-9-11z", 20, 20),
    Shape(22, 20, "l-2 14-2-14z", 20, 20),
    Shape(22, 21, "l-9 11 5-13z", 20, 20),
    Shape(21, 22, "l-13 5 11-9z", 20, 20),
    Shape(20, 22, "l-14-2 14-2z", 20, 20),
    Shape(19, 22, "l-11-9 13 5z", 20, 20),
    Shape(18, 21, "l-5-13 9 11z", 20, 20),
];
