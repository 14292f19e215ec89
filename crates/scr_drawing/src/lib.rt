//! Drawings of scrambled puzzles for pages that scramblers hold: a picture of `scr_picture` as an inline SVG, as
//! competitors know it.
//!
//! A drawing is made of parts, which are stickers, sides of pieces, or hands. Each kind of puzzle says where the part
//! with a number lies and which colour it has (`parts`, over the tables of `shapes`); how it looks is data (`style`);
//! and all are drawn in one way, a path for each colour and one for its marks (`drawing`). The page is one of
//! `scr_markup`. The theorem is the contract of [`draw`]: a drawing tells who reads the page just one thing, the event
//! and the letters of the picture. Which colour lies where is for the eye, and `tools/pictures/drawings` holds it
//! against the letters. Nothing takes memory but the page. [`legend`] says what marks mean on paper without colours.
#![tactic(auto)]

mod drawing;
mod letters;
mod marks;
mod parts;
mod path;
mod plan;
mod shape;
mod shapes;
mod style;

pub use drawing::draw;
pub use marks::legend;
