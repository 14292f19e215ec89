//! The minima of the 3x3x3.
ghost use Rattle.std.specs.Prelude.{◌≡◌, ◌↔◌, ◌≤◌, length, IsTrue};
ghost use Rattle.scr_combinatorics.specs.Reach.{Needs};
ghost use Rattle.scr_orbit.specs.PowerPuzzles.{power_puzzle};
ghost use Rattle.scr_cube.specs.Cube333.{cube_powers};
ghost use Rattle.scr_twophase.specs.Minima.{astray, needs_turns};

use scr_cube::{Cube, PowerTurned};

/// How many corners a turn moves, and how many edges.
const MOVED: u32 = 4;

/// Whether no word of fewer than `least` turns solves a cube. `least` is at most 5. Cubes that have more corners or more
/// edges astray than so few turns move are not turned.
pub fn needs_333(cube: &Cube, least: u32) -> bool
    requires { least ≤ 5 }
    ensures test { result ≡ needs_turns cube.now least }
    ensures exact { IsTrue result ↔ Needs (power_puzzle cube_powers) cube.now least }
{
    if least == 0 {
        return true;
    }
    if *cube == Cube::solved() {
        return false;
    }
    if least == 1 {
        return true;
    }
    let corners = pieces_astray(&cube.corners()[..], &cube.twists()[..]);
    let edges = pieces_astray(&cube.edges()[..], &cube.flips()[..]);
    if corners.max(edges) > MOVED * (least - 1) {
        return true;
    }
    for turn in 0..18 {
        if !needs_333(&cube.turned(turn), least - 1) {
            return false;
        }
    }
    true
}

/// How many pieces of an orbit, at most 12, are astray: not at their places, or there with a digit other than 0.
fn pieces_astray(pieces: &[u8], digits: &[u8]) -> u32
    requires same_length { length digits.now ≡ length pieces.now }
    requires few { length pieces.now ≤ 12 }
    ensures { result ≡ astray pieces.now digits.now (length pieces.now) }
{
    let mut count = 0;
    for place in 0..pieces.len() {
        if usize::from(pieces[place]) != place || digits[place] != 0 {
            count += 1;
        }
    }
    count
}
