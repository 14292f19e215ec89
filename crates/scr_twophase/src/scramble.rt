//! The two parts of a cube, and the scramble that they give.
ghost use Rattle.std.specs.Prelude.{◌≡◌, ◌≤◌, IfSome, IsTrue, Some, is_some, length, map};
ghost use Rattle.std.specs.Option.{option_map};
ghost use Rattle.scr_combinatorics.specs.Play.{play};
ghost use Rattle.scr_orbit.specs.PowerPuzzles.{after_letter};
ghost use Rattle.scr_notation.specs.declared.event.Event.TheVariants.{C333};
ghost use Rattle.scr_notation.specs.TurnNumbers.{face_turn_at};
ghost use Rattle.scr_notation.specs.Written.{at_most, IsTheScramble};
ghost use Rattle.scr_cube.specs.Cube333.{IsCube, cube_powers, solved_cube};
ghost use Rattle.scr_twophase.specs.TwoParts.{two_parts, IsScramble333};

use crate::first::parts_word;
use crate::tables::PruneTables;
use scr_cube::Cube;
use scr_notation::Scramble;
use scr_stages::{StageTables, scramble_by_stages};

/// The two parts of a cube, joined: the first of its first parts that has a second part, and that. At most `tries`
/// first parts are looked at, and `None` comes exactly where none of these has a second part.
pub fn two_parts(tables: &PruneTables, cube: &Cube, tries: u32) -> Option<Scramble>
    ensures event { IfSome result (λ s. s.event ≡ C333) }
    ensures parts { option_map (λ s. s.turns) result ≡ option_map (map face_turn_at) (two_parts cube.now tries) }
    ensures at_most { IfSome result (λ s. length s.turns ≤ 22) }
    ensures played { IfSome result (λ s. play (after_letter cube_powers) cube.now s.turns ≡ Some solved_cube) }
    ensures valid { IsCube cube.now }
{
    Some(parts_word(tables, cube, tries)?.scramble())
}

/// The scramble of a cube, for two hands or one: its two parts taken back, of at most 22 turns; and where none of its
/// first `tries` first parts has a second part, the scramble by stages, of at most 52.
pub fn scramble_333(prune: &PruneTables, stages: &StageTables, cube: &Cube, tries: u32) -> Scramble
    ensures scramble { IsTheScramble C333 (IsScramble333 tries) (at_most 52)
        (play (after_letter cube_powers) solved_cube) cube.now result }
    ensures few { IsTrue (is_some (two_parts cube.now tries)) → length result.turns ≤ 22 }
{
    match parts_word(prune, cube, tries) {
        Some(word) => word.taken_back(),
        None => scramble_by_stages(stages, cube),
    }
}
