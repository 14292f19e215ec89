//! Turns taken back and merged, by their numbers, and so scrambles taken back and tidied.
ghost use Rattle.std.specs.Prelude.{◌≡◌, ◌<◌, IfSome, IsTrue, is_some};
ghost use Rattle.std.specs.Option.{option_map};
ghost use Rattle.scr_combinatorics.specs.Back.{back};
ghost use Rattle.scr_combinatorics.specs.Tidy.{tidy};
ghost use Rattle.scr_notation.specs.declared.event.Event.TheVariants.{Clock};
ghost use Rattle.scr_notation.specs.Event.{kind_of};
ghost use Rattle.scr_notation.specs.Kinds.{IsKind};
ghost use Rattle.scr_notation.specs.TurnNumbers.{turn_at, turn_count};
ghost use Rattle.scr_notation.specs.Turning.{opposite, are_alike, turns_merged, turn_merging, has_merging};
ghost use Rattle.scr_notation.specs.Written.{IsWritten};

use crate::event::Kind;
use crate::numbered_word::NumberedWord;
use crate::scramble::Scramble;

/// The number of a Square-1's twist. It stands where the turn would that leaves both layers.
const TWIST: u8 = 65;

/// The scramble that undoes this one, of any event but Clock: the opposite turns in reversed order.
pub fn inverse(scramble: &Scramble) -> Scramble
    requires { scramble.now.event ≡ Clock → ⊥ }
    ensures value { result ≡ record { event = scramble.now.event; turns = back opposite scramble.now.turns } }
    ensures valid { IsWritten result }
{
    NumberedWord::of_scramble(scramble).taken_back()
}

/// What is left of a scramble of cubes or of Square-1 when neighbouring turns of one face, or of the layers, or two
/// twists are merged, until there are none: two such come to one turn, or to nothing. The order in which that is done
/// doesn't matter.
pub fn tidy(scramble: &Scramble) -> Scramble
    requires { IsTrue (has_merging (kind_of scramble.now.event)) }
    ensures value { result ≡ record { event = scramble.now.event; turns = tidy turn_merging scramble.now.turns } }
    ensures valid { IsWritten result }
{
    NumberedWord::of_scramble(scramble).tidied().scramble()
}

/// What two turns come to where they are neighbours: `None` where they stay as they are, else the number of the one turn
/// that is left of them, if one is. Turns are merged that are of one face and as many of its layers, of a Square-1's
/// layers, or twists.
pub(crate) fn merged_number(kind: Kind, first: u8, second: u8) -> Option<Option<u8>>
    requires kind { IsKind kind }
    requires merging { IsTrue (has_merging kind) }
    requires first { first < turn_count kind }
    requires second { second < turn_count kind }
    ensures alike { is_some result ≡ are_alike (turn_at kind first) (turn_at kind second) }
    ensures merged { IfSome result (λ left. option_map (turn_at kind) left ≡ turns_merged (turn_at kind first) (turn_at kind second)) }
    ensures below { IfSome result (λ left. IfSome left (λ number. number < turn_count kind)) }
{
    match kind {
        Kind::LayersAndTwist if (first == TWIST) != (second == TWIST) => None,
        Kind::LayersAndTwist => {
            let top = (first / 12 + second / 12 + 7) % 12;
            let bottom = (first % 12 + second % 12 + 7) % 12;
            let sum = 12 * top + bottom;
            Some((sum != TWIST).then_some(sum))
        }
        _ if first / 3 != second / 3 => None,
        _ => {
            let quarters = (first % 3 + second % 3 + 1) % 4;
            Some((quarters != 3).then_some(first - first % 3 + quarters))
        }
    }
}
