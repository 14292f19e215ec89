//! What holds of nets whatever the code: calls that do nothing, whose contracts are laws about the definitions of
//! `scr_net` alone.
//!
//! The theorem of nets is [`cube_net`], [`held_net`] and [`corners_net`]: stickers that turns move in space show what
//! pieces do. `scramble` doesn't stand on this crate: the gate proves it, and a build of that program leaves it out.
//! Pictures do, whose cubes are nets.
#![tactic(auto)]

ghost use Rattle.std.specs.Prelude.{◌≡◌, ◌≢◌, ◌↔◌, ℕ, ◌+◌, ◌-◌, ◌%◌, ◌<◌, ◌≤◌, ◌⊎◌, ◌++◌, List, All, IsTrue, IsSome, Some};
ghost use Rattle.std.specs.List.{AllPass};
ghost use Rattle.std.specs.Option.{option_map};
ghost use Rattle.scr_combinatorics.specs.Back.{back};
ghost use Rattle.scr_combinatorics.specs.Lists.{IsRearranged};
ghost use Rattle.scr_combinatorics.specs.Play.{play};
ghost use Rattle.scr_orbit.specs.Orbits.{Orbit};
ghost use Rattle.scr_orbit.specs.PowerPuzzles.{after_letter};
ghost use Rattle.scr_notation.specs.declared.event.Event.{Event as TurnsOf};
ghost use Rattle.scr_notation.specs.declared.turn.Turn.{Turn as Letter};
ghost use Rattle.scr_notation.specs.Turning.{opposite};
ghost use Rattle.scr_notation.specs.Turns.{permits};
ghost use Rattle.scr_cube.specs.Cube333.{CubeState, IsCube, cube_powers, solved_cube};
ghost use Rattle.scr_cube.specs.Cube222.{IsCorners222, powers_222, solved_222};
ghost use Rattle.scr_cube.specs.Held.{HeldState, IsHeld, held_cube_after, solved_held};
ghost use Rattle.scr_net.specs.declared.geometry.Sticker.{Sticker as Place};
ghost use Rattle.scr_net.specs.Geometry.{IsSticker, carried_sticker, column_of, point_at, row_of, sticker_at};
ghost use Rattle.scr_net.specs.Nets.{HasShape, Letters, letter_at, letters_of, net_after, quarter_net, solved_net, turned_net, turns_layers};
ghost use Rattle.scr_net.specs.Pieces.{net_of_corners, net_of_cube, net_of_held};

use scr_notation::Scramble;

/// Each row and column of each face has a sticker, and each sticker is at one of these. A quarter turn takes stickers
/// to stickers, and the letter of each along with it.
pub fn stickers()
    ensures places { (last face row column : ℕ) → face < 6 → row ≤ last → column ≤ last
        → IsSticker last (sticker_at last face row column) }
    ensures rows { (last face row column : ℕ) → face < 6 → row ≤ last → column ≤ last
        → (row_of last face (point_at last face row column) ≡ row)
        × (column_of last face (point_at last face row column) ≡ column) }
    ensures whole { (last : ℕ) (s : Place) → IsSticker last s
        → (row : ℕ) × (column : ℕ) × (row ≤ last) × (column ≤ last) × (sticker_at last s.face row column ≡ s) }
    ensures kept { (last face depth : ℕ) (s : Place) → face < 6 → IsSticker last s
        → IsSticker last (carried_sticker last face depth s) }
    ensures moved { (side face depth : ℕ) (net : Letters) (s : Place) → 0 < side → face < 6 → IsSticker (side - 1) s
        → letter_at side (quarter_net side face depth net) (carried_sticker (side - 1) face depth s) ≡ letter_at side net s }
{}

/// Of a cube of any size: a turn keeps the stickers, so that each letter is there as often as before; four quarters
/// give a net back, and fewer don't give the solved one back; and turns about one axis, at one face or at opposite
/// faces, exchange, whichever layers they turn.
pub fn turns_of_layers()
    ensures kept { (side face depth amount : ℕ) (net : Letters) → 0 < side → face < 6 → HasShape side net
        → IsRearranged (letters_of (turned_net side face depth amount net)) (letters_of net) }
    ensures order { (side face depth : ℕ) (net : Letters) → 0 < side → face < 6 → HasShape side net
        → turned_net side face depth 4 net ≡ net }
    ensures fewer { (side face depth amount : ℕ) → 0 < side → face < 6 → 0 < depth → 0 < amount → amount < 4
        → turned_net side face depth amount (solved_net side) ≢ solved_net side }
    ensures exchange { (side face other depth deep amount more : ℕ) (net : Letters) → 0 < side → face < 6
        → ((other ≡ face) ⊎ (other ≡ (face + 3) % 6)) → HasShape side net
        → turned_net side face depth amount (turned_net side other deep more net)
        ≡ turned_net side other deep more (turned_net side face depth amount net) }
{}

/// A word of an event's turns, played on a net of a cube of any size and then taken back, gives the net again: of the
/// solved cube, the solved net.
pub fn taken_back()
    ensures { (side : ℕ) (event : TurnsOf) (w : List Letter) (net : Letters) → 0 < side → HasShape side net
        → All (λ t. IsTrue (permits event t)) w → AllPass (turns_layers side) w
        → play (net_after side) net (w ++ back opposite w) ≡ Some net }
{}

/// Turns lead from a net to a net exactly where each of them is one of layers at a face, fewer than all.
pub fn played_where_all_turn_layers()
    ensures { (side : ℕ) (net : Letters) (w : List Letter)
        → IsSome (play (net_after side) net w) ↔ AllPass (turns_layers side) w }
{}

/// For every scramble that a 3x3x3 plays, the net of the solved cube after the scramble is the net of the state that
/// the scramble leads to.
pub fn cube_net(scramble: &Scramble)
    requires { IsSome (play (after_letter cube_powers) solved_cube scramble.now.turns) }
    ensures { play (net_after 3) (solved_net 3) scramble.now.turns
        ≡ option_map net_of_cube (play (after_letter cube_powers) solved_cube scramble.now.turns) }
{}

/// For every scramble that a 2x2x2 plays, the net of the solved cube after the scramble is the net of the state that
/// the scramble leads to.
pub fn corners_net(scramble: &Scramble)
    requires { IsSome (play (after_letter powers_222) solved_222 scramble.now.turns) }
    ensures { play (net_after 2) (solved_net 2) scramble.now.turns
        ≡ option_map net_of_corners (play (after_letter powers_222) solved_222 scramble.now.turns) }
{}

/// For every scramble that a held 3x3x3 plays, with wide turns too, the net of the solved cube after the scramble is
/// the net of the cube and of how it is held, as the scramble leaves both.
pub fn held_net(scramble: &Scramble)
    requires { IsSome (play held_cube_after solved_held scramble.now.turns) }
    ensures { play (net_after 3) (solved_net 3) scramble.now.turns
        ≡ option_map net_of_held (play held_cube_after solved_held scramble.now.turns) }
{}

/// Only one state has each net: of a 3x3x3, of one that is held any way, and of a 2x2x2 whose corner DBL stands still.
pub fn one_state()
    ensures cube { (c d : CubeState) → IsCube c → IsCube d → net_of_cube c ≡ net_of_cube d → c ≡ d }
    ensures held { (r q : HeldState) → IsHeld r → IsHeld q → net_of_held r ≡ net_of_held q → r ≡ q }
    ensures corners { (o r : Orbit) → IsCorners222 o → IsCorners222 r → net_of_corners o ≡ net_of_corners r → o ≡ r }
{}
