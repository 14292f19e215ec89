//! Laws of the 3x3x3 and the 2x2x2. The functions do nothing: what each ensures is the law.

ghost use Rattle.std.specs.Prelude.{◌≡◌, ℕ, ◌*◌, ◌/◌, ◌+◌, ◌^◌, ◌<◌, List, [], ◌∷◌, All, IsTrue, map, length, take, slice_get, slice_index, Some, codes};
ghost use Rattle.std.specs.List.{join_with_byte};
ghost use Rattle.std.specs.Option.{option_map};
ghost use Rattle.scr_combinatorics.specs.Lists.{numbers_from};
ghost use Rattle.scr_combinatorics.specs.Permutations.{factorial};
ghost use Rattle.scr_combinatorics.specs.Numbering.{IsNumbering};
ghost use Rattle.scr_combinatorics.specs.Play.{play, count_in};
ghost use Rattle.scr_combinatorics.specs.Reach.{Needs};
ghost use Rattle.scr_combinatorics.specs.Back.{IsTakenBack};
ghost use Rattle.scr_combinatorics.specs.Lawful.{IsLawful};
ghost use Rattle.scr_combinatorics.specs.Tidy.{IsKeptByTidy};
ghost use Rattle.scr_orbit.specs.Monoids.{IsMonoid};
ghost use Rattle.scr_orbit.specs.Orbits.{Orbit, zeros};
ghost use Rattle.scr_orbit.specs.PowerPuzzles.{IsPowerPuzzle, HaveOrders, after_letter, power_puzzle};
ghost use Rattle.scr_notation.specs.declared.event.Event.TheVariants.{Bf333, C222, C333};
ghost use Rattle.scr_notation.specs.declared.turn.Turn.{Turn as Letter};
ghost use Rattle.scr_notation.specs.declared.turn.Turn.TheVariants.{Face};
ghost use Rattle.scr_notation.specs.Turning.{opposite, turn_merging};
ghost use Rattle.scr_notation.specs.Turns.{permits};
ghost use Rattle.scr_notation.specs.TurnNumbers.{face_turn_at};
ghost use Rattle.scr_notation.specs.Spelling.{text_of};
ghost use Rattle.scr_puzzle_laws.specs.Played.{PlaysTurnsOf};
ghost use Rattle.scr_cube.specs.Composition.{IsJoined};
ghost use Rattle.scr_cube.specs.Cube333.{CubeState, IsCube, cube_quarters, cube_monoid, cube_powers, solved_cube, cube_numbered};
ghost use Rattle.scr_cube.specs.Cube222.{IsCorners222, quarters_222, powers_222, solved_222, numbered_222};
ghost use Rattle.scr_cube.specs.Held.{HeldState, IsHeld, whole_turned, held_cube_after, faces_turned, hold_word, held_numbered};
ghost use Rattle.scr_cube.specs.Stickers.{opposite_place};
ghost use Rattle.scr_puzzle_laws.specs.CubeSymmetry.{ShowsTurns, left_right, up_down, front_back, without_dbl};
ghost use Rattle.scr_cube.specs.Known.{known_orders, superflip, superflip_word, colours_after};

use scr_notation::Turn;

/// The turns of both puzzles are lawful: they keep states valid, and two at once act as one after the other; words are
/// taken back and tidied, and each comes to one turn, the same for every state. What turns reach is valid. A quarter
/// turn has order 4, and each turn has the number that the notation gives it.
pub fn turns()
    ensures cube { IsPowerPuzzle cube_powers IsCube opposite turn_merging }
    ensures corners { IsPowerPuzzle powers_222 IsCorners222 opposite turn_merging }
{}

/// From each valid state turns lead to a state exactly where each of them is a turn of the event.
pub fn played_where_all_are_turns()
    ensures cube { PlaysTurnsOf C333 IsCube (after_letter cube_powers) }
    ensures corners { PlaysTurnsOf C222 IsCorners222 (after_letter powers_222) }
    ensures held { PlaysTurnsOf Bf333 IsHeld held_cube_after }
{}

/// Each number below the count is that of exactly one valid state, and each valid state has exactly one.
pub fn numberings()
    ensures cube { IsNumbering cube_numbered }
    ensures corners { IsNumbering numbered_222 }
    ensures held { IsNumbering held_numbered }
    ensures cubes { cube_numbered.count ≡ 2 ^ 11 * 3 ^ 7 * factorial 8 * (factorial 12 / 2) }
    ensures states { numbered_222.count ≡ 3 ^ 6 * factorial 7 }
    ensures held_states { held_numbered.count ≡ 24 * cube_numbered.count }
{}

/// The turns of a held cube are lawful: they keep states valid, words are taken back and tidied. A word does to the
/// cube what the faces that it turns do.
pub fn held_turns()
    ensures lawful { IsLawful held_cube_after opposite turn_merging IsHeld }
    ensures taken_back { IsTakenBack held_cube_after opposite IsHeld }
    ensures tidied { IsKeptByTidy held_cube_after turn_merging IsHeld }
    ensures faces { (s r : HeldState) (w : List Letter) → play held_cube_after s w ≡ Some r
        → play (after_letter cube_powers) s.cube (faces_turned s.centres w) ≡ Some r.cube }
{}

/// Cubes are joined as turns are. Of three, one then another then the third, it is one whichever two are joined first,
/// and the solved cube, before a cube or behind it, changes nothing.
pub fn joining()
    ensures { IsMonoid cube_monoid IsCube }
{}

/// Two words of turns, one after the other, lead from the solved cube to the cube of the one and then that of the
/// other.
pub fn joined(v: &[Turn], w: &[Turn])
    requires first { All (λ t. IsTrue (permits C333 t)) v.now }
    requires second { All (λ t. IsTrue (permits C333 t)) w.now }
    ensures { IsJoined v.now w.now }
{}

/// Every turn counts once. The state after one turn needs one, and no more.
pub fn minima()
    ensures counts { (w : List Letter)
        → (count_in (power_puzzle cube_powers).counted w ≡ length w) × (count_in (power_puzzle powers_222).counted w ≡ length w) }
    ensures one_turn { (s : Orbit) → (after_letter powers_222) solved_222 (face_turn_at 0) ≡ Some s
        → Needs (power_puzzle powers_222) s 1 × (Needs (power_puzzle powers_222) s 2 → ⊥) }
    ensures twenty_enough { Needs (power_puzzle cube_powers) superflip 21 → ⊥ }
{}

/// R U has order 105, R U' 63, and R U R' U' 6.
pub fn orders()
    ensures { HaveOrders cube_powers known_orders }
{}

/// A wide turn of a held cube is one of the opposite face by the same amount, and one of the whole cube.
pub fn wide_turns()
    ensures { (s : HeldState) (place amount : ℕ) → place < 3
        → held_cube_after s (Face place 2 amount)
        ≡ option_map (λ r. record { cube = r.cube; centres = whole_turned place r.centres amount })
        (held_cube_after s (Face (opposite_place place) 1 amount)) }
{}

/// A mirror shows turns the other way round. Turns of opposite faces can be exchanged. The 2x2x2's turns are those of
/// the 3x3x3's corners, where DBL stands still.
#[tactic(auto, unfolding(scr_cube::proofs::OnLiterals::cubes_on_literals))]
pub fn symmetries()
    ensures left_right { ShowsTurns left_right }
    ensures up_down { ShowsTurns up_down }
    ensures front_back { ShowsTurns front_back }
    ensures opposite_faces { (face : ℕ) (r q : CubeState)
        → face < 3 → slice_get cube_quarters face ≡ Some r → slice_get cube_quarters (face + 3) ≡ Some q
        → cube_monoid.turned r q ≡ cube_monoid.turned q r }
    ensures corners { map (λ r. without_dbl r.corners) (take 3 cube_quarters) ≡ quarters_222 }
    ensures dbl { map (λ r. slice_index r.corners.pieces 6) (take 3 cube_quarters) ≡ 6 ∷ 6 ∷ 6 ∷ [] }
    ensures dbl_untwisted { map (λ r. slice_index r.corners.digits 6) (take 3 cube_quarters) ≡ 0 ∷ 0 ∷ 0 ∷ [] }
{}

/// States that are known from elsewhere, and a word to the superflip.
#[tactic(auto, unfolding(scr_cube::proofs::OnLiterals::cubes_on_literals))]
pub fn known_states()
    ensures spelled { text_of superflip_word ≡ codes "U R2 F B R B2 R U2 L B2 R U' D' R2 F R' L B2 U2 F2" }
    ensures superflip { play (after_letter cube_powers) solved_cube superflip_word ≡ Some superflip }
    ensures first { cube_numbered.state_at 0 ≡ solved_cube }
    ensures number_2047 { cube_numbered.state_at 2047 ≡ superflip }
    ensures number_4478975 { cube_numbered.state_at 4478975 ≡ record {
      corners = record { pieces = numbers_from 0 8; digits = 2 ∷ 2 ∷ 2 ∷ 2 ∷ 2 ∷ 2 ∷ 2 ∷ 1 ∷ [] };
      edges = superflip.edges;
    } }
    ensures number_4478976 { cube_numbered.state_at 4478976 ≡ record {
      corners = record { pieces = 0 ∷ 1 ∷ 2 ∷ 3 ∷ 4 ∷ 5 ∷ 7 ∷ 6 ∷ []; digits = zeros 8 };
      edges = record { pieces = 0 ∷ 1 ∷ 2 ∷ 3 ∷ 4 ∷ 5 ∷ 6 ∷ 7 ∷ 8 ∷ 9 ∷ 11 ∷ 10 ∷ []; digits = zeros 12 };
    } }
    ensures last { cube_numbered.state_at 43252003274489855999 ≡ record {
      corners = record { pieces = 7 ∷ 6 ∷ 5 ∷ 4 ∷ 3 ∷ 2 ∷ 1 ∷ 0 ∷ []; digits = 2 ∷ 2 ∷ 2 ∷ 2 ∷ 2 ∷ 2 ∷ 2 ∷ 1 ∷ [] };
      edges = record { pieces = 11 ∷ 10 ∷ 9 ∷ 8 ∷ 7 ∷ 6 ∷ 5 ∷ 4 ∷ 3 ∷ 2 ∷ 1 ∷ 0 ∷ []; digits = superflip.edges.digits };
    } }
    ensures after_up { (after_letter powers_222) solved_222 (face_turn_at 0) ≡ Some (numbered_222.state_at 1574640) }
    ensures corners_3015702 { numbered_222.state_at 3015702 ≡ record {
      pieces = 5 ∷ 4 ∷ 2 ∷ 1 ∷ 3 ∷ 0 ∷ 6 ∷ [];
      digits = 0 ∷ 0 ∷ 2 ∷ 2 ∷ 0 ∷ 2 ∷ 0 ∷ [];
    } }
    ensures corners_last { numbered_222.state_at 3674159 ≡ record {
      pieces = 6 ∷ 5 ∷ 4 ∷ 3 ∷ 2 ∷ 1 ∷ 0 ∷ [];
      digits = 2 ∷ 2 ∷ 2 ∷ 2 ∷ 2 ∷ 2 ∷ 0 ∷ [];
    } }
{}

/// Where centres stand after wide turns of a cube that is held with white up and green in front; the words of the
/// holds; and held cubes with known numbers.
#[tactic(auto, unfolding(scr_cube::proofs::OnLiterals::held_on_literals))]
pub fn known_holds()
    ensures spelled { text_of (Face 1 2 1 ∷ Face 2 2 2 ∷ Face 0 2 3 ∷ []) ≡ codes "Rw Fw2 Uw'" }
    ensures right { colours_after (Face 1 2 1 ∷ []) ≡ Some (codes "GRYBOW") }
    ensures front_twice { colours_after (Face 2 2 2 ∷ []) ≡ Some (codes "YOGWRB") }
    ensures up_back { colours_after (Face 0 2 3 ∷ []) ≡ Some (codes "WGOYBR") }
    ensures words { join_with_byte 44 (map (λ hold. text_of (hold_word hold)) (numbers_from 0 24))
        ≡ codes ",Rw,Rw2,Rw',Fw,Fw',Uw,Rw Uw,Rw2 Uw,Rw' Uw,Fw Uw,Fw' Uw,Uw2,Rw Uw2,Rw2 Uw2,Rw' Uw2,Fw Uw2,Fw' Uw2,Uw',Rw Uw',Rw2 Uw',Rw' Uw',Fw Uw',Fw' Uw'" }
    ensures number_1 { held_numbered.state_at 1 ≡ record { cube = solved_cube; centres = 2 ∷ 1 ∷ 3 ∷ 5 ∷ 4 ∷ 0 ∷ [] } }
    ensures number_6 { held_numbered.state_at 6 ≡ record { cube = solved_cube; centres = 0 ∷ 5 ∷ 1 ∷ 3 ∷ 2 ∷ 4 ∷ [] } }
    ensures number_7 { held_numbered.state_at 7 ≡ record { cube = solved_cube; centres = 2 ∷ 0 ∷ 1 ∷ 5 ∷ 3 ∷ 4 ∷ [] } }
    ensures faces_7 { text_of (faces_turned (numbers_from 0 6) (hold_word 7)) ≡ codes "L B" }
    ensures number_49128 { held_numbered.state_at 49128 ≡ record { cube = superflip; centres = numbers_from 0 6 } }
    ensures count { held_numbered.count ≡ 1038048078587756544000 }
{}
