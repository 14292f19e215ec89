//! What holds of random moves whatever the code: calls that do nothing, whose contracts are the laws.

ghost use Rattle.std.specs.Prelude.{◌≡◌, ◌≢◌, ◌⊎◌, ◌↔◌, ℕ, ◌+◌, ◌-◌, ◌*◌, ◌/◌, ◌^◌, ◌<◌, Some, None, Bool, IsTrue};
ghost use Rattle.std.specs.Prelude.{List, [], ◌∷◌, ◌++◌, codes, length, option_map, slice_get, slice_index};
ghost use Rattle.scr_draw.specs.Attempt.{answer, is_accepted, quotient};
ghost use Rattle.scr_notation.specs.declared.event.Event.TheVariants.{C555, C666, C777};
ghost use Rattle.scr_notation.specs.declared.turn.Turn.{Turn};
ghost use Rattle.scr_notation.specs.declared.turn.Turn.TheVariants.{Wide};
ghost use Rattle.scr_notation.specs.Spelling.{text_of};
ghost use Rattle.scr_bigs.specs.BigCubes.{IsSide, cube_event, cube_turns, may_follow};
ghost use Rattle.scr_bigs.specs.CubeMoves.{cube_moves};
ghost use Rattle.scr_bigs.specs.Megaminx.{bits_of, rows_turns, megaminx_moves};
ghost use Rattle.scr_bigs.specs.Fairness.{AreFairTurns, AreFairBits};
ghost use Rattle.scr_bigs.specs.Following.{axis_of, AreCubeTurns, AreMegaminxTurns};

/// Each step of a big cube takes each of its choices by equally many numbers, and its choices differ; and the numbers
/// of a Megaminx give each list of seventy bits equally often.
pub fn fair_steps()
    ensures cubes { (side : ℕ) → IsSide side → AreFairTurns side }
    ensures bits { AreFairBits }
{}

/// A turn may follow another where it is about another axis, or of a later slab in the order of all turns, in which
/// each three are of one slab.
pub fn followers()
    ensures { (side i j : ℕ) (before next : Turn) → IsSide side
        → slice_get (cube_turns side) i ≡ Some before → slice_get (cube_turns side) j ≡ Some next
        → IsTrue (may_follow before next) ↔ ((axis_of before ≢ axis_of next) ⊎ (i / 3 < j / 3)) }
{}

/// What the turns of scrambles are.
pub fn random_turns()
    ensures cubes { (side attempts place : ℕ) (word : ℕ → ℕ) (turns : List Turn)
        → cube_moves side attempts word place ≡ Some turns → AreCubeTurns side turns }
    ensures megaminx { (v : ℕ) → AreMegaminxTurns v (rows_turns (bits_of v)) }
{}

/// A scramble of a 5x5x5 has 60 turns, of a 6x6x6 80 and of a 7x7x7 100; that of a Megaminx has 77.
pub fn turn_counts()
    ensures of_555 { (attempts place : ℕ) (word : ℕ → ℕ) (turns : List Turn)
        → cube_moves 5 attempts word place ≡ Some turns → length turns ≡ 60 }
    ensures of_666 { (attempts place : ℕ) (word : ℕ → ℕ) (turns : List Turn)
        → cube_moves 6 attempts word place ≡ Some turns → length turns ≡ 80 }
    ensures of_777 { (attempts place : ℕ) (word : ℕ → ℕ) (turns : List Turn)
        → cube_moves 7 attempts word place ≡ Some turns → length turns ≡ 100 }
    ensures of_megaminx { (place : ℕ) (word : ℕ → ℕ) (turns : List Turn)
        → megaminx_moves word place ≡ Some turns → length turns ≡ 77 }
{}

/// The cubes of five, six and seven layers are those of their events.
pub fn events()
    ensures of_555 { cube_event 5 ≡ C555 }
    ensures of_666 { cube_event 6 ≡ C666 }
    ensures of_777 { cube_event 7 ≡ C777 }
{}

/// Each row of a Megaminx ends with a turn of U the way of its last turn of D.
pub fn last_turns()
    ensures { (v row : ℕ) (plus : Bool) → row < 7
        → slice_get (rows_turns (bits_of v)) (11 * row + 9) ≡ Some (Wide 1 plus)
        → slice_get (rows_turns (bits_of v)) (11 * row + 10) ≡ Some (Wide 2 plus) }
{}

/// The Megaminx of the first three words of the stream of zeros of ChaCha20, row by row as it is spelled.
#[tactic(auto, unfolding(crate::proofs::BigsOnLiterals::megaminx_on_literals))]
pub fn known_megaminx()
    ensures { let words = 0xade0b876 ∷ 0x903df1a0 ∷ 0xe56a5d40 ∷ [] in
        option_map text_of (megaminx_moves (slice_index words) 0)
        ≡ Some (codes "R-- D++ R++ D-- R++ D++ R++ D-- R-- D-- U' "
        ++ codes "R-- D++ R++ D++ R-- D++ R-- D-- R-- D-- U' "
        ++ codes "R-- D++ R++ D++ R++ D-- R++ D++ R-- D++ U "
        ++ codes "R-- D++ R-- D-- R-- D-- R-- D++ R-- D++ U "
        ++ codes "R++ D-- R-- D-- R++ D++ R++ D++ R++ D-- U' "
        ++ codes "R++ D++ R++ D++ R-- D-- R-- D-- R-- D-- U' "
        ++ codes "R++ D-- R-- D++ R-- D-- R-- D-- R-- D-- U'") }
{}

/// Every number of a Megaminx is accepted.
pub fn every_number()
    ensures whole_runs { quotient (2 ^ 70) * 2 ^ 70 ≡ 2 ^ 96 }
    ensures accepted { (v : ℕ) → v < 2 ^ 96 → IsTrue (is_accepted (2 ^ 70) v) }
{}

/// The turns of big cubes in their order, and the numbers at which attempts of the first turn of a 5x5x5 begin to be
/// refused.
#[tactic(auto, unfolding(scr_bigs::specs::BigCubes::cube_turns, scr_notation::specs::Spelling::spelling))]
pub fn known_turns()
    ensures of_555 { text_of (cube_turns 5)
        ≡ codes "U U2 U' Uw Uw2 Uw' D D2 D' Dw Dw2 Dw' R R2 R' Rw Rw2 Rw' L L2 L' Lw Lw2 Lw' F F2 F' Fw Fw2 Fw' B B2 B' Bw Bw2 Bw'" }
    ensures of_666 { text_of (cube_turns 6)
        ≡ codes "U U2 U' Uw Uw2 Uw' 3Uw 3Uw2 3Uw' D D2 D' Dw Dw2 Dw' R R2 R' Rw Rw2 Rw' 3Rw 3Rw2 3Rw' L L2 L' Lw Lw2 Lw' F F2 F' Fw Fw2 Fw' 3Fw 3Fw2 3Fw' B B2 B' Bw Bw2 Bw'" }
    ensures of_777 { text_of (cube_turns 7)
        ≡ codes "U U2 U' Uw Uw2 Uw' 3Uw 3Uw2 3Uw' D D2 D' Dw Dw2 Dw' 3Dw 3Dw2 3Dw' R R2 R' Rw Rw2 Rw' 3Rw 3Rw2 3Rw' L L2 L' Lw Lw2 Lw' 3Lw 3Lw2 3Lw' F F2 F' Fw Fw2 Fw' 3Fw 3Fw2 3Fw' B B2 B' Bw Bw2 Bw' 3Bw 3Bw2 3Bw'" }
    ensures refused { answer 36 (2 ^ 96 - 28) ≡ None }
    ensures accepted { answer 36 (2 ^ 96 - 29) ≡ Some 35 }
{}
