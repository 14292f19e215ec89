//! What holds of Clock whatever the code: calls that do nothing, whose contracts are the laws.
//!
//! That Clocks are drawn fairly is the law of `scr_draw` for any event that it draws.

ghost use Rattle.std.specs.Prelude.{◌≡◌, ℕ, ◌<◌, ◌↔◌, true, false, List, [], ◌∷◌, map, replicate, All, IsTrue, IsSome, Some, codes};
ghost use Rattle.scr_combinatorics.specs.Lists.{pick};
ghost use Rattle.scr_combinatorics.specs.Reach.{Needs};
ghost use Rattle.scr_notation.specs.declared.turn.Turn.{Turn};
ghost use Rattle.scr_notation.specs.Pins.{is_clock_turn};
ghost use Rattle.scr_clock.specs.Dials.{IsClock, DialTurn, front_pins, back_pins, dials_turned, solved, clock_puzzle, dial_turn};
ghost use Rattle.scr_clock.specs.Held.{clock_after};
ghost use Rattle.scr_clock.specs.Written.{written, IsClockScramble};
ghost use Rattle.scr_clock.specs.Least.{needs_test_clock};
ghost use Rattle.scr_puzzle_laws.specs.ClockKnown.{IsKnownClock, corners, front_cross, back_cross, mirrored_dial, turned_over_clock};

/// Exactly one list of amounts leads to each Clock, and so each has exactly one scramble.
pub fn one_list_of_amounts()
    ensures some { (dials : List ℕ) → IsClock dials
        → (amounts : List ℕ) × IsClock amounts × (clock_after solved (written amounts) ≡ Some dials) }
    ensures no_other { (some other : List ℕ) → IsClock some → IsClock other
        → clock_after solved (written some) ≡ clock_after solved (written other) → some ≡ other }
    ensures one_scramble { (dials : List ℕ) (some other : List Turn)
        → IsClockScramble dials some → IsClockScramble dials other → some ≡ other }
{}

/// The test of a minimum, by which Clocks are drawn, is true exactly where no word of fewer counted turns leads to
/// solved.
pub fn minimum_is_exact()
    ensures { (dials : List ℕ) (least : ℕ) → IsClock dials
        → IsTrue (needs_test_clock dials least) ↔ Needs clock_puzzle dials least }
{}

/// Written turns do something to a Clock exactly where each of them is a Clock's.
pub fn played_where_all_are_turns()
    ensures { (dials : List ℕ) (turns : List Turn)
        → IsSome (clock_after dials turns) ↔ All (λ turn. IsTrue (is_clock_turn turn)) turns }
{}

/// It doesn't matter which of two turns comes first.
pub fn turns_commute()
    ensures { (dials : List ℕ) (some other : DialTurn)
        → dials_turned (dials_turned dials some) other ≡ dials_turned (dials_turned dials other) some }
{}

/// The pins next to the dials are those of a Clock. A corner's pin is one pin, seen from both sides; the sides look
/// alike from in front of them; no turn of a side moves the other side's edges and centre. And a turn of the back is
/// that turn of the front of the Clock turned over.
pub fn pins_by_symmetry()
    ensures corners { map mirrored_dial (pick front_pins corners) ≡ pick back_pins corners }
    ensures alike { pick front_pins front_cross ≡ pick back_pins back_cross }
    ensures front_left_alone { pick back_pins front_cross ≡ 0 ∷ 0 ∷ 0 ∷ 0 ∷ 0 ∷ [] }
    ensures back_left_alone { pick front_pins back_cross ≡ 0 ∷ 0 ∷ 0 ∷ 0 ∷ 0 ∷ [] }
    ensures turned_over { (dials : List ℕ) (pins amount : ℕ) → IsClock dials → amount < 12
        → turned_over_clock (dials_turned dials (dial_turn true pins amount))
        ≡ dials_turned (turned_over_clock dials) (dial_turn false pins amount) }
{}

/// Solved with the pin UR up, turned by one hour, on the front and on the back, and with UR and DL up on the front.
#[tactic(auto, unfolding(scr_clock::specs::Dials::gain_at, scr_clock::specs::Dials::dials_turned))]
pub fn known_turns()
    ensures front { dials_turned solved (dial_turn false 1 1)
        ≡ 0 ∷ 1 ∷ 1 ∷ 0 ∷ 1 ∷ 1 ∷ 0 ∷ 0 ∷ 0 ∷ 0 ∷ 0 ∷ 0 ∷ 0 ∷ 0 ∷ [] }
    ensures back { dials_turned solved (dial_turn true 1 1)
        ≡ 11 ∷ 0 ∷ 0 ∷ 0 ∷ 0 ∷ 0 ∷ 0 ∷ 0 ∷ 0 ∷ 1 ∷ 0 ∷ 1 ∷ 1 ∷ 0 ∷ [] }
    ensures two_pins { dials_turned solved (dial_turn false 5 1)
        ≡ 0 ∷ 1 ∷ 1 ∷ 1 ∷ 1 ∷ 1 ∷ 1 ∷ 1 ∷ 0 ∷ 0 ∷ 0 ∷ 0 ∷ 0 ∷ 0 ∷ [] }
{}

/// Clocks that are known from elsewhere: one at random; solved; solved with the pins UR and DL up on the front, turned
/// by one hour; and one that turns of the back alone give, by unlike amounts.
pub fn known_scrambles()
    ensures random { IsKnownClock 985395116423286
        (6 ∷ 4 ∷ 8 ∷ 9 ∷ 7 ∷ 8 ∷ 2 ∷ 1 ∷ 2 ∷ 8 ∷ 2 ∷ 6 ∷ 2 ∷ 9 ∷ [])
        (4 ∷ 4 ∷ 7 ∷ 5 ∷ 9 ∷ 2 ∷ 4 ∷ 11 ∷ 9 ∷ 9 ∷ 4 ∷ 10 ∷ 4 ∷ 3 ∷ [])
        (codes "UR4+ DR4+ DL5- UL5+ U3- R2+ D4+ L1- ALL3- y2 U3- R4+ D2- L4+ ALL3+") }
    ensures solved { IsKnownClock 0 solved (replicate 14 0)
        (codes "UR0+ DR0+ DL0+ UL0+ U0+ R0+ D0+ L0+ ALL0+ y2 U0+ R0+ D0+ L0+ ALL0+") }
    ensures two_pins { IsKnownClock 39089244
        (0 ∷ 1 ∷ 1 ∷ 1 ∷ 1 ∷ 1 ∷ 1 ∷ 1 ∷ 0 ∷ 0 ∷ 0 ∷ 0 ∷ 0 ∷ 0 ∷ [])
        (0 ∷ 11 ∷ 0 ∷ 11 ∷ 1 ∷ 1 ∷ 1 ∷ 1 ∷ 11 ∷ 0 ∷ 0 ∷ 0 ∷ 0 ∷ 0 ∷ [])
        (codes "UR0+ DR1- DL0+ UL1- U1+ R1+ D1+ L1+ ALL1- y2 U0+ R0+ D0+ L0+ ALL0+") }
    ensures back_alone { IsKnownClock 863089361917349
        (5 ∷ 0 ∷ 10 ∷ 0 ∷ 0 ∷ 0 ∷ 1 ∷ 0 ∷ 6 ∷ 4 ∷ 7 ∷ 9 ∷ 0 ∷ 8 ∷ [])
        (0 ∷ 0 ∷ 0 ∷ 0 ∷ 0 ∷ 0 ∷ 0 ∷ 0 ∷ 0 ∷ 1 ∷ 2 ∷ 5 ∷ 9 ∷ 4 ∷ [])
        (codes "UR0+ DR0+ DL0+ UL0+ U0+ R0+ D0+ L0+ ALL0+ y2 U1+ R2+ D5+ L3- ALL4+") }
{}
