//! Laws of what few turns lead to. The functions do nothing: what each ensures is the law.
ghost use Rattle.std.specs.Prelude.{◌≡◌, ◌+◌, ◌↔◌, ℕ, suc, Some};
ghost use Rattle.scr_combinatorics.specs.Back.{IsTakenBack};
ghost use Rattle.scr_combinatorics.specs.Reach.{Needs};
ghost use Rattle.scr_sq1.specs.Units.{Sq1State, IsSq1, sq1_puzzle};
ghost use Rattle.scr_sq1far.specs.Within.{IsWithin, MeetsInTheMiddle};

use scr_draw::{Numbering, Permit};

/// Words meet in the middle, in any puzzle whose turns keep states valid and can be taken back: a word of at most
/// a + b turns leads to a solved state exactly where one of at most a turns leads to a state to which at most b turns
/// lead from a solved one.
pub fn meeting_in_the_middle<P: Numbering + Permit<P::State>>(puzzle: &P)
    ensures { let p = P.puzzle puzzle.now in let IsValid = (P.numbered puzzle.now).IsValid in
        (opposite : p.Turn → p.Turn) → IsTakenBack p.after opposite IsValid
        → ((s r : P.State) (t : p.Turn) → IsValid s → p.after s t ≡ Some r → IsValid r)
        → ((s : P.State) → p.IsSolved s → IsValid s)
        → (s : P.State) (a b : ℕ) → IsValid s → IsWithin p s (a + b) ↔ MeetsInTheMiddle p s a b }
{}

/// So they do for the Square-1, which needs more than so many turns exactly where so many lead nowhere home.
pub fn of_square_1s()
    ensures meeting { (s : Sq1State) (a b : ℕ) → IsSq1 s → IsWithin sq1_puzzle s (a + b) ↔ MeetsInTheMiddle sq1_puzzle s a b }
    ensures needs { (s : Sq1State) (most : ℕ) → Needs sq1_puzzle s (suc most) ↔ (IsWithin sq1_puzzle s most → ⊥) }
{}
