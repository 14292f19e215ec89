//! Sets of turns.
ghost use Rattle.std.specs.Prelude.{◌≡◌, ℕ, ◌^◌, ◌<◌, ◌&&◌, ◌||◌, ◌==◌, ◌∷◌, [], MatchOption, IfNone, IfSome, IsTrue, not};
ghost use Rattle.scr_search.specs.TurnSets.{contains_turn, turns_in};

/// Some of the 18 turns, each a bit at its number.
#[derive(Clone, Copy)]
pub struct TurnSet {
    /// The bits, below 2^18.
    pub bits: u32,
}

impl TurnSet {
    /// No turn.
    pub const NONE: TurnSet = TurnSet { bits: 0 };

    /// All of them.
    pub const ALL: TurnSet = TurnSet { bits: 0x3_ffff };

    /// The set with one turn more, below 18, where `add` says so.
    #[inline]
    pub fn with_if(self, turn: u32, add: bool) -> TurnSet
        requires turn { turn < 18 }
        requires few { self.bits < 2 ^ 18 }
        ensures turns { (t : ℕ) → contains_turn result.bits t ≡ (contains_turn self.bits t || (add && (t == turn))) }
        ensures few { result.bits < 2 ^ 18 }
    {
        if add {
            TurnSet {
                bits: self.bits | 1 << turn,
            }
        } else {
            self
        }
    }

    /// Takes the lowest turn out, if there is one.
    #[inline]
    #[tactic(auto, using(crate::proofs::Cited::pop))]
    pub fn pop(&mut self) -> Option<u32>
        requires { self.old.bits < 2 ^ 18 }
        ensures first { MatchOption result (turns_in self.old.bits ≡ []) (λ t. turns_in self.old.bits ≡ t ∷ turns_in self.new.bits) }
        ensures below { IfSome result (λ t. t < 18) }
        ensures taken { IfSome result (λ t. IsTrue (contains_turn self.old.bits t)) }
        ensures others { IfSome result (λ t. (other : ℕ)
            → contains_turn self.new.bits other ≡ (contains_turn self.old.bits other && not (other == t))) }
        ensures none { IfNone result (self.old.bits ≡ 0) }
        ensures same { IfNone result (self.new ≡ self.old) }
        ensures few { self.new.bits < 2 ^ 18 }
    {
        if self.bits == 0 {
            return None;
        }
        let turn = self.bits.trailing_zeros();
        self.bits &= !(1 << turn);
        Some(turn)
    }
}
