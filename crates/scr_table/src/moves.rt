//! Minima by looking at all short words.

ghost use Rattle.std.specs.Prelude.{◌≡◌, ◌<◌, ◌≤◌, ◌↔◌, IsTrue};
ghost use Rattle.std.specs.Bool.{OnTrue, OnFalse};
ghost use Rattle.scr_table.specs.Moves.{MoveSet, NeedsTurns, NeverHelps, HasWordWithin, AreLeftOut};

/// A puzzle whose states few turns are tried on. A turn may be refused.
///
/// What `is_idle` promises, it promises of each value that contracts see as a `State`. Where it holds of valid states
/// alone, `moves` has each turn of the others refused.
pub trait Moves {
    /// A state.
    type State: Drop;

    /// What it shows.
    ghost moves: { Self → MoveSet Self.State };

    /// How many turns there are.
    fn count(&self) -> u32
        ensures { result ≡ (moves self.now).count };

    /// The state after a turn, which is below `count`; `None` exactly where the turn is refused.
    fn after(&self, state: &Self::State, turn: u32) -> Option<Self::State>
        requires { turn < (moves self.now).count }
        ensures { result ≡ (moves self.now).after state.now turn };

    /// Whether a state is solved.
    fn is_solved(&self, state: &Self::State) -> bool
        ensures { result ≡ (moves self.now).is_solved state.now };

    /// Whether the turn `second` never helps right after `first`: whatever the two make of a state, at most one turn
    /// makes of it too. A search leaves such words out. This may answer false of any two turns.
    fn is_idle(&self, first: u32, second: u32) -> bool
        ensures { IsTrue result → NeverHelps (moves self.now) first second }
    {
        let _ = (first, second);
        false
    }
}

/// Whether no list of fewer than `least` turns, none of them refused, brings a state to solved. `least` is at most 5.
pub fn no_shorter<M: Moves>(moves: &M, state: &M::State, least: u32) -> bool
    requires { least ≤ 5 }
    ensures { IsTrue result ↔ NeedsTurns (M.moves moves.now) state.now least }
{
    least == 0 || !is_within(moves, state, None, least - 1)
}

/// Whether a word of at most `most` turns brings a state to solved. `before` is the turn that led to the state, if
/// there was one: words that go on idly from it are left out.
#[tactic(auto, using(crate::proofs::Cited::is_within))]
fn is_within<M: Moves>(moves: &M, state: &M::State, before: Option<u32>, most: u32) -> bool
    ensures found { OnTrue result (HasWordWithin (M.moves moves.now) state.now most) }
    ensures none { OnFalse result (AreLeftOut (M.moves moves.now) state.now before most) }
{
    if moves.is_solved(state) {
        return true;
    }
    if most == 0 {
        return false;
    }
    for turn in 0..moves.count() {
        if let Some(last) = &before {
            if moves.is_idle(*last, turn) {
                continue;
            }
        }
        if let Some(next) = moves.after(state, turn) {
            if is_within(moves, &next, Some(turn), most - 1) {
                return true;
            }
        }
    }
    false
}
