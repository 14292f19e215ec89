//! What a coordinate is.
ghost use Rattle.std.specs.Prelude.{◌≡◌, ◌+◌, ◌<◌, ◌≤◌, IfNone, IfSome, length};
ghost use Rattle.scr_positions.specs.Coordinates.{Coordinate, StaysBelow, AreSeen, HasNoGoal, IsNextGoal};

/// What stands in place of a position where a turn is barred. It is no position, since there are fewer than 2^32.
pub const BARRED: u32 = u32::MAX;

/// What [`Coord::look`] gives in place of a value where a turn is barred, and so leads nowhere.
pub const NOWHERE: u8 = 255;

/// A coordinate of a puzzle: positions, which are the numbers of the lists that it sees of a state, and where turns
/// lead from each. A turn may be barred.
pub trait Coord {
    /// What it shows.
    ghost coordinate: { Self → Coordinate };

    /// How many positions there are. Turns lead from positions to positions.
    fn count(&self) -> u32
        ensures count { result ≡ (coordinate self.now).count }
        ensures stays_below { StaysBelow (coordinate self.now) };

    /// How many turns there are.
    fn turns(&self) -> u32
        ensures { result ≡ (coordinate self.now).turns };

    /// The position after a turn; `None` exactly where the turn is barred there. The position is below `count`, and the
    /// turn below `turns`.
    fn after(&self, position: u32, turn: u32) -> Option<u32>
        requires position { position < (coordinate self.now).count }
        requires turn { turn < (coordinate self.now).turns }
        ensures leads { result ≡ (coordinate self.now).after position turn }
        ensures below { IfSome result (λ next. next < (coordinate self.now).count) };

    /// The values that a turn, below `turns`, leads to from positions one after another, `start` first: `NOWHERE` where
    /// it is barred. There are so many positions from `start` on. `values` has one for each position.
    fn look(&self, values: &[u8], start: u32, turn: u32, into: &mut [u8])
        requires values { length values.now ≡ (coordinate self.now).count }
        requires positions { start + length into.old ≤ (coordinate self.now).count }
        requires turn { turn < (coordinate self.now).turns }
        ensures { AreSeen (coordinate self.now) values.now start turn into.new }
    {
        // tells that positions are numbers of 32 bits
        let _count = self.count();
        for k in 0..into.len() {
            into[k] = match self.after(start + k as u32, turn) {
                Some(next) => values[next as usize],
                None => NOWHERE,
            };
        }
    }

    /// Whether a position, below `count`, is a goal.
    fn is_goal(&self, position: u32) -> bool
        requires { position < (coordinate self.now).count }
        ensures { result ≡ (coordinate self.now).is_goal position };

    /// The first goal from a position on, which is at most `count`; `None` exactly where there is none.
    fn next_goal(&self, from: u32) -> Option<u32>
        requires { from ≤ (coordinate self.now).count }
        ensures goal { IfSome result (IsNextGoal (coordinate self.now) from) }
        ensures none { IfNone result (HasNoGoal (coordinate self.now) from (coordinate self.now).count) }
    {
        for position in from..self.count() {
            if self.is_goal(position) {
                return Some(position);
            }
        }
        None
    }
}

// A coordinate that is borrowed is one.
impl<C: Coord> Coord for &C {
    ghost coordinate = { λ borrowed. C.coordinate borrowed.now };

    #[inline]
    fn count(&self) -> u32 {
        (**self).count()
    }

    #[inline]
    fn turns(&self) -> u32 {
        (**self).turns()
    }

    #[inline]
    fn after(&self, position: u32, turn: u32) -> Option<u32> {
        (**self).after(position, turn)
    }

    #[inline]
    fn look(&self, values: &[u8], start: u32, turn: u32, into: &mut [u8]) {
        (**self).look(values, start, turn, into);
    }

    #[inline]
    fn is_goal(&self, position: u32) -> bool {
        (**self).is_goal(position)
    }

    #[inline]
    fn next_goal(&self, from: u32) -> Option<u32> {
        (**self).next_goal(from)
    }
}
