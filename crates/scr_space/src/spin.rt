//! Points of a grid, and turns of them.
ghost use Rattle.std.specs.Prelude.{◌≡◌, ◌<◌, ◌≤◌, ◌^◌, IsTrue, ◌↔◌};
ghost use Rattle.scr_space.specs.Spins.{IsWithin, value, rotated, counted_sum, is_moved, carried};

/// A point of a grid: three coordinates, each from 0 to a greatest one, which is called `last`.
#[derive(Clone, Copy)]
pub struct Point {
    pub x: usize,
    pub y: usize,
    pub z: usize,
}

/// One of a point's three coordinates, as it is or mirrored, that is `last` minus it.
#[derive(Clone, Copy)]
pub enum Coordinate {
    X,
    Y,
    Z,
    MirroredX,
    MirroredY,
    MirroredZ,
}

/// The coordinates that a turn counts: one for a turn about a face of a cube, three for one about a corner.
#[derive(Clone, Copy)]
pub enum Counted {
    One(Coordinate),
    Three(Coordinate, Coordinate, Coordinate),
}

/// A turn: where each of the three new coordinates comes from, which coordinates it counts, and the least sum of these
/// from which on a point is moved.
#[derive(Clone, Copy)]
pub struct Spin {
    pub x: Coordinate,
    pub y: Coordinate,
    pub z: Coordinate,
    pub counted: Counted,
    pub least: usize,
}

impl Point {
    /// What a coordinate is at this point, where the greatest one is `last`.
    #[inline(always)]
    pub fn value(self, last: usize, coordinate: Coordinate) -> usize
        requires { IsWithin last self }
        ensures value { result ≡ value last coordinate self }
        ensures small { result ≤ last }
    {
        match coordinate {
            Coordinate::X => self.x,
            Coordinate::Y => self.y,
            Coordinate::Z => self.z,
            Coordinate::MirroredX => last - self.x,
            Coordinate::MirroredY => last - self.y,
            Coordinate::MirroredZ => last - self.z,
        }
    }

    /// Where a turn takes this point, if it moves it.
    #[inline(always)]
    pub fn rotated(self, last: usize, spin: Spin) -> Point
        requires { IsWithin last self }
        ensures value { result ≡ rotated last spin self }
        ensures within { IsWithin last result }
    {
        Point {
            x: self.value(last, spin.x),
            y: self.value(last, spin.y),
            z: self.value(last, spin.z),
        }
    }

    /// The sum of the coordinates that a turn counts.
    #[inline(always)]
    fn counted_sum(self, last: usize, counted: Counted) -> usize
        requires small { last < 2 ^ 32 }
        requires within { IsWithin last self }
        ensures { result ≡ counted_sum last counted self }
    {
        match counted {
            Counted::One(one) => self.value(last, one),
            Counted::Three(first, second, third) => {
                self.value(last, first) + self.value(last, second) + self.value(last, third)
            }
        }
    }

    /// Whether a turn moves this point.
    #[inline(always)]
    pub fn is_moved(self, last: usize, spin: Spin) -> bool
        requires small { last < 2 ^ 32 }
        requires within { IsWithin last self }
        ensures { result ≡ is_moved last spin self }
    {
        spin.least <= self.counted_sum(last, spin.counted)
    }

    /// Where this point is after a turn, where the greatest coordinate is `last`.
    #[inline(always)]
    pub fn carried(self, last: usize, spin: Spin) -> Point
        requires small { last < 2 ^ 32 }
        requires within { IsWithin last self }
        ensures value { result ≡ carried last spin self }
        ensures inside { IsWithin last result }
    {
        if self.is_moved(last, spin) {
            self.rotated(last, spin)
        } else {
            self
        }
    }
}
