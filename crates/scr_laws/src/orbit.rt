//! Laws of orbits. The functions do nothing: what each ensures is the law.

ghost use Rattle.std.specs.Prelude.{◌≡◌, ℕ, ◌+◌, ◌%◌, ◌<◌};
ghost use Rattle.scr_combinatorics.specs.Lists.{total};
ghost use Rattle.scr_combinatorics.specs.Permutations.{parity};
ghost use Rattle.scr_orbit.specs.Monoids.{IsMonoid};
ghost use Rattle.scr_orbit.specs.InPlace.{AreDigitsInPlace, in_place_monoid};
ghost use Rattle.scr_orbit.specs.Orbits.{Orbit, IsOrbit, IsZeroSumOrbit, turned_orbit, orbit_monoid};

/// Orbits are turns, too: what a turn makes of a valid orbit is one, turning by two turns at once is turning by one and
/// then by the other, the solved orbit changes nothing, and a turn makes itself of it. The same holds of orbits whose
/// digits sum to 0, and of digits of pieces that stay at their places.
pub fn monoids()
    ensures orbits { (n m : ℕ) → 0 < m → IsMonoid (orbit_monoid n m) (IsOrbit n m) }
    ensures zero_sums { (n m : ℕ) → 0 < m → IsMonoid (orbit_monoid n m) (IsZeroSumOrbit n m) }
    ensures in_place { (n m : ℕ) → 0 < m → IsMonoid (in_place_monoid n m) (AreDigitsInPlace n m) }
{}

/// The digits after a turn sum to the old sum and that of the turn, and the parity of the pieces is the sum of both
/// parities.
pub fn sums()
    ensures digits { (n m : ℕ) (o r : Orbit)
        → IsOrbit n m o → IsOrbit n m r
        → total (turned_orbit m o r).digits % m ≡ (total o.digits + total r.digits) % m }
    ensures parity { (n m : ℕ) (o r : Orbit)
        → IsOrbit n m o → IsOrbit n m r
        → parity (turned_orbit m o r).pieces ≡ (parity o.pieces + parity r.pieces) % 2 }
{}
