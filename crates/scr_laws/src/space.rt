//! Laws of turns in space. The functions do nothing: what each ensures is the law.

ghost use Rattle.std.specs.Prelude.{◌≡◌, ℕ, ◌<◌};
ghost use Rattle.scr_space.specs.declared.spin.Point.{Point as Place};
ghost use Rattle.scr_space.specs.declared.spin.Spin.{Spin as Turn};
ghost use Rattle.scr_space.specs.Spins.{IsWithin, carried, is_moved};
ghost use Rattle.scr_space.specs.Turning.{HasOrder, Exchange, times};

/// A turn takes points to points. One with an order moves as many times the same points, is back after so many times,
/// and so takes no two points to one.
pub fn orders()
    ensures within { (last : ℕ) (s : Turn) (p : Place) → IsWithin last p → IsWithin last (carried last s p) }
    ensures moved { (last n : ℕ) (s : Turn) (p : Place) → HasOrder n s → IsWithin last p
        → is_moved last s (carried last s p) ≡ is_moved last s p }
    ensures back { (last n : ℕ) (s : Turn) (p : Place) → HasOrder n s → IsWithin last p
        → times n (carried last s) p ≡ p }
    ensures one_to_one { (last n : ℕ) (s : Turn) (p q : Place) → 0 < n → HasOrder n s → IsWithin last p → IsWithin last q
        → carried last s p ≡ carried last s q → p ≡ q }
{}

/// Two turns that pass the test for it exchange, as those of two layers of a cube, one behind the other, do.
pub fn exchanges()
    ensures { (last : ℕ) (s t : Turn) (p : Place) → Exchange s t → IsWithin last p
        → carried last s (carried last t p) ≡ carried last t (carried last s p) }
{}
