//! The scramble of a Clock.
ghost use Rattle.std.specs.Prelude.{◌≡◌, ◌+◌, ◌<◌, ◌≤◌, ◌==◌, length, ◌++◌, All, IsTrue};
ghost use Rattle.std.specs.List.{list_any};
ghost use Rattle.scr_notation.specs.declared.event.Event.TheVariants.{Clock as ClockEvent};
ghost use Rattle.scr_notation.specs.Pins.{pin_sets};
ghost use Rattle.scr_notation.specs.Written.{IsTheScramble, at_most};
ghost use Rattle.scr_clock.specs.Dials.{solved};
ghost use Rattle.scr_clock.specs.Held.{clock_after};
ghost use Rattle.scr_clock.specs.Written.{pins_at, IsClockScramble};

use crate::amounts::solve;
use crate::clock::Clock;
use scr_notation::{Event, PIN_SETS, Scramble, Turn};

/// The scramble that leads from solved to this Clock: nine pin sets on the front and, behind `y2`, five on the back, by
/// the amounts of `solve`. No other scramble leads there.
#[tactic(auto, using(crate::proofs::Cited::scramble_clock))]
pub fn scramble_clock(clock: &Clock) -> Scramble
    ensures promised { IsTheScramble ClockEvent IsClockScramble (at_most 15) (clock_after solved) clock.now result }
    ensures fifteen { length result.turns ≡ 15 }
{
    let amounts = solve(clock);
    let mut scramble = Scramble::new(Event::Clock);
    push_pins(&mut scramble, &PIN_SETS, &amounts[..9]);
    scramble.push(Turn::Over);
    push_pins(&mut scramble, &PIN_SETS[4..], &amounts[9..]);
    scramble
}

/// Adds the turns of these pin sets, each by the amount at its place, to a scramble of Clock.
#[tactic(auto, using(crate::proofs::Cited::push_pins), unfolding(crate::specs::Written::pins_at))]
fn push_pins(scramble: &mut Scramble, sets: &[u8], amounts: &[u8])
    requires of_clock { scramble.old.event ≡ ClockEvent }
    requires room { length scramble.old.turns + length sets.now ≤ 160 }
    requires each { length sets.now ≡ length amounts.now }
    requires sets { All (λ p. IsTrue (list_any (λ set. set == p) pin_sets)) sets.now }
    requires hours { All (λ a. a < 12) amounts.now }
    ensures { scramble.new ≡ record { event = scramble.old.event; turns = scramble.old.turns ++ pins_at sets.now amounts.now } }
{
    for k in 0..sets.len() {
        scramble.push(Turn::Pins {
            pins: sets[k],
            amount: amounts[k],
        });
    }
}
