//! Letters as powers of generators.
ghost use Rattle.std.specs.Prelude.{◌≡◌, ◌+◌, ◌-◌, ◌≤◌, ◌<◌, IfSome, refl};
ghost use Rattle.std.specs.Option.{option_map};
ghost use Rattle.scr_notation.specs.AxisLetters.{letters_about_axes};
ghost use Rattle.scr_notation.specs.FaceLetters.{letters_of_faces};

use crate::turn::Turn;

/// Letters of one kind, each of which is a power of a generator.
pub trait Letters {
    ghost use Rattle.std.specs.Prelude.{◌≡◌, ◌+◌, ◌≤◌, ◌<◌, IfSome, ℕ};
    ghost use Rattle.scr_combinatorics.specs.PowerLetters.{PowerLetters, AreNumbered};
    ghost use Rattle.scr_notation.specs.declared.turn.Turn.{Turn as Letter};

    /// Which power each letter is, and which number it has.
    ghost letters: { PowerLetters Letter };

    /// How many powers of a generator move something, with the exponents from 1 on.
    ghost POWERS: { ℕ };

    const POWERS: u8;

    /// The generator and the exponent of a letter. `None` for one of another kind.
    fn read(letter: Turn) -> Option<(u8, u8)>
        ensures exact { result ≡ option_map (λ p. (p.generator, p.exponent)) (letters.power_at letter) }
        ensures some { IfSome result (λ p. 0 < p.1) }
        ensures few { IfSome result (λ p. p.1 ≤ POWERS) };

    /// Does nothing: the letters are numbered, generator by generator.
    fn are_numbered()
        ensures { AreNumbered letters };

    /// There is one power more, which moves nothing.
    ghost whole: { letters.order ≡ POWERS + 1 };
}

/// The outer layers at the faces U R F D L B, each turned by one to three quarters.
pub struct Faces;

impl Letters for Faces {
    ghost letters = { letters_of_faces };

    ghost POWERS = { 3 };

    const POWERS: u8 = 3;

    fn read(letter: Turn) -> Option<(u8, u8)> {
        match letter {
            Turn::Face {
                face,
                depth,
                amount,
            } if depth == 1 && amount >= 1 && amount <= 3 => Some((face, amount)),
            _ => None,
        }
    }

    fn are_numbered() {}

    ghost whole = { refl };
}

/// The axes U L R B and behind them the tips u l r b, each turned by one or two thirds.
pub struct Axes;

impl Letters for Axes {
    ghost letters = { letters_about_axes };

    ghost POWERS = { 2 };

    const POWERS: u8 = 2;

    fn read(letter: Turn) -> Option<(u8, u8)> {
        match letter {
            Turn::Axis { axis, amount } if axis < 4 && amount >= 1 && amount <= 2 => {
                Some((axis, amount))
            }
            Turn::Tip { tip, amount } if tip < 4 && amount >= 1 && amount <= 2 => {
                Some((4 + tip, amount))
            }
            _ => None,
        }
    }

    fn are_numbered() {}

    ghost whole = { refl };
}
