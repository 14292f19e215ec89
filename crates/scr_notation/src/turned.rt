//! States that letters and scrambles turn.
ghost use Rattle.std.specs.Prelude.{◌≡◌, ◌<◌};
ghost use Rattle.scr_combinatorics.specs.Play.{play};

use crate::letters::Letters;
use crate::scramble::Scramble;
use crate::turn::Turn;

/// A state of a puzzle whose turns are powers of a few generators, as of cubes those of quarter turns.
pub trait PowerTurned: Copy {
    ghost use Rattle.std.specs.Prelude.{◌≡◌, ◌*◌, ◌<◌, ◌≤◌, ℕ, Option, Some, None};
    ghost use Rattle.scr_combinatorics.specs.PowerLetters.{HasGenerators};
    ghost use Rattle.scr_notation.specs.declared.turn.Turn.{Turn as Letter};

    /// The letters of its turns.
    type Kind: Letters;

    /// How many generators it has, the first ones of those that the letters name.
    ghost GENERATORS: { ℕ };

    const GENERATORS: u8;

    /// What a letter makes of a state: nothing where it is no power of these generators.
    ghost after: { Self → Letter → Option Self };

    /// The state after the turn with this number: generator by generator, and there by exponents from 1 on.
    fn turned(&self, number: usize) -> Self
        requires { number < Self.Kind.POWERS * GENERATORS }
        ensures { after self.now (Self.Kind.letters.letter_at number) ≡ Some result };

    /// The letters name as many generators, and no other letter makes anything.
    ghost generators: { HasGenerators Self.Kind.letters GENERATORS after };

    /// The state after a generator, so many times: after a turn of a face clockwise by `exponent` quarters, from 1 to
    /// 3, or about an axis by `exponent` thirds, 1 or 2.
    final fn turn(&self, generator: u8, exponent: u8) -> Self
        requires generator { generator < GENERATORS }
        requires some { 0 < exponent }
        requires few { exponent ≤ Self.Kind.POWERS }
        ensures { after self.now (Self.Kind.letters.letter_of (record { generator = generator; exponent = exponent })) ≡ Some result }
    {
        Self::Kind::are_numbered();
        let first = usize::from(Self::Kind::POWERS) * usize::from(generator);
        self.turned(first + usize::from(exponent - 1))
    }

    /// The state after the turns of a scramble. `None` comes exactly where one of them isn't a turn of the puzzle.
    final fn play(&self, scramble: &Scramble) -> Option<Self>
        ensures { result ≡ play after self.now scramble.now.turns }
    {
        played(*self, scramble.turns())
    }
}

/// The state after a letter's turn, or `None` where it isn't a turn of the puzzle.
fn after<S: PowerTurned>(state: &S, letter: Turn) -> Option<S>
    ensures { result ≡ S.after state.now letter }
{
    S::Kind::are_numbered();
    let (generator, exponent) = S::Kind::read(letter)?;
    if generator < S::GENERATORS {
        Some(state.turn(generator, exponent))
    } else {
        None
    }
}

/// The state after these turns, or `None` where one of them isn't one of the puzzle.
fn played<S: PowerTurned>(start: S, turns: &[Turn]) -> Option<S>
    ensures { result ≡ play S.after start turns.now }
{
    let mut state = start;
    for turn in turns {
        state = after(&state, *turn)?;
    }
    Some(state)
}
