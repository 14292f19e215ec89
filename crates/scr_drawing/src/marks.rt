//! What marks of drawings mean, for paper without colours.

ghost use Rattle.std.specs.Prelude.{◌≡◌};
ghost use Rattle.scr_markup.specs.Tokens.{HasNoLineFeed};
ghost use Rattle.scr_drawing.specs.Legend.{legend_of};

use scr_notation::{Event, Puzzle};

/// Which colour each mark in a drawing of an event's puzzle stands for, in one line. It is empty where greys and a dot
/// tell colours apart.
#[tactic(auto, unfolding(crate::specs::Legend::legend_as))]
pub fn legend(event: Event) -> &'static str
    ensures value { result.now ≡ legend_of event }
    ensures line { HasNoLineFeed result.now }
{
    match event.puzzle() {
        Puzzle::Megaminx => {
            "In black and white, marks tell the colours: a black + is green, - lime, | yellow, / pink, \\ orange, x grey and a square cream; a white + is purple, - red and | blue. White and light blue have none; light blue is darker."
        }
        Puzzle::Cube222
        | Puzzle::Cube333
        | Puzzle::Held333
        | Puzzle::Fewest333
        | Puzzle::Cube555
        | Puzzle::Cube666
        | Puzzle::Cube777
        | Puzzle::Clock
        | Puzzle::Pyraminx
        | Puzzle::Skewb
        | Puzzle::Square1 => "",
    }
}
