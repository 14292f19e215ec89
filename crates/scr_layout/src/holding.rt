//! How puzzles are held.

ghost use Rattle.std.specs.Prelude.{◌≡◌};
ghost use Rattle.scr_layout.specs.Holding.{held_of};

use scr_notation::{Event, Puzzle};

/// How the puzzle of an event is held when its scramble begins (WCA Regulations, article 4d), in lines of at most 72
/// letters, with a line feed between two.
#[tactic(auto, unfolding(crate::specs::Holding::held_as))]
pub fn held(event: Event) -> &'static str
    ensures { result.now ≡ held_of event }
{
    match event.puzzle() {
        Puzzle::Cube222 | Puzzle::Cube333 | Puzzle::Cube555 | Puzzle::Cube666 | Puzzle::Cube777 =>
            "Hold the solved cube with white up and green in front.",
        Puzzle::Held333 => {
            "Hold the solved cube with white up and green in front. Do the words\nwith w at the end too, and then don't turn the cube back: put it down,\nor hand it over, as it lies in the hand."
        }
        Puzzle::Fewest333 => {
            "Hold the solved cube with white up and green in front. Where R' U' F\nmeets the rest, two turns of one face may stand side by side, and undo\neach other: do both."
        }
        Puzzle::Clock => {
            "Hold the clock with 12 o'clock up, either side in front. At y2 turn it\nround as a door is, 12 o'clock still up. Leave the pins as they come to\nstand."
        }
        Puzzle::Megaminx => "Hold the solved Megaminx with white up and green in front.",
        Puzzle::Pyraminx => "Hold the solved Pyraminx with yellow down and green in front.",
        Puzzle::Skewb => "Hold the solved Skewb with white up and green in front.",
        Puzzle::Square1 => {
            "Hold the solved Square-1 with the cut at the front a little to the left\nof the middle. Two sides can face you so: take the darker one."
        }
    }
}
