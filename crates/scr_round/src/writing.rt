//! The text of a round.

ghost use Rattle.std.specs.Prelude.{◌≡◌, ◌<◌, ◌++◌, length, codes};
ghost use Rattle.scr_outside.specs.Change.{change_of, Writes};
ghost use Rattle.scr_round.specs.Round.{line_text, round_text, slots_of, IsBelow, IsInRange};
ghost use Rattle.scr_round.specs.SheetLine.{line_of};
ghost use Rattle.scr_round.specs.Made.{turns_of_each};

use crate::layout::{SheetLine, line_at, line_count};
use crate::made::RoundResult;
use scr_list::Round;
use scr_notation::{Scramble, print};
use scr_outside::{Failed, Sink, write_line};

/// Writes the text of a round, one piece a line. At `Failed`, which comes only where the sink's count of faults rose, a
/// first part of it was written.
pub fn write_round<O: Sink>(out: &mut O, made: &RoundResult) -> Result<(), Failed>
    ensures { Writes (change_of O.held O.faults out.old out.new)
        (round_text made.now.index made.now.round (turns_of_each made.now.scrambles)) result }
{
    write_slots(out, made.index(), made.round(), made.scrambles())
}

/// The same of round `index` of a list, counted from 0, with these scrambles, one for each slot in order.
pub fn write_slots<O: Sink>(
    out: &mut O,
    index: u32,
    round: &Round,
    scrambles: &[Scramble],
) -> Result<(), Failed>
    requires index { index < 256 }
    requires round { IsInRange round.now }
    requires each_slot { length scrambles.now ≡ slots_of round.now }
    ensures { Writes (change_of O.held O.faults out.old out.new)
        (round_text index round.now (turns_of_each scrambles.now)) result }
{
    for line in 0..line_count(round) {
        write_sheet_line(out, &line_at(index, round, line), scrambles)?;
    }
    Ok(())
}

/// Writes a line of a round with these scrambles.
fn write_sheet_line<O: Sink>(
    out: &mut O,
    line: &SheetLine,
    scrambles: &[Scramble],
) -> Result<(), Failed>
    requires { IsBelow (length scrambles.now) (line_of line.now) }
    ensures { Writes (change_of O.held O.faults out.old out.new)
        (line_text (turns_of_each scrambles.now) (line_of line.now) ++ codes "\n") result }
{
    match line {
        SheetLine::Fixed(text) => write_line(out, "", text.as_str()),
        SheetLine::Slot { label, slot } => write_line(
            out,
            label.as_str(),
            print(&scrambles[*slot as usize]).as_str(),
        ),
    }
}
