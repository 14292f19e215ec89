//! The program, by what it does on words.

ghost use Rattle.scr_outside.specs.Change.{change_of, intake_of};
ghost use Rattle.scr_host.specs.Input.{EndsReading};
ghost use Rattle.scr_host.specs.Runs.{told_text};
ghost use Rattle.scr_wcif.specs.Outcome.{Writes};

use crate::command::{Command, command_of};
use crate::fault::{Fault, FileFault};
use crate::made::{Made, made_of};
use scr_host::{Program, read_input};
use scr_outside::{Sink, Source, write_all};
use std::alloc::Global;

/// `scramble-wcif`, as a program. On `list` it reads a competition's file, and writes the list of its rounds; on `fill` a
/// file, and behind the line `=====` a sheet of the file's rounds, and writes the file with the sheet's scrambles. Nothing
/// is written where either is at fault. It tells which rounds are left out.
pub struct Wcif;

impl Program for Wcif {
    ghost use Rattle.scr_wcif.specs.Outcome.{Ends};

    type Own = FileFault;

    ghost Ends = { Ends };

    fn perform<'w, S: Source, O: Sink>(
        &self,
        alloc: Global,
        words: &'w [&'w str],
        source: &mut S,
        out: &mut O,
    ) -> Result<String, Fault> {
        match command_of(words) {
            Some(command) => serve(alloc, command, source, out),
            None => Err(Fault::Usage),
        }
    }
}

/// Reads an input, and writes what a command makes of it.
fn serve<S: Source, O: Sink>(
    alloc: Global,
    command: Command,
    source: &mut S,
    out: &mut O,
) -> Result<String, Fault>
    ensures { EndsReading (Writes command) (intake_of S.left S.faults S.ends source.old source.new)
        (change_of O.held O.faults out.old out.new) (told_text result) }
{
    let input = read_input(alloc, source)?;
    let Made { text, told } = made_of(alloc, command, &input)?;
    write_all(out, &text)?;
    Ok(told)
}
