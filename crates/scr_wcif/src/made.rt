//! What is made of an input: a list, or a file with the scrambles of a sheet.

ghost use Rattle.std.specs.Prelude.{◌≤◌, length};
ghost use Rattle.scr_host.specs.Input.{most_bytes};
ghost use Rattle.scr_wcif.specs.Outcome.{ComesTo, ComesToNothing};
ghost use Rattle.scr_wcif.specs.Made.{Makes, ListsFile};

use crate::command::Command;
use crate::fault::Fault;
use crate::filled::filled_text;
use crate::list::{left_out, list_of};
use crate::rounds::rounds_of_file;
use crate::value::value_of;
use json::Scratch;
use std::alloc::Global;

/// A text that was made, and what is told of the rounds that it leaves out.
#[derive(Drop)]
pub(crate) struct Made {
    /// The text, in UTF-8.
    pub(crate) text: Vec<u8>,
    /// A line for each round whose event the program hasn't.
    pub(crate) told: String,
}

/// What a command makes of an input.
pub(crate) fn made_of(alloc: Global, command: Command, input: &[u8]) -> Result<Made, Fault>
    requires { length input.now ≤ most_bytes }
    ensures { Makes (ComesTo command input.now) (ComesToNothing command input.now) result }
{
    match command {
        Command::List => list_of_bytes(alloc, input),
        Command::Fill => filled_text(alloc, input),
    }
}

/// The list of the rounds that a file's bytes name.
fn list_of_bytes(alloc: Global, bytes: &[u8]) -> Result<Made, Fault>
    ensures { ListsFile bytes.now result }
{
    let mut scratch = Scratch::new(alloc);
    let file = value_of(alloc, bytes, &mut scratch)?;
    let named = rounds_of_file(alloc, &file)?;
    let text = list_of(alloc, &named)?.into_bytes();
    let told = left_out(alloc, &named)?;
    Ok(Made { text, told })
}
