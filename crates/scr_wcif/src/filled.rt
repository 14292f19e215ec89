//! A file with the scrambles of a sheet.

ghost use Rattle.std.specs.Prelude.{◌≡◌, ◌-◌, ◌^◌, ◌<◌, ◌≤◌, All, List, Ok, Err, length};
ghost use Rattle.json.specs.Json.{max_depth};
ghost use Rattle.json.specs.Tree.{depth, HasNumbers};
ghost use Rattle.json.specs.Value.{value_view};
ghost use Rattle.scr_wcif.specs.Adding.{IsAnswer};
ghost use Rattle.scr_wcif.specs.FileRound.{NamedRound};
ghost use Rattle.scr_wcif.specs.FileRounds.{rounds_of_file};
ghost use Rattle.scr_host.specs.Input.{most_bytes};
ghost use Rattle.scr_wcif.specs.Sets.{RoundHasNumbers};
ghost use Rattle.scr_wcif.specs.Made.{FillsInput, FillsParts, FillsRounds};

use crate::fault::{Fault, FileFault};
use crate::filling::filled;
use crate::list::left_out;
use crate::made::Made;
use crate::parts::parts_of;
use crate::placing::placed_rounds;
use crate::rounds::rounds_of_file;
use crate::set::EventSets;
use crate::taking::taken_sets;
use crate::value::value_of;
use json::{Scratch, Value, to_vec};
use std::alloc::Global;

/// The file of an input with the scrambles of the sheet behind it, whose rounds have to be those of the file's list: by
/// their events and the numbers of their groups, in order.
pub(crate) fn filled_text(alloc: Global, input: &[u8]) -> Result<Made, Fault>
    requires { length input.now ≤ most_bytes }
    ensures { FillsInput input.now result }
{
    let (file, sheet) = parts_of(input).ok_or(FileFault::NoParts)?;
    filled_parts(alloc, file, sheet)
}

/// The same of the two parts.
fn filled_parts(alloc: Global, file: &[u8], sheet: &[u8]) -> Result<Made, Fault>
    requires { length sheet.now < 2 ^ 32 - 1 }
    ensures { FillsParts file.now sheet.now result }
{
    let mut scratch = Scratch::new(alloc);
    let value = value_of(alloc, file, &mut scratch)?;
    names_rounds(alloc, &value)?;
    let sets = taken_sets(alloc, sheet)?;
    filled_value(alloc, value, &sets)
}

/// That a file names rounds, or why it doesn't.
fn names_rounds(alloc: Global, file: &Value<'_>) -> Result<(), Fault>
    ensures { IsAnswer (λ _. (named : List NamedRound) × (rounds_of_file (value_view file.now) ≡ Ok named))
        (λ why. rounds_of_file (value_view file.now) ≡ Err why) result }
{
    let _named = rounds_of_file(alloc, file)?;
    Ok(())
}

/// The same of the file's value, which names rounds, and of the sets of the sheet's.
fn filled_value<'a>(alloc: Global, file: Value<'a>, sets: &'a [EventSets]) -> Result<Made, Fault>
    requires numbers { All RoundHasNumbers sets.now }
    requires writable { HasNumbers (value_view file) }
    requires nests { depth (value_view file) ≤ max_depth }
    ensures { (named : List NamedRound) → rounds_of_file (value_view file.entry) ≡ Ok named
        → FillsRounds (value_view file.entry) named sets.now result }
{
    let named = rounds_of_file(alloc, &file)?;
    let placed = placed_rounds(alloc, &named, sets)?;
    let told = left_out(alloc, &named)?;
    let filled = filled(alloc, file, &placed)?;
    let text = to_vec(alloc, &filled)?;
    Ok(Made { text, told })
}
