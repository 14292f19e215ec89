//! The text of a table, written.

ghost use Rattle.std.specs.Prelude.{◌≡◌, ◌+◌, ◌≤◌, ◌<◌, ℕ, List, length, slice_index};
ghost use Rattle.arrayvec.specs.ArrayString.{array_string_len};
ghost use Rattle.scr_outside.specs.Change.{change_of, Writes};
ghost use Rattle.scr_text.specs.Lines.{text_of_lines};
ghost use Rattle.scr_table_text.specs.TableText.{head_text, count_lines};
ghost use Rattle.scr_table.specs.Lines.{TableLine, AreTablesOf};
ghost use Rattle.scr_table.specs.TableStates.{all_by_positions};
ghost use Rattle.scr_table_text.specs.Counted.{AreEntryCounts, counted_text, tables_in, WritesTables, WritesTexts};

use arrayvec::ArrayString;
use scr_outside::{Failed, Sink, write_line};
use scr_table::{DistanceTable, GREATEST_BOUND};
use scr_text::decimal;

/// Writes the texts of an event's tables, one after another, or the line of an event that has none. They are those of
/// the tables as their lines have them, by positions. At `Failed`, which comes only where the sink's count of faults
/// rose, a first part of it was written.
pub fn write_tables<O: Sink>(out: &mut O, tables: &[&DistanceTable]) -> Result<(), Failed>
    ensures { (lines : List TableLine) → AreTablesOf lines (tables_in tables.now)
        → WritesTables (all_by_positions lines) (change_of O.held O.faults out.old out.new) result }
{
    match tables {
        [] => write_line(out, "no tables", ""),
        [..] => write_each(out, tables),
    }
}

/// Writes the texts of tables, one after another.
fn write_each<O: Sink>(out: &mut O, tables: &[&DistanceTable]) -> Result<(), Failed>
    ensures { (lines : List TableLine) → AreTablesOf lines (tables_in tables.now)
        → WritesTexts (all_by_positions lines) (change_of O.held O.faults out.old out.new) result }
{
    match tables {
        [] => Ok(()),
        [table, others @ ..] => {
            write_table(out, table)?;
            write_each(out, others)
        }
    }
}

/// Writes the text of a table, one piece a line: its name, how many positions it has and its bound, and then a line for
/// each distance from 0 to the greatest that occurs, with how many positions have it. At `Failed`, which comes only
/// where the sink's count of faults rose, a first part of it was written.
pub fn write_table<O: Sink>(out: &mut O, table: &DistanceTable) -> Result<(), Failed>
    ensures { (counts : List ℕ) × AreEntryCounts table.now.distances counts
        × Writes (change_of O.held O.faults out.old out.new) (counted_text table.now counts) result }
{
    let counts = table.counts();
    let lines = line_count(&counts);
    write_line(out, "", head(table).as_str())?;
    write_counts(out, &counts[..lines])
}

/// The head of a table.
fn head(table: &DistanceTable) -> ArrayString<64>
    ensures bytes { result.bytes ≡ head_text table.now.name (length table.now.distances) table.now.bound }
    ensures short { array_string_len result ≤ 64 }
{
    let mut head = ArrayString::new();
    head.push_str("table ");
    head.push_str(table.name().text());
    head.push_str(" positions ");
    head.push_str(decimal(table.positions()).as_str());
    head.push_str(" bound ");
    head.push_str(decimal(table.bound()).as_str());
    head
}

/// Writes a line for each distance, from 0 on.
fn write_counts<O: Sink>(out: &mut O, counts: &[u32]) -> Result<(), Failed>
    requires { length counts.now ≤ GREATEST_BOUND + 1 }
    ensures { Writes (change_of O.held O.faults out.old out.new) (text_of_lines (count_lines 0 counts.now)) result }
{
    for (distance, count) in counts.iter().enumerate() {
        let mut label: ArrayString<11> = ArrayString::new();
        label.push_str(decimal(distance as u32).as_str());
        label.push_str(" ");
        write_line(out, label.as_str(), decimal(*count).as_str())?;
    }
    Ok(())
}

/// How many counts there are up to the last that isn't 0.
fn line_count(counts: &[u32; GREATEST_BOUND + 1]) -> usize
    ensures few { result ≤ GREATEST_BOUND + 1 }
    ensures last { (d : ℕ) → result ≡ d + 1 → 0 < slice_index counts.now d }
    ensures behind { (d : ℕ) → result ≤ d → d < GREATEST_BOUND + 1 → slice_index counts.now d ≡ 0 }
{
    for distance in (0..counts.len()).rev() {
        if counts[distance] > 0 {
            return distance + 1;
        }
    }
    0
}
