//! The text of an event's tables.

ghost use Rattle.std.specs.Prelude.{[], ◌∷◌};
ghost use Rattle.scr_outside.specs.Change.{change_of};
ghost use Rattle.scr_notation.specs.EventSets.{Has};
ghost use Rattle.scr_table_text.specs.Counted.{WritesTables};
ghost use Rattle.scr_slots.specs.Tables.{tables_for};

use crate::tables::Tables;
use scr_notation::{Event, Family};
use scr_outside::{Failed, Sink};
use scr_table_text::write_tables;

/// Writes how many positions each table of an event has at each distance, or that the event has no tables. At `Failed`,
/// which comes only where the sink's count of faults rose, a first part of it was written.
///
/// The tables are those of a list with the event.
pub fn write_tables_of<O: Sink>(tables: &Tables, event: Event, out: &mut O) -> Result<(), Failed>
    requires { Has tables.now event }
    ensures { WritesTables (tables_for (event ∷ [])) (change_of O.held O.faults out.old out.new) result }
{
    match event.family() {
        Some(Family::Cube222) => write_tables(out, &[tables.of_222.as_ref().unwrap().only()]),
        Some(Family::Cube333) => write_tables(out, &tables.of_333.as_ref().unwrap().all()),
        Some(Family::Pyraminx) => write_tables(out, &[tables.of_pyram.as_ref().unwrap().only()]),
        Some(Family::Skewb) => write_tables(out, &[tables.of_skewb.as_ref().unwrap().only()]),
        Some(Family::Square1) => write_tables(out, &tables.of_sq1.as_ref().unwrap().all()),
        None => write_tables(out, &[]),
    }
}
