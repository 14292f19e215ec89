//! The command that checks a sheet.

ghost use Rattle.std.specs.Prelude.{◌≡◌, ◌≤◌, filter, length, Err, IfOk};
ghost use Rattle.scr_outside.specs.Change.{change_of};
ghost use Rattle.scr_check.specs.Ahead.{most_ahead};
ghost use Rattle.scr_check.specs.Reading.{reading, source_name};
ghost use Rattle.scr_list.specs.RoundLists.{IsRounds};
ghost use Rattle.scr_list.specs.Reading.{listed};
ghost use Rattle.scr_notation.specs.Event.{is_tested_by_table};
ghost use Rattle.scr_fault.specs.declared.fault.Fault.TheVariants.{NoMemory};
ghost use Rattle.scr_sheet.specs.Check.{ReadsListPart, check_settings};
ghost use Rattle.scr_sheet.specs.Ready.{AreTests, EndsHolding, ReadsTests};

use crate::sheet_lines::SheetLines;
use arrayvec::ArrayVec;
use scr_check::{ByteReader, check_lines, list_part};
use scr_fault::Fault;
use scr_list::{ListFault, ROUND_ROOM, Round, rounds_of};
use scr_outside::{Sink, Source, write_line};
use scr_slots::{Effort, Settings, Tables};
use scr_words::Seed;
use std::alloc::Global;
use std::thread::Threads;

/// By what a sheet is checked, beside a seed.
#[derive(Drop)]
pub(crate) struct Tests {
    /// The rounds that a list names.
    pub rounds: ArrayVec<Round, ROUND_ROOM>,
    /// The tables by which their states are tested as they are drawn.
    pub tables: Tables,
}

/// Reads the list of an input, and builds the tables by which the states of its rounds are tested. Nothing that is
/// drawn is seen here, and nothing of the sheet but what was read ahead: so want of memory tells nothing of either.
pub(crate) fn tests_of_list<R: Threads + Sync, S: Source>(
    rt: &R,
    alloc: Global,
    reader: &mut ByteReader<'_, S>,
) -> Result<Tests, Fault>
    ensures same_source { source_name reader.new ≡ source_name reader.old }
    ensures tests { IfOk result AreTests }
    ensures read { ReadsTests S.left S.faults S.ends (reading reader.old) (reading reader.new) result }
{
    let rounds = read_list(reader)?;
    let tables = Tables::build(rt, alloc, &tested_rounds(&rounds), 1)?;
    Ok(Tests { rounds, tables })
}

/// Holds what a reader has still to give against the lines of the sheet of a list's rounds, made with a seed and so
/// many attempts a slot, and writes that they agree, where they do. Where the rounds or their tables were not got, it
/// ends for the same reason, reads no more and writes nothing. It is given no allocator.
pub(crate) fn write_check<S: Source, O: Sink>(
    tests: Result<Tests, Fault>,
    seed: &Seed,
    attempts: u32,
    reader: &mut ByteReader<'_, S>,
    out: &mut O,
) -> Result<(), Fault>
    requires tests { IfOk tests AreTests }
    requires attempts { attempts ≤ 1000000 }
    ensures same_source { source_name reader.new ≡ source_name reader.old }
    ensures ends { EndsHolding S.left S.faults S.ends (reading reader.old) (reading reader.new)
        (check_settings seed.now attempts) tests (change_of O.held O.faults out.old out.new) result }
    // Whatever is drawn and judged, it doesn't end so for it.
    ensures memory { result ≡ Err NoMemory → tests ≡ Err NoMemory }
{
    let Tests { rounds, tables } = tests?;
    let settings = Settings {
        seed: *seed,
        attempts,
        effort: Effort { tries: 0, short: 1 },
    };
    check_lines(reader, &SheetLines::new(&tables, &settings, &rounds))?;
    write_line(out, "", "agrees")?;
    Ok(())
}

/// Reads the list part of an input, and the rounds that it names.
fn read_list<S: Source>(
    reader: &mut ByteReader<'_, S>,
) -> Result<ArrayVec<Round, ROUND_ROOM>, ListFault>
    ensures same_source { source_name reader.new ≡ source_name reader.old }
    ensures few_ahead { length (reading reader.new).ahead ≤ most_ahead }
    ensures rounds { IfOk result (λ rounds. IsRounds rounds.items) }
    ensures list { ReadsListPart S.left S.faults S.ends (reading reader.old) (reading reader.new) (listed result) }
{
    let list = list_part(reader)?;
    rounds_of(list.as_slice())
}

/// Those of these rounds whose states are tested by a table as they are drawn.
fn tested_rounds(rounds: &[Round]) -> ArrayVec<Round, ROUND_ROOM>
    requires { IsRounds rounds.now }
    ensures { result.items ≡ filter (λ round. is_tested_by_table round.event) rounds.now }
{
    let mut tested = ArrayVec::new();
    for round in rounds {
        if round.event.is_tested_by_table() {
            tested.push(round.copied());
        }
    }
    tested
}
