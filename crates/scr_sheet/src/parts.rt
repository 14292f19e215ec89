//! What the commands make and write.

ghost use Rattle.std.specs.Prelude.{◌≡◌, ◌≤◌, ◌⊎◌, [], ◌∷◌, All, IfOk, MatchResult, Err};
ghost use Rattle.std.specs.Result.{result_map_both};
ghost use Rattle.scr_outside.specs.Change.{change_of};
ghost use Rattle.scr_notation.specs.EventSets.{Has};
ghost use Rattle.scr_list.specs.RoundLists.{IsRounds};
ghost use Rattle.std.specs.Vec.{vec_len};
ghost use Rattle.scr_round.specs.Round.{slots_of};
ghost use Rattle.scr_slots.specs.Tables.{HasTables};
ghost use Rattle.scr_slots.specs.Ranges.{AreInRange, IsShort};
ghost use Rattle.scr_fault.specs.declared.fault.Fault.TheVariants.{NoMemory};
ghost use Rattle.scr_table.specs.declared.fault.BuildFault.TheVariants as build;
ghost use Rattle.scr_sheet.specs.Sheet.{settings_of, round_part, round_parts, AreScrambles};
ghost use Rattle.scr_sheet.specs.Outcome.{EndsParts, EndsTables, IsStopped, IsUnwritten};
ghost use Rattle.scr_fault.specs.Faults.{fault_of_make};
ghost use Rattle.scr_sheet.specs.Causes.{LacksTables};
ghost use Rattle.scr_sheet.specs.Making.{CanBeMade};
ghost use Rattle.scr_sheet.specs.Ready.{EndsAfter, IsReadyFor};
ghost use Rattle.scr_sheet.specs.Room.{IsRoom, IsRoomFor, SpendsOne};

use crate::making::Making;
use crate::ready::Ready;
use crate::room::Room;
use scr_check::Missing;
use scr_command::Options;
use scr_fault::{Fault, MakeFault};
use scr_list::Round;
use scr_notation::Event;
use scr_outside::Sink;
use scr_round::write_slots;
use scr_slots::{Tables, write_tables_of};
use scr_table::BuildFault;
use scr_words::Seed;
use scr_workers::Gate;
use std::alloc::Global;
use std::thread::Threads;

/// Makes and writes these rounds with what was got ready for them. Where that failed, it ends for the same reason, and
/// writes nothing. It is given no allocator.
pub(crate) fn write_sheet<R: Threads + Sync, O: Sink, G: Gate + Sync>(
    rt: &R,
    ready: Result<Ready, BuildFault>,
    seed: &Seed,
    options: &Options,
    rounds: &[Round],
    out: &mut O,
    gate: &G,
) -> Result<(), Fault>
    requires ready { IfOk ready (IsReadyFor rounds.now) }
    requires rounds { IsRounds rounds.now }
    requires attempts { options.now.attempts ≤ 1000000 }
    requires short { IsShort options.now.short }
    ensures ends { EndsAfter ready (EndsParts (settings_of seed.now options.now) 0 (round_parts 0 rounds.now))
        (change_of O.held O.faults out.old out.new) result }
    // Whatever is drawn, it doesn't end so for it.
    ensures memory { result ≡ Err NoMemory → ready ≡ Err build.NoMemory }
{
    let Ready { tables, mut room } = ready?;
    let making = Making::new(rt, &tables, seed, options, gate);
    write_rounds(&making, &mut room, rounds, out)?;
    Ok(())
}

/// Makes and writes these rounds, each once all its slots have their scrambles.
fn write_rounds<R: Threads + Sync, O: Sink, G: Gate + Sync>(
    making: &Making<'_, R, G>,
    room: &mut Room,
    rounds: &[Round],
    out: &mut O,
) -> Result<(), MakeFault>
    requires tables { All (λ round. Has making.now.tables.now round.event) rounds.now }
    requires rounds { IsRounds rounds.now }
    requires settings { AreInRange making.now.settings }
    requires room { IsRoomFor rounds.now room.old }
    ensures { EndsParts making.now.settings 0 (round_parts 0 rounds.now)
        (change_of O.held O.faults out.old out.new) (result_map_both (λ done. done) fault_of_make result) }
{
    for (index, round) in rounds.iter().enumerate() {
        let index = index as u32;
        making.round(room, index, round)?;
        write_slots(out, index, round, &room.scrambles)?;
    }
    Ok(())
}

/// Writes how many positions the tables of an event have at each distance.
pub(crate) fn write_event_tables<R: Threads + Sync, O: Sink>(
    rt: &R,
    alloc: Global,
    event: Event,
    out: &mut O,
) -> Result<(), Fault>
    ensures ends { EndsTables event (change_of O.held O.faults out.old out.new) result
        ⊎ (LacksTables (event ∷ []) result × IsUnwritten (change_of O.held O.faults out.old out.new)) }
    ensures memory { result ≡ Err NoMemory → HasTables event }
{
    let tables = Tables::of_event(rt, alloc, event)?;
    write_tables_of(&tables, event, out)?;
    Ok(())
}
