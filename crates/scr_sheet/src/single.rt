//! The commands that write one scramble.

ghost use Rattle.std.specs.Prelude.{◌≡◌, ◌≤◌, ◌++◌, ◌∷◌, [], IfOk, IfSome, Err, Some};
ghost use Rattle.std.specs.Result.{result_map_both};
ghost use Rattle.scr_outside.specs.Change.{change_of, Writes};
ghost use Rattle.scr_notation.specs.EventSets.{Has};
ghost use Rattle.scr_command.specs.Command.{usual_options};
ghost use Rattle.scr_net.specs.Nets.{IsSide};
ghost use Rattle.scr_fault.specs.declared.fault.Fault.TheVariants.{NoMemory};
ghost use Rattle.scr_sheet.specs.Sheet.{settings_of, single_part, line_of, shown_net};
ghost use Rattle.scr_sheet.specs.Outcome.{EndsParts};
ghost use Rattle.scr_fault.specs.Faults.{fault_of_make};
ghost use Rattle.scr_sheet.specs.Ready.{EndsAfter};
ghost use Rattle.scr_table.specs.declared.fault.BuildFault.TheVariants as build;

use crate::making::settings_of;
use scr_check::Missing;
use scr_command::Options;
use scr_fault::{Fault, MakeFault};
use scr_net::{Net, write_net};
use scr_notation::{Event, Scramble, print};
use scr_outside::{Failed, Sink, write_line};
use scr_slots::{Tables, slot_answer};
use scr_table::BuildFault;
use scr_words::Seed;

/// Draws the state of stream 0 of a seed, of which no minimum is asked, and writes the line of its scramble, and below
/// it the net that this makes of a cube with so many layers, where one is asked. Where the tables of the event were not
/// built, it ends for the same reason, and writes nothing. It is given no allocator.
pub(crate) fn write_single<O: Sink>(
    tables: Result<Tables, BuildFault>,
    event: Event,
    seed: &Seed,
    side: Option<u8>,
    out: &mut O,
) -> Result<(), Fault>
    requires tables { IfOk tables (λ tables. Has tables event) }
    requires side { IfSome side (λ side. (2 ≤ side) × (side ≤ 7)) }
    ensures ends { EndsAfter tables (EndsParts (settings_of seed.now usual_options) 0 (single_part event side ∷ []))
        (change_of O.held O.faults out.old out.new) result }
    // Whatever is drawn, it doesn't end so for it.
    ensures memory { result ≡ Err NoMemory → tables ≡ Err build.NoMemory }
{
    let tables = tables?;
    write_drawn(&tables, event, seed, side, out)?;
    Ok(())
}

/// The same, where the tables of the event are built.
fn write_drawn<O: Sink>(
    tables: &Tables,
    event: Event,
    seed: &Seed,
    side: Option<u8>,
    out: &mut O,
) -> Result<(), MakeFault>
    requires tables { Has tables.now event }
    requires side { IfSome side (λ side. (2 ≤ side) × (side ≤ 7)) }
    ensures { EndsParts (settings_of seed.now usual_options) 0 (single_part event side ∷ [])
        (change_of O.held O.faults out.old out.new) (result_map_both (λ done. done) fault_of_make result) }
{
    let settings = settings_of(seed, &Options::default());
    match slot_answer(tables, event, &settings, 0, 0) {
        Some(scramble) => Ok(write_with_net(side, &scramble, out)?),
        None => Err(MakeFault::DrawLimit(Missing {
            round: 1,
            slot: 1,
            words: 3 * settings.attempts,
        })),
    }
}

/// Writes the line of a scramble, and the net of its cube.
fn write_with_net<O: Sink>(side: Option<u8>, scramble: &Scramble, out: &mut O) -> Result<(), Failed>
    requires { IfSome side (λ side. (2 ≤ side) × (side ≤ 7)) }
    ensures { Writes (change_of O.held O.faults out.old out.new)
        (line_of scramble.now.turns ++ shown_net side scramble.now.turns) result }
{
    write_line(out, "", print(scramble).as_str())?;
    write_net_of(side, scramble, out)
}

/// Writes the net of a cube with so many layers after a scramble; nothing where none is asked.
fn write_net_of<O: Sink>(side: Option<u8>, scramble: &Scramble, out: &mut O) -> Result<(), Failed>
    requires { IfSome side (λ side. (2 ≤ side) × (side ≤ 7)) }
    ensures { Writes (change_of O.held O.faults out.old out.new) (shown_net side scramble.now.turns) result }
{
    match side {
        None => Ok(()),
        Some(2) => write_net_after::<O, 2>(scramble, out),
        Some(3) => write_net_after::<O, 3>(scramble, out),
        Some(4) => write_net_after::<O, 4>(scramble, out),
        Some(5) => write_net_after::<O, 5>(scramble, out),
        Some(6) => write_net_after::<O, 6>(scramble, out),
        Some(7) => write_net_after::<O, 7>(scramble, out),
        Some(_) => unreachable!(),
    }
}

/// Writes the net of a solved cube with `SIDE` layers after a scramble, if such a cube has its turns.
fn write_net_after<O: Sink, const SIDE: usize>(
    scramble: &Scramble,
    out: &mut O,
) -> Result<(), Failed>
    requires { IsSide SIDE }
    ensures { Writes (change_of O.held O.faults out.old out.new) (shown_net (Some SIDE) scramble.now.turns) result }
{
    match Net::<SIDE>::solved().play(scramble) {
        Some(net) => write_net(out, &net),
        None => Ok(()),
    }
}
