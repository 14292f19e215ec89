//! The command `load`: a sheet is made whose list follows from a number, and told is what it amounts to.
//!
//! The sheet is not written, and never held: each round is made, and its lines are counted.

ghost use Rattle.std.specs.Prelude.{◌≡◌, ◌+◌, ◌*◌, ◌<◌, ◌≤◌, ℕ, List, ◌++◌, codes, length, sum, sum_by, All, IfOk, Err};
ghost use Rattle.scr_notation.specs.EventSets.{Has};
ghost use Rattle.std.specs.Fmt.{decimal};
ghost use Rattle.scr_outside.specs.Change.{change_of, Writes};
ghost use Rattle.scr_list.specs.RoundLists.{IsRounds};
ghost use Rattle.scr_command.specs.Command.{usual_options};
ghost use Rattle.scr_slots.specs.Ranges.{AreInRange};
ghost use Rattle.scr_sheet.specs.Sheet.{settings_of, round_parts};
ghost use Rattle.scr_sheet.specs.Load.{load_seed, load_round, load_rounds, load_text};
ghost use Rattle.scr_round.specs.Round.{slots_of, line_text, round_text, IsBelow, IsInRange};
ghost use Rattle.scr_round.specs.SheetLine.{line_of};
ghost use Rattle.scr_round.specs.Made.{turns_of_each};
ghost use Rattle.scr_sheet.specs.Room.{IsRoomFor};
ghost use Rattle.scr_fault.specs.declared.fault.Fault.TheVariants.{NoMemory};
ghost use Rattle.scr_sheet.specs.Ready.{EndsAfter, IsReadyFor};
ghost use Rattle.scr_sheet.specs.Sizes.{EndsSized, IsSizeOf, SizesParts};
ghost use Rattle.scr_table.specs.declared.fault.BuildFault.TheVariants as build;

use crate::making::Making;
use crate::ready::Ready;
use crate::room::Room;
use arrayvec::{ArrayString, ArrayVec};
use scr_check::Missing;
use scr_command::Options;
use scr_fault::Fault;
use scr_list::Round;
use scr_notation::{EVENTS, Scramble, print};
use scr_outside::{Failed, LINE_ROOM, Sink, write_line};
use scr_round::{SheetLine, line_at, line_count, slots};
use scr_table::BuildFault;
use scr_text::decimal;
use scr_words::Seed;
use scr_workers::Gate;
use std::thread::Threads;

/// The most rounds of a list that follows from a number.
const MOST_ROUNDS: usize = 16;

/// The most lines of a round.
const MOST_LINES: usize = 235;

/// How many events such lists have: the first ones, which stay the same when events are added.
const LOADED_EVENTS: usize = 11;

/// What a text amounts to: how many bytes it has, and what they add up to.
#[derive(Clone, Copy, Debug)]
pub(crate) struct Size {
    bytes: u32,
    sum: u32,
}

/// Makes the sheet of these rounds, with the usual options and what was got ready for them, and writes what it amounts
/// to. Where that failed, it ends for the same reason, and writes nothing. It is given no allocator.
pub(crate) fn write_load<R: Threads + Sync, O: Sink, G: Gate + Sync>(
    rt: &R,
    ready: Result<Ready, BuildFault>,
    seed: &Seed,
    rounds: &[Round],
    out: &mut O,
    gate: &G,
) -> Result<(), Fault>
    requires ready { IfOk ready (IsReadyFor rounds.now) }
    requires rounds { IsRounds rounds.now }
    requires few { length rounds.now ≤ 16 }
    ensures ends { EndsAfter ready (EndsSized (settings_of seed.now usual_options) rounds.now)
        (change_of O.held O.faults out.old out.new) result }
    // Whatever is drawn, it doesn't end so for it.
    ensures memory { result ≡ Err NoMemory → ready ≡ Err build.NoMemory }
{
    let Ready { tables, mut room } = ready?;
    let making = Making::new(rt, &tables, seed, &Options::default(), gate);
    let size = rounds_size(&making, &mut room, rounds)?;
    write_size(out, rounds, size)?;
    Ok(())
}

/// The seed of a number.
pub(crate) fn load_seed(number: u32) -> Seed
    ensures { result ≡ load_seed number }
{
    let mut seed = [0; 32];
    seed[..8].copy_from_slice(&u64::from(number).to_le_bytes());
    Seed(seed)
}

/// The rounds of a number: 1 to 16, as lists take them.
pub(crate) fn load_rounds(number: u32) -> ArrayVec<Round, MOST_ROUNDS>
    requires { number ≤ 9999 }
    ensures rounds { result.items ≡ load_rounds number }
    ensures valid { IsRounds result.items }
{
    let mut rounds = ArrayVec::new();
    for k in 0..1 + number % 16 {
        rounds.push(load_round(number, k));
    }
    rounds
}

/// Round k of a number, counted from 0. It has no name.
fn load_round(number: u32, k: u32) -> Round
    requires number { number ≤ 9999 }
    requires k { k < 16 }
    ensures { result ≡ load_round number k }
{
    let event = EVENTS[(number + k) as usize % LOADED_EVENTS];
    let least = match event.minima() {
        Some(minima) => minima.usual,
        None => 0,
    };
    Round {
        event,
        groups: (1 + (number + 5 * k) % 8) as u8,
        least,
        name: ArrayString::new(),
    }
}

/// What the sheet of these rounds amounts to, made in a room for them.
fn rounds_size<R: Threads + Sync, G: Gate + Sync>(
    making: &Making<'_, R, G>,
    room: &mut Room,
    rounds: &[Round],
) -> Result<Size, Missing>
    requires tables { All (λ round. Has making.now.tables.now round.event) rounds.now }
    requires rounds { IsRounds rounds.now }
    requires few { length rounds.now ≤ 16 }
    requires settings { AreInRange making.now.settings }
    requires room { IsRoomFor rounds.now room.old }
    ensures { SizesParts making.now.settings (round_parts 0 rounds.now) result }
{
    let mut size = Size { bytes: 0, sum: 0 };
    for (index, round) in rounds.iter().enumerate() {
        let index = index as u32;
        making.round(room, index, round)?;
        let more = round_size(index, round, &room.scrambles);
        size.bytes += more.bytes;
        size.sum += more.sum;
    }
    Ok(size)
}

/// What the text of round `index` with these scrambles amounts to, counted line by line.
fn round_size(index: u32, round: &Round, scrambles: &[Scramble]) -> Size
    requires index { index < 256 }
    requires round { IsInRange round.now }
    requires each_slot { length scrambles.now ≡ slots_of round.now }
    ensures size { IsSizeOf (round_text index round.now (turns_of_each scrambles.now)) result }
    ensures few { result.bytes ≤ MOST_LINES * LINE_ROOM }
    ensures low { result.sum ≤ MOST_LINES * LINE_ROOM * 255 }
{
    let mut size = Size { bytes: 0, sum: 0 };
    for line in 0..line_count(round) {
        let more = line_size(&line_at(index, round, line), scrambles);
        size.bytes += more.bytes;
        size.sum += more.sum;
    }
    size
}

/// What a line of a round with these scrambles amounts to.
fn line_size(line: &SheetLine, scrambles: &[Scramble]) -> Size
    requires { IsBelow (length scrambles.now) (line_of line.now) }
    ensures size { IsSizeOf (line_text (turns_of_each scrambles.now) (line_of line.now) ++ codes "\n") result }
    ensures few { result.bytes ≤ LINE_ROOM }
    ensures low { result.sum ≤ LINE_ROOM * 255 }
{
    match line {
        SheetLine::Fixed(text) => size_of("", text.as_str()),
        SheetLine::Slot { label, slot } => size_of(
            label.as_str(),
            print(&scrambles[*slot as usize]).as_str(),
        ),
    }
}

/// What a line amounts to, a label before a text, with its line feed.
fn size_of(label: &str, text: &str) -> Size
    requires { length label.now + length text.now < LINE_ROOM }
    ensures size { IsSizeOf (label.now ++ text.now ++ codes "\n") result }
    ensures few { result.bytes ≤ LINE_ROOM }
    ensures low { result.sum ≤ LINE_ROOM * 255 }
{
    Size {
        bytes: (label.len() + text.len() + 1) as u32,
        sum: sum_of(label.as_bytes()) + sum_of(text.as_bytes()) + u32::from(b'\n'),
    }
}

/// What some bytes add up to.
fn sum_of(bytes: &[u8]) -> u32
    requires { length bytes.now < LINE_ROOM }
    ensures sum { result ≡ sum bytes.now }
    ensures low { result ≤ length bytes.now * 255 }
{
    bytes.iter().map(|byte| u32::from(*byte)).sum()
}

/// Writes how many rounds and slots a sheet has, and what it amounts to.
fn write_size<O: Sink>(out: &mut O, rounds: &[Round], size: Size) -> Result<(), Failed>
    requires rounds { IsRounds rounds.now }
    ensures { (sheet : List ℕ) → IsSizeOf sheet size
        → Writes (change_of O.held O.faults out.old out.new)
        (load_text (length rounds.now) (sum_by slots_of rounds.now) (length sheet) (sum sheet)) result }
{
    write_number(out, "rounds ", rounds.len() as u32)?;
    write_number(out, "scrambles ", slots_of_all(rounds))?;
    write_number(out, "bytes ", size.bytes)?;
    write_number(out, "sum ", size.sum)
}

/// Writes a number behind its label, as a line.
fn write_number<O: Sink>(out: &mut O, label: &str, number: u32) -> Result<(), Failed>
    requires { length label.now ≤ 10 }
    ensures { Writes (change_of O.held O.faults out.old out.new) ((label.now ++ decimal number) ++ codes "\n") result }
{
    write_line(out, label, decimal(number).as_str())
}

/// How many slots these rounds have.
fn slots_of_all(rounds: &[Round]) -> u32
    requires { IsRounds rounds.now }
    ensures { result ≡ sum_by slots_of rounds.now }
{
    let mut count = 0;
    for round in rounds {
        count += slots(round);
    }
    count
}
