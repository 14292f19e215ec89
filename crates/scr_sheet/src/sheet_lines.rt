//! The lines that a list's sheet has, for a checker.

ghost use Rattle.std.specs.Prelude.{◌≡◌, ◌+◌, ◌*◌, ◌<◌, ◌≤◌, All, IsTrue, length, option_copied};
ghost use Rattle.scr_notation.specs.EventSets.{Has};
ghost use Rattle.scr_list.specs.Rounds.{IsRound};
ghost use Rattle.scr_list.specs.RoundLists.{IsRounds};
ghost use Rattle.scr_notation.specs.Event.{is_tested_by_table};
ghost use Rattle.scr_sheet.specs.Check.{IsBehind, IsPlaceAnswer, IsPlacedAt, IsLineAnswer, list_lines};
ghost use Rattle.scr_round.specs.Round.{Slot, round_lines};

use scr_check::{Expected, Missing};
use scr_list::Round;
use scr_round::{SheetLine, line_at, line_count, slots};
use scr_slots::{Settings, Tables, slot_agrees};
use std::marker::Model;

/// The lines of the sheet of a list's rounds. Which line a text is held against, and with which slot, is decided as it
/// is asked: no scramble is looked for, and no memory taken.
#[derive(Drop)]
pub(crate) struct SheetLines<'a> {
    tables: &'a Tables,
    settings: &'a Settings,
    rounds: &'a [Round],
}

// Clauses see whose lines they are, and not by which tables states are tested.
impl<'a> Model for SheetLines<'a> {
    ghost use Rattle.std.specs.Prelude.{◌≤◌, All, IsTrue};
    ghost use Rattle.scr_notation.specs.EventSets.{Has};
    ghost use Rattle.scr_list.specs.RoundLists.{IsRounds};
    ghost use Rattle.scr_notation.specs.Event.{is_tested_by_table};
    ghost use Rattle.scr_sheet.specs.Check.{SheetRounds};

    ghost Value = { SheetRounds };

    ghost view = { λ lines. record { settings = lines.settings.now; rounds = lines.rounds.now } };

    ghost invariant = { λ lines. IsRounds lines.rounds.now × (lines.settings.now.attempts ≤ 1000000)
        × All (λ round. IsTrue (is_tested_by_table round.event) → Has lines.tables.now round.event) lines.rounds.now };
}

impl<'a> SheetLines<'a> {
    /// The lines of these rounds. The tables have each of their events that is tested by one.
    pub fn new(tables: &'a Tables, settings: &'a Settings, rounds: &'a [Round]) -> SheetLines<'a>
        requires tables { All (λ round. IsTrue (is_tested_by_table round.event) → Has tables.now round.event) rounds.now }
        requires rounds { IsRounds rounds.now }
        requires attempts { settings.now.attempts ≤ 1000000 }
        ensures value { result ≡ record { settings = settings.now; rounds = rounds.now } }
        ensures few { length (list_lines 0 rounds.now) ≤ 60160 }
    {
        let _few_lines = line_total(rounds);
        SheetLines {
            tables,
            settings,
            rounds,
        }
    }
}

impl Expected for SheetLines<'_> {
    ghost use Rattle.scr_sheet.specs.Check.{expected_lines};

    ghost lines = { λ lines. expected_lines lines.settings lines.rounds };

    fn count(&self) -> u32 {
        line_total(self.rounds)
    }

    fn agrees(&self, line: u32, text: &[u8]) -> Result<bool, Missing> {
        let (index, place) = place_of(self.rounds, line - 1);
        let round = &self.rounds[index as usize];
        line_agrees(self.tables, self.settings, index, round, place, text)
    }
}

/// Whether a text agrees with a line of round `index` of a list; both are counted from 0.
fn line_agrees(
    tables: &Tables,
    settings: &Settings,
    index: u32,
    round: &Round,
    place: u32,
    text: &[u8],
) -> Result<bool, Missing>
    requires tables { IsTrue (is_tested_by_table round.now.event) → Has tables.now round.now.event }
    requires index { index < 256 }
    requires round { IsRound round.now }
    requires place { place < length (round_lines index round.now) }
    requires attempts { settings.now.attempts ≤ 1000000 }
    ensures { IsPlaceAnswer settings.now index round.now place text.now result }
{
    let _few_slots = slots(round);
    match line_at(index, round, place) {
        SheetLine::Fixed(own) => Ok(text == own.as_str().as_bytes()),
        SheetLine::Slot { label, slot } => {
            slot_line_agrees(tables, settings, index, round, label.as_str(), slot, text)
        }
    }
}

/// How many lines the sheet of these rounds has: at most 60,160.
pub(crate) fn line_total(rounds: &[Round]) -> u32
    requires { IsRounds rounds.now }
    ensures count { result ≡ length (list_lines 0 rounds.now) }
    ensures few { result ≤ 60160 }
{
    let mut total = 0;
    for round in rounds {
        total += line_count(round);
    }
    total
}

/// The round of a line of the sheet of these rounds, and its number in the round; all are counted from 0.
fn place_of(rounds: &[Round], line: u32) -> (u32, u32)
    requires rounds { IsRounds rounds.now }
    requires line { line < length (list_lines 0 rounds.now) }
    ensures { IsPlacedAt rounds.now line result.0 result.1 }
{
    let mut left = line;
    for (index, round) in rounds.iter().enumerate() {
        let count = line_count(round);
        if left < count {
            return (index as u32, left);
        }
        left -= count;
    }
    unreachable!()
}

/// Whether a text is the label of a slot of round `index` of a list, and behind it one that agrees with the slot.
fn slot_line_agrees(
    tables: &Tables,
    settings: &Settings,
    index: u32,
    round: &Round,
    label: &str,
    slot: u32,
    text: &[u8],
) -> Result<bool, Missing>
    requires tables { IsTrue (is_tested_by_table round.now.event) → Has tables.now round.now.event }
    requires index { index < 256 }
    requires slot { slot < 182 }
    requires round { IsRound round.now }
    requires attempts { settings.now.attempts ≤ 1000000 }
    ensures { IsLineAnswer settings.now index round.now (Slot label.now slot) text.now result }
{
    let stream = 1024 * u64::from(index) + u64::from(slot);
    let least = u32::from(round.least);
    let Some(behind) = behind(label, text) else {
        // Whether the slot has a scramble doesn't depend on the text.
        return match slot_agrees(tables, round.event, settings, least, stream, &[]) {
            Some(_) => Ok(false),
            None => Err(missing_slot(settings, index, slot)),
        };
    };
    match slot_agrees(tables, round.event, settings, least, stream, behind) {
        Some(agrees) => Ok(agrees),
        None => Err(missing_slot(settings, index, slot)),
    }
}

/// How a slot of round `index` of a list is told that has no scramble.
fn missing_slot(settings: &Settings, index: u32, slot: u32) -> Missing
    requires index { index < 256 }
    requires slot { slot < 182 }
    requires attempts { settings.now.attempts ≤ 1000000 }
    ensures { result ≡ record { round = index + 1; slot = slot + 1; words = 3 * settings.now.attempts } }
{
    Missing {
        round: index + 1,
        slot: slot + 1,
        words: 3 * settings.attempts,
    }
}

/// What stands in a text behind a label, if the text begins with it.
fn behind<'t>(label: &str, text: &'t [u8]) -> Option<&'t [u8]>
    ensures { IsBehind label.now text.now (option_copied result) }
{
    let (front, behind) = text.split_at_checked(label.len())?;
    if front == label.as_bytes() {
        Some(behind)
    } else {
        None
    }
}
