//! The scrambles of rounds, drawn slot by slot, by workers.

ghost use Rattle.std.specs.Prelude.{◌≡◌, ℕ, ◌+◌, ◌≤◌, [], ◌∷◌, length, map, Some, All, MatchResult};
ghost use Rattle.std.specs.Option.{option_flatten};
ghost use Rattle.std.specs.Vec.{vec_len, vec_capacity};
ghost use Rattle.scr_workers.specs.Boards.{HasRoom};
ghost use Rattle.scr_round.specs.Round.{slots_of};
ghost use Rattle.scr_slots.specs.Events.{scrambling_of};
ghost use Rattle.scr_slots.specs.Slots.{IsDrawnFairly};
ghost use Rattle.scr_sheet.specs.declared.making.RoundFault.TheVariants as fault;
ghost use Rattle.scr_sheet.specs.Making.{CanBeMade, IsRoundMade, IsPartFault, IsFirstNone};
ghost use Rattle.scr_sheet.specs.Outcome.{IsStopped};
ghost use Rattle.scr_sheet.specs.Room.{IsRoom, SpendsOne};
ghost use Rattle.scr_sheet.specs.Sheet.{settings_of, round_part, AreScrambles, IsFirstWithout};

use crate::room::Room;
use crate::slot_jobs::SlotJobs;
use scr_check::Missing;
use scr_command::Options;
use scr_list::Round;
use scr_notation::Scramble;
use scr_outside::NoMemory;
use scr_round::{RoundResult, slots};
use scr_slots::laws::each_drawn_fairly;
use scr_slots::{Effort, Settings, Tables};
use scr_words::Seed;
use scr_workers::{ClaimWord, Gate, Lane, claim_slots};
use std::alloc::Global;
use std::thread::Threads;

/// Why a round could not be made.
#[derive(Clone, Copy, Debug, PartialEq, Eq)]
pub enum RoundFault {
    /// Want of memory.
    NoMemory,
    /// No attempt of this slot, from 0, gave a permitted state; they took so many words.
    Limit { slot: u32, words: u32 },
}

impl From<NoMemory> for RoundFault {
    ghost from_gives = { λ _ given. given ≡ fault.NoMemory };

    fn from(_wanting: NoMemory) -> RoundFault {
        RoundFault::NoMemory
    }
}

/// The most workers that there are at once.
const MOST_WORKERS: u32 = 64;

/// Makes round `index` of a list, counted from 0: the scramble of each slot, in order. Workers claim the slots one by
/// one; how many there are changes no scramble. Each slot passes the gate before it is drawn.
///
/// The tables have the round's event, `index` is below 256, the round has 1 to 26 groups and a minimum of its event's
/// range, and any name, and there are at most 1,000,000 attempts, and 1 to 1,000 ways to the square shape. All memory is taken before the first draw. `Limit`
/// names the first slot whose attempts give no permitted state, and comes exactly where there is one. The event is
/// drawn fairly at the round's minimum; of random moves this says that each of their steps is fair.
pub fn make_round<R: Threads + Sync, G: Gate + Sync>(
    rt: &R,
    alloc: Global,
    tables: &Tables,
    seed: &Seed,
    index: u32,
    round: &Round,
    options: &Options,
    gate: &G,
) -> Result<RoundResult, RoundFault>
    requires { CanBeMade tables.now (settings_of seed.now options.now) index round.now }
    ensures made { let settings = settings_of seed.now options.now in
        MatchResult result (IsRoundMade settings index round.now) (IsPartFault settings (round_part index round.now)) }
    ensures fair { IsDrawnFairly (scrambling_of round.now.event) round.now.least }
{
    each_drawn_fairly(tables);
    let mut room = Room::take(alloc, 1, slots(round), workers_of(options))?;
    match Making::new(rt, tables, seed, options, gate).round(&mut room, index, round) {
        Ok(()) => {
            let Room { scrambles, .. } = room;
            Ok(RoundResult::new(round.copied(), index, scrambles))
        }
        Err(missing) => Err(RoundFault::Limit {
            slot: missing.slot - 1,
            words: missing.words,
        }),
    }
}

/// What a sheet of a seed is made with, under these options.
pub(crate) fn settings_of(seed: &Seed, options: &Options) -> Settings
    ensures { result ≡ settings_of seed.now options.now }
{
    Settings {
        seed: *seed,
        attempts: options.attempts,
        effort: Effort {
            tries: options.tries,
            short: options.short,
        },
    }
}

/// How many workers options ask for, from 1 to 64.
pub(crate) fn workers_of(options: &Options) -> u32
    ensures { (1 ≤ result) × (result ≤ 64) }
{
    options.workers.clamp(1, MOST_WORKERS)
}

/// What the scrambles of rounds are made with. It has no memory to give.
#[derive(Drop)]
pub(crate) struct Making<'a, R: Threads + Sync, G: Gate + Sync> {
    /// What starts threads.
    pub rt: &'a R,
    /// The tables of the rounds' events.
    pub tables: &'a Tables,
    /// The seed, and how much work scrambles may take.
    pub settings: Settings,
    /// What each slot passes before it is drawn.
    pub gate: &'a G,
}

impl<'a, R: Threads + Sync, G: Gate + Sync> Making<'a, R, G> {
    /// With this seed and these options.
    pub fn new(
        rt: &'a R,
        tables: &'a Tables,
        seed: &Seed,
        options: &Options,
        gate: &'a G,
    ) -> Making<'a, R, G>
        ensures tables { result.tables.now ≡ tables.now }
        ensures settings { result.settings ≡ settings_of seed.now options.now }
    {
        Making {
            rt,
            tables,
            settings: settings_of(seed, options),
            gate,
        }
    }

    /// Makes round `index` of a list in a room, which has its scrambles afterwards; or gives the first slot without
    /// one. The slots are answered in as many lanes as the room has, where there are as many slots.
    pub fn round(&self, room: &mut Room, index: u32, round: &Round) -> Result<(), Missing>
        requires can { CanBeMade self.now.tables.now self.now.settings index round.now }
        requires room { IsRoom 1 room.old }
        requires slots { slots_of round.now ≤ vec_len room.old.answers }
        ensures made { let part = round_part index round.now in
            MatchResult result (λ _. AreScrambles self.now.settings part part.slots room.new.scrambles.items)
            (λ missing. IsStopped self.now.settings missing index (part ∷ [])) }
        ensures room { SpendsOne room.old room.new }
    {
        let jobs = SlotJobs::new(self.tables, &self.settings, index, round);
        let Some(word) = room.words.pop() else {
            unreachable!()
        };
        let answered = self.answer_slots(
            word,
            room.lanes.as_mut_slice(),
            &jobs,
            room.answers.as_mut_slice(),
            slots(round) as usize,
            &mut room.scrambles,
        );
        match answered {
            Ok(()) => Ok(()),
            Err(slot) => Err(Missing {
                round: index + 1,
                slot: slot + 1,
                words: 3 * self.settings.attempts,
            }),
        }
    }

    /// Answers the slots of a round, in no more lanes than there are slots, and gathers their scrambles; or gives the
    /// first slot without one.
    fn answer_slots(
        &self,
        word: ClaimWord,
        lanes: &mut [Lane<Option<Scramble>>],
        jobs: &SlotJobs<'_>,
        places: &mut [Option<Option<Scramble>>],
        slots: usize,
        scrambles: &mut Vec<Scramble>,
    ) -> Result<(), u32>
        requires slots { slots ≡ slots_of jobs.now.round }
        requires few { slots ≤ 182 }
        requires places { slots ≤ length places.old }
        requires list { slots ≤ vec_capacity scrambles.old }
        requires lanes { (1 ≤ length lanes.old) × (length lanes.old ≤ 64) }
        requires room { All (HasRoom slots) lanes.old }
        ensures made { let settings = jobs.now.settings in
            let part = round_part jobs.now.index jobs.now.round in
            MatchResult result (λ _. AreScrambles settings part part.slots scrambles.new.items) (IsFirstWithout settings part) }
        ensures room { (slots : ℕ) → All (HasRoom slots) lanes.old → All (HasRoom slots) lanes.new }
        ensures list { vec_capacity scrambles.new ≡ vec_capacity scrambles.old }
    {
        let workers = lanes.len().min(slots).max(1);
        claim_slots(
            self.rt,
            word,
            &mut lanes[..workers],
            jobs,
            &mut places[..slots],
            self.gate,
        );
        take_scrambles(&mut places[..slots], scrambles)
    }
}

/// Moves the scrambles of answers, all of which are one, to a list that has room for them; or gives the first that is
/// none.
fn take_scrambles(
    answers: &mut [Option<Option<Scramble>>],
    scrambles: &mut Vec<Scramble>,
) -> Result<(), u32>
    requires few { length answers.old ≤ 182 }
    requires room { length answers.old ≤ vec_capacity scrambles.old }
    ensures taken { let all_answers = map option_flatten answers.old in
        MatchResult result (λ _. map Some scrambles.new.items ≡ all_answers) (IsFirstNone all_answers) }
    ensures room { vec_capacity scrambles.new ≡ vec_capacity scrambles.old }
{
    scrambles.clear();
    for k in 0..answers.len() {
        match answers[k].take().flatten() {
            Some(scramble) => scrambles.push_reserved(scramble),
            None => return Err(k as u32),
        }
    }
    Ok(())
}
