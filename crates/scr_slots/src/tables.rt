//! The tables of a list's events.

ghost use Rattle.std.specs.Prelude.{◌≡◌, ℕ, ◌≤◌, ◌↔◌, ◌∷◌, [], map, Contains, IfOk, IfSome, IfErr, IsSome, IsTrue};
ghost use Rattle.scr_notation.specs.declared.event.Event.{Event as EventOf};
ghost use Rattle.scr_notation.specs.Event.{family_of, greatest_of};
ghost use Rattle.scr_notation.specs.EventSets.{Has};
ghost use Rattle.scr_table.specs.SearchTables.{IsCauseAmong};
ghost use Rattle.scr_table.specs.TableStates.{AreWhole};
ghost use Rattle.scr_slots.specs.Events.{scrambling_of};
ghost use Rattle.scr_slots.specs.Slots.{IsDrawnFairly};
ghost use Rattle.scr_slots.specs.TableLines.{family_lines};
ghost use Rattle.scr_slots.specs.Tables.{IsBuildCause, asks_for, is_family, tables_asked, tables_for};

use crate::cube_tables::CubeTables;
use crate::families::FamilyTables;
use crate::laws::each_drawn_fairly;
use arrayvec::ArrayString;
use scr_list::Round;
use scr_notation::{Event, EventSet, Family};
use scr_small::SmallTables;
use scr_sq1solve::Sq1Tables;
use scr_table::BuildFault;
use std::alloc::Global;
use std::marker::Model;
use std::thread::Threads;

/// The tables of the events of a list, each built once, and of no others.
pub struct Tables {
    events: EventSet,
    pub(crate) of_222: Option<SmallTables>,
    pub(crate) of_333: Option<CubeTables>,
    pub(crate) of_pyram: Option<SmallTables>,
    pub(crate) of_skewb: Option<SmallTables>,
    pub(crate) of_sq1: Option<Sq1Tables>,
}

// Clauses see the set of the events for which they are built.
impl Model for Tables {
    ghost use Rattle.std.specs.Prelude.{List, Bool};

    ghost Value = { List Bool };

    ghost use Rattle.scr_notation.specs.declared.event.Family.TheVariants.{Cube222, Cube333, Pyraminx, Skewb, Square1};
    ghost use Rattle.scr_slots.specs.Families.{HoldsTable, HoldsTables};

    ghost view = { λ tables. tables.events };

    ghost invariant = { λ tables. HoldsTable tables.events Cube222 tables.of_222
        × HoldsTables tables.events Cube333 tables.of_333 × HoldsTable tables.events Pyraminx tables.of_pyram
        × HoldsTable tables.events Skewb tables.of_skewb × HoldsTables tables.events Square1 tables.of_sq1 };
}

// Not derived: a derived `Drop` drops part by part wherever tables are dropped, and this one is a single call.
impl Drop for Tables {
    fn drop(self) {
        let Tables {
            events: _,
            of_222: _,
            of_333: _,
            of_pyram: _,
            of_skewb: _,
            of_sq1: _,
        } = self;
    }
}

impl Tables {
    /// Builds the tables of the events of these rounds by 1 to 64 workers, each family's once, in the order of the
    /// families. None of them has a gap; where one has, it is that of the first table that has one. Memory can be
    /// wanting only where one of the events needs a table. Each event is then drawn fairly at each minimum of its
    /// range; of random moves this says that each of their steps is fair.
    pub fn build<R: Threads + Sync>(
        rt: &R,
        alloc: Global,
        rounds: &[Round],
        workers: u32,
    ) -> Result<Tables, BuildFault>
        requires workers { (1 ≤ workers) × (workers ≤ 64) }
        ensures events { IfOk result (λ tables.
            (event : EventOf) → Has tables event ↔ Contains (map (λ round. round.event) rounds.now) event) }
        ensures fair { IfOk result (λ tables. (event : EventOf) (least : ℕ) → Has tables event
            → least ≤ greatest_of event → IsDrawnFairly (scrambling_of event) least) }
        ensures no_gap { IfOk result (λ _. AreWhole (tables_for (map (λ round. round.event) rounds.now))) }
        ensures cause { IfErr result (IsBuildCause (map (λ round. round.event) rounds.now)) }
    {
        let of_222 = built(rt, alloc, rounds, Family::Cube222, workers)?;
        let of_333 = built(rt, alloc, rounds, Family::Cube333, workers)?;
        let of_pyram = built(rt, alloc, rounds, Family::Pyraminx, workers)?;
        let of_skewb = built(rt, alloc, rounds, Family::Skewb, workers)?;
        let of_sq1 = built(rt, alloc, rounds, Family::Square1, workers)?;
        let tables = Tables {
            events: events_of(rounds),
            of_222,
            of_333,
            of_pyram,
            of_skewb,
            of_sq1,
        };
        each_drawn_fairly(&tables);
        Ok(tables)
    }

    /// The tables of one event, built by one worker. It is then drawn fairly, as above.
    pub fn of_event<R: Threads + Sync>(
        rt: &R,
        alloc: Global,
        event: Event,
    ) -> Result<Tables, BuildFault>
        ensures event { IfOk result (λ tables. Has tables event) }
        ensures fair { IfOk result (λ _. (least : ℕ) → least ≤ greatest_of event
            → IsDrawnFairly (scrambling_of event) least) }
        ensures no_gap { IfOk result (λ _. AreWhole (tables_for (event ∷ []))) }
        ensures cause { IfErr result (IsBuildCause (event ∷ [])) }
    {
        Tables::build(
            rt,
            alloc,
            &[Round {
                event,
                groups: 1,
                least: 0,
                name: ArrayString::new(),
            }],
            1,
        )
    }

    /// Whether the list has a round of this event.
    pub fn has(&self, event: Event) -> bool
        ensures { IsTrue result ↔ Has self.now event }
    {
        self.events.contains(event)
    }
}

/// The events of these rounds.
fn events_of(rounds: &[Round]) -> EventSet
    ensures { (event : EventOf) → Has result event ↔ Contains (map (λ round. round.event) rounds.now) event }
{
    let mut events = EventSet::new();
    for round in rounds {
        events.insert(round.event);
    }
    events
}

/// Whether one of these rounds is of this family.
fn asks_for(rounds: &[Round], family: Family) -> bool
    ensures { result ≡ asks_for (map (λ round. round.event) rounds.now) family }
{
    for round in rounds {
        if is_of(round.event, family) {
            return true;
        }
    }
    false
}

/// How many slots these rounds have of this family.
fn slots_of(rounds: &[Round], family: Family) -> u32 {
    let mut slots: u32 = 0;
    for round in rounds {
        let event = round.event;
        if is_of(event, family) {
            let per_group = u32::from(event.per_group()) + 2;
            slots = slots.saturating_add(per_group.saturating_mul(u32::from(round.groups)));
        }
    }
    slots
}

/// Whether an event is of this family.
fn is_of(event: Event, family: Family) -> bool
    ensures { result ≡ is_family family (family_of event) }
{
    event.family() == Some(family)
}

/// The tables of a family, built by 1 to 64 workers, where one of these rounds is of it.
fn built<R: Threads + Sync, T: FamilyTables>(
    rt: &R,
    alloc: Global,
    rounds: &[Round],
    family: Family,
    workers: u32,
) -> Result<Option<T>, BuildFault>
    requires family { T.has_family family }
    requires lines { T.lines family ≡ family_lines family }
    requires workers { (1 ≤ workers) × (workers ≤ 64) }
    ensures built { let events = map (λ round. round.event) rounds.now in
        IfOk result (λ tables. IsTrue (asks_for events family) → IsSome tables) }
    ensures made { IfOk result (λ tables. IfSome tables (λ made. T.are_of made family)) }
    ensures whole { IfOk result (λ _. AreWhole (tables_asked (map (λ round. round.event) rounds.now) family)) }
    ensures cause { IfErr result (IsCauseAmong (tables_asked (map (λ round. round.event) rounds.now) family)) }
{
    if asks_for(rounds, family) {
        let tables = T::build(rt, alloc, family, slots_of(rounds, family), workers)?;
        Ok(Some(tables))
    } else {
        Ok(None)
    }
}
