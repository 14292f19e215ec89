//! Which rounds a file names.

ghost use Rattle.std.specs.Prelude.{◌≡◌, [], ◌+◌, ◌-◌, ◌*◌, ◌≤◌, map, length, IfOk, IfSome, OnOk};
ghost use Rattle.json.specs.Value.{value_view, items_view};
ghost use Rattle.scr_wcif.specs.FileRounds.{id_of_round, group_count, round_of_entry, rounds_of_entries};
ghost use Rattle.scr_wcif.specs.FileRounds.{is_left_out, stands_in, event_of_entry, rounds_of_events};
ghost use Rattle.scr_wcif.specs.FileRounds.{checked_event, rounds_of_file};
ghost use Rattle.scr_wcif.specs.Adding.{Adds, Gives, event_told, entry_told};
ghost use Rattle.scr_wcif.specs.declared.fault.FileFault.TheVariants.{Event};

use crate::adding::add;
use crate::fault::{EventCause, Fault, FileFault, RoundCause};
use crate::field::{list_at, text_at};
use crate::round::{FileRound, id_of_round, name_of_round};
use json::Value;
use scr_list::event_named;
use scr_text::number_within;
use std::alloc::Global;

/// An event of a file: its id, and the entries of its rounds.
#[derive(Clone, Copy)]
pub(crate) struct EventEntry<'v, 'a> {
    pub(crate) id: &'a str,
    pub(crate) rounds: &'v [Value<'a>],
}

/// The rounds that a file names, in its order, or the first cause why it names none.
#[tactic(auto, unfolding(crate::specs::FileRounds::rounds_of_file))]
pub fn rounds_of_file<'a>(alloc: Global, file: &Value<'a>) -> Result<Vec<FileRound<'a>>, Fault>
    ensures rounds { Gives (rounds_of_file (value_view file.now)) (λ named. named.items) result }
    ensures few { IfOk result (λ named. length named.items ≤ 68) }
{
    let events = list_at(file, "events").ok_or(FileFault::NoCompetition)?;
    let mut named = Vec::new(alloc);
    let mut before = Vec::new(alloc);
    push_events(alloc, 1, &mut before, events, &mut named)?;
    Ok(named)
}

/// Adds the rounds of these events, behind events with these ids. There are at most seventeen events, so it calls
/// itself at most as often.
fn push_events<'a>(
    alloc: Global,
    place: u32,
    before: &mut Vec<&'a str>,
    events: &[Value<'a>],
    named: &mut Vec<FileRound<'a>>,
) -> Result<(), Fault>
    requires { place ≤ 18 }
    ensures rounds { Adds (rounds_of_events place (map (λ id. id.now) before.old.items) (items_view events.now))
        named.old.items named.new.items result }
    ensures few { OnOk result (length named.new.items ≤ length named.old.items + 4 * (18 - place)) }
{
    match events {
        [] => Ok(()),
        [entry, rest @ ..] => {
            let event = event_of_entry(place, before, entry)?;
            push_rounds(
                alloc,
                place,
                event.id,
                event.rounds.len() as u32,
                1,
                event.rounds,
                named,
            )?;
            add(before, event.id)?;
            push_events(alloc, place + 1, before, rest, named)
        }
    }
}

/// The event that an entry tells, behind events with these ids.
fn event_of_entry<'v, 'a>(
    place: u32,
    before: &[&str],
    entry: &'v Value<'a>,
) -> Result<EventEntry<'v, 'a>, FileFault>
    requires { place ≤ 18 }
    ensures value { event_told result ≡ event_of_entry place (map (λ id. id.now) before.now) (value_view entry.now) }
    ensures few { IfOk result (λ event. (length event.rounds.now ≤ 4) × (place ≤ 17)) }
{
    if place > 17 {
        return Err(refused(place, EventCause::Many));
    }
    let shape = refused(place, EventCause::Shape);
    let id = text_at(entry, "id").ok_or(shape)?;
    let rounds = list_at(entry, "rounds").ok_or(shape)?;
    checked_event(place, before, EventEntry { id, rounds })
}

/// An event of the WCA with at most four rounds, which isn't one of those before it.
#[tactic(auto, using(crate::proofs::ItemLemmas::count_of_items))]
fn checked_event<'v, 'a>(
    place: u32,
    before: &[&str],
    told: EventEntry<'v, 'a>,
) -> Result<EventEntry<'v, 'a>, FileFault>
    ensures value { event_told result
        ≡ checked_event place (map (λ id. id.now) before.now) (entry_told told.entry) }
    ensures few { IfOk result (λ event. length event.rounds.now ≤ 4) }
{
    if event_named(told.id.as_bytes()).is_none() && !is_left_out(told.id) {
        return Err(refused(place, EventCause::Unknown));
    }
    if stands_in(before, told.id) {
        return Err(refused(place, EventCause::Twice));
    }
    if told.rounds.len() > 4 {
        return Err(refused(place, EventCause::Rounds));
    }
    Ok(told)
}

/// An entry of the events that is at fault.
fn refused(place: u32, cause: EventCause) -> FileFault
    ensures { result ≡ Event place cause }
{
    FileFault::Event {
        number: place,
        cause,
    }
}

fn is_left_out(id: &str) -> bool
    ensures { result ≡ is_left_out id.now }
{
    id == "444" || id == "444bf" || id == "555bf" || id == "333mbf"
}

/// Whether an id is one of these. It calls itself at most once for each.
fn stands_in(others: &[&str], id: &str) -> bool
    ensures { result ≡ stands_in (map (λ other. other.now) others.now) id.now }
{
    match others {
        [] => false,
        [other, rest @ ..] => *other == id || stands_in(rest, id),
    }
}

/// Adds these rounds of an event with this id, which is entry `place` of the events and has so many rounds.
fn push_rounds<'a>(
    alloc: Global,
    place: u32,
    id: &'a str,
    count: u32,
    number: u32,
    rounds: &[Value<'a>],
    named: &mut Vec<FileRound<'a>>,
) -> Result<(), Fault>
    requires { number + length rounds.now ≤ 5 }
    ensures rounds { Adds (rounds_of_entries place id.now count number (items_view rounds.now))
        named.old.items named.new.items result }
    ensures few { OnOk result (length named.new.items ≤ length named.old.items + length rounds.now) }
{
    match rounds {
        [] => Ok(()),
        [entry, rest @ ..] => {
            let round = round_of_entry(alloc, place, id, count, number, entry)?;
            add(named, round)?;
            push_rounds(alloc, place, id, count, number + 1, rest, named)
        }
    }
}

/// Round `number` of an event.
fn round_of_entry<'a>(
    alloc: Global,
    place: u32,
    id: &'a str,
    count: u32,
    number: u32,
    entry: &Value<'a>,
) -> Result<FileRound<'a>, Fault>
    ensures { Gives (round_of_entry place id.now count number (value_view entry.now)) (λ round. round) result }
{
    let wrong_id = FileFault::Round {
        event: place,
        number,
        cause: RoundCause::Id,
    };
    let told = text_at(entry, "id").ok_or(wrong_id)?;
    let own = id_of_round(alloc, id, number)?;
    if told != own.as_str() {
        return Err(Fault::Own(wrong_id));
    }
    let groups = group_count(entry).ok_or(FileFault::Round {
        event: place,
        number,
        cause: RoundCause::Groups,
    })?;
    Ok(FileRound {
        event: id,
        number,
        groups,
        name: name_of_round(count, number),
    })
}

/// The number of groups that a round has.
fn group_count(entry: &Value<'_>) -> Option<u8>
    ensures value { result ≡ group_count (value_view entry.now) }
    ensures range { IfSome result (λ groups. (1 ≤ groups) × (groups ≤ 26)) }
{
    let text = entry.get("scrambleSetCount")?.as_number()?;
    let count = number_within(text.as_bytes(), 1, 26)?;
    Some(count as u8)
}
