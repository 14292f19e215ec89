//! A file with the sets of its rounds.

ghost use Rattle.std.specs.Prelude.{◌≡◌, ◌≤◌, All, map, position, IfOk, option_map, option_and_then, codes};
ghost use Rattle.std.specs.Str.{bytes_eq};
ghost use Rattle.json.specs.Value.{value_view, members_view};
ghost use Rattle.json.specs.Tree.{depth, HasNumbers};
ghost use Rattle.json.specs.Json.{max_depth};
ghost use Rattle.scr_wcif.specs.Sets.{SetsHaveNumbers};
ghost use Rattle.scr_wcif.specs.Filling.{with_member, with_field, sets_at, filled_round, each_item, changed_members, changed_along, filled};
ghost use Rattle.json.specs.Json.{object};
ghost use Rattle.scr_wcif.specs.Fields.{text_at};

use crate::adding::add;
use crate::field::text_at;
use crate::set::{RoundSets, ScrambleSet};
use crate::set_value::sets_of;
use json::Value;
use std::alloc::{AllocError, Global};

/// The file in which each round has the sets that stand under its id.
pub(crate) fn filled<'a>(
    alloc: Global,
    file: Value<'a>,
    rounds: &[RoundSets<'a>],
) -> Result<Value<'a>, AllocError>
    requires { All SetsHaveNumbers rounds.now }
    ensures value { IfOk result (λ new. value_view new ≡ filled rounds.now (value_view file.entry)) }
    ensures writable { HasNumbers (value_view file.entry) → IfOk result (λ new. HasNumbers (value_view new)) }
    ensures nests { depth (value_view file.entry) ≤ max_depth → IfOk result (λ new. depth (value_view new) ≤ max_depth) }
{
    changed_along(alloc, &["events", "rounds"], file, rounds)
}

/// A value in which the rounds within lists at these keys have their sets.
#[cycle(filled)]
fn changed_along<'a>(
    alloc: Global,
    keys: &[&str],
    value: Value<'a>,
    rounds: &[RoundSets<'a>],
) -> Result<Value<'a>, AllocError>
    ensures { IfOk result (λ changed. value_view changed
        ≡ changed_along (map (λ key. key.now) keys.now) (filled_round rounds.now) (value_view value.entry)) }
{
    match keys {
        [] => filled_round(alloc, value, rounds),
        [key, rest @ ..] => match value {
            Value::Object(members) => changed_members(alloc, key, rest, members, rounds),
            other => Ok(other),
        },
    }
}

/// An object of these members, where what stands at the key is changed.
#[cycle(filled)]
fn changed_members<'a>(
    alloc: Global,
    key: &str,
    keys: &[&str],
    members: Vec<(&'a str, Value<'a>)>,
    rounds: &[RoundSets<'a>],
) -> Result<Value<'a>, AllocError>
    ensures { IfOk result (λ changed. value_view changed
        ≡ object (changed_members key.now (changed_along (map (λ key. key.now) keys.now) (filled_round rounds.now))
        (members_view members.entry.items))) }
{
    let mut changed = Vec::new(alloc);
    for (name, value) in members {
        let value = if name == key {
            each_item(alloc, keys, value, rounds)?
        } else {
            value
        };
        add(&mut changed, (name, value))?;
    }
    Ok(Value::Object(changed))
}

/// A list of which each item is changed.
#[cycle(filled)]
fn each_item<'a>(
    alloc: Global,
    keys: &[&str],
    list: Value<'a>,
    rounds: &[RoundSets<'a>],
) -> Result<Value<'a>, AllocError>
    ensures { IfOk result (λ changed. value_view changed
        ≡ each_item (changed_along (map (λ key. key.now) keys.now) (filled_round rounds.now)) (value_view list.entry)) }
{
    match list {
        Value::Array(items) => {
            let mut changed = Vec::new(alloc);
            for item in items {
                let item = changed_along(alloc, keys, item, rounds)?;
                add(&mut changed, item)?;
            }
            Ok(Value::Array(changed))
        }
        other => Ok(other),
    }
}

/// A round with the sets that stand under its id, if any do.
fn filled_round<'a>(
    alloc: Global,
    round: Value<'a>,
    rounds: &[RoundSets<'a>],
) -> Result<Value<'a>, AllocError>
    ensures { IfOk result (λ filled. value_view filled ≡ filled_round rounds.now (value_view round.entry)) }
{
    match sets_of_round(&round, rounds) {
        Some(sets) => with_field(round, "scrambleSets", sets_of(alloc, sets)?),
        None => Ok(round),
    }
}

/// The sets that stand under a round's id.
fn sets_of_round<'a>(round: &Value<'a>, rounds: &[RoundSets<'a>]) -> Option<&'a [ScrambleSet]>
    ensures { option_map (λ sets. sets.now) result
        ≡ option_and_then (sets_at rounds.now) (text_at (codes "id") (value_view round.now)) }
{
    let id = text_at(round, "id")?;
    for given in rounds {
        if given.id.as_str() == id {
            return Some(given.sets);
        }
    }
    None
}

/// An object with this value at a key.
fn with_field<'a>(
    value: Value<'a>,
    key: &'static str,
    new: Value<'a>,
) -> Result<Value<'a>, AllocError>
    ensures { IfOk result (λ with. value_view with ≡ with_field key.now (value_view new.entry) (value_view value.entry)) }
{
    match value {
        Value::Object(members) => with_member(members, key, new),
        other => Ok(other),
    }
}

/// An object of these members, with this value at a key.
fn with_member<'a>(
    mut members: Vec<(&'a str, Value<'a>)>,
    key: &'static str,
    new: Value<'a>,
) -> Result<Value<'a>, AllocError>
    ensures { IfOk result (λ with. value_view with
        ≡ object (with_member key.now (value_view new.entry) (members_view members.entry.items))) }
{
    match place_of(&members, key) {
        Some(place) => {
            members[place].1 = new;
            Ok(Value::Object(members))
        }
        None => {
            add(&mut members, (key, new))?;
            Ok(Value::Object(members))
        }
    }
}

/// The place of the first member with this key.
fn place_of(members: &[(&str, Value<'_>)], key: &str) -> Option<usize>
    ensures { result ≡ position (λ member. bytes_eq member.0.now key.now) members.now }
{
    members.iter().position(|member| member.0 == key)
}
