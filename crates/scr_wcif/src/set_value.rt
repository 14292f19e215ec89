//! The sets of a round, as a file has them: as a value.

ghost use Rattle.std.specs.Prelude.{◌≡◌, map, IfOk, string_bytes};
ghost use Rattle.json.specs.Value.{value_view};
ghost use Rattle.scr_wcif.specs.Filling.{texts_of, set_of, sets_of};

use crate::adding::add;
use crate::set::ScrambleSet;
use json::Value;
use std::alloc::{AllocError, Global};

/// The value of these sets.
pub(crate) fn sets_of<'a>(alloc: Global, sets: &'a [ScrambleSet]) -> Result<Value<'a>, AllocError>
    ensures { IfOk result (λ value. value_view value ≡ sets_of sets.now) }
{
    let mut values = Vec::new(alloc);
    for set in sets {
        let value = set_of(alloc, set)?;
        add(&mut values, value)?;
    }
    Ok(Value::Array(values))
}

/// The value of a set.
fn set_of<'a>(alloc: Global, set: &'a ScrambleSet) -> Result<Value<'a>, AllocError>
    ensures { IfOk result (λ value. value_view value ≡ set_of set.now) }
{
    let scrambles = texts_of(alloc, &set.scrambles)?;
    let extras = texts_of(alloc, &set.extras)?;
    let mut members = Vec::new(alloc);
    add(&mut members, ("id", Value::Number(set.number.as_str())))?;
    add(&mut members, ("scrambles", scrambles))?;
    add(&mut members, ("extraScrambles", extras))?;
    Ok(Value::Object(members))
}

/// Texts as a list.
fn texts_of<'a>(alloc: Global, texts: &'a [String]) -> Result<Value<'a>, AllocError>
    ensures { IfOk result (λ list. value_view list ≡ texts_of (map string_bytes texts.now)) }
{
    let mut list = Vec::new(alloc);
    for text in texts {
        add(&mut list, Value::String(text.as_str()))?;
    }
    Ok(Value::Array(list))
}
