//! The value that bytes are.

ghost use Rattle.std.specs.Prelude.{◌≤◌};
ghost use Rattle.json.specs.Json.{max_depth};
ghost use Rattle.json.specs.Tree.{depth, HasNumbers};
ghost use Rattle.json.specs.Value.{value_view};
ghost use Rattle.scr_wcif.specs.Reading.{IsFile, IsNoFile};
ghost use Rattle.scr_wcif.specs.Adding.{IsAnswer};
ghost use Rattle.std.specs.Prelude.{IfOk};

use crate::fault::{Fault, FileFault};
use json::{Error, MAX_DEPTH, Reader, Scratch, Value};
use std::alloc::Global;

/// The JSON value whose text these bytes are, where no object in it has a key twice.
pub(crate) fn value_of<'a>(
    alloc: Global,
    bytes: &'a [u8],
    scratch: &'a mut Scratch,
) -> Result<Value<'a>, Fault>
    ensures file { IsAnswer (λ value. IsFile bytes.now (value_view value)) (IsNoFile bytes.now) result }
    ensures writable { IfOk result (λ value. HasNumbers (value_view value)) }
    ensures nests { IfOk result (λ value. depth (value_view value) ≤ max_depth) }
{
    let text = match str::from_utf8(bytes) {
        Ok(text) => text,
        Err(error) => {
            let place = counted(error.valid_up_to());
            return Err(Fault::Own(FileFault::NoText { place }));
        }
    };
    match Value::parse_strict(alloc, text, scratch) {
        Ok(value) => Ok(value),
        Err(Error::Invalid) => {
            // No contract says more of where the reader stops.
            let mut skipping = Scratch::new(alloc);
            let mut reader = Reader::new(text, &mut skipping)?;
            let _ = reader.skip_value(MAX_DEPTH);
            let place = counted(reader.offset());
            Err(Fault::Own(FileFault::NoJson { place }))
        }
        Err(Error::DuplicateKey) => Err(Fault::Own(FileFault::KeyTwice)),
        Err(_) => Err(Fault::NoMemory),
    }
}

/// A place, as far as it fits.
fn counted(place: usize) -> u32 {
    place.min(u32::MAX as usize) as u32
}
