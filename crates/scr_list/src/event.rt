//! The events as lists and commands name them.

ghost use Rattle.std.specs.Prelude.{◌≡◌};
ghost use Rattle.scr_list.specs.Events.{event_named};

use scr_notation::Event;

/// The event that a word names by its id; `None` exactly where none has it.
pub fn event_named(word: &[u8]) -> Option<Event>
    ensures { result ≡ event_named word.now }
{
    match str::from_utf8(word) {
        Ok(id) => Event::from_id(id),
        Err(_) => None,
    }
}
