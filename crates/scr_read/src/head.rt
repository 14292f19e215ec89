//! The heads of rounds.

ghost use Rattle.std.specs.Prelude.{◌≡◌, ◌<◌, ◌≤◌, true, List, ℕ, IfSome, IsNone};
ghost use Rattle.scr_notation.specs.Event.{greatest_of};
ghost use Rattle.scr_text.specs.Lines.{has_bytes};
ghost use Rattle.scr_list.specs.Names.{IsName};
ghost use Rattle.scr_round.specs.Round.{own_name_text};
ghost use Rattle.scr_read.specs.Heads.{HeadOf};
ghost use Rattle.scr_read.specs.Reading.{IsHeading};

use crate::lines::behind;
use crate::piece::Head;
use arrayvec::ArrayString;
use scr_list::{NAME_ROOM, Round, name_of};
use scr_notation::{EVENTS, Event};
use scr_round::heading;

/// What a line tells that is the head of round `index`, counted from 0. It is held against what each event's head with
/// each minimum begins with.
pub(crate) fn read_head(index: u32, line: &[u8]) -> Option<Head>
    requires { index < 256 }
    ensures found { IfSome result (λ head. IsHeading index line.now head) }
    ensures none { IsNone result → (head : HeadOf) → IsHeading index line.now head → ⊥ }
{
    for number in 0..EVENTS.len() {
        if let Some(head) = read_head_of(index, EVENTS[number], line) {
            return Some(head);
        }
    }
    None
}

/// The same of a round of this event.
fn read_head_of(index: u32, event: Event, line: &[u8]) -> Option<Head>
    requires { index < 256 }
    ensures found { IfSome result (λ head. IsHeading index line.now head) }
    ensures none { IsNone result → (head : HeadOf) → head.event ≡ event → IsHeading index line.now head → ⊥ }
{
    let greatest = match event.minima() {
        Some(minima) => minima.greatest,
        None => 0,
    };
    for least in 0..greatest + 1 {
        if let Some(name) = read_name(index, event, least, line) {
            return Some(Head { event, least, name });
        }
    }
    None
}

/// The name in the head of a round of this event with this minimum.
#[tactic(auto, using(crate::proofs::Cited::read_name))]
fn read_name(index: u32, event: Event, least: u8, line: &[u8]) -> Option<ArrayString<NAME_ROOM>>
    requires index { index < 256 }
    requires least { least ≤ greatest_of event }
    ensures found { IfSome result (λ name.
        IsHeading index line.now (record { event = event; least = least; name = name.bytes })) }
    ensures none { IsNone result → (name : List ℕ)
        → IsHeading index line.now (record { event = event; least = least; name = name }) → ⊥ }
{
    let unnamed = Round {
        event,
        groups: 1,
        least,
        name: ArrayString::new(),
    };
    let front = heading(index, &unnamed);
    match behind(front.as_str(), line) {
        Some(text) => own_name(text),
        None => None,
    }
}

/// The name that a head ends with, where it has one.
fn own_name(text: &[u8]) -> Option<ArrayString<NAME_ROOM>>
    ensures found { IfSome result (λ name.
        (text.now ≡ own_name_text name.bytes) × (has_bytes name.bytes ≡ true → IsName name.bytes)) }
    ensures none { IsNone result → (name : List ℕ) → (has_bytes name ≡ true → IsName name)
        → text.now ≡ own_name_text name → ⊥ }
{
    if text.is_empty() {
        return Some(ArrayString::new());
    }
    let name = behind(", ", text)?;
    let own = name_of(name)?;
    if name[0] == b' ' || name[name.len() - 1] == b' ' {
        return None;
    }
    Some(own)
}
