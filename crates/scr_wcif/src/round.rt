//! The rounds that a file names.

ghost use Rattle.std.specs.Prelude.{◌≡◌, ◌++◌, IfOk, OnOk, string_bytes};
ghost use Rattle.scr_list.specs.Names.{IsName};
ghost use Rattle.scr_wcif.specs.FileRounds.{id_of_round, name_of_round};

use arrayvec::ArrayString;
use scr_list::{Round, event_named};
use scr_text::decimal;
use std::alloc::{AllocError, Global};
use std::marker::Model;

/// A round as a file names it.
#[derive(Debug, Drop)]
pub struct FileRound<'a> {
    /// The id of its event.
    pub event: &'a str,
    /// Which round of the event it is, from 1.
    pub number: u32,
    /// How many groups of competitors it has, from 1 to 26.
    pub groups: u8,
    /// How it is called.
    pub name: &'static str,
}

// Clauses see the texts, and not the references to them.
impl<'a> Model for FileRound<'a> {
    ghost use Rattle.scr_wcif.specs.FileRound.{NamedRound};

    ghost Value = { NamedRound };

    ghost view = { λ r. record { event = r.event.now; number = r.number; groups = r.groups; name = r.name.now } };

    ghost use Rattle.scr_wcif.specs.FileRound.{IsNamed};

    ghost invariant = { λ r. IsNamed r.groups r.name.now };
}

impl<'a> FileRound<'a> {
    ghost use Rattle.std.specs.Prelude.{IfSome};
    ghost use Rattle.scr_list.specs.Rounds.{IsRound};
    ghost use Rattle.scr_wcif.specs.Listed.{HasUsual, listed_round, left_out_text_of, left_out_line, named_line};

    /// The round that a list names for it, where the program has its event.
    pub fn listed(&self) -> Option<Round>
        ensures value { result ≡ listed_round self.now }
        ensures valid { IfSome result IsRound }
        ensures usual { IfSome result HasUsual }
    {
        let event = event_named(self.event.as_bytes())?;
        let mut name = ArrayString::new();
        name.push_str(self.name);
        let least = match event.minima() {
            Some(minima) => minima.usual,
            None => 0,
        };
        Some(Round {
            event,
            groups: self.groups,
            least,
            name,
        })
    }

    /// Tells it behind a text, where the program hasn't its event.
    pub(crate) fn tell_left_out(&self, text: &mut String) -> Result<(), AllocError>
        ensures { OnOk result (string_bytes text.new ≡ string_bytes text.old ++ left_out_text_of self.now) }
    {
        if event_named(self.event.as_bytes()).is_some() {
            Ok(())
        } else {
            self.push_left_out_line(text)
        }
    }

    /// Adds the line that tells of it.
    fn push_left_out_line(&self, text: &mut String) -> Result<(), AllocError>
        ensures { OnOk result (string_bytes text.new ≡ string_bytes text.old ++ left_out_line self.now) }
    {
        text.push_str("scramble-wcif: left out: ")?;
        self.push_line(text)?;
        text.push_str("\n")
    }

    /// Adds its event, its groups and its name.
    fn push_line(&self, text: &mut String) -> Result<(), AllocError>
        ensures { OnOk result (string_bytes text.new ≡ string_bytes text.old ++ named_line self.now) }
    {
        text.push_str(self.event)?;
        text.push_str(" ")?;
        text.push_str(decimal(u32::from(self.groups)).as_str())?;
        text.push_str(": ")?;
        text.push_str(self.name)
    }
}

/// The id of a round in a file.
pub(crate) fn id_of_round(alloc: Global, event: &str, number: u32) -> Result<String, AllocError>
    ensures { IfOk result (λ id. string_bytes id ≡ id_of_round event.now number) }
{
    let mut id = String::from_str(alloc, event)?;
    id.push_str("-r")?;
    id.push_str(decimal(number).as_str())?;
    Ok(id)
}

/// How this round of an event is called that has so many, at most four.
pub(crate) fn name_of_round(count: u32, number: u32) -> &'static str
    ensures value { result.now ≡ name_of_round count number }
    ensures name { IsName result.now }
{
    if number == count {
        "Final"
    } else if number == 3 {
        "Semi-final"
    } else if number == 2 {
        "Second round"
    } else {
        "First round"
    }
}
