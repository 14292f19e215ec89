//! What words ask for.

ghost use Rattle.std.specs.Prelude.{◌≡◌, IfOk, IfErr, Some, None, option_map, map};
ghost use Rattle.scr_options.specs.Split.{found_values};
ghost use Rattle.scr_pages.specs.Asked.{asked_for, asked_in, answer_of, group_of, has_pictures, read_value};
ghost use Rattle.scr_pages.specs.Words.{asked_of, RefusesWords};

use crate::fault::{Fault, fault_of_options};
use scr_options::{OptionForm, SplitOptions, split_options};
use scr_text::number_within;
use std::alloc::Global;

/// What the program is asked for.
#[derive(Clone, Copy, Debug)]
pub struct Asked<'w> {
    /// Pages as HTML, else as text.
    pub html: bool,
    /// The name of the competition; empty for none.
    pub name: &'w str,
    /// The number of a group of the sheet that is wanted alone, from 1.
    pub group: Option<u32>,
    /// Whether there are pictures, where that is said.
    pub pictures: Option<bool>,
    /// Whether Square-1s are held to the Regulations.
    pub regulations: bool,
}

impl<'w> Asked<'w> {
    /// Whether there are pictures: where nothing is said of them, in HTML and not in text.
    pub(crate) fn has_pictures(&self) -> bool
        ensures { result ≡ has_pictures (asked_of self.now) }
    {
        match self.pictures {
            Some(pictures) => pictures,
            None => self.html,
        }
    }
}

/// The options that there are.
const OPTIONS: [OptionForm; 5] = [
    OptionForm {
        name: "html",
        has_value: false,
    },
    OptionForm {
        name: "name",
        has_value: true,
    },
    OptionForm {
        name: "group",
        has_value: true,
    },
    OptionForm {
        name: "pictures",
        has_value: true,
    },
    OptionForm {
        name: "regulations",
        has_value: true,
    },
];

/// What words ask for, or why they weren't read.
pub(crate) fn asked_for<'w>(alloc: Global, words: &'w [&'w str]) -> Result<Asked<'w>, Fault>
    ensures asked { IfOk result (λ asked. asked_for (map (λ word. word.now) words.entry.now) ≡ Some (asked_of asked)) }
    ensures refused { IfErr result (λ why. RefusesWords (map (λ word. word.now) words.entry.now) why) }
{
    let split = match split_options(alloc, &OPTIONS, words) {
        Ok(split) => split,
        Err(why) => return Err(fault_of_options(why)),
    };
    asked_in(&split).ok_or(Fault::Usage)
}

/// What the values of options ask for; `None` where one of them is no value of its option.
fn asked_in<'w>(split: &SplitOptions<'w>) -> Option<Asked<'w>>
    ensures { option_map asked_of result ≡ asked_in (found_values split.now) }
{
    let group = group_in(split.value("group"))?;
    let pictures = answer_in(split.value("pictures"))?;
    let regulations = answer_in(split.value("regulations"))?;
    Some(Asked {
        html: split.value("html").is_some(),
        name: split.value("name").unwrap_or(""),
        group,
        pictures,
        regulations: regulations.unwrap_or(true),
    })
}

/// The number of a group, where one is given.
fn group_in(value: Option<&str>) -> Option<Option<u32>>
    ensures { result ≡ read_value group_of (option_map (λ text. text.now) value.entry) }
{
    match value {
        Some(word) => {
            let number = number_within(word.as_bytes(), 1, u32::MAX)?;
            Some(Some(number))
        }
        None => Some(None),
    }
}

/// The answer, where one is given.
fn answer_in(value: Option<&str>) -> Option<Option<bool>>
    ensures { result ≡ read_value answer_of (option_map (λ text. text.now) value.entry) }
{
    match value {
        Some("yes") => Some(Some(true)),
        Some("no") => Some(Some(false)),
        Some(_) => None,
        None => Some(None),
    }
}
