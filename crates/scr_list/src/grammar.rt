//! The grammar of lists.

ghost use Rattle.std.specs.Prelude.{◌≡◌, ◌≢◌, ◌≤◌, length, option_copied, option_map, IfOk, IfErr, IfSome, Ok, if◌then◌else◌};
ghost use Rattle.scr_list.specs.declared.fault.ListFault.TheVariants.{Read};
ghost use Rattle.scr_text.specs.Parts.{more_lines};
ghost use Rattle.scr_list.specs.Rounds.{rounds_of, rounds_of_lines, round_of_line, named_round};
ghost use Rattle.scr_list.specs.Rounds.{round_name, least_of};
ghost use Rattle.scr_list.specs.declared.fault.ListCause.TheVariants.{Words};
ghost use Rattle.scr_list.specs.RoundLists.{IsRounds};
ghost use Rattle.scr_list.specs.Reading.{listed};

use crate::event::event_named;
use crate::fault::{ListCause, ListFault};
use crate::name::{NAME_ROOM, name_of, parted, trimmed};
use crate::round::Round;
use crate::version::{ROUND_ROOM, Version, version_of};
use arrayvec::{ArrayString, ArrayVec};
use scr_notation::Minima;
use scr_text::{number_within, split_line, word_at};

/// The rounds that a list names, in its order, or why it is refused: `TooLong` and `Line` exactly by
/// the grammar; `Read` never comes. It takes no memory.
pub fn rounds_of(bytes: &[u8]) -> Result<ArrayVec<Round, ROUND_ROOM>, ListFault>
    ensures answer { listed result ≡ rounds_of bytes.now }
    ensures rounds { IfOk result (λ rounds. IsRounds rounds.items) }
    ensures no_read { IfErr result (λ fault. fault ≢ Read) }
{
    let version = version_of(bytes);
    if bytes.len() > version.most_bytes as usize {
        return Err(ListFault::TooLong {
            limit: version.most_bytes,
        });
    }
    if version.has_version_line {
        let (_version_line, lines) = split_line(bytes);
        rounds_of_lines(version, lines, 2)
    } else {
        rounds_of_lines(version, Some(bytes), 1)
    }
}

/// The rounds that the lines of a text name in a list of this version, where the first of them is the
/// first or second of the list.
fn rounds_of_lines(
    version: Version,
    text: Option<&[u8]>,
    first: u32,
) -> Result<ArrayVec<Round, ROUND_ROOM>, ListFault>
    requires room { version.most_rounds ≤ ROUND_ROOM }
    requires short { IfSome text (λ bytes. length bytes.now ≤ 16384) }
    requires first { first ≤ 2 }
    ensures { listed result ≡ rounds_of_lines version 0 first (more_lines (option_copied text.entry)) }
{
    let mut rounds = ArrayVec::new();
    let mut rest = text;
    let mut number = first;
    'lines: while let Some(left) = rest {
        let (line, others) = split_line(left);
        let named = match round_of_line(version, line, rounds.len()) {
            Ok(named) => named,
            Err(cause) => return Err(ListFault::Line { number, cause }),
        };
        if let Some(round) = named {
            rounds.push(round);
        }
        rest = others;
        number += 1;
    }
    Ok(rounds)
}

/// The round that a line of a list of this version names where this many rounds stand before it, and
/// where it has words.
fn round_of_line(version: Version, line: &[u8], before: usize) -> Result<Option<Round>, ListCause>
    ensures { result ≡ round_of_line version before line.now }
{
    let (told, name) = parted(version.takes_names, line);
    let Some(event) = word_at(told, 0) else {
        return match name {
            None => Ok(None),
            Some(_) => Err(ListCause::Words),
        };
    };
    let Some(groups) = word_at(told, 1) else {
        return Err(ListCause::Words);
    };
    let least = word_at(told, 2);
    if let Some(_more) = word_at(told, 3) {
        return Err(ListCause::Words);
    }
    let round = named(event, groups, least, name)?;
    if before < version.most_rounds {
        Ok(Some(round))
    } else {
        Err(ListCause::Rounds)
    }
}

/// The round that two or three words and a name tell, or the first cause why they tell none.
fn named(
    event: &[u8],
    groups: &[u8],
    least: Option<&[u8]>,
    name: Option<&[u8]>,
) -> Result<Round, ListCause>
    ensures { result ≡ named_round event.now groups.now (option_copied least.entry) (option_copied name.entry) }
{
    if event == b"444".as_slice() {
        return Err(ListCause::No444);
    }
    let event = event_named(event).ok_or(ListCause::Event)?;
    let groups = number_within(groups, 1, 26).ok_or(ListCause::Groups)?;
    let least = minimum(event.minima(), least).ok_or(ListCause::Minimum)?;
    let name = round_name(name).ok_or(ListCause::Name)?;
    Ok(Round {
        event,
        groups: groups as u8,
        least,
        name,
    })
}

/// The minimum of a round: what its third word says, or the usual one where it has none.
fn minimum(minima: Option<Minima>, word: Option<&[u8]>) -> Option<u8>
    ensures { result ≡ least_of minima (option_copied word.entry) }
{
    match (minima, word) {
        (None, None) => Some(0),
        (None, Some(_)) => None,
        (Some(minima), None) => Some(minima.usual),
        (Some(minima), Some(word)) => {
            let least = number_within(word, 0, u32::from(minima.greatest))?;
            Some(least as u8)
        }
    }
}

/// The name of a round: what follows its line's colon, without the blanks at both ends, or none where it has no colon.
#[tactic(auto, unfolding(crate::specs::Names::name_in))]
fn round_name(text: Option<&[u8]>) -> Option<ArrayString<NAME_ROOM>>
    ensures { option_map (λ name. name.bytes) result ≡ round_name (option_copied text.entry) }
{
    match text {
        None => Some(ArrayString::new()),
        Some(text) => name_of(trimmed(text)),
    }
}
