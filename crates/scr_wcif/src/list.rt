//! The list of the rounds that a file names.

ghost use Rattle.std.specs.Prelude.{◌≡◌, ◌+◌, ◌≤◌, [], ◌∷◌, ◌++◌, All, Ok, length, OnOk, IfOk, string_bytes};
ghost use Rattle.scr_list.specs.Rounds.{rounds_of};
ghost use Rattle.scr_list.specs.RoundLists.{IsRounds};
ghost use Rattle.scr_list.specs.Printed.{without_minima, round_line, name_behind_colon, text_of_rounds};
ghost use Rattle.scr_list.specs.Versions.{version_2};
ghost use Rattle.scr_wcif.specs.Listed.{HasUsual, left_out_text, IsListOf};

use crate::adding::add;
use crate::round::FileRound;
use scr_list::Round;
use scr_text::decimal;
use scr_text_laws::list;
use std::alloc::{AllocError, Global};

/// The list of these rounds: those of them whose events the program has.
pub(crate) fn list_of(alloc: Global, named: &[FileRound<'_>]) -> Result<String, AllocError>
    requires { length named.now ≤ 256 }
    ensures { IfOk result (λ text. IsListOf named.now (string_bytes text)) }
{
    let mut rounds = Vec::new(alloc);
    for round in named {
        let Some(listed) = round.listed() else {
            continue;
        };
        add(&mut rounds, listed)?;
    }
    list_text(alloc, &rounds)
}

/// The text of a list, which names just these rounds.
fn list_text(alloc: Global, rounds: &[Round]) -> Result<String, AllocError>
    requires listed { IsRounds rounds.now }
    requires usual { All HasUsual rounds.now }
    ensures written { IfOk result (λ text. string_bytes text ≡ text_of_rounds version_2 without_minima rounds.now) }
    ensures read_back { IfOk result (λ text. rounds_of (string_bytes text) ≡ Ok rounds.now) }
{
    list::reads_back(rounds);
    let mut text = String::from_str(alloc, "version 2\n")?;
    for round in rounds {
        push_line(round, &mut text)?;
    }
    Ok(text)
}

/// Adds the line of a round.
fn push_line(round: &Round, text: &mut String) -> Result<(), AllocError>
    ensures { OnOk result (string_bytes text.new ≡ string_bytes text.old ++ (round_line without_minima round.now ++ 10 ∷ [])) }
{
    text.push_str(round.event.id())?;
    text.push_str(" ")?;
    text.push_str(decimal(u32::from(round.groups)).as_str())?;
    push_name(round.name.as_str(), text)?;
    text.push_str("\n")
}

/// Adds a name behind its colon, where there is one.
fn push_name(name: &str, text: &mut String) -> Result<(), AllocError>
    ensures { OnOk result (string_bytes text.new ≡ string_bytes text.old ++ name_behind_colon name.now) }
{
    if name.is_empty() {
        return Ok(());
    }
    text.push_str(": ")?;
    text.push_str(name)
}

/// What is told of those of these rounds whose events the program hasn't.
pub(crate) fn left_out(alloc: Global, named: &[FileRound<'_>]) -> Result<String, AllocError>
    ensures { IfOk result (λ text. string_bytes text ≡ left_out_text named.now) }
{
    let mut text = String::new(alloc);
    for round in named {
        round.tell_left_out(&mut text)?;
    }
    Ok(text)
}
