//! Words split into the values of options.
//!
//! A proof goes over the words, and relates what the parser holds after each of them to what the grammar has read. The
//! two words on which they differ, `-` and `--`, are refused before.

ghost use Rattle.std.specs.Prelude.{◌≡◌, ◌<◌, ℕ, IfOk, Some, None, length, true, false, option_map};
ghost use Rattle.std.specs.List.{list_any, slice_index_or};
ghost use Rattle.std.specs.Str.{IsUtf8};
ghost use Rattle.clap.specs.Words.{app_of, found_of, rule_of};
ghost use Rattle.scr_options.specs.Hyphens.{IsOrdinary, is_bare, is_nameless};
ghost use Rattle.scr_options.specs.OptionWords.{options_of};
ghost use Rattle.scr_options.specs.OptionsCommand.{options_app, raw_rule};
ghost use Rattle.scr_options.specs.Split.{found_values};
ghost use Rattle.scr_options.specs.Words.{texts, form_of, forms_of};

use clap::error::ErrorKind;
use clap::parser::ValueSource;
use clap::{Arg, ArgAction, ArgMatches, Command};
use std::alloc::{AllocError, Global};
use std::marker::Model;

/// An option that words may give.
#[derive(Clone, Copy, Debug, PartialEq, Eq)]
pub struct OptionForm {
    /// Its name, which words spell behind two hyphens.
    pub name: &'static str,
    /// Whether it has a value; one that has none is a flag.
    pub has_value: bool,
}

/// The values of options, as they were written.
#[derive(Drop)]
pub struct SplitOptions<'w> {
    matches: ArgMatches<'w>,
}

impl<'w> Model for SplitOptions<'w> {
    ghost use Rattle.clap.specs.Words.{found_of};
    ghost use Rattle.clap.specs.declared.parser.matches.Found.{Found};

    ghost Value = { Found };

    ghost view = { λ s. found_of s.matches };
}

impl<'w> SplitOptions<'w> {
    /// The value of an option, if it was given; that of a flag is `true`.
    pub fn value(&self, name: &str) -> Option<&'w str>
        ensures { option_map (λ text. text.now) result ≡ found_values self.now name.now }
    {
        match self.matches.value_source(name) {
            Some(ValueSource::CommandLine) => self.matches.get_str(name),
            _ => None,
        }
    }
}

/// Why words give no options.
#[derive(Debug, Clone, Copy, PartialEq, Eq)]
pub enum OptionsFault {
    /// The words aren't in the grammar.
    Usage,
    /// Memory ran out.
    NoMemory,
}

/// Splits words into the values of these options, in any order, each at most once.
///
/// A value is the next word, which doesn't begin with a hyphen, or stands in the same word after the first `=`, and is
/// then anything. A value may be empty. A flag has none.
///
/// Words outside of this grammar are refused as `Usage`. Want of memory is what the parser says: no clause of its own
/// ties that to a cause, so it may come with any words but those that are refused before it is called, among which a
/// lone `-` or `--` stands.
pub fn split_options<'w>(
    alloc: Global,
    forms: &[OptionForm],
    words: &'w [&'w str],
) -> Result<SplitOptions<'w>, OptionsFault>
    requires { list_any is_nameless (forms_of forms.now) ≡ false }
    ensures ok { IfOk result (λ values. options_of (forms_of forms.entry.now) (texts words.entry.now) ≡ Some (found_values values)) }
    ensures usage { result ≡ Err OptionsFault.Usage → options_of (forms_of forms.entry.now) (texts words.entry.now) ≡ None }
    ensures memory { result ≡ Err OptionsFault.NoMemory → list_any is_bare (texts words.entry.now) ≡ false }
{
    if has_bare_hyphens(words) {
        return Err(OptionsFault::Usage);
    }
    let Ok(command) = options_command(alloc, forms) else {
        return Err(OptionsFault::NoMemory);
    };
    match command.try_get_matches_from(words) {
        Ok(matches) => Ok(SplitOptions { matches }),
        Err(error) => match error.kind() {
            ErrorKind::OutOfMemory => Err(OptionsFault::NoMemory),
            _ => Err(OptionsFault::Usage),
        },
    }
}

// The command with these options. The first word is no program's name, and its own help and version flags are off.
fn options_command<'w>(alloc: Global, forms: &[OptionForm]) -> Result<Command<'w>, AllocError>
    ensures { IfOk result (λ command. app_of command ≡ options_app (forms_of forms.entry.now)) }
{
    let mut command = Command::new(alloc, "options")
        .no_binary_name(true)
        .disable_help_flag(true)
        .disable_version_flag(true);
    for form in forms {
        command = command.arg(option_arg(alloc, *form))?;
    }
    Ok(command)
}

// An option whose long name is its id.
fn option_arg<'w>(alloc: Global, form: OptionForm) -> Arg<'w>
    ensures rule { rule_of result ≡ raw_rule (form_of form) }
    ensures local { result.global ≡ false }
{
    let id: &'w str = form.name;
    let action = if form.has_value {
        ArgAction::Set
    } else {
        ArgAction::SetTrue
    };
    Arg::new(alloc, id).long(id).action(action)
}

// Whether a word is a lone hyphen, which the parser takes as a value, or two, which it takes as the
// end of the options. The grammar has neither.
fn has_bare_hyphens(words: &[&str]) -> bool
    ensures found { result ≡ true → list_any is_bare (texts words.now) ≡ true }
    ensures none { result ≡ false → (k : ℕ) → (d : _) → k < length words.now
        → IsOrdinary (slice_index_or words.now k d).now }
{
    for word in words {
        if is_bare(word) {
            return true;
        }
    }
    false
}

fn is_bare(word: &str) -> bool
    ensures bare { result ≡ is_bare word.now }
    ensures text { IsUtf8 word.now }
{
    word == "-" || word == "--"
}
