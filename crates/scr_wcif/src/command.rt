//! What words ask for.

ghost use Rattle.std.specs.Prelude.{◌≡◌, map};
ghost use Rattle.scr_wcif.specs.Outcome.{command_of};

/// What the program is asked for.
#[derive(Clone, Copy, Debug, PartialEq, Eq)]
pub enum Command {
    /// The list of a file's rounds.
    List,
    /// A file with the scrambles of the sheet behind it.
    Fill,
}

/// The command that words are; `None` where they are none.
pub(crate) fn command_of(words: &[&str]) -> Option<Command>
    ensures { result ≡ command_of (map (λ word. word.now) words.now) }
{
    match words {
        [word] if *word == "list" => Some(Command::List),
        [word] if *word == "fill" => Some(Command::Fill),
        _ => None,
    }
}
