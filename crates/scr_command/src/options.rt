//! The options of commands, and the numbers that a run is made with.

ghost use Rattle.std.specs.Prelude.{◌≡◌};
ghost use Rattle.scr_options.specs.OptionWords.{valued};
ghost use Rattle.scr_options.specs.Words.{form_of, forms_of};
ghost use Rattle.scr_command.specs.OptionTable.{option_row, sheet_options, check_options};

use scr_options::OptionForm;

/// The name of the option that gives the seed.
pub(crate) const SEED: &str = "seed";

/// An option that sets a number.
#[derive(Clone, Copy, Debug, PartialEq, Eq)]
pub enum OptionName {
    /// How many workers draw.
    Workers,
    /// How many first parts the solver of a 3x3x3 tries.
    Tries,
    /// How many attempts the draw of a slot has.
    Attempts,
    /// How many ways to the square shape the solver of a Square-1 tries.
    Short,
}

/// The numbers that an option may set.
#[derive(Clone, Copy, Debug, PartialEq, Eq)]
pub struct Range {
    /// The least.
    pub least: u32,
    /// The greatest.
    pub greatest: u32,
    /// The number where the option isn't there.
    pub usual: u32,
}

impl OptionName {
    /// Its name, which words spell behind two hyphens.
    pub fn name(self) -> &'static str
        ensures { result.now ≡ (option_row self).name }
    {
        match self {
            OptionName::Workers => "workers",
            OptionName::Tries => "tries",
            OptionName::Attempts => "attempts",
            OptionName::Short => "short",
        }
    }

    /// The numbers that it may set.
    pub fn range(self) -> Range
        ensures { result ≡ (option_row self).range }
    {
        let (least, greatest, usual) = match self {
            OptionName::Workers => (1, 64, 1),
            OptionName::Tries => (0, 100_000, 2000),
            OptionName::Attempts => (1, 1_000_000, 1000),
            OptionName::Short => (1, 1000, 1),
        };
        Range {
            least,
            greatest,
            usual,
        }
    }
}

/// An option with a value.
fn valued(name: &'static str) -> OptionForm
    ensures { form_of result ≡ valued name.now }
{
    OptionForm {
        name,
        has_value: true,
    }
}

/// The options of the command `sheet`.
pub(crate) fn sheet_options() -> [OptionForm; 5]
    ensures { forms_of result ≡ sheet_options }
{
    [
        valued(SEED),
        valued(OptionName::Workers.name()),
        valued(OptionName::Tries.name()),
        valued(OptionName::Attempts.name()),
        valued(OptionName::Short.name()),
    ]
}

/// The options of the command `check`.
pub(crate) fn check_options() -> [OptionForm; 2]
    ensures { forms_of result ≡ check_options }
{
    [valued(SEED), valued(OptionName::Attempts.name())]
}

/// How a sheet is made. The numbers never change a state that is drawn, but for the attempts, which may end a draw.
#[derive(Clone, Copy, Debug, PartialEq, Eq)]
pub struct Options {
    /// How many workers draw, from 1 to 64. They change nothing of what is written.
    pub workers: u32,
    /// How many first parts the solver of a 3x3x3 tries, up to 100,000.
    pub tries: u32,
    /// How many attempts the draw of a slot has, from 1 to 1,000,000.
    pub attempts: u32,
    /// How many ways to the square shape the solver of a Square-1 tries, from 1 to 1,000: the shortest solution among
    /// them gives the scramble.
    pub short: u32,
}

impl Default for Options {
    ghost use Rattle.std.specs.Prelude.{◌≡◌};
    ghost use Rattle.scr_command.specs.Command.{usual_options};

    ghost is_default = { λ options. options ≡ usual_options };

    /// One worker, 2,000 tries, 1,000 attempts, one way to the square shape.
    fn default() -> Options {
        Options {
            workers: OptionName::Workers.range().usual,
            tries: OptionName::Tries.range().usual,
            attempts: OptionName::Attempts.range().usual,
            short: OptionName::Short.range().usual,
        }
    }
}
