//! What goes wrong in a run.

ghost use Rattle.std.specs.Prelude.{◌≡◌};
ghost use Rattle.scr_pages.specs.Words.{fault_of_options};

use scr_options::OptionsFault;
use scr_read::SheetFault;

/// Why a sheet has no pages. Its lines are counted from 1.
#[derive(Clone, Copy, Debug, PartialEq, Eq)]
pub enum PageFault {
    /// It is none.
    Sheet(SheetFault),
    /// In the scramble of this line a turn of a Square-1 is barred.
    Barred(u32),
    /// It hasn't the group that is asked for, but only so many.
    NoGroup(u32),
    /// Fewer than eleven turns solve the Square-1 of this line.
    Near(u32),
}

/// What went wrong in a run.
pub type Fault = scr_host::Fault<PageFault>;

/// The fault of a run whose words gave no options.
pub(crate) fn fault_of_options(why: OptionsFault) -> Fault
    ensures { result ≡ fault_of_options why }
{
    match why {
        OptionsFault::Usage => Fault::Usage,
        OptionsFault::NoMemory => Fault::NoMemory,
    }
}
