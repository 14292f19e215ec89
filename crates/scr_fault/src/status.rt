//! How runs end.

ghost use Rattle.std.specs.Prelude.{◌≡◌};
ghost use Rattle.scr_fault.specs.Status.{code_of, status_of};

use crate::fault::Fault;
use scr_list::ListFault;

/// How a run ended.
#[derive(Clone, Copy, Debug, PartialEq, Eq)]
pub enum Status {
    /// All was written.
    Done,
    /// The words are no command.
    Usage,
    /// The input is no round list.
    List,
    /// A slot's attempts gave no permitted state.
    DrawLimit,
    /// The input could not be read.
    ReadFault,
    /// The output could not be written.
    WriteFault,
    /// Want of memory.
    NoMemory,
    /// A table has a gap.
    Gap,
    /// A line of a sheet that is checked differs from the one that is expected.
    Differs,
}

impl Status {
    /// The status of a run that ended so.
    pub fn of(ended: Result<(), Fault>) -> Status
        ensures { result ≡ status_of ended }
    {
        match ended {
            Ok(()) => Status::Done,
            Err(Fault::Usage(_)) => Status::Usage,
            Err(Fault::List(ListFault::Read)) => Status::ReadFault,
            Err(Fault::List(_)) => Status::List,
            Err(Fault::DrawLimit(_)) => Status::DrawLimit,
            Err(Fault::Write) => Status::WriteFault,
            Err(Fault::NoMemory) => Status::NoMemory,
            Err(Fault::Gap { .. }) => Status::Gap,
            Err(Fault::Differs { .. }) => Status::Differs,
        }
    }

    /// The exit code of the program.
    pub fn code(self) -> u8
        ensures { result ≡ code_of self }
    {
        match self {
            Status::Done => 0,
            Status::Usage => 2,
            Status::List => 3,
            Status::DrawLimit => 4,
            Status::ReadFault => 5,
            Status::WriteFault => 6,
            Status::NoMemory => 7,
            Status::Gap => 8,
            Status::Differs => 9,
        }
    }
}
