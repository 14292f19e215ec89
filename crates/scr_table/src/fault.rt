//! Why a table can't be built.

ghost use Rattle.std.specs.Prelude.{◌≡◌};

use crate::name::TableName;
use scr_outside::NoMemory;
use std::alloc::AllocError;

/// Why a table isn't built.
#[derive(Clone, Copy, Debug, PartialEq, Eq)]
pub enum BuildFault {
    /// There is no memory for it.
    NoMemory,
    /// No word of at most so many turns as its bound leads from position `index` to a goal, and this is the table's
    /// first such position.
    Gap { table: TableName, index: u32 },
}

impl From<AllocError> for BuildFault {
    ghost use Rattle.scr_table.specs.declared.fault.BuildFault.TheVariants.{NoMemory as Wanting};

    ghost from_gives = { λ _ fault. fault ≡ Wanting };

    fn from(_error: AllocError) -> BuildFault {
        BuildFault::NoMemory
    }
}

impl From<NoMemory> for BuildFault {
    ghost use Rattle.scr_table.specs.declared.fault.BuildFault.TheVariants.{NoMemory as Wanting};

    ghost from_gives = { λ _ fault. fault ≡ Wanting };

    fn from(_wanting: NoMemory) -> BuildFault {
        BuildFault::NoMemory
    }
}
