//! Tables that are built one after another, and stand together.

use crate::name::TableName;
use crate::table::DistanceTable;

/// The built tables of some lines.
pub trait TableSet: Sized {
    ghost use Rattle.std.specs.Prelude.{◌↔◌, List, IfSome, IsSome};
    ghost use Rattle.scr_table.specs.Distances.{Distances};
    ghost use Rattle.scr_table.specs.Lines.{TableLine, AreTablesOf, HasNamed, IsFirstNamed};

    /// Their lines, in the order in which they are built.
    ghost lines: { List TableLine };

    /// What stands in them, in the same order.
    ghost distances: { Self → List Distances };

    /// The built table of this name. `None` comes exactly where none of them has it.
    fn table(&self, name: TableName) -> Option<&DistanceTable>
        ensures found { IsSome result ↔ HasNamed (distances self.now) name }
        ensures first { IfSome result (λ found. IsFirstNamed (distances self.now) name found.now) }
        ensures built { AreTablesOf lines (distances self.now) };
}
