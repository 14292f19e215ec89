//! Tables by their names.
ghost use Rattle.std.specs.Prelude.{◌↔◌, map, IfSome, IsSome};
ghost use Rattle.scr_table.specs.Lines.{HasNamed, IsFirstNamed};

use crate::name::TableName;
use crate::table::DistanceTable;

/// The first of some tables that has this name. `None` comes exactly where none has it.
pub fn table_named<'a>(tables: &[&'a DistanceTable], name: TableName) -> Option<&'a DistanceTable>
    ensures found { IsSome result ↔ HasNamed (map (λ table. table.now) tables.now) name }
    ensures first { IfSome result (λ found. IsFirstNamed (map (λ table. table.now) tables.now) name found.now) }
{
    for table in tables {
        if table.name() == name {
            return Some(table);
        }
    }
    None
}
