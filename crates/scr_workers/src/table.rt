//! The claim word.

ghost use Rattle.std.specs.Prelude.{◌≡◌};

use crate::rule::{ClaimRule, Claims};
use atomic_table::Table;
use std::alloc::Global;

/// One word that workers share, under the rule of claims. It is the number that the next claim gives.
#[derive(Drop)]
pub struct ClaimTable {
    pub(crate) table: Table<(), Claims, (), ClaimRule, Global>,
    pub(crate) ghost one_word: { table.shared.table_id.words ≡ 1 },
}
