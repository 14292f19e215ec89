//! The tables of a family of events, by the type that holds them.

ghost use Rattle.std.specs.Prelude.{◌≡◌, ◌≤◌, All, IfErr, IfOk, IsSome, List};
ghost use Rattle.std.specs.Thread.{IsSync};
ghost use Rattle.scr_notation.specs.declared.event.Family.TheVariants.{Cube333, Square1};
ghost use Rattle.scr_small.specs.Tables.{small_line};
ghost use Rattle.scr_table.specs.Causes.{IsCauseOf};
ghost use Rattle.scr_table.specs.Lines.{HasNoGap, TableLine};
ghost use Rattle.scr_slots.specs.Families.{own_event};
ghost use Rattle.scr_slots.specs.TableLines.{family_lines};

use crate::cube_tables::CubeTables;
use scr_notation::{Event, Family};
use scr_small::SmallTables;
use scr_sq1solve::Sq1Tables;
use scr_table::BuildFault;
use std::alloc::Global;
use std::thread::Threads;

/// Built tables of a family of events.
pub(crate) trait FamilyTables: Sized {
    ghost use Rattle.scr_notation.specs.declared.event.Family.{Family as FamilyOf};

    /// The lines by which those of a family are built.
    ghost lines: { FamilyOf → List TableLine };

    /// Whether a family has such tables.
    ghost has_family: { FamilyOf → Type 0 } = { λ _. Unit {0} };

    /// Whether they are those of a family.
    ghost are_of: { Self → FamilyOf → Type 0 } = { λ _ _. Unit {0} };

    /// The tables of a family, built by 1 to 64 workers, or why one isn't built. They are made ready for so many slots.
    fn build<R: Threads + Sync>(
        rt: &R,
        alloc: Global,
        family: Family,
        slots: u32,
        workers: u32,
    ) -> Result<Self, BuildFault>
        requires shared { IsSync R.row }
        requires family { has_family family }
        requires workers { (1 ≤ workers) × (workers ≤ 64) }
        ensures made { IfOk result (λ tables. are_of tables family) }
        ensures whole { IfOk result (λ _. All HasNoGap (lines family)) }
        ensures cause { IfErr result (IsCauseOf (lines family)) };
}

impl FamilyTables for SmallTables {
    ghost lines = { family_lines };

    ghost has_family = { λ family. IsSome (small_line (own_event family)) };

    ghost are_of = { λ tables family. tables.event ≡ own_event family };

    fn build<R: Threads + Sync>(
        rt: &R,
        alloc: Global,
        family: Family,
        _slots: u32,
        workers: u32,
    ) -> Result<SmallTables, BuildFault> {
        SmallTables::build(rt, alloc, own_event(family), workers)
    }
}

/// The first event of a family.
fn own_event(family: Family) -> Event
    ensures { result ≡ own_event family }
{
    match family {
        Family::Cube222 => Event::C222,
        Family::Cube333 => Event::C333,
        Family::Pyraminx => Event::Pyram,
        Family::Skewb => Event::Skewb,
        Family::Square1 => Event::Sq1,
    }
}

impl FamilyTables for CubeTables {
    ghost lines = { λ _. family_lines Cube333 };

    fn build<R: Threads + Sync>(
        rt: &R,
        alloc: Global,
        _family: Family,
        slots: u32,
        workers: u32,
    ) -> Result<CubeTables, BuildFault> {
        CubeTables::build(rt, alloc, slots, workers)
    }
}

impl FamilyTables for Sq1Tables {
    ghost lines = { λ _. family_lines Square1 };

    #[tactic(auto, unfolding(crate::specs::TableLines::family_lines))]
    fn build<R: Threads + Sync>(
        rt: &R,
        alloc: Global,
        _family: Family,
        _slots: u32,
        workers: u32,
    ) -> Result<Sq1Tables, BuildFault> {
        Sq1Tables::build(rt, alloc, workers)
    }
}
