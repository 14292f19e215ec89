//! A small table's text, against lines written by hand.

ghost use Rattle.std.specs.Prelude.{◌/◌, ◌-◌, ◌==◌, Some, None, if◌then◌else◌};

use scr_outside::MemSink;
use scr_positions::Coord;
use scr_table::{DistanceTable, TableName};
use scr_table_text::write_tables;
use std::test::Fail;

/// A tree of seven positions: the one turn leads to the parent, and the goal is the root.
struct Tree;

impl Coord for Tree {
    ghost coordinate = { λ _. record {
      count = 7;
      turns = 1;
      after = λ p t. if p == 0 then None else Some ((p - 1) / 2);
      is_goal = λ p. p == 0;
    } };

    fn count(&self) -> u32 {
        7
    }

    fn turns(&self) -> u32 {
        1
    }

    fn after(&self, position: u32, _turn: u32) -> Option<u32> {
        if position == 0 {
            None
        } else {
            Some((position - 1) / 2)
        }
    }

    fn is_goal(&self, position: u32) -> bool {
        position == 0
    }
}

#[test]
fn texts(rt: HostRuntime) -> Result<(), Fail> {
    let mut out = MemSink::new(rt.alloc(), 256, 5, Vec::new(rt.alloc()))?;
    write_tables(&mut out, &[])?;
    if let Ok(table) = DistanceTable::build(&rt, rt.alloc(), TableName::Pyramid, &Tree, 12, 1) {
        write_tables(&mut out, &[&table, &table])?;
    }
    let text = "no tables\ntable pyramid positions 7 bound 12\n0 1\n1 2\n2 4\n\
        table pyramid positions 7 bound 12\n0 1\n1 2\n2 4\n";
    assert_eq!(&rt; out.contents(), text.as_bytes());
    Ok(())
}
