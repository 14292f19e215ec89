//! Move tables: where each turn leads from each position of a coordinate, in one flat list, turn after turn.
ghost use Rattle.std.specs.Prelude.{◌≡◌, ℕ, ◌+◌, ◌*◌, ◌<◌, ◌++◌, IfOk, OnOk, Some, length};
ghost use Rattle.scr_positions.specs.SearchSpaces.{ShowsSame};
ghost use Rattle.scr_positions.specs.Moves.{moves_coordinate, moves_row, each_below};

use crate::coordinate::{BARRED, Coord, NOWHERE};
use scr_outside::NoMemory;
use std::alloc::{AllocError, Global};
use std::marker::Model;

/// The moves of a coordinate, and its goals: a step is one look into a list. It shows the same coordinate.
pub struct MoveTable {
    count: u32,
    turns: u32,
    targets: Vec<u32>,
    goals: Vec<bool>,
}

// By hand, so that the proof of whoever lets one go meets one call, and not the letting go of each of its parts.
impl Drop for MoveTable {
    fn drop(self) {
        let MoveTable {
            count: _,
            turns: _,
            targets: _,
            goals: _,
        } = self;
    }
}

// Clauses see what it holds.
impl Model for MoveTable {
    ghost use Rattle.std.specs.Prelude.{◌≡◌, ◌*◌, length};
    ghost use Rattle.scr_positions.specs.Moves.{Moves};

    ghost Value = { Moves };

    ghost view = { λ m. record { count = m.count; turns = m.turns; targets = m.targets.items; goals = m.goals.items } };

    ghost invariant = { λ m. (length m.targets.items ≡ m.count * m.turns) × (length m.goals.items ≡ m.count) };
}

impl MoveTable {
    /// The moves of a coordinate, which is asked for each turn of each position. Only memory can be wanting.
    pub fn build<C: Coord>(alloc: Global, coord: &C) -> Result<MoveTable, NoMemory>
        ensures { IfOk result (λ table. ShowsSame (C.coordinate coord.now) (moves_coordinate table)) }
    {
        let count = coord.count();
        let turns = coord.turns();
        let mut targets = Vec::with_capacity(alloc, turns as usize * count as usize)?;
        for turn in 0..turns {
            push_targets(&mut targets, coord, turn)?;
        }
        let goals = goals_of(alloc, coord)?;
        Ok(MoveTable {
            count,
            turns,
            targets,
            goals,
        })
    }

    /// Where a turn leads from a position, if it is one and the turn is not barred there: else any number.
    #[inline]
    pub fn target(&self, position: u32, turn: u32) -> u32
        ensures { (next : ℕ) → (moves_coordinate self.now).after position turn ≡ Some next → result ≡ next }
    {
        match self
            .targets
            .get(turn as usize * self.count as usize + position as usize)
        {
            Some(target) => *target,
            None => 0,
        }
    }
}

/// Adds the targets of a turn from each position.
fn push_targets<C: Coord>(targets: &mut Vec<u32>, coord: &C, turn: u32) -> Result<(), AllocError>
    requires { turn < (C.coordinate coord.now).turns }
    ensures { let c = C.coordinate coord.now in
        OnOk result (targets.new.items ≡ targets.old.items ++ moves_row c turn c.count) }
{
    for position in 0..coord.count() {
        targets.push(coord.after(position, turn).unwrap_or(BARRED))?;
    }
    Ok(())
}

/// Whether each position is a goal.
fn goals_of<C: Coord>(alloc: Global, coord: &C) -> Result<Vec<bool>, AllocError>
    ensures { let c = C.coordinate coord.now in IfOk result (λ goals. goals.items ≡ each_below c.is_goal c.count) }
{
    let mut goals = Vec::with_capacity(alloc, coord.count() as usize)?;
    for position in 0..coord.count() {
        goals.push(coord.is_goal(position))?;
    }
    Ok(goals)
}

impl Coord for MoveTable {
    ghost use Rattle.scr_positions.specs.Moves.{moves_coordinate};

    ghost coordinate = { moves_coordinate };

    fn count(&self) -> u32 {
        self.count
    }

    fn turns(&self) -> u32 {
        self.turns
    }

    #[inline]
    fn after(&self, position: u32, turn: u32) -> Option<u32> {
        let target = self.targets[turn as usize * self.count as usize + position as usize];
        if target < self.count {
            Some(target)
        } else {
            None
        }
    }

    // The targets of a turn stand one after another.
    #[inline]
    fn look(&self, values: &[u8], start: u32, turn: u32, into: &mut [u8]) {
        let first = turn as usize * self.count as usize + start as usize;
        let targets = &self.targets[first..first + into.len()];
        for k in 0..into.len() {
            let target = targets[k] as usize;
            into[k] = if target < values.len() {
                values[target]
            } else {
                NOWHERE
            };
        }
    }

    #[inline]
    fn is_goal(&self, position: u32) -> bool {
        self.goals[position as usize]
    }
}
