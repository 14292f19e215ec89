//! The states near solved.
ghost use Rattle.std.specs.Prelude.{◌≡◌, ◌+◌, ◌-◌, ◌<◌, Some, ◌≤◌, ◌↔◌, IsTrue, OnOk, nat_eq};
ghost use Rattle.std.specs.HashMap.{get};
ghost use Rattle.scr_combinatorics.specs.Reach.{Needs};
ghost use Rattle.scr_sq1.specs.Units.{Sq1State, IsSq1, sq1_puzzle};
ghost use Rattle.scr_sq1far.specs.Found.{AreFound, FindsMore, level_in};
ghost use Rattle.scr_sq1far.specs.Levels.{TellNeeds, AreLevels, AreTold, AreTurnsListed, HasLevel, key_of};
ghost use Rattle.scr_sq1far.specs.Within.{IsWithin};

use crate::keys::key_of;
use scr_outside::NoMemory;
use scr_sq1::{Sq1, TURNS};
use std::alloc::Global;
use std::collections::HashMap;

/// How many turns away from solved the states are that have a level.
const REACH: u8 = 6;

/// The 92,316 states from which at most six turns lead to solved, each with the least number of these.
#[derive(Drop)]
pub(crate) struct Levels {
    levels: HashMap<u128, u8>,
    ghost exact: { TellNeeds 7 (get nat_eq levels) },
}

impl Levels {
    /// The levels, one after another. Only memory can be wanting.
    pub fn build(alloc: Global) -> Result<Levels, NoMemory> {
        let mut found = Found {
            levels: HashMap::new(alloc),
            states: Vec::new(alloc),
        };
        let solved = Sq1::solved();
        found.add(&solved, 0)?;
        for level in 0..REACH {
            found.add_level(level)?;
        }
        Ok(Levels {
            levels: found.levels,
        })
    }

    /// Whether a state needs at least so many turns, up to seven.
    #[inline]
    pub fn needs(&self, state: &Sq1, least: u32) -> bool
        requires { least ≤ 7 }
        ensures exact { IsTrue result ↔ Needs sq1_puzzle state.now least }
        ensures valid { IsSq1 state.now }
    {
        match self.levels.get(&key_of(state)) {
            Some(level) => least <= u32::from(*level),
            None => true,
        }
    }
}

/// The levels that are found so far, and the states that have one, in the order in which they were found.
#[derive(Drop)]
struct Found {
    levels: HashMap<u128, u8>,
    states: Vec<Sq1>,
}

impl Found {
    /// Adds the states of the next level, to which a turn leads from those that are listed.
    fn add_level(&mut self, level: u8) -> Result<(), NoMemory>
        requires level { level < 6 }
        requires listed { AreFound level self.old }
        requires exact { AreLevels level (level_in self.old) }
        ensures listed { OnOk result (AreFound (level + 1) self.new) }
        ensures exact { OnOk result (AreLevels (level + 1) (level_in self.new)) }
    {
        let end = self.states.len();
        for place in 0..end {
            let state = self.states[place];
            self.add_neighbours(&state, level + 1)?;
        }
        Ok(())
    }

    /// Adds each state to which a turn leads from this one.
    ///
    /// Where a twist leads to one that has no level yet, the way from here to solved begins with a turn of the layers.
    /// Then other such turns lead to no state that is farther than this one, so that the twist alone is left.
    fn add_neighbours(&mut self, state: &Sq1, level: u8) -> Result<(), NoMemory>
        requires near { IsWithin sq1_puzzle state.now (level - 1) }
        requires level { 0 < level }
        requires told { AreTold (level - 1) (level_in self.old) }
        requires listed { AreFound level self.old }
        ensures found { OnOk result (FindsMore level self.old self.new) }
        ensures turns { OnOk result (AreTurnsListed level (level_in self.new) state.now 144) }
    {
        if level == 1 {
            return self.add_turns(state, level);
        }
        let twisted = state.twist();
        if self.levels.contains_key(&key_of(&twisted)) {
            return self.add_turns(state, level);
        }
        self.add(&twisted, level)
    }

    /// Adds each state to which a turn leads from this one, turn by turn, unless it is barred.
    fn add_turns(&mut self, state: &Sq1, level: u8) -> Result<(), NoMemory>
        requires near { IsWithin sq1_puzzle state.now (level - 1) }
        requires level { 0 < level }
        requires listed { AreFound level self.old }
        ensures found { OnOk result (FindsMore level self.old self.new) }
        ensures turns { OnOk result (AreTurnsListed level (level_in self.new) state.now 144) }
    {
        for turn in 0..TURNS {
            if let Some(next) = state.turn_at(turn) {
                self.add(&next, level)?;
            }
        }
        Ok(())
    }

    /// Adds a state that has this level, unless it has one already.
    fn add(&mut self, state: &Sq1, level: u8) -> Result<(), NoMemory>
        requires near { IsWithin sq1_puzzle state.now level }
        requires listed { AreFound level self.old }
        ensures found { OnOk result (FindsMore level self.old self.new) }
        ensures added { OnOk result (HasLevel level (level_in self.new) (key_of state.now)) }
    {
        let key = key_of(state);
        if self.levels.contains_key(&key) {
            return Ok(());
        }
        if self.levels.insert(key, level).is_err() {
            return Err(NoMemory);
        }
        if self.states.push(*state).is_err() {
            return Err(NoMemory);
        }
        Ok(())
    }
}
