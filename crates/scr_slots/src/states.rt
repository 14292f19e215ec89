//! The events whose states are drawn.

ghost use Rattle.std.specs.Prelude.{◌≡◌};
ghost use Rattle.scr_notation.specs.declared.event.Event.TheVariants.{Bf333, C222, C333, Fm333, Pyram};
ghost use Rattle.scr_notation.specs.declared.event.Event.TheVariants.{Clock as EventClock, Skewb as EventSkewb, Sq1 as EventSq1};
ghost use Rattle.scr_notation.specs.Written.{at_most};
ghost use Rattle.scr_combinatorics.specs.Play.{play};
ghost use Rattle.scr_orbit.specs.PowerPuzzles.{after_letter};
ghost use Rattle.scr_cube.specs.Cube222.{powers_222, solved_222};
ghost use Rattle.scr_cube.specs.Cube333.{cube_powers, solved_cube};
ghost use Rattle.scr_cube.specs.Held.{held_cube_after, solved_held};
ghost use Rattle.scr_tetra.specs.Pyraminx.{pyram_powers, solved_pyram};
ghost use Rattle.scr_tetra.specs.Skewb.{skewb_powers, solved_skewb};
ghost use Rattle.scr_clock.specs.Dials.{solved};
ghost use Rattle.scr_clock.specs.Held.{clock_after};
ghost use Rattle.scr_sq1.specs.Units.{solved_sq1, sq1_after};
ghost use Rattle.scr_sq1solve.specs.Counts.{IsWithinBounds};
ghost use Rattle.scr_clock.specs.Written.{IsClockScramble};
ghost use Rattle.scr_small.specs.Puzzles.{IsScramble222, IsScramblePyram, IsScrambleSkewb};
ghost use Rattle.scr_sq1solve.specs.ShortScrambles.{IsShortScramble};
ghost use Rattle.scr_twophase.specs.Fewest.{IsScrambleFewest};
ghost use Rattle.scr_twophase.specs.HeldScramble.{IsScramble333bf};
ghost use Rattle.scr_twophase.specs.TwoParts.{IsScramble333};
ghost use Rattle.scr_slots.specs.Events.{drawn_fewest};

use crate::cube_tables::CubeTables;
use crate::event::StateEvent;
use crate::settings::Effort;
use scr_clock::{Clock, ClockNumbers, laws as clock, scramble_clock};
use scr_cube::{Corners222, Cube, Held, Numbers222, PowerTurned, laws as cubes};
use scr_notation::Scramble;
use scr_small::{Small222, SmallPyram, SmallSkewb, SmallTables, laws as small};
use scr_sq1::Sq1;
use scr_sq1solve::{DrawSq1, Sq1Tables, laws as square, scramble_sq1_short};
use scr_stages::laws as stages;
use scr_tetra::{Pyraminx, Skewb, SkewbNumbers};
use scr_twophase::{
    Draw333, DrawFewest, DrawHeld, is_framed, scramble_333, scramble_333bf, scramble_333fm,
};

impl StateEvent for Small222<'_> {
    type Solver = SmallTables;

    ghost event = { C222 };

    ghost played = { play (after_letter powers_222) solved_222 };

    ghost is_within = { at_most 11 };

    ghost is_scramble = { λ _. IsScramble222 };

    ghost is_own = { λ tables. tables.event ≡ C222 };

    fn leads_to(&self, scramble: &Scramble, state: &Corners222) -> bool {
        Corners222::solved().play(scramble) == Some(*state)
    }

    fn scramble(&self, _tables: &SmallTables, state: &Corners222, _effort: Effort) -> Scramble {
        self.scramble(state)
    }

    fn is_reached(&self, tables: &SmallTables) {
        small::reached_by_table::<Numbers222>(tables);
    }
}

impl StateEvent for SmallPyram<'_> {
    type Solver = SmallTables;

    ghost event = { Pyram };

    ghost played = { play (after_letter pyram_powers) solved_pyram };

    ghost is_within = { at_most 15 };

    ghost is_scramble = { λ _. IsScramblePyram };

    ghost is_own = { λ tables. tables.event ≡ Pyram };

    fn leads_to(&self, scramble: &Scramble, state: &Pyraminx) -> bool {
        Pyraminx::solved().play(scramble) == Some(*state)
    }

    fn scramble(&self, _tables: &SmallTables, state: &Pyraminx, _effort: Effort) -> Scramble {
        self.scramble(state)
    }

    fn is_reached(&self, tables: &SmallTables) {
        small::pyram_reached_by_table(tables);
    }
}

impl StateEvent for SmallSkewb<'_> {
    type Solver = SmallTables;

    ghost event = { EventSkewb };

    ghost played = { play (after_letter skewb_powers) solved_skewb };

    ghost is_within = { at_most 11 };

    ghost is_scramble = { λ _. IsScrambleSkewb };

    ghost is_own = { λ tables. tables.event ≡ EventSkewb };

    fn leads_to(&self, scramble: &Scramble, state: &Skewb) -> bool {
        Skewb::solved().play(scramble) == Some(*state)
    }

    fn scramble(&self, _tables: &SmallTables, state: &Skewb, _effort: Effort) -> Scramble {
        self.scramble(state)
    }

    fn is_reached(&self, tables: &SmallTables) {
        small::reached_by_table::<SkewbNumbers>(tables);
    }
}

impl StateEvent for Draw333 {
    type Solver = CubeTables;

    ghost event = { C333 };

    ghost played = { play (after_letter cube_powers) solved_cube };

    ghost is_within = { at_most 52 };

    ghost is_scramble = { λ effort. IsScramble333 effort.tries };

    fn leads_to(&self, scramble: &Scramble, state: &Cube) -> bool {
        Cube::solved().play(scramble) == Some(*state)
    }

    fn scramble(&self, tables: &CubeTables, state: &Cube, effort: Effort) -> Scramble {
        scramble_333(&tables.prune, &tables.stages, state, effort.tries)
    }

    fn is_reached(&self, tables: &CubeTables) {
        stages::reached(&tables.stages);
    }
}

impl StateEvent for DrawHeld {
    type Solver = CubeTables;

    ghost event = { Bf333 };

    ghost played = { play held_cube_after solved_held };

    ghost is_within = { at_most 54 };

    ghost is_scramble = { λ effort. IsScramble333bf effort.tries };

    fn leads_to(&self, scramble: &Scramble, state: &Held) -> bool {
        Held::solved().play(scramble) == Some(*state)
    }

    fn scramble(&self, tables: &CubeTables, state: &Held, effort: Effort) -> Scramble {
        scramble_333bf(&tables.prune, &tables.stages, state, effort.tries)
    }

    fn is_reached(&self, tables: &CubeTables) {
        cubes::held_cubes();
        stages::reached(&tables.stages);
    }
}

impl StateEvent for DrawFewest {
    type Solver = CubeTables;

    ghost event = { Fm333 };

    ghost played = { drawn_fewest.played };

    ghost is_within = { at_most 58 };

    ghost is_scramble = { λ effort. IsScrambleFewest effort.tries };

    fn leads_to(&self, scramble: &Scramble, state: &Cube) -> bool {
        is_framed(scramble) && Cube::solved().play(scramble) == Some(*state)
    }

    fn scramble(&self, tables: &CubeTables, state: &Cube, effort: Effort) -> Scramble {
        scramble_333fm(&tables.prune, &tables.stages, state, effort.tries)
    }

    fn is_reached(&self, tables: &CubeTables) {
        stages::reached(&tables.stages);
    }
}

impl StateEvent for ClockNumbers {
    type Solver = ();

    ghost event = { EventClock };

    ghost played = { clock_after solved };

    ghost is_within = { at_most 15 };

    ghost is_scramble = { λ _. IsClockScramble };

    fn leads_to(&self, scramble: &Scramble, state: &Clock) -> bool {
        Clock::solved().play(scramble) == Some(*state)
    }

    fn scramble(&self, _solver: &(), state: &Clock, _effort: Effort) -> Scramble {
        scramble_clock(state)
    }

    fn is_reached(&self, _solver: &()) {
        clock::each_clock_is_reached();
    }
}

impl StateEvent for DrawSq1 {
    type Solver = Sq1Tables;

    ghost event = { EventSq1 };

    ghost played = { play sq1_after solved_sq1 };

    ghost is_within = { IsWithinBounds };

    ghost is_scramble = { λ effort. IsShortScramble effort.short };

    fn leads_to(&self, scramble: &Scramble, state: &Sq1) -> bool {
        Sq1::solved().play(scramble) == Some(*state)
    }

    fn scramble(&self, tables: &Sq1Tables, state: &Sq1, effort: Effort) -> Scramble {
        scramble_sq1_short(tables, state, effort.short)
    }

    fn is_reached(&self, tables: &Sq1Tables) {
        square::reached(tables);
    }
}
