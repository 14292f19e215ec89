//! What is known of the events: a call that does nothing, whose contract is the law.

ghost use Rattle.std.specs.Prelude.{◌≡◌, [], ◌∷◌, filter, map, codes, Some, None};
ghost use Rattle.std.specs.List.{join_with_byte};
ghost use Rattle.scr_notation.specs.declared.event.Event.TheVariants.{C222, Pyram, Skewb};
ghost use Rattle.scr_notation.specs.declared.event.Family.TheVariants as family;
ghost use Rattle.scr_notation.specs.declared.event.Puzzle.TheVariants as puzzle;
ghost use Rattle.scr_notation.specs.Event.{events, id_of, name_of, puzzle_of, per_group_of, greatest_of, usual_of, family_of, is_tested_by_table, net_side_of};

/// The events in the order of their numbers: how they are named, what is scrambled for them, how many scrambles a group
/// has, and how many turns from solved states are at least, usually and at most (0 for events without minima), by which
/// tables they are scrambled, which have states that are tested by a table, and how many layers the cube has whose net
/// is shown.
pub fn known_events()
    ensures ids { join_with_byte 32 (map id_of events)
        ≡ codes "222 333 333oh 555 666 777 clock minx pyram skewb sq1 333bf 333fm" }
    ensures names { join_with_byte 44 (map name_of events)
        ≡ codes "2x2x2 Cube,3x3x3 Cube,3x3x3 One-Handed,5x5x5 Cube,6x6x6 Cube,7x7x7 Cube,Clock,Megaminx,Pyraminx,Skewb,Square-1,3x3x3 Blindfolded,3x3x3 Fewest Moves" }
    ensures puzzles { map puzzle_of events
        ≡ puzzle.Cube222 ∷ puzzle.Cube333 ∷ puzzle.Cube333 ∷ puzzle.Cube555 ∷ puzzle.Cube666 ∷ puzzle.Cube777 ∷ puzzle.Clock
        ∷ puzzle.Megaminx ∷ puzzle.Pyraminx ∷ puzzle.Skewb ∷ puzzle.Square1 ∷ puzzle.Held333 ∷ puzzle.Fewest333 ∷ [] }
    ensures groups { map per_group_of events ≡ 5 ∷ 5 ∷ 5 ∷ 5 ∷ 3 ∷ 3 ∷ 5 ∷ 5 ∷ 5 ∷ 5 ∷ 5 ∷ 3 ∷ 3 ∷ [] }
    ensures usual { map usual_of events ≡ 4 ∷ 2 ∷ 2 ∷ 0 ∷ 0 ∷ 0 ∷ 2 ∷ 0 ∷ 6 ∷ 7 ∷ 2 ∷ 2 ∷ 2 ∷ [] }
    ensures greatest { map greatest_of events ≡ 11 ∷ 5 ∷ 5 ∷ 0 ∷ 0 ∷ 0 ∷ 3 ∷ 0 ∷ 15 ∷ 11 ∷ 4 ∷ 5 ∷ 5 ∷ [] }
    ensures families { map family_of events
        ≡ Some family.Cube222 ∷ Some family.Cube333 ∷ Some family.Cube333 ∷ None ∷ None ∷ None ∷ None ∷ None
        ∷ Some family.Pyraminx ∷ Some family.Skewb ∷ Some family.Square1 ∷ Some family.Cube333 ∷ Some family.Cube333 ∷ [] }
    ensures tested_by_table { filter is_tested_by_table events ≡ C222 ∷ Pyram ∷ Skewb ∷ [] }
    ensures sides { map net_side_of events ≡ Some 2 ∷ Some 3 ∷ Some 3 ∷ Some 5 ∷ Some 6 ∷ Some 7
        ∷ None ∷ None ∷ None ∷ None ∷ None ∷ None ∷ None ∷ [] }
{}
