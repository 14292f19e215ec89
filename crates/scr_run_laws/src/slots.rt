//! What holds of slots whatever the code: calls that do nothing, whose contracts are the laws.

ghost use Rattle.std.specs.Prelude.{ℕ};
ghost use Rattle.scr_notation.specs.declared.event.Event.{Event as EventOf};
ghost use Rattle.scr_notation.specs.declared.event.Family.{Family as FamilyOf};
ghost use Rattle.scr_slots.specs.Events.{scrambling_of};
ghost use Rattle.scr_slots.specs.Outcomes.{HasOneAnswer, HasOneListing};
ghost use Rattle.scr_slots.specs.TableLines.{family_lines};
ghost use Rattle.scr_slots.specs.Tables.{family_tables};
ghost use Rattle.scr_table.specs.TableStates.{AreLinesOf, EachSeesAlike};

/// What a slot of an event has does not depend on how it is found: it has one answer.
pub fn one_answer()
    ensures { (event : EventOf) (least : ℕ) → HasOneAnswer (scrambling_of event) least }
{}

/// The states of an event that are drawn have one listing by their numbers, up to what stands behind their count: what
/// a slot draws, and that it is drawn fairly, does not depend on it.
pub fn one_listing()
    ensures { (event : EventOf) → HasOneListing (scrambling_of event) }
{}

/// The tables of each family, as their states tell them, are those of the lines by which they are built. It makes no
/// difference of which state with a number they tell: each number below a table's count is that of some state of which
/// the table speaks, and all those with one number have the same words to goals, and the same distances.
pub fn tables_told_by_states()
    ensures lines { (family : FamilyOf) → AreLinesOf (family_tables family) (family_lines family) }
    ensures alike { (family : FamilyOf) → EachSeesAlike (family_tables family) }
{}
