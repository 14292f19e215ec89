//! What the grammar and the words of the contracts mean: calls that do nothing, whose contracts are
//! laws about the definitions alone.

ghost use Rattle.std.specs.Prelude.{◌≡◌, ℕ, ◌<◌, ◌≤◌, ◌+◌, Some, Ok, Err, List, [], ◌∷◌, length, codes, Result, All};
ghost use Rattle.scr_outside.specs.Change.{Change};
ghost use Rattle.scr_outside.specs.Faults.{last_count};
ghost use Rattle.scr_notation.specs.declared.event.Event.TheVariants.{Clock};
ghost use Rattle.scr_list.specs.declared.round.Round.{Round};
ghost use Rattle.scr_list.specs.declared.fault.ListFault.{ListFault};
ghost use Rattle.scr_list.specs.declared.fault.ListFault.TheVariants.{Read, TooLong, Line};
ghost use Rattle.scr_list.specs.declared.fault.ListCause.TheVariants.{Words, Event, Groups, Name};
ghost use Rattle.scr_list.specs.Versions.{version_1, version_2, version_of};
ghost use Rattle.scr_list.specs.Printed.{text_of_rounds, with_minima, without_minima};
ghost use Rattle.scr_notation.specs.Event.{usual_of};
ghost use Rattle.scr_list.specs.Reading.{ReadsList, ReadsNoList};
ghost use Rattle.scr_text_laws.specs.ListFaults.{IsAnswer};
ghost use Rattle.scr_list.specs.Rounds.{rounds_of};
ghost use Rattle.scr_list.specs.RoundLists.{IsRounds};

use scr_list::Round;

/// Rounds that are written a line each, as the event's id, the groups, the minimum where the event has one, and the
/// name where the round has one, below the line of the second version, are a list that names just these rounds. So
/// are those without names, of which there are at most 64, in the first version. Where each round has the usual
/// minimum of its event, the minima may be left out in both.
pub fn reads_back(rounds: &[Round])
    requires { IsRounds rounds.now }
    ensures second { rounds_of (text_of_rounds version_2 with_minima rounds.now) ≡ Ok rounds.now }
    ensures second_usual { All (λ round. round.least ≡ usual_of round.event) rounds.now
        → rounds_of (text_of_rounds version_2 without_minima rounds.now) ≡ Ok rounds.now }
    ensures first { length rounds.now ≤ 64 → All (λ round. round.name ≡ []) rounds.now
        → rounds_of (text_of_rounds version_1 with_minima rounds.now) ≡ Ok rounds.now }
    ensures first_usual { length rounds.now ≤ 64 → All (λ round. round.name ≡ []) rounds.now
        → All (λ round. round.least ≡ usual_of round.event) rounds.now
        → rounds_of (text_of_rounds version_1 without_minima rounds.now) ≡ Ok rounds.now }
{}

/// A list that was read is all that its source had, where that is told, and nothing is left; no read of it failed, and
/// the source told its end once.
pub fn lists_that_were_read()
    ensures whole { (change : Change) (list : List ℕ) (answer : Result (List Round) ListFault)
        → ReadsList change answer → change.bytes_before ≡ Some list
        → (rounds_of list ≡ answer) × (change.bytes_after ≡ Some []) }
    ensures no_fault { (change : Change) (answer : Result (List Round) ListFault) → ReadsList change answer
        → change.faults_after ≡ change.faults_before }
    ensures one_end { (change : Change) (answer : Result (List Round) ListFault) → ReadsList change answer
        → change.ends_before < last_count → change.ends_after ≡ change.ends_before + 1 }
{}

/// A list is too long only where a source gave one byte more than a list of its version may have: 4,097 in the first
/// version, and 16,385 in the second. Where a source failed, its count of faults rose, and it gave no more bytes than
/// that.
pub fn lists_that_were_not_read()
    ensures long_first { (change : Change) (limit : ℕ) (before after : List ℕ) → ReadsNoList change (TooLong limit)
        → change.bytes_before ≡ Some before → change.bytes_after ≡ Some after → version_of before ≡ version_1
        → (limit ≡ 4096) × (length before ≡ length after + 4097) }
    ensures long_second { (change : Change) (limit : ℕ) (before after : List ℕ) → ReadsNoList change (TooLong limit)
        → change.bytes_before ≡ Some before → change.bytes_after ≡ Some after → version_of before ≡ version_2
        → (limit ≡ 16384) × (length before ≡ length after + 16385) }
    ensures part_first { (change : Change) (before after : List ℕ) → ReadsNoList change Read
        → change.bytes_before ≡ Some before → change.bytes_after ≡ Some after → version_of before ≡ version_1
        → length before ≤ length after + 4097 }
    ensures part_second { (change : Change) (before after : List ℕ) → ReadsNoList change Read
        → change.bytes_before ≡ Some before → change.bytes_after ≡ Some after → version_of before ≡ version_2
        → length before ≤ length after + 16385 }
    ensures rose { (change : Change) → ReadsNoList change Read → change.faults_after < last_count
        → change.faults_before < change.faults_after }
{}

/// Lists of which each rule of blanks, lines and ranges is told by a row: tabs and a space about the words, a carriage
/// return at a line's end, an empty line that is counted, and groups past the last letter.
#[tactic(auto, unfolding(crate::proofs::ListOnLiterals::lists_on_literals))]
pub fn known_lists()
    ensures tabs { rounds_of (codes "\tclock\t\t1 ")
        ≡ Ok (record { event = Clock; groups = 1; least = 2; name = [] } ∷ []) }
    ensures carriage_return { rounds_of (codes "clock 1\r\n")
        ≡ Ok (record { event = Clock; groups = 1; least = 2; name = [] } ∷ []) }
    ensures too_many_groups { rounds_of (codes "\n333 27") ≡ Err (Line 2 Groups) }
    ensures no_name { rounds_of (codes "clock 1 : Final") ≡ Err (Line 1 Words) }
{}

/// Rows of the second version: names with blanks about them and with a colon inside, lines with a colon that lack a
/// name or words, and first lines that tell no version.
#[tactic(auto, unfolding(crate::proofs::ListOnLiterals::lists_on_literals))]
pub fn known_lists_with_names()
    ensures name { rounds_of (codes "version 2\r\n\nclock 1 :\tFinal: A \r\n")
        ≡ Ok (record { event = Clock; groups = 1; least = 2; name = codes "Final: A" } ∷ []) }
    ensures beside { rounds_of (codes "version 2\nclock 1:F\nclock 2")
        ≡ Ok (record { event = Clock; groups = 1; least = 2; name = codes "F" }
        ∷ record { event = Clock; groups = 2; least = 2; name = [] } ∷ []) }
    ensures empty_name { rounds_of (codes "version 2\nclock 1 :") ≡ Err (Line 2 Name) }
    ensures a_tab_inside { rounds_of (codes "version 2\nclock 1 : A\tB") ≡ Err (Line 2 Name) }
    ensures no_words { rounds_of (codes "version 2\n: Final") ≡ Err (Line 2 Words) }
    ensures no_rounds { rounds_of (codes "version 2") ≡ Ok [] }
    ensures another_version { rounds_of (codes "version 3") ≡ Err (Line 1 Event) }
    ensures a_return_alone { rounds_of (codes "version 2\r") ≡ Err (Line 1 Event) }
    ensures a_blank_behind { rounds_of (codes "version 2 \n") ≡ Err (Line 1 Event) }
{}

/// What a list comes to. Where it isn't too long, each of its lines is skipped or names a round, by an event, 1 to 26
/// groups, a minimum in the event's range or none, and in the second version a name or none, and these are the rounds
/// that it names; or the first line that is neither, or that names one round too many, is told with the first cause
/// that applies to it.
///
/// A list comes to nothing else.
pub fn answers()
    ensures answer { (bytes : List ℕ) → IsAnswer bytes (rounds_of bytes) }
    ensures only { (bytes : List ℕ) (answer : Result (List Round) ListFault) → IsAnswer bytes answer
        → rounds_of bytes ≡ answer }
{}
