//! What holds of sheets and of runs whatever the code: calls that do nothing, whose contracts are laws about the
//! definitions of `scr_sheet` alone; in [`slots`] about those of `scr_slots`.
//!
//! A list has one sheet, and a run that nothing hinders ends with the whole of it; what each status tells of its cause;
//! that want of memory tells nothing of what is drawn; and that the program's own sheet agrees. No program stands on
//! this crate: the gate proves it beside the tests of runs, and a build leaves it out.
#![tactic(auto)]

ghost use Rattle.std.specs.Prelude.{◌≡◌, ◌≢◌, ◌<◌, ◌≤◌, ◌⊎◌, ℕ, List, [], ◌∷◌, ◌++◌, map, length, sum_by, All, IsTrue, IsSome, Option, Some, Result, Ok, Err};
ghost use Rattle.scr_outside.specs.Change.{Change, Falters, IsUnchanged};
ghost use Rattle.scr_outside.specs.Faults.{Rose};
ghost use Rattle.scr_combinatorics.specs.Play.{play};
ghost use Rattle.scr_notation.specs.declared.event.Event.{Event};
ghost use Rattle.scr_notation.specs.declared.turn.Turn.{Turn};
ghost use Rattle.scr_notation.specs.Spelling.{text_of};
ghost use Rattle.scr_notation.specs.Turns.{permits};
ghost use Rattle.scr_net.specs.Nets.{net_after, solved_net};
ghost use Rattle.scr_list.specs.declared.round.Round.{Round};
ghost use Rattle.scr_list.specs.declared.fault.ListFault.{ListFault};
ghost use Rattle.scr_list.specs.declared.fault.ListFault.TheVariants.{Read};
ghost use Rattle.scr_list.specs.Reading.{ReadsNoList};
ghost use Rattle.scr_list.specs.RoundLists.{IsRounds};
ghost use Rattle.scr_slots.specs.declared.settings.Settings.{Settings};
ghost use Rattle.scr_fault.specs.declared.fault.Fault.{Fault};
ghost use Rattle.scr_fault.specs.declared.status.Status.{Status};
ghost use Rattle.scr_command.specs.declared.command.Command.TheVariants.{Check, Tables};
ghost use Rattle.scr_command.specs.declared.command.Command.{Command};
ghost use Rattle.scr_command.specs.declared.command.UsageFault.{UsageFault};
ghost use Rattle.scr_words.specs.declared.seed.Seed.{Seed};
ghost use Rattle.scr_notation.specs.Event.{net_side_of};
ghost use Rattle.scr_command.specs.Command.{command_of, HasOptions};
ghost use Rattle.scr_table_text.specs.TableText.{IsTablesText};
ghost use Rattle.scr_slots.specs.Tables.{tables_for};
ghost use Rattle.scr_fault.specs.declared.status.Status.TheVariants.{Done, Usage, DrawLimit, ReadFault, WriteFault, NoMemory};
ghost use Rattle.scr_fault.specs.declared.status.Status.TheVariants as status;
ghost use Rattle.scr_sheet.specs.Check.{InputComesTo, ReadsInput, rounds_in};
ghost use Rattle.scr_fault.specs.Status.{status_of};
ghost use Rattle.scr_sheet.specs.Outcome.{IsRun, IsUnwritten, TakesMemory};
ghost use Rattle.scr_sheet.specs.Sheet.{Part, round_parts, single_part, IsPartText, IsText};
ghost use Rattle.scr_sheet.specs.Headline.{StandInOrder};
ghost use Rattle.scr_sheet.specs.Load.{load_rounds};
ghost use Rattle.scr_round.specs.Round.{slots_of};
ghost use Rattle.scr_run_laws.specs.Task.{IsUnhindered, IsUnhinderedCheck, LacksScramble, EndsWith, with_seed};
ghost use Rattle.scr_check.specs.Parts.{separator, sheet_part};
ghost use Rattle.scr_check.specs.Shapes.{IsListText};
ghost use Rattle.scr_command.specs.declared.options.Options.{Options};
ghost use Rattle.scr_list.specs.Rounds.{rounds_of};
ghost use Rattle.scr_sheet.specs.Check.{check_settings};
ghost use Rattle.scr_sheet.specs.Sheet.{settings_of};

use scr_text_laws::{check, list};

pub mod slots;

/// A list has one sheet, and an event one line of `one`, and one of `net` with its net: made with the same settings,
/// two are the same.
pub fn one_sheet()
    ensures sheet { (settings : Settings) (rounds : List Round) (text other : List ℕ)
        → IsText (IsPartText settings) (round_parts 0 rounds) text → IsText (IsPartText settings) (round_parts 0 rounds) other → text ≡ other }
    ensures line { (settings : Settings) (event : Event) (side : Option ℕ) (text other : List ℕ)
        → IsText (IsPartText settings) (single_part event side ∷ []) text
        → IsText (IsPartText settings) (single_part event side ∷ []) other → text ≡ other }
{
    slots::one_answer();
}

/// Which runs must end with all that they are to write: those whose words are a command, where the source of a sheet
/// tells its bytes and they name rounds, neither input nor output fails and each slot has a scramble. Where one has
/// none, the status is `DrawLimit` and never `Done`. Want of memory, and a gap in a table, are always free.
pub fn completeness()
    ensures done { (words : List (List ℕ)) (outcome : Status) (source out err : Change) (settings : Settings) (parts : List Part)
        → IsUnhindered words outcome source out err settings parts → ¬ (LacksScramble settings parts) → EndsWith outcome Done }
    ensures limit { (words : List (List ℕ)) (outcome : Status) (source out err : Change) (settings : Settings) (parts : List Part)
        → IsUnhindered words outcome source out err settings parts → LacksScramble settings parts → EndsWith outcome DrawLimit }
{
    slots::one_answer();
    list::lists_that_were_read();
}

/// What a check of an input ends with whose source tells its bytes, where neither input nor output fails: the status of
/// what the input comes to. Want of memory, and a gap in a table, are always free.
pub fn checks()
    ensures { (words : List (List ℕ)) (outcome : Status) (source out err : Change) (settings : Settings) (input : List ℕ) (answer : Result (Unit {0}) Fault)
        → IsUnhinderedCheck words outcome source out err settings input
        → InputComesTo settings (rounds_in input) input answer → EndsWith outcome (status_of answer) }
{}

/// Want of memory tells nothing of what is drawn: whatever a run shows that ends so (what was taken of the input, that
/// nothing was written, what was told) may be shown as well by a run that is asked for the same with any other seed.
/// And it tells nothing of a sheet that is checked: of that 4,096 bytes at most were read, wherever its first fault
/// stands.
pub fn want_of_memory()
    ensures seed { (first : List ℕ) (words other : List (List ℕ)) (command : Command) (seed : Seed) (source out err : Change)
        → command_of (first ∷ words) ≡ Ok command → command_of (first ∷ other) ≡ Ok (with_seed seed command)
        → IsRun (first ∷ words) NoMemory source out err → IsRun (first ∷ other) NoMemory source out err }
    ensures nothing { (words : List (List ℕ)) (source out err : Change) → IsRun words NoMemory source out err → IsUnwritten out }
    ensures unjudged { (words : List (List ℕ)) (seed : Seed) (attempts : ℕ) (source out err : Change)
        → command_of words ≡ Ok (Check seed attempts) → IsRun words NoMemory source out err
        → IsUnchanged source ⊎ ((rounds : List Round) × (read : ReadsInput source (λ input. rounds_in input ≡ Ok rounds))
        × (length (sheet_part read.bytes) ≤ 4096)) }
{}

/// Where the input's count of faults rose the status is `ReadFault`, and where the output's did it is `WriteFault`.
pub fn faults()
    ensures input { (words : List (List ℕ)) (outcome : Status) (source out err : Change)
        → IsRun words outcome source out err → source.faults_before < source.faults_after → outcome ≡ ReadFault }
    ensures output { (words : List (List ℕ)) (outcome : Status) (source out err : Change)
        → IsRun words outcome source out err → out.faults_before < out.faults_after → outcome ≡ WriteFault }
{}

/// What the statuses tell: the count of faults of the input rose, or that of the output; the words are no command; the
/// input was read and is no list, or its list part is none.
pub fn causes()
    ensures input { (words : List (List ℕ)) (source out err : Change) → IsRun words ReadFault source out err
        → Rose source.faults_before source.faults_after }
    ensures output { (words : List (List ℕ)) (source out err : Change) → IsRun words WriteFault source out err
        → Rose out.faults_before out.faults_after }
    ensures words { (words : List (List ℕ)) (source out err : Change) → IsRun words Usage source out err
        → (usage : UsageFault) × (command_of words ≡ Err usage) }
    ensures list { (words : List (List ℕ)) (source out err : Change) → IsRun words status.List source out err
        → (refusal : ListFault) × (refusal ≢ Read)
        × (ReadsNoList source refusal ⊎ ReadsInput source (λ input. rounds_in input ≡ Err refusal)) }
{}

/// A run that ends well tells nothing. Memory is wanted only for a sheet, for tables and for rounds. Where the output
/// fails under the text of tables, a first part of it was written.
pub fn ends()
    ensures well { (words : List (List ℕ)) (source out err : Change) → IsRun words Done source out err
        → IsUnwritten err }
    ensures memory { (words : List (List ℕ)) (source out err : Change) → IsRun words NoMemory source out err
        → HasOptions words ⊎ TakesMemory (command_of words) }
    ensures tables { (words : List (List ℕ)) (event : Event) (source out err : Change) → command_of words ≡ Ok (Tables event)
        → IsRun words WriteFault source out err
        → (text : List ℕ) × IsTablesText (tables_for (event ∷ [])) text × Falters out text }
{}

/// Where an event has nets, each of its scrambles shows on one: no turn of the event turns the whole cube.
pub fn nets()
    ensures { (event : Event) (side : ℕ) → net_side_of event ≡ Some side → (turns : List Turn)
        → All (λ t. IsTrue (permits event t)) turns → IsSome (play (net_after side) (solved_net side) turns) }
{}

/// The rounds that follow from a number are rounds that lists take. Those of 0 are one with 7 slots, and those of 15
/// are 16 with 456.
pub fn load_lists()
    ensures each { (number : ℕ) → IsRounds (load_rounds number) }
    ensures first { (length (load_rounds 0) ≡ 1) × (sum_by slots_of (load_rounds 0) ≡ 7) }
    ensures fifteenth { (length (load_rounds 15) ≡ 16) × (sum_by slots_of (load_rounds 15) ≡ 456) }
{}

/// A text in which scrambles stand in order tells how each is spelled: no other spellings can be read in it so.
pub fn one_reading()
    ensures { (text : List ℕ) (some other : List (List Turn)) → StandInOrder some text → StandInOrder other text
        → map text_of some ≡ map text_of other }
{}

/// The program's own sheet agrees. Where an input's list part names rounds and its sheet part is the text of their
/// sheet, a check with the seed and the attempts of that sheet finds that all agrees, however much work its scrambles
/// took. So it does of a list of whole lines, the line that separates, and the sheet of the list's rounds.
pub fn own_sheet_agrees()
    ensures parts { (seed : Seed) (options : Options) (rounds : List Round) (input : List ℕ) → rounds_in input ≡ Ok rounds
        → IsText (IsPartText (settings_of seed options)) (round_parts 0 rounds) (sheet_part input)
        → InputComesTo (check_settings seed options.attempts) (rounds_in input) input (Ok tt) }
    ensures behind { (seed : Seed) (options : Options) (rounds : List Round) (list text : List ℕ) → IsListText list
        → rounds_of list ≡ Ok rounds → IsText (IsPartText (settings_of seed options)) (round_parts 0 rounds) text
        → let input = list ++ (separator ++ 10 ∷ text) in
        InputComesTo (check_settings seed options.attempts) (rounds_in input) input (Ok tt) }
{
    check::parts_are_read_back();
    slots::one_answer();
}
