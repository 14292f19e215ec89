//! What the definitions mean: calls that do nothing, whose contracts are laws about the definitions alone.

ghost use Rattle.std.specs.Prelude.{◌≡◌, ◌≤◌, ◌+◌, ℕ, List, [], ◌∷◌, ◌++◌, Ok, Err, Result};
ghost use Rattle.scr_check.specs.declared.fault.CheckFault.{CheckFault};
ghost use Rattle.scr_check.specs.declared.fault.CheckFault.TheVariants.{Differs};
ghost use Rattle.scr_check.specs.Agreement.{AreLawful, HaveAnswers, ComesTo};
ghost use Rattle.scr_check.specs.Lines.{CutLine, cut_lines, joined_lines};
ghost use Rattle.scr_check.specs.Parts.{list_part, sheet_part, separator};
ghost use Rattle.scr_check.specs.Shapes.{AreCut, IsListText, NoneSeparates};

use scr_check::Expected;

/// A text is joined from its lines. They are the only ones that it can be joined from where none has a line
/// feed in it, and none lacks one behind it but a last one that has bytes.
pub fn lines_of_a_text()
    ensures joined { (text : List ℕ) → joined_lines (cut_lines text) ≡ text }
    ensures shape { (text : List ℕ) → AreCut (cut_lines text) }
    ensures only { (lines : List CutLine) → AreCut lines → cut_lines (joined_lines lines) ≡ lines }
{}

/// A list of whole lines, none of which separates, is read back before a separator, and so is any sheet behind
/// it. An input without a separator is a list, and its sheet is empty.
pub fn parts_are_read_back()
    ensures list { (list sheet : List ℕ) → IsListText list
        → list_part (list ++ (separator ++ 10 ∷ sheet)) ≡ list }
    ensures sheet { (list sheet : List ℕ) → IsListText list
        → sheet_part (list ++ (separator ++ 10 ∷ sheet)) ≡ sheet }
    ensures list_at_end { (list : List ℕ) → IsListText list → list_part (list ++ separator) ≡ list }
    ensures no_sheet { (list : List ℕ) → IsListText list → sheet_part (list ++ separator) ≡ [] }
    ensures alone { (input : List ℕ) → NoneSeparates (cut_lines input) → list_part input ≡ input }
    ensures none_behind { (input : List ℕ) → NoneSeparates (cut_lines input) → sheet_part input ≡ [] }
{}

/// A check comes to one answer at most, and to exactly one where each line that is expected has an answer for
/// each text.
pub fn one_answer<X: Expected>()
    ensures one { (expected : X) (lines : List CutLine) (one other : Result (Unit {0}) CheckFault)
        → AreLawful (X.lines expected)
        → ComesTo (X.lines expected) lines one → ComesTo (X.lines expected) lines other → one ≡ other }
    ensures some { (expected : X) (lines : List CutLine)
        → AreLawful (X.lines expected) → HaveAnswers (X.lines expected)
        → (answer : Result (Unit {0}) CheckFault) × ComesTo (X.lines expected) lines answer }
{}

/// A sheet that agrees ends with a line feed, unless no lines are expected. Without this last byte its last
/// line differs; with more bytes behind it, the line after the last one does.
pub fn sheets_with_one_end<X: Expected>()
    ensures feed { (expected : X) (sheet : List ℕ) → ComesTo (X.lines expected) (cut_lines sheet) (Ok tt)
        → 1 ≤ (X.lines expected).count → (body : List ℕ) × (sheet ≡ body ++ 10 ∷ []) }
    ensures left_out { (expected : X) (body : List ℕ)
        → ComesTo (X.lines expected) (cut_lines (body ++ 10 ∷ [])) (Ok tt)
        → ComesTo (X.lines expected) (cut_lines body) (Err (Differs (X.lines expected).count)) }
    ensures more { (expected : X) (sheet : List ℕ) (byte : ℕ) (rest : List ℕ)
        → ComesTo (X.lines expected) (cut_lines sheet) (Ok tt)
        → ComesTo (X.lines expected) (cut_lines (sheet ++ byte ∷ rest))
        (Err (Differs ((X.lines expected).count + 1))) }
{}

/// Without a byte nothing differs where no lines are expected, and else the first line does.
pub fn sheets_without_a_byte<X: Expected>()
    ensures agrees { (expected : X) → (X.lines expected).count ≡ 0
        → ComesTo (X.lines expected) (cut_lines []) (Ok tt) }
    ensures differs { (expected : X) → 1 ≤ (X.lines expected).count
        → ComesTo (X.lines expected) (cut_lines []) (Err (Differs 1)) }
{}
