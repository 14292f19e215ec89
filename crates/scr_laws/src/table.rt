//! What is so of distances, first words, words to goals and minima. The functions do
//! nothing: what each ensures is the law.

ghost use Rattle.std.specs.Prelude.{◌≡◌, ℕ, suc, ◌+◌, ◌-◌, ◌≤◌, ◌==◌, ◌↔◌, List, [], ◌∷◌, ◌++◌, All, Contains, length, map, slice_get, codes, Some};
ghost use Rattle.std.specs.List.{AllPairs, join_with_byte};
ghost use Rattle.scr_combinatorics.specs.Reach.{Needs};
ghost use Rattle.scr_combinatorics.specs.FirstWord.{IsEarlier, LeadsTo, IsFirstWord, IsDistance, LowersFirst};
ghost use Rattle.scr_positions.specs.Coordinates.{Coordinate, moved, IsGoal};
ghost use Rattle.scr_table.specs.declared.name.TableName.TheVariants.{Corners, Flips, Slice, Tetrads, Halves};
ghost use Rattle.scr_table.specs.declared.name.TableName.TheVariants.{FlipSlice, TwistSlice, CornerSlice, EdgeSlice};
ghost use Rattle.scr_table.specs.declared.name.TableName.TheVariants.{Pyramid, Skewb, Shapes, Pairings, Square};
ghost use Rattle.scr_table.specs.declared.fault.BuildFault.{BuildFault};
ghost use Rattle.scr_table.specs.declared.fault.BuildFault.TheVariants.{NoMemory, Gap};
ghost use Rattle.scr_table.specs.Causes.{IsCauseOf};
ghost use Rattle.scr_table.specs.Distances.{Distances, Measures, IsGap, IsFirstGap};
ghost use Rattle.scr_table.specs.Lines.{TableLine, HasNoGap, AreTablesOf};
ghost use Rattle.scr_table.specs.Moves.{NeedsTurns, move_puzzle};
ghost use Rattle.scr_table.specs.Names.{name_text};
ghost use Rattle.scr_table.specs.Row.{row_coordinate, row_line};
ghost use Rattle.scr_combinatorics.specs.Words.{words_of, words_within};
ghost use Rattle.scr_table.specs.Words.{words_to_goal};

use scr_table::Moves;

/// A position has one distance: 0 exactly at the goals; elsewhere some turn leads to a position whose distance is one
/// less, and no turn leads further down.
pub fn distances()
    ensures one { (c : Coordinate) (p d e : ℕ)
        → IsDistance (moved c) (IsGoal c) p d → IsDistance (moved c) (IsGoal c) p e → d ≡ e }
    ensures zero { (c : Coordinate) (p : ℕ) → IsDistance (moved c) (IsGoal c) p 0 ↔ IsGoal c p }
    ensures lowers { (c : Coordinate) (p d : ℕ) → IsDistance (moved c) (IsGoal c) p (suc d)
        → ∥ ((t : ℕ) × (q : ℕ) × (moved c p t ≡ Some q) × IsDistance (moved c) (IsGoal c) q d) ∥₁ }
    ensures no_further { (c : Coordinate) (p q t d e : ℕ) → moved c p t ≡ Some q
        → IsDistance (moved c) (IsGoal c) p d → IsDistance (moved c) (IsGoal c) q e → d ≤ e + 1 }
{}

/// A position has one first word, as long as its distance: empty from a goal; elsewhere the first turn that lowers the
/// distance, followed by the first word from where it leads.
pub fn first_words()
    ensures one { (c : Coordinate) (p : ℕ) (v w : List ℕ)
        → IsFirstWord (moved c) (IsGoal c) p v → IsFirstWord (moved c) (IsGoal c) p w → v ≡ w }
    ensures as_long { (c : Coordinate) (p d : ℕ) (w : List ℕ)
        → IsFirstWord (moved c) (IsGoal c) p w → IsDistance (moved c) (IsGoal c) p d → length w ≡ d }
    ensures empty { (c : Coordinate) (p : ℕ) → IsFirstWord (moved c) (IsGoal c) p [] ↔ IsGoal c p }
    ensures goes_on { (c : Coordinate) (p q t d : ℕ) (w : List ℕ)
        → IsDistance (moved c) (IsGoal c) p (suc d) → LowersFirst (moved c) (IsGoal c) p q t d
        → IsFirstWord (moved c) (IsGoal c) q w → IsFirstWord (moved c) (IsGoal c) p (t ∷ w) }
    ensures begins { (c : Coordinate) (p t : ℕ) (w : List ℕ) → IsFirstWord (moved c) (IsGoal c) p (t ∷ w)
        → (q : ℕ) × LowersFirst (moved c) (IsGoal c) p q t (length w) × IsFirstWord (moved c) (IsGoal c) q w }
{}

/// A coordinate has one table of a name and a bound.
pub fn one_table()
    ensures { (c : Coordinate) (some other : Distances) → Measures c some → Measures c other
        → some.name ≡ other.name → some.bound ≡ other.bound → some ≡ other }
{}

/// Where tables are built one after another, the cause of the first part of them is that of all; and behind tables that
/// are built, which have no gap, so is that of the others.
pub fn causes()
    ensures before { (lines more : List TableLine) (fault : BuildFault)
        → IsCauseOf lines fault → IsCauseOf (lines ++ more) fault }
    ensures behind { (built lines : List TableLine) (fault : BuildFault)
        → All HasNoGap built → IsCauseOf lines fault → IsCauseOf (built ++ lines) fault }
    ensures no_gaps { (lines : List TableLine) (tables : List Distances)
        → AreTablesOf lines tables → All HasNoGap lines }
{}

/// Where each turn counts for one, the minima of a set of moves are those of the puzzle that they are.
pub fn minima<M: Moves>(moves: &M)
    ensures { (s : M.State) (least : ℕ)
        → NeedsTurns (M.moves moves.now) s least ↔ Needs (move_puzzle (M.moves moves.now)) s least }
{}

/// The order of words, and the definitions at a row of three positions: what they hold of and what they refuse.
pub fn rows()
    ensures by_length { IsEarlier (9 ∷ []) (0 ∷ 0 ∷ []) }
    ensures by_turns { IsEarlier (0 ∷ 3 ∷ []) (3 ∷ 0 ∷ []) }
    ensures no_other_order { IsEarlier (3 ∷ 0 ∷ []) (0 ∷ 3 ∷ []) → ⊥ }
    ensures distance { IsDistance (moved (row_coordinate 3)) (IsGoal (row_coordinate 3)) 2 2 }
    ensures first_word { IsFirstWord (moved (row_coordinate 3)) (IsGoal (row_coordinate 3)) 2 (0 ∷ 0 ∷ []) }
    ensures no_first_word { IsFirstWord (moved (row_coordinate 3)) (IsGoal (row_coordinate 3)) 2 (0 ∷ []) → ⊥ }
    ensures measures { Measures (row_coordinate 3) (record { name = Corners; bound = 2; distances = 0 ∷ 1 ∷ 2 ∷ [] }) }
    ensures no_greater { Measures (row_coordinate 3) (record { name = Corners; bound = 2; distances = 0 ∷ 1 ∷ 1 ∷ [] })
        → ⊥ }
    ensures no_longer { Measures (row_coordinate 3) (record { name = Corners; bound = 1; distances = 0 ∷ 1 ∷ 2 ∷ [] })
        → ⊥ }
    ensures gap { IsGap (row_coordinate 3) 1 2 }
    ensures no_gap { IsGap (row_coordinate 3) 2 2 → ⊥ }
    ensures outside { IsGap (row_coordinate 3) 1 3 → ⊥ }
    ensures first_gap { IsFirstGap (row_coordinate 3) 0 1 }
    ensures no_later_gap { IsFirstGap (row_coordinate 3) 0 2 → ⊥ }
    ensures first_table { IsCauseOf (row_line 3 Corners 2 ∷ row_line 3 Flips 0 ∷ []) (Gap Flips 1) }
    ensures no_later_table { IsCauseOf (row_line 3 Corners 0 ∷ row_line 3 Flips 0 ∷ []) (Gap Flips 1) → ⊥ }
    ensures no_table { IsCauseOf [] NoMemory → ⊥ }
{}

/// The names of the tables: of the 2x2x2, the 3x3x3, the Pyraminx, the Skewb and the Square-1.
pub fn known_names()
    ensures { join_with_byte 32 (map name_text (Corners ∷ Flips ∷ Slice ∷ Tetrads ∷ Halves
        ∷ FlipSlice ∷ TwistSlice ∷ CornerSlice ∷ EdgeSlice ∷ Pyramid ∷ Skewb ∷ Shapes ∷ Pairings ∷ Square ∷ []))
        ≡ codes "corners flips slice tetrads halves flipslice twistslice cornerslice edgeslice pyramid skewb "
        ++ codes "shapes pairings square" }
{}

/// The words of two turns, 0 and 3, in order.
#[tactic(auto, unfolding(scr_combinatorics::specs::Words::words_of, scr_combinatorics::specs::Words::words_within))]
pub fn known_words()
    ensures two { words_of (0 ∷ 3 ∷ []) 2 ≡ (0 ∷ 0 ∷ []) ∷ (0 ∷ 3 ∷ []) ∷ (3 ∷ 0 ∷ []) ∷ (3 ∷ 3 ∷ []) ∷ [] }
    ensures at_most_two { words_within (0 ∷ 3 ∷ []) 2
        ≡ [] ∷ (0 ∷ []) ∷ (3 ∷ []) ∷ (0 ∷ 0 ∷ []) ∷ (0 ∷ 3 ∷ []) ∷ (3 ∷ 0 ∷ []) ∷ (3 ∷ 3 ∷ []) ∷ [] }
{}

/// The words to a goal are all words of at most so many turns that lead from the position to one, also those that meet
/// one on their way, in the order of words: the one that stands first is the first word.
pub fn goal_words()
    ensures all { (c : Coordinate) (p most : ℕ) (w : List ℕ)
        → Contains (words_to_goal c p most) w ↔ (length w ≤ most) × LeadsTo (moved c) (IsGoal c) p w }
    ensures in_order { (c : Coordinate) (p most : ℕ) → AllPairs IsEarlier (words_to_goal c p most) }
    ensures first { (c : Coordinate) (p most : ℕ) (w : List ℕ) → slice_get (words_to_goal c p most) 0 ≡ Some w
        ↔ IsFirstWord (moved c) (IsGoal c) p w × (length w ≤ most) }

    // the one turn exchanges the goal and the other position
    ensures on_the_way { words_to_goal (record { count = 2; turns = 1; after = λ p t. Some (1 - p); is_goal = λ p. p == 0 }) 1 4
        ≡ (0 ∷ []) ∷ (0 ∷ 0 ∷ 0 ∷ []) ∷ [] }
{}
