//! What holds of the stages whatever the code: calls that do nothing, whose contracts are the laws.

ghost use Rattle.std.specs.Prelude.{if◌then◌else◌, ◌≡◌, ◌≤◌, ◌↔◌, ◌++◌, [], Contains, IsTrue, List, Some, ℕ, length, slice_get};
ghost use Rattle.std.specs.List.{AllPairs};
ghost use Rattle.scr_combinatorics.specs.Back.{back};
ghost use Rattle.scr_combinatorics.specs.FirstWord.{LeadsTo, IsEarlier};
ghost use Rattle.scr_combinatorics.specs.Play.{play};
ghost use Rattle.scr_combinatorics.specs.Stages.{by_letters, IsSolution, IsStageWord};
ghost use Rattle.scr_combinatorics.specs.Reach.{IsReached};
ghost use Rattle.scr_table.specs.Distances.{Distances};
ghost use Rattle.scr_table.specs.Lines.{AreTablesOf};
ghost use Rattle.scr_notation.specs.declared.turn.Turn.{Turn as Letter};
ghost use Rattle.scr_sq1.specs.Units.{Sq1State, IsSq1, solved_sq1, sq1_after, sq1_puzzle};
ghost use Rattle.scr_notation.specs.Turning.{opposite};
ghost use Rattle.scr_sq1tables.specs.Stages.{shape_letter, shape_stage, layer_stages, sq1_stages, equator_word, IsScrambleSq1};
ghost use Rattle.scr_sq1solve.specs.Totals.{IsTotal};
ghost use Rattle.scr_sq1tables.specs.ShapeWords.{is_squared, is_shape_word, shape_words};
ghost use Rattle.scr_sq1solve.specs.Counts.{twists_in, turned_over, IsWithinBounds};
ghost use Rattle.scr_sq1tables.specs.Spaces.{IsPairedSq1};
ghost use Rattle.scr_sq1tables.specs.Tables.{square_index, sq1_lines};
ghost use Rattle.scr_sq1tables.specs.SearchTables.{sq1_tables};
ghost use Rattle.scr_sq1solve.specs.ShortScrambles.{IsShortScramble};
ghost use Rattle.scr_table.specs.TableStates.{AreLinesOf};

/// Each valid state has a solution where the three tables are built, and so is reached. A state has but one, which
/// leads to solved. So the scramble is one, and leads from solved to the state.
pub fn solutions()
    ensures some { (tables : List Distances) → AreTablesOf sq1_lines tables
        → (s : Sq1State) → IsSq1 s → (w : List Letter) × IsSolution sq1_after sq1_stages s w }
    ensures reached { (tables : List Distances) → AreTablesOf sq1_lines tables
        → (s : Sq1State) → IsSq1 s → IsReached sq1_puzzle s }
    ensures one { (s : Sq1State) (v w : List Letter) → IsSolution sq1_after sq1_stages s v → IsSolution sq1_after sq1_stages s w
        → v ≡ w }
    ensures solved { (s : Sq1State) (w : List Letter) → IsSolution sq1_after sq1_stages s w
        → play sq1_after s w ≡ Some solved_sq1 }
    ensures scramble { (s : Sq1State) (w : List Letter) → IsSq1 s → IsScrambleSq1 s w
        → play sq1_after solved_sq1 w ≡ Some s }
{}

/// Two normal states in which mates stand opposite to each other have one index in `square` exactly where they are
/// equal, up to the equator.
#[tactic(auto, using(scr_sq1tables::proofs::HomeStage::index_by_units, scr_sq1tables::proofs::HomeStage::same_layers))]
pub fn layers()
    ensures { (s r : Sq1State) → IsPairedSq1 s → IsPairedSq1 r
        → (square_index s ≡ square_index r) ↔ (s.units ≡ r.units) }
{}

/// A solution has at most 76 twists, and a scramble no more, and at most 153 turns.
pub fn bounds()
    ensures solution { (s : Sq1State) (w : List Letter) → IsSolution sq1_after sq1_stages s w → twists_in w ≤ 76 }
    ensures scramble { (s : Sq1State) (w : List Letter) → IsSq1 s → IsScrambleSq1 s w → IsWithinBounds w }
{}

/// A solution is that of the layers, and before it the word that turns the equator, exactly where the equator of the
/// state, turned over once for each twist of the solution of the layers, stands turned. A word turns it over once for
/// each of its twists.
pub fn equator()
    ensures counted { (s : Sq1State) (layers w : List Letter) → IsSq1 s → IsSolution sq1_after layer_stages s layers
        → IsSolution sq1_after sq1_stages s w
        → w ≡ (if turned_over (twists_in layers) s.equator then equator_word else []) ++ layers }
    ensures word { (s r : Sq1State) (w : List Letter) → play sq1_after s w ≡ Some r
        → r.equator ≡ turned_over (twists_in w) s.equator }
{}

/// The test of the square shape tells exactly where the first stage ends, and that of shape words exactly the words of
/// its letters that lead there. Those of at most 13 letters are listed in the order of words, and the first of them is
/// the first stage's word.
pub fn shape_words()
    ensures squared { (s : Sq1State) → IsTrue (is_squared s) ↔ shape_stage.IsGoal s }
    ensures led { (s : Sq1State) (word : List ℕ) → IsTrue (is_shape_word s word)
        ↔ LeadsTo (by_letters sq1_after 144 shape_letter) shape_stage.IsGoal s word }
    ensures all { (s : Sq1State) (word : List ℕ) → Contains (shape_words s) word
        ↔ (length word ≤ 13) × IsTrue (is_shape_word s word) }
    ensures in_order { (s : Sq1State) → AllPairs IsEarlier (shape_words s) }
    ensures first { (s : Sq1State) (word : List ℕ) → slice_get (shape_words s) 0 ≡ Some word
        ↔ IsStageWord sq1_after shape_stage s word }
{}

/// A word has one total, which solves the state from which it is taken. The scramble of a state is the total of the
/// first stage's word, taken back.
pub fn totals()
    ensures one { (s : Sq1State) (word : List ℕ) (v w : List Letter) → IsTotal s word v → IsTotal s word w → v ≡ w }
    ensures solves { (s : Sq1State) (word : List ℕ) (total : List Letter) → IsSq1 s → IsTotal s word total
        → play sq1_after s total ≡ Some solved_sq1 }
    ensures of_first { (s : Sq1State) (word : List ℕ) (total : List Letter) → IsSq1 s → IsTotal s word total
        → IsStageWord sq1_after shape_stage s word → IsScrambleSq1 s (back opposite total) }
    ensures scramble { (s : Sq1State) (turns : List Letter) → IsSq1 s → IsScrambleSq1 s turns
        → (word : List ℕ) × (total : List Letter) × IsStageWord sq1_after shape_stage s word × IsTotal s word total
        × (turns ≡ back opposite total) }
{}

/// The lines by which the tables are built are those of the tables as states tell them. From every state with a number,
/// of those of which a table speaks, a letter of the table's stage leads to one and the same number, that to which the
/// line's coordinate leads, or is barred as it is there; and all of them are at the coordinate's goal, or none. Each
/// number below the table's count is that of such a state.
#[tactic(auto, using(crate::proofs::Sq1Cited::told_by_states))]
pub fn told_by_states()
    ensures { AreLinesOf sq1_tables sq1_lines }
{}

/// The short scramble that looks at one word to the square shape is that by stages.
pub fn short_of_one_word()
    ensures { (s : Sq1State) (turns : List Letter) → IsSq1 s → IsShortScramble 1 s turns ↔ IsScrambleSq1 s turns }
{}

/// The more words a short scramble looks at, the fewer twists it has, or as many.
pub fn short_of_more_words()
    ensures { (s : Sq1State) (fewer more : ℕ) (turns other : List Letter) → fewer ≤ more
        → IsShortScramble fewer s turns → IsShortScramble more s other → twists_in other ≤ twists_in turns }
{}
