//! What holds of the Square-1 whatever the code: calls that do nothing, whose contracts are the laws.
//!
//! That Square-1s are drawn fairly is the law of `scr_draw` for any event that it draws.

ghost use Rattle.std.specs.Prelude.{◌≡◌, ◌↔◌, IsTrue, ℕ, ◌+◌, ◌*◌, ◌%◌, ◌<◌, ◌≤◌, ℤ, pos, Bool, true, false, not, List, [], ◌∷◌, ◌++◌, length, slice_index, filter, ◌==◌, All, Some, None, option_map, codes};
ghost use Rattle.scr_combinatorics.specs.Lists.{total, numbers_from, pick, ComesBefore};
ghost use Rattle.scr_combinatorics.specs.Words.{words_of};
ghost use Rattle.scr_combinatorics.specs.Permutations.{factorial};
ghost use Rattle.scr_combinatorics.specs.Numbering.{IsOneToOne, IsNumbering};
ghost use Rattle.scr_combinatorics.specs.Play.{play, count_in};
ghost use Rattle.scr_combinatorics.specs.Reach.{IsReached, Needs};
ghost use Rattle.scr_combinatorics.specs.Lawful.{IsLawful};
ghost use Rattle.scr_combinatorics.specs.Back.{IsTakenBack};
ghost use Rattle.scr_combinatorics.specs.Tidy.{IsKeptByTidy};
ghost use Rattle.scr_notation.specs.declared.turn.Turn.{Turn as Letter};
ghost use Rattle.scr_notation.specs.declared.turn.Turn.TheVariants.{Layers, Twist};
ghost use Rattle.scr_notation.specs.Turning.{opposite, turn_merging};
ghost use Rattle.scr_puzzle_laws.specs.Barred.{IsBarredAlong};
ghost use Rattle.scr_sq1.specs.Units.{Sq1State, IsSq1, is_open, solved_sq1, clockwise, twisted, sq1_after, sq1_puzzle};
ghost use Rattle.scr_sq1.specs.Shapes.{half_word, corner_counts, IsShape, shape_of, ways_after, shape_number, shape_at, shape_count, units_among};
ghost use Rattle.scr_sq1.specs.Numbers.{sq1_numbered};
ghost use Rattle.scr_puzzle_laws.specs.Sq1Known.{anticlockwise, slices, IsKnownWord, ReturnsAfter, solved_top, solved_bottom, layers, parity_word, long_word, barred_units, impossible_units, AreOfNoState, HasShape, turned_over_sq1};

/// The turns are lawful: they keep states valid, each is undone by its opposite, and two turns of the layers one after
/// the other come to one or to none, as two twists come to none. So words are taken back and tidied, and what turns
/// reach is valid. No corner of a valid state lies across the cut.
pub fn turns()
    ensures lawful { IsLawful sq1_after opposite turn_merging IsSq1 }
    ensures taken_back { IsTakenBack sq1_after opposite IsSq1 }
    ensures tidied { IsKeptByTidy sq1_after turn_merging IsSq1 }
    ensures reached { (s : Sq1State) → IsReached sq1_puzzle s → IsSq1 s }
    ensures opened { (s : Sq1State) → IsSq1 s → IsTrue (is_open s.units) }
{}

/// Turns lead from a state nowhere exactly where one of them, in its place, is no turn of the event or would turn a
/// corner across the cut.
#[tactic(auto, using(crate::proofs::Sq1Cited::played_where_none_is_barred))]
pub fn played_where_none_is_barred()
    ensures { (s : Sq1State) (turns : List Letter) → (play sq1_after s turns ≡ None) ↔ IsBarredAlong s turns }
{}

/// A turn of the layers takes the piece in each unit so many units on, round its layer, and leaves the equator. A twist
/// exchanges the right halves and turns the equator, and leaves the left halves.
#[tactic(auto, using(crate::proofs::Sq1Cited::motions), unfolding(scr_sq1::specs::Units::twisted))]
pub fn motions()
    ensures top { (s r : Sq1State) (top bottom : ℤ) (k : ℕ) → sq1_after s (Layers top bottom) ≡ Some r → k < 12
        → slice_index r.units ((k + clockwise top) % 12) ≡ slice_index s.units k }
    ensures bottom { (s r : Sq1State) (top bottom : ℤ) (k : ℕ) → sq1_after s (Layers top bottom) ≡ Some r → k < 12
        → slice_index r.units (12 + (k + clockwise bottom) % 12) ≡ slice_index s.units (12 + k) }
    ensures equator { (s r : Sq1State) (top bottom : ℤ) → sq1_after s (Layers top bottom) ≡ Some r
        → r.equator ≡ s.equator }
    ensures to_bottom { (s : Sq1State) (k : ℕ) → k < 6
        → slice_index (twisted s).units (12 + k) ≡ slice_index s.units k }
    ensures to_top { (s : Sq1State) (k : ℕ) → k < 6 → slice_index (twisted s).units k ≡ slice_index s.units (12 + k) }
    ensures left { (s : Sq1State) (k : ℕ) → 6 ≤ k → k < 12 → (slice_index (twisted s).units k ≡ slice_index s.units k)
        × (slice_index (twisted s).units (12 + k) ≡ slice_index s.units (12 + k)) }
    ensures turned { (s : Sq1State) → (twisted s).equator ≡ not s.equator }
{}

/// Turned over, the puzzle turns as before, with the layers' amounts exchanged.
#[tactic(auto, using(crate::proofs::TurnedOver::layers_over, crate::proofs::TurnedOver::twist_over))]
pub fn symmetry()
    ensures layers { (s : Sq1State) (top bottom : ℤ)
        → sq1_after (turned_over_sq1 s) (Layers bottom top) ≡ option_map turned_over_sq1 (sq1_after s (Layers top bottom)) }
    ensures twist { (s : Sq1State)
        → sq1_after (turned_over_sq1 s) Twist ≡ option_map turned_over_sq1 (sq1_after s Twist) }
{}

/// The thirteen halves are the words of corners and edges that fill six units. Each shape, of which there are 3,678,
/// has its own number in dictionary order. A valid state has a shape, and solved has the shape of number 1,172.
pub fn shapes()
    ensures halves { (word : List Bool) → units_among word ≡ 6 → (h : ℕ) × (h < 13) × (half_word h ≡ word) }
    ensures once { (h g : ℕ) → h < 13 → g < 13 → half_word h ≡ half_word g → h ≡ g }
    ensures counted { ways_after 4 8 0 ≡ shape_count }
    ensures listed { length (filter (λ hs. total (pick corner_counts hs) == 8) (words_of (numbers_from 0 13) 4)) ≡ shape_count }
    ensures one_to_one { IsOneToOne shape_count shape_at shape_number IsShape }
    ensures in_order { (hs gs : List ℕ) → IsShape hs → IsShape gs → ComesBefore hs gs
        → shape_number hs < shape_number gs }
    ensures of_states { (s : Sq1State) → IsSq1 s → IsShape (shape_of s.units) }
    ensures solved { shape_of solved_sq1.units ≡ 7 ∷ 7 ∷ 10 ∷ 10 ∷ [] }
    ensures solved_number { shape_number (7 ∷ 7 ∷ 10 ∷ 10 ∷ []) ≡ 1172 }
    ensures first { shape_at 0 ≡ 0 ∷ 6 ∷ 12 ∷ 12 ∷ [] }
    ensures last { shape_at 3677 ≡ 12 ∷ 12 ∷ 11 ∷ 0 ∷ [] }
{}

/// Each number below the count is that of exactly one valid state, and each valid state has exactly one.
#[tactic(auto, using(scr_sq1::proofs::Numbering::sq1_numbering))]
pub fn numbering()
    ensures one_to_one { IsNumbering sq1_numbered }
    ensures states { sq1_numbered.count ≡ 2 * factorial 8 * factorial 8 * shape_count }
    ensures count { sq1_numbered.count ≡ 11958666854400 }
{}

/// A turn of the layers counts once, whether it turns one or both, and so does a twist.
pub fn minima()
    ensures counts { (w : List Letter) → count_in sq1_puzzle.counted w ≡ length w }
    ensures one_needed { (s : Sq1State) → (s ≡ solved_sq1 → ⊥) → Needs sq1_puzzle s 1 }
    ensures both_layers { (s : Sq1State) → sq1_after solved_sq1 (Layers (pos 1) (anticlockwise 1)) ≡ Some s
        → Needs sq1_puzzle s 2 → ⊥ }
    ensures twist { Needs sq1_puzzle (twisted solved_sq1) 2 → ⊥ }
{}

/// No state has a corner across the cut at one of the four places, or pieces that can't be put together.
pub fn refused_units()
    ensures barred { All (λ units. is_open units ≡ false) barred_units }
    ensures no_barred_state { All AreOfNoState barred_units }
    ensures no_other_state { All AreOfNoState impossible_units }
{}

/// Turns of solved: the top is free clockwise, and the bottom anticlockwise.
#[tactic(auto, unfolding(crate::proofs::Sq1OnLiterals::sq1_on_literals))]
pub fn known_turns()
    ensures top { sq1_after solved_sq1 (Layers (pos 1) (pos 0)) ≡ Some (layers (codes "b00811922a33") solved_bottom false) }
    ensures bottom { sq1_after solved_sq1 (Layers (pos 0) (anticlockwise 1)) ≡ Some
        (layers solved_top (codes "44d55e66f77c") false) }
    ensures twist { sq1_after solved_sq1 Twist ≡ Some (layers (codes "c44d5522a33b") (codes "008119e66f77") true) }
    ensures top_barred { sq1_after solved_sq1 (Layers (anticlockwise 1) (pos 0)) ≡ None }
    ensures bottom_barred { sq1_after solved_sq1 (Layers (pos 0) (pos 1)) ≡ None }
    ensures no_turn { sq1_after solved_sq1 (Layers (pos 0) (pos 0)) ≡ None }
{}

/// Algorithms that are known from elsewhere: one exchanges the edges next to the cut, each with the one below or above
/// it; one exchanges corners; one exchanges two edges of the top alone; one turns the equator alone. And a long word.
#[tactic(auto, unfolding(crate::proofs::Sq1OnLiterals::sq1_on_literals))]
pub fn known_words()
    ensures edges { IsKnownWord (slices ((pos 1, pos 0) ∷ (anticlockwise 1, anticlockwise 1) ∷ []) ++ Layers (pos 0) (pos 1) ∷ [])
        (codes "(1,0) / (-1,-1) / (0,1)")
        (layers (codes "00811e22a33c") (codes "b44d55966f77") false) }
    ensures corners { IsKnownWord (slices ((pos 0, anticlockwise 1) ∷ (anticlockwise 2, anticlockwise 2) ∷ []) ++ Layers (pos 2) (pos 3) ∷ [])
        (codes "(0,-1) / (-2,-2) / (2,3)")
        (layers (codes "44811966a33b") (codes "c00d55e22f77") false) }
    ensures parity { IsKnownWord parity_word
        (codes "/ (3,3) / (1,0) / (-2,-2) / (2,0) / (2,2) / (-1,0) / (-3,-3) / (-2,0) / (3,3) / (3,0) / (-1,-1) / (-3,0) / (1,1) / (-4,-3)")
        (layers (codes "00811b22a339") solved_bottom false) }
    ensures equator { IsKnownWord (slices ((pos 6, pos 0) ∷ (pos 6, pos 0) ∷ (pos 6, pos 0) ∷ []))
        (codes "(6,0) / (6,0) / (6,0) /") (layers solved_top solved_bottom true) }
    ensures long { IsKnownWord long_word
        (codes "(1,3) / (-4,-1) / (0,1) / (3,0) / (1,2) / (-4,-3) / (0,6) / (4,-3) / (6,2) / (6,4) / (2,-4) / (5,-5) / (-5,6) / (-4,5) / (-2,6) / (-1,-2) /")
        (layers (codes "ba442277911d") (codes "0033fce85566") false) }
    ensures twists { ReturnsAfter 2 (Twist ∷ []) }
    ensures top_quarters { ReturnsAfter 6 (slices ((pos 3, pos 0) ∷ [])) }
    ensures both_quarters { ReturnsAfter 4 (slices ((pos 3, pos 3) ∷ [])) }
{}

/// Numbers that are known from elsewhere: solved, solved but for the equator, solved but for edges 6 and 7, the first
/// and the last.
#[tactic(auto, unfolding(crate::proofs::Sq1OnLiterals::sq1_on_literals))]
pub fn known_numbers()
    ensures solved { sq1_numbered.state_at 3810646425600 ≡ solved_sq1 }
    ensures solved_number { sq1_numbered.number_of solved_sq1 ≡ 3810646425600 }
    ensures equator { sq1_numbered.state_at 3810646425601 ≡ layers solved_top solved_bottom true }
    ensures two_edges { sq1_numbered.state_at 3810646506240 ≡ layers solved_top
        (codes "c44d55f66e77") false }
    ensures first { sq1_numbered.state_at 0 ≡ layers (codes "89abcd0011ef") (codes "223344556677") false }
    ensures last { sq1_numbered.state_at 11958666854399 ≡ layers (codes "776655443322") (codes "fe1100dcba98") true }
{}

/// Shapes that are known from elsewhere, in which each of the thirteen halves stands: named by where the corner of the
/// top right half lies, or how many corners it has.
#[tactic(auto, unfolding(crate::proofs::Sq1OnLiterals::sq1_on_literals))]
pub fn known_shapes()
    ensures corner_second { HasShape (codes "8009abcd11ef223344556677") (2 ∷ 3 ∷ 12 ∷ 12 ∷ []) 143 }
    ensures corner_third { HasShape (codes "8900abc11def223344556677") (3 ∷ 2 ∷ 12 ∷ 12 ∷ []) 265 }
    ensures corner_first { HasShape (codes "0089abcde11f223344556677") (1 ∷ 4 ∷ 12 ∷ 12 ∷ []) 21 }
    ensures corner_last { HasShape (codes "89ab00cd1122334455e66f77") (5 ∷ 11 ∷ 12 ∷ 10 ∷ []) 585 }
    ensures two_corners { HasShape (codes "00118922a33b44cd55e6677f") (6 ∷ 7 ∷ 8 ∷ 9 ∷ []) 760 }
    ensures no_corner { HasShape (codes "89abcd001122334455ef6677") (0 ∷ 12 ∷ 12 ∷ 11 ∷ []) 17 }
{}
