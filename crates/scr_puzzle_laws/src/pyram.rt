//! Laws of the Pyraminx. The functions do nothing: what each ensures is the law.

ghost use Rattle.std.specs.Prelude.{◌≡◌, ◌↔◌, ℕ, ◌+◌, ◌*◌, ◌/◌, ◌^◌, ◌≤◌, false, List, [], ◌∷◌, length, IsSome, Some, codes};
ghost use Rattle.std.specs.List.{AllPass};
ghost use Rattle.scr_combinatorics.specs.Numbering.{IsNumbering};
ghost use Rattle.scr_combinatorics.specs.Permutations.{factorial};
ghost use Rattle.scr_combinatorics.specs.Play.{play, count_in};
ghost use Rattle.scr_combinatorics.specs.Reach.{Needs};
ghost use Rattle.scr_orbit.specs.InPlace.{AreDigitsInPlace};
ghost use Rattle.scr_orbit.specs.Orbits.{zeros};
ghost use Rattle.scr_orbit.specs.PowerPuzzles.{IsPowerPuzzle, HaveOrders, word_at, after_letter, power_puzzle};
ghost use Rattle.scr_notation.specs.declared.event.Event.TheVariants.{Pyram};
ghost use Rattle.scr_notation.specs.declared.turn.Turn.{Turn as Letter};
ghost use Rattle.scr_notation.specs.Axes.{is_axis_turn};
ghost use Rattle.scr_notation.specs.TurnNumbers.{axis_turn_at};
ghost use Rattle.scr_notation.specs.Spelling.{text_of};
ghost use Rattle.scr_notation.specs.Turning.{opposite, turn_merging};
ghost use Rattle.scr_puzzle_laws.specs.Played.{PlaysTurnsOf};
ghost use Rattle.scr_tetra.specs.Pyraminx.{TetraminxState, IsTetraminx, tetraminx_powers, numbered_tetraminx, PyramState, IsPyram, pyram_powers, solved_pyram, numbered_pyram};
ghost use Rattle.scr_puzzle_laws.specs.PyramHolds.{ShowsThirds, about_up, half_round};
ghost use Rattle.scr_tetra.specs.PyramParts.{large_turns, tip_turn_count, turned_count, tips_word};
ghost use Rattle.scr_puzzle_laws.specs.PyramKnown.{pyram_orders, edge_cycle, edge_flip, cycled, flipped, two_tips};

/// The turns are lawful, with tips and without: they keep states valid, and what two come to does what one and then the
/// other do; words are taken back and tidied, and each does to every state what it does to the solved one. What turns
/// reach is valid. A third has order 3, and each turn has the number that the notation gives it.
pub fn turns()
    ensures pyraminx { IsPowerPuzzle pyram_powers IsPyram opposite turn_merging }
    ensures tetraminx { IsPowerPuzzle tetraminx_powers IsTetraminx opposite turn_merging }
{}

/// From each valid state turns lead to a state exactly where each of them is a turn of the event; and without tips,
/// where each is one about an axis.
pub fn played_where_all_are_turns()
    ensures pyraminx { PlaysTurnsOf Pyram IsPyram (after_letter pyram_powers) }
    ensures without_tips { (s : TetraminxState) (w : List Letter) → IsTetraminx s
        → IsSome (play (after_letter tetraminx_powers) s w) ↔ AllPass (is_axis_turn false) w }
{}

/// Each number below the count is that of exactly one valid state, and each valid state has exactly one.
pub fn numberings()
    ensures pyraminx { IsNumbering numbered_pyram }
    ensures tetraminx { IsNumbering numbered_tetraminx }
    ensures states { numbered_pyram.count ≡ 3 ^ 4 * (3 ^ 4 * 2 ^ 5 * (factorial 6 / 2)) }
    ensures without_tips { numbered_tetraminx.count ≡ 3 ^ 4 * 2 ^ 5 * (factorial 6 / 2) }
{}

/// Every turn counts once, large ones and those of tips. Two turned tips need two turns, and no more.
pub fn minima()
    ensures counts { (w : List Letter) → count_in (power_puzzle pyram_powers).counted w ≡ length w }
    ensures two_needed { Needs (power_puzzle pyram_powers) two_tips 2 }
    ensures two_enough { Needs (power_puzzle pyram_powers) two_tips 3 → ⊥ }
{}

/// Words by parts: the large turns alone move the body, and do to it what they do without tips; and a turn of a tip
/// solves one tip at most. The word of tips brings solved ones to where they stand, with one turn for each that stands
/// turned.
pub fn words_by_parts()
    ensures body { (s end : PyramState) (w : List Letter) → IsPyram s → play (after_letter pyram_powers) s w ≡ Some end
        → play (after_letter tetraminx_powers) s.body (large_turns w) ≡ Some end.body }
    ensures tips { (s end : PyramState) (w : List Letter) → IsPyram s → play (after_letter pyram_powers) s w ≡ Some end
        → turned_count s.tips ≤ turned_count end.tips + tip_turn_count w }
    ensures count { (s end : PyramState) (w : List Letter) → IsPyram s → play (after_letter pyram_powers) s w ≡ Some end
        → length (large_turns w) + tip_turn_count w ≡ length w }
    ensures with_tips { (s end : TetraminxState) (tips : List ℕ) (w : List Letter)
        → IsPyram (record { body = s; tips = tips }) → play (after_letter tetraminx_powers) s w ≡ Some end
        → play (after_letter pyram_powers) (record { body = s; tips = tips }) w ≡ Some (record { body = end; tips = tips }) }
    ensures tips_word { (s : TetraminxState) (tips : List ℕ) → IsTetraminx s → AreDigitsInPlace 4 3 tips
        → play (after_letter pyram_powers) (record { body = s; tips = zeros 4 }) (tips_word tips) ≡ Some (record { body = s; tips = tips }) }
    ensures tips_turned { (tips : List ℕ) → AreDigitsInPlace 4 3 tips → length (tips_word tips) ≡ turned_count tips }
{}

/// U L has order 15, and the known words have theirs.
pub fn orders()
    ensures { HaveOrders pyram_powers pyram_orders }
{}

/// Held another way, the puzzle shows thirds as thirds about other axes.
#[tactic(auto, unfolding(scr_tetra::proofs::PyramLiterals::pyram_on_literals))]
pub fn symmetries()
    ensures about_up { ShowsThirds about_up }
    ensures half_round { ShowsThirds half_round }
{}

/// States that are known from elsewhere, and words to them.
#[tactic(auto, unfolding(scr_tetra::proofs::PyramLiterals::pyram_on_literals))]
pub fn known_states()
    ensures cycle_spelled { text_of edge_cycle ≡ codes "R U' R' U' R U' R'" }
    ensures cycle { play (after_letter pyram_powers) solved_pyram edge_cycle ≡ Some cycled }
    ensures flip_spelled { text_of edge_flip ≡ codes "R' L R L' U L' U' L" }
    ensures flip { play (after_letter pyram_powers) solved_pyram edge_flip ≡ Some flipped }
    ensures tips_spelled { text_of (word_at pyram_powers (8 ∷ 15 ∷ [])) ≡ codes "u b'" }
    ensures tips { play (after_letter pyram_powers) solved_pyram (word_at pyram_powers (8 ∷ 15 ∷ [])) ≡ Some two_tips }
    ensures first { numbered_pyram.state_at 0 ≡ solved_pyram }
    ensures number_55 { numbered_pyram.state_at 55 ≡ two_tips }
    ensures number_19683 { numbered_pyram.state_at 19683 ≡ flipped }
    ensures number_15116544 { numbered_pyram.state_at 15116544 ≡ cycled }
    ensures after_up { (after_letter pyram_powers) solved_pyram (axis_turn_at 0) ≡ Some (numbered_pyram.state_at 15116625) }
    ensures last { numbered_pyram.state_at 75582719 ≡ record {
      body = record {
        edges = record { pieces = 5 ∷ 4 ∷ 3 ∷ 2 ∷ 0 ∷ 1 ∷ []; digits = 1 ∷ 1 ∷ 1 ∷ 1 ∷ 1 ∷ 1 ∷ [] };
        axials = 2 ∷ 2 ∷ 2 ∷ 2 ∷ [];
      };
      tips = 2 ∷ 2 ∷ 2 ∷ 2 ∷ [];
    } }
{}
