//! Laws of turns, spellings and texts. The functions do nothing: what each ensures is the law.

ghost use Rattle.std.specs.Prelude.{◌≡◌, ℕ, ◌<◌, pos, neg_ℤ, true, false, List, [], ◌∷◌, map, All, IsTrue, codes};
ghost use Rattle.std.specs.List.{range_with_len};
ghost use Rattle.scr_combinatorics.specs.Lawful.{IsMerging};
ghost use Rattle.scr_combinatorics.specs.Tidy.{tidy, IsTidy, Merges, MergesTo};
ghost use Rattle.scr_notation.specs.declared.event.Event.{Event};
ghost use Rattle.scr_notation.specs.declared.event.Event.TheVariants.{Bf333, C222, C666, Skewb};
ghost use Rattle.scr_notation.specs.declared.turn.Turn.{Turn};
ghost use Rattle.scr_notation.specs.declared.turn.Turn.TheVariants.{Face, Axis, Tip, Layers, Twist, Pins, Over, Wide};
ghost use Rattle.scr_notation.specs.declared.reading.NotationFault.{NotationFault};
ghost use Rattle.scr_notation.specs.Event.{events, kind_of};
ghost use Rattle.scr_notation.specs.Turns.{permits};
ghost use Rattle.scr_notation.specs.TurnNumbers.{turn_count, turn_at, face_turn_at, axis_turn_at, layer_turn_at, clock_turn_at, wide_turn_at};
ghost use Rattle.scr_notation.specs.Spelling.{spelling, text_of};
ghost use Rattle.scr_notation.specs.Turning.{opposite, turn_merging, has_merging};
ghost use Rattle.scr_notation.specs.Reading.{IsFirstFault};

/// Which turns the events have: how many, and those by which like events differ.
#[tactic(auto, unfolding(scr_notation::specs::Spelling::spelling, scr_notation::specs::TurnNumbers::turn_at, scr_notation::specs::TurnNumbers::face_turn_at, scr_notation::specs::TurnNumbers::axis_turn_at))]
pub fn known_turns()
    ensures counts { map (λ event. turn_count (kind_of event)) events
        ≡ 9 ∷ 18 ∷ 18 ∷ 36 ∷ 45 ∷ 54 ∷ 109 ∷ 6 ∷ 16 ∷ 8 ∷ 144 ∷ 27 ∷ 18 ∷ [] }
    ensures small_cube { text_of (map (turn_at (kind_of C222)) (range_with_len 0 9)) ≡ codes "U U2 U' R R2 R' F F2 F'" }
    ensures three_layers { text_of (map (turn_at (kind_of C666)) (range_with_len 36 9))
        ≡ codes "3Uw 3Uw2 3Uw' 3Rw 3Rw2 3Rw' 3Fw 3Fw2 3Fw'" }
    ensures wide_turns { text_of (map (turn_at (kind_of Bf333)) (range_with_len 18 9)) ≡ codes "Uw Uw2 Uw' Rw Rw2 Rw' Fw Fw2 Fw'" }
    ensures no_tips { text_of (map (turn_at (kind_of Skewb)) (range_with_len 0 8)) ≡ codes "U U' L L' R R' B B'" }
{}

/// Turns that undo these, and words that are tidied.
#[tactic(auto, unfolding(scr_notation::specs::Spelling::spelling, scr_combinatorics::specs::Tidy::tidy, scr_combinatorics::specs::Tidy::with_turn, scr_combinatorics::specs::Tidy::word_of))]
pub fn known_words()
    ensures faces { text_of (map opposite (Face 0 1 1 ∷ Face 1 2 2 ∷ Face 2 3 3 ∷ [])) ≡ codes "U' Rw2 3Fw" }
    ensures axes { text_of (map opposite (Axis 0 1 ∷ Axis 1 2 ∷ Tip 2 1 ∷ Tip 3 2 ∷ [])) ≡ codes "U' L r' b" }
    ensures layers { text_of (map opposite (Layers (pos 1) (neg_ℤ (pos 5)) ∷ Twist ∷ Layers (pos 6) (pos 0) ∷ []))
        ≡ codes "(-1,5) / (6,0)" }
    ensures wide { text_of (map opposite (Wide 0 true ∷ Wide 1 false ∷ Wide 2 true ∷ Wide 0 false ∷ Wide 1 true ∷ Wide 2 false ∷ []))
        ≡ codes "R-- D++ U' R++ D-- U" }
    ensures half_turn { text_of (tidy turn_merging (Face 1 1 1 ∷ Face 0 1 1 ∷ Face 0 1 3 ∷ Face 1 1 1 ∷ [])) ≡ codes "R2" }
    ensures no_neighbours { text_of (tidy turn_merging (Face 1 1 1 ∷ Face 4 1 1 ∷ Face 1 1 3 ∷ [])) ≡ codes "R L R'" }
    ensures layers_added { text_of (tidy turn_merging (Layers (pos 3) (pos 0) ∷ Layers (neg_ℤ (pos 3)) (pos 6) ∷ [])) ≡ codes "(0,6)" }
    ensures nothing { tidy turn_merging (Layers (pos 1) (pos 0) ∷ Twist ∷ Twist ∷ Layers (neg_ℤ (pos 1)) (pos 0) ∷ []) ≡ [] }
{}

/// The spellings of an event's turns differ.
pub fn one_turn_for_each_spelling()
    ensures { (event : Event) (turn other : Turn) → IsTrue (permits event turn) → IsTrue (permits event other)
        → spelling turn ≡ spelling other → turn ≡ other }
{}

/// Texts whose turns are known from elsewhere (WCA Regulations, article 12), with each letter and each sign.
#[tactic(auto, unfolding(scr_notation::specs::Spelling::spelling, scr_notation::specs::Spelling::hours_text))]
pub fn known_texts()
    ensures outer_layers { text_of (Face 0 1 1 ∷ Face 1 1 2 ∷ Face 2 1 3 ∷ Face 3 1 1 ∷ Face 4 1 2 ∷ Face 5 1 3 ∷ [])
        ≡ codes "U R2 F' D L2 B'" }
    ensures two_layers { text_of (Face 0 2 1 ∷ Face 1 2 2 ∷ Face 2 2 3 ∷ Face 3 2 1 ∷ Face 4 2 2 ∷ Face 5 2 3 ∷ [])
        ≡ codes "Uw Rw2 Fw' Dw Lw2 Bw'" }
    ensures three_layers { text_of (Face 0 3 1 ∷ Face 1 3 2 ∷ Face 2 3 3 ∷ Face 3 3 1 ∷ Face 4 3 2 ∷ Face 5 3 3 ∷ [])
        ≡ codes "3Uw 3Rw2 3Fw' 3Dw 3Lw2 3Bw'" }
    ensures axes { text_of (Axis 0 1 ∷ Axis 1 2 ∷ Axis 2 1 ∷ Axis 3 2 ∷ []) ≡ codes "U L' R B'" }
    ensures tips { text_of (Tip 0 2 ∷ Tip 1 1 ∷ Tip 2 2 ∷ Tip 3 1 ∷ []) ≡ codes "u' l r' b" }
    ensures layers { text_of
        (Layers (pos 1) (pos 0) ∷ Twist ∷ Layers (neg_ℤ (pos 3)) (pos 6) ∷ Layers (pos 0) (neg_ℤ (pos 5)) ∷ [])
        ≡ codes "(1,0) / (-3,6) (0,-5)" }
    ensures small_pin_sets { text_of (Pins 1 0 ∷ Pins 2 6 ∷ Pins 4 7 ∷ Pins 8 11 ∷ Over ∷ [])
        ≡ codes "UR0+ DR6+ DL5- UL1- y2" }
    ensures large_pin_sets { text_of (Pins 9 1 ∷ Pins 3 5 ∷ Pins 6 8 ∷ Pins 12 9 ∷ Pins 15 10 ∷ [])
        ≡ codes "U1+ R5+ D4- L3- ALL2-" }
    ensures wide_turns { text_of (Wide 0 true ∷ Wide 1 false ∷ Wide 2 true ∷ Wide 0 false ∷ Wide 1 true ∷ Wide 2 false ∷ [])
        ≡ codes "R++ D-- U R-- D++ U'" }
{}

/// The turns with these numbers, which order the words of a search.
#[tactic(auto, unfolding(scr_notation::specs::Spelling::spelling, scr_notation::specs::Spelling::hours_text, scr_notation::specs::TurnNumbers::face_turn_at, scr_notation::specs::TurnNumbers::axis_turn_at, scr_notation::specs::TurnNumbers::layer_turn_at, scr_notation::specs::TurnNumbers::clock_turn_at, scr_notation::specs::TurnNumbers::wide_turn_at))]
pub fn known_numbers()
    ensures outer_layers { text_of (map face_turn_at
        (0 ∷ 1 ∷ 2 ∷ 3 ∷ 4 ∷ 5 ∷ 6 ∷ 7 ∷ 8 ∷ 9 ∷ 10 ∷ 11 ∷ 12 ∷ 13 ∷ 14 ∷ 15 ∷ 16 ∷ 17 ∷ []))
        ≡ codes "U U2 U' R R2 R' F F2 F' D D2 D' L L2 L' B B2 B'" }
    ensures more_layers { text_of (map face_turn_at (18 ∷ 28 ∷ 35 ∷ 36 ∷ 44 ∷ 45 ∷ 53 ∷ []))
        ≡ codes "Uw Dw2 Bw' 3Uw 3Fw' 3Dw 3Bw'" }
    ensures axes_and_tips { text_of (map axis_turn_at
        (0 ∷ 1 ∷ 2 ∷ 3 ∷ 4 ∷ 5 ∷ 6 ∷ 7 ∷ 8 ∷ 9 ∷ 10 ∷ 11 ∷ 12 ∷ 13 ∷ 14 ∷ 15 ∷ []))
        ≡ codes "U U' L L' R R' B B' u u' l l' r r' b b'" }
    ensures layers { text_of (map layer_turn_at (0 ∷ 1 ∷ 64 ∷ 65 ∷ 66 ∷ 143 ∷ []))
        ≡ codes "(-5,-5) (-5,-4) (0,-1) / (0,1) (6,6)" }
    ensures pin_sets { text_of (map clock_turn_at (0 ∷ 11 ∷ 12 ∷ 102 ∷ 108 ∷ [])) ≡ codes "UR0+ UR1- DR0+ ALL6+ y2" }
    ensures wide_turns { text_of (map wide_turn_at (0 ∷ 1 ∷ 2 ∷ 3 ∷ 4 ∷ 5 ∷ [])) ≡ codes "R++ R-- D++ D-- U U'" }
{}

/// Each number below the count of an event's turns is that of one of its turns, each of them has one, and no two the
/// same.
pub fn turn_numbers()
    ensures turns { (event : Event) (n : ℕ) → n < turn_count (kind_of event)
        → IsTrue (permits event (turn_at (kind_of event) n)) }
    ensures numbered { (event : Event) (turn : Turn) → IsTrue (permits event turn)
        → (n : ℕ) × (n < turn_count (kind_of event)) × (turn_at (kind_of event) n ≡ turn) }
    ensures once { (event : Event) (n other : ℕ) → n < turn_count (kind_of event) → other < turn_count (kind_of event)
        → turn_at (kind_of event) n ≡ turn_at (kind_of event) other → n ≡ other }
{}

/// A text has at most one first word at fault, and one fault there.
pub fn one_fault_for_each_text()
    ensures { (event : Event) (text : List ℕ) (fault other : NotationFault)
        → IsFirstFault event text fault → IsFirstFault event text other → fault ≡ other }
{}

/// The opposite of an event's turn is one, and the opposite of that is the turn.
pub fn opposites()
    ensures of_event { (event : Event) (turn : Turn) → IsTrue (permits event turn)
        → IsTrue (permits event (opposite turn)) }
    ensures twice { (event : Event) (turn : Turn) → IsTrue (permits event turn) → opposite (opposite turn) ≡ turn }
{}

/// Of an event whose turns are merged: merges give turns of the event, and it doesn't matter which of three neighbours
/// are merged first. So a tidied word has no neighbours that can be merged; merges lead to it, and to no other word
/// that can't be merged further, in whatever order they are done.
pub fn tidied_words()
    ensures lawful { (event : Event) → IsTrue (has_merging (kind_of event))
        → IsMerging turn_merging (λ t. IsTrue (permits event t)) }
    ensures tidied { (event : Event) (word : List Turn) → IsTrue (has_merging (kind_of event))
        → All (λ t. IsTrue (permits event t)) word → IsTidy turn_merging (tidy turn_merging word) }
    ensures merged { (word : List Turn) → MergesTo turn_merging word (tidy turn_merging word) }
    ensures any_order { (event : Event) (word end : List Turn) → IsTrue (has_merging (kind_of event))
        → All (λ t. IsTrue (permits event t)) word → MergesTo turn_merging word end
        → ((further : List Turn) → Merges turn_merging end further → ⊥) → end ≡ tidy turn_merging word }
{}
