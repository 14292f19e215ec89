//! Laws of pictures. The functions do nothing: what each ensures is the law.
ghost use Rattle.std.specs.Prelude.{◌≡◌, ◌≢◌, ℕ, ◌<◌, All, Contains, IsTrue, List, [], ◌∷◌, None, Some, length, slice_get};
ghost use Rattle.std.specs.List.{AllPass};
ghost use Rattle.scr_combinatorics.specs.Back.{back};
ghost use Rattle.scr_combinatorics.specs.Lists.{IsRearranged};
ghost use Rattle.scr_combinatorics.specs.Play.{play};
ghost use Rattle.scr_orbit.specs.Orbits.{Orbit};
ghost use Rattle.scr_orbit.specs.PowerPuzzles.{after_letter};
ghost use Rattle.scr_notation.specs.declared.event.Event.{Event as EventOf};
ghost use Rattle.scr_notation.specs.declared.event.Event.TheVariants.{C222, Bf333, Minx, Pyram, Skewb, Clock, Sq1};
ghost use Rattle.scr_notation.specs.declared.event.Puzzle.TheVariants as puzzle;
ghost use Rattle.scr_notation.specs.Event.{puzzle_of};
ghost use Rattle.scr_notation.specs.declared.turn.Turn.{Turn as Letter};
ghost use Rattle.scr_notation.specs.Turning.{opposite};
ghost use Rattle.scr_notation.specs.Turns.{permits};
ghost use Rattle.scr_cube.specs.Cube333.{CubeState, cube_powers, solved_cube};
ghost use Rattle.scr_cube.specs.Cube222.{powers_222, solved_222};
ghost use Rattle.scr_cube.specs.Held.{HeldState, held_cube_after, solved_held};
ghost use Rattle.scr_net.specs.Pieces.{net_of_corners, net_of_cube, net_of_held};
ghost use Rattle.scr_tetra.specs.Skewb.{SkewbState, skewb_powers, solved_skewb};
ghost use Rattle.scr_tetra.specs.Pyraminx.{PyramState, pyram_powers, solved_pyram};
ghost use Rattle.scr_clock.specs.Dials.{solved};
ghost use Rattle.scr_clock.specs.Held.{clock_after};
ghost use Rattle.scr_sq1.specs.Units.{Sq1State, solved_sq1, sq1_after};
ghost use Rattle.scr_picture.specs.declared.names.Alphabet.TheVariants.{Cube as Faces, Pyraminx as PyraminxFaces, Hours};
ghost use Rattle.scr_picture.specs.Names.{joined_text, spaced_text};
ghost use Rattle.scr_picture.specs.Stickers.{moved_times, stickers_after};
ghost use Rattle.scr_picture.specs.Megaminx.{minx_moves, solved_minx};
ghost use Rattle.scr_picture.specs.Pieces.{pyram_shown, skewb_shown};
ghost use Rattle.scr_picture.specs.Pictures.{clock_hours, net_letters, picture_of, sq1_letters};

/// Turns of an event make a picture, but where one of a Square-1 is barred in its place.
#[tactic(auto, using(crate::proofs::AlwaysShown::none_where_barred))]
pub fn shown()
    ensures { (event : EventOf) (w : List Letter) → All (λ t. IsTrue (permits event t)) w → picture_of event w ≡ None
        → (puzzle_of event ≡ puzzle.Square1) × (play sq1_after solved_sq1 w ≡ None) }
{}

/// Wherever turns lead the pieces of a 2x2x2, they make the picture of these pieces; and only one state has each
/// picture. Its corner DBL stands still, so two states are never one that is held two ways.
#[tactic(auto, using(scr_net_laws::proofs::PlayedNets::corners_nets, crate::proofs::OneCube::one_corners_shown))]
pub fn corners()
    ensures shown { (w : List Letter) (o : Orbit) → play (after_letter powers_222) solved_222 w ≡ Some o
        → picture_of C222 w ≡ Some (net_letters 2 (net_of_corners o)) }
    ensures one { (w v : List Letter) (o r : Orbit) → play (after_letter powers_222) solved_222 w ≡ Some o
        → play (after_letter powers_222) solved_222 v ≡ Some r → picture_of C222 w ≡ picture_of C222 v → o ≡ r }
{}

/// And of a 3x3x3, in each event in which it isn't held another way.
#[tactic(auto, using(crate::proofs::Cited::cube))]
pub fn cube()
    ensures shown { (event : EventOf) (w : List Letter) (c : CubeState) → Contains (puzzle.Cube333 ∷ puzzle.Fewest333 ∷ []) (puzzle_of event)
        → play (after_letter cube_powers) solved_cube w ≡ Some c
        → picture_of event w ≡ Some (net_letters 3 (net_of_cube c)) }
    ensures one { (event : EventOf) (w v : List Letter) (c d : CubeState) → Contains (puzzle.Cube333 ∷ puzzle.Fewest333 ∷ []) (puzzle_of event)
        → play (after_letter cube_powers) solved_cube w ≡ Some c → play (after_letter cube_powers) solved_cube v ≡ Some d
        → picture_of event w ≡ picture_of event v → c ≡ d }
{}

/// And of a 3x3x3 that wide turns leave held any way, of the cube and of how it is held.
#[tactic(auto, using(scr_net_laws::proofs::HeldNets::held_nets, crate::proofs::OneCube::one_held_shown))]
pub fn held()
    ensures shown { (w : List Letter) (r : HeldState) → play held_cube_after solved_held w ≡ Some r
        → picture_of Bf333 w ≡ Some (net_letters 3 (net_of_held r)) }
    ensures one { (w v : List Letter) (r q : HeldState) → play held_cube_after solved_held w ≡ Some r
        → play held_cube_after solved_held v ≡ Some q → picture_of Bf333 w ≡ picture_of Bf333 v → r ≡ q }
{}

/// And of a Skewb.
#[tactic(auto, using(crate::proofs::ShownSkewb::skewb_played))]
pub fn skewb()
    ensures shown { (w : List Letter) (s : SkewbState) → play (after_letter skewb_powers) solved_skewb w ≡ Some s
        → picture_of Skewb w ≡ Some (joined_text Faces (skewb_shown s)) }
    ensures one { (w v : List Letter) (s r : SkewbState) → play (after_letter skewb_powers) solved_skewb w ≡ Some s
        → play (after_letter skewb_powers) solved_skewb v ≡ Some r → picture_of Skewb w ≡ picture_of Skewb v → s ≡ r }
{}

/// And of a Pyraminx.
#[tactic(auto, using(crate::proofs::ShownPyram::pyram_played))]
pub fn pyraminx()
    ensures shown { (w : List Letter) (s : PyramState) → play (after_letter pyram_powers) solved_pyram w ≡ Some s
        → picture_of Pyram w ≡ Some (joined_text PyraminxFaces (pyram_shown s)) }
    ensures one { (w v : List Letter) (s r : PyramState) → play (after_letter pyram_powers) solved_pyram w ≡ Some s
        → play (after_letter pyram_powers) solved_pyram v ≡ Some r → picture_of Pyram w ≡ picture_of Pyram v → s ≡ r }
{}

/// A Clock and a Square-1 show their states; and only one state has each picture.
#[tactic(auto, using(crate::proofs::OneOther::one_clock_shown, crate::proofs::OneOther::one_sq1_shown))]
pub fn states()
    ensures clock { (w : List Letter) (dials : List ℕ) → clock_after solved w ≡ Some dials
        → picture_of Clock w ≡ Some (spaced_text Hours (clock_hours dials)) }
    ensures sq1 { (w : List Letter) (s : Sq1State) → play sq1_after solved_sq1 w ≡ Some s
        → picture_of Sq1 w ≡ Some (sq1_letters s) }
    ensures one_clock { (w v : List Letter) (dials other : List ℕ) → clock_after solved w ≡ Some dials
        → clock_after solved v ≡ Some other → picture_of Clock w ≡ picture_of Clock v → dials ≡ other }
    ensures one_sq1 { (w v : List Letter) (s r : Sq1State) → play sq1_after solved_sq1 w ≡ Some s
        → play sq1_after solved_sq1 v ≡ Some r → picture_of Sq1 w ≡ picture_of Sq1 v → s ≡ r }
{}

/// Each move of a Megaminx done five times moves nothing, and done less often it doesn't leave the solved one as it is.
/// Each turn leaves each letter as often as before, and turns taken back lead back.
#[tactic(auto, using(crate::proofs::Cited::megaminx))]
pub fn megaminx()
    ensures five { (k : ℕ) (from letters : List ℕ) → slice_get minx_moves k ≡ Some from → length letters ≡ 132
        → moved_times 5 from letters ≡ letters }
    ensures fewer { (k n : ℕ) (from : List ℕ) → slice_get minx_moves k ≡ Some from → 0 < n → n < 5
        → moved_times n from solved_minx ≢ solved_minx }
    ensures kept { (t : Letter) (letters r : List ℕ) → length letters ≡ 132
        → stickers_after minx_moves letters t ≡ Some r → IsRearranged r letters }
    ensures back { (w : List Letter) (letters r : List ℕ) → AllPass (permits Minx) w → length letters ≡ 132
        → play (stickers_after minx_moves) letters w ≡ Some r
        → play (stickers_after minx_moves) r (back opposite w) ≡ Some letters }
{}
