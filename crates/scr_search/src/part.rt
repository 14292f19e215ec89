//! Parts of the solution of a cube.

use crate::position::Extent;
use arrayvec::ArrayVec;
use scr_cube::Cube;
use scr_outside::NoMemory;
use scr_positions::MoveTable;
use std::alloc::Global;

/// A word of at most 22 turns, those of two parts, told by their numbers.
pub type Word = ArrayVec<u8, 22>;

/// A part of the solution of a cube: its turns, its coordinates, how many these are in numbers, and what its whole
/// words give. It is a type without values.
pub trait Part: Copy {
    ghost use Rattle.std.specs.Prelude.{◌≡◌, ◌+◌, ◌≤◌, false, IfOk, List, None, Option, Some, if◌then◌else◌, length, ℕ};
    ghost use Rattle.scr_cube.specs.Cube333.{CubeState};
    ghost use Rattle.scr_positions.specs.Moves.{moves_coordinate};
    ghost use Rattle.scr_positions.specs.SearchSpaces.{ShowsSame};
    ghost use Rattle.scr_search.specs.declared.position.Extent.{Extent as ExtentOf};
    ghost use Rattle.scr_search.specs.Views.{Views, AreViews};
    ghost use Rattle.scr_search.specs.Search.{IsAtEnd};

    /// What a whole word is handed to.
    type Rest;

    /// Its turns, the cubes that it goes through, and its coordinates.
    ghost views: { Views };

    /// The same in numbers, and what its pruning tables are.
    ghost extent: { ExtentOf };

    /// What a whole word from a cube on gives.
    ghost gives: { CubeState → List ℕ → Option (List ℕ) };

    /// These numbers. The coordinates go along with the turns, and the numbers are theirs.
    fn extent() -> &'static Extent
        ensures same { result.now ≡ extent }
        ensures views { AreViews views result.now };

    /// Where turns lead in the first of its own coordinates.
    fn one_moves(alloc: Global) -> Result<MoveTable, NoMemory>
        ensures { IfOk result (λ moves. ShowsSame views.one.coordinate (moves_coordinate moves)) };

    /// In the other.
    fn other_moves(alloc: Global) -> Result<MoveTable, NoMemory>
        ensures { IfOk result (λ moves. ShowsSame views.other.coordinate (moves_coordinate moves)) };

    /// In that of the middle layer.
    fn middle_moves(alloc: Global) -> Result<MoveTable, NoMemory>
        ensures { IfOk result (λ moves. ShowsSame views.middle.coordinate (moves_coordinate moves)) };

    /// Makes of a whole word what it gives, if it gives anything.
    fn give(rest: &Self::Rest, cube: &Cube, word: &mut Word) -> bool
        requires whole { IsAtEnd views cube.now word.old.items }
        requires few { length word.old.items ≤ views.before + extent.most }
        ensures given { gives cube.now word.old.items ≡ (if result then Some word.new.items else None) }
        ensures same { result ≡ false → word.new.items ≡ word.old.items };

    /// Words are no longer than those of two parts.
    ghost short: { views.before + extent.most ≤ 22 };
}
