//! The search for a part of a solution: through the words of its turns, depth first and by rising length.
ghost use Rattle.std.specs.Prelude.{◌≡◌, ◌+◌, ◌++◌, ◌<◌, ◌≤◌, IsTrue, filter, length, map};
ghost use Rattle.scr_combinatorics.specs.Words.{words_behind, words_within};
ghost use Rattle.scr_search.specs.Orderly.{ends_with};
ghost use Rattle.scr_search.specs.Search.{IsAt, IsSearched};
ghost use Rattle.scr_search.specs.Views.{AreViews, is_whole};

use crate::near_set::NEAR;
use crate::part::{Part, Word};
use crate::position::PartPosition;
use crate::search_tables::SearchTables;
use scr_cube::Cube;

/// A search for a part of a solution of a cube: what stays the same while it goes through the words.
#[derive(Clone, Copy)]
pub struct Search<'a, P: Part> {
    /// Where turns lead, the pruning tables, and the near set.
    pub tables: &'a SearchTables<P>,
    /// What whole words are handed to.
    pub rest: &'a P::Rest,
    /// The cube.
    pub cube: &'a Cube,
}

impl<P: Part> Search<'_, P> {
    /// Makes of a word what the first gives of the whole words of the part that go on from it. Each of them counts one
    /// try, and none is looked at once `tries` are made. If none gives anything, the word stays.
    pub fn within(&self, word: &mut Word, at: PartPosition, tries: &mut u32) -> bool
        requires at { IsAt P.views self.now.cube.now word.old.items at }
        requires last { IsTrue (ends_with P.views.is_last word.old.items) }
        requires few { length word.old.items ≤ P.views.before }
        ensures { IsSearched (P.gives self.now.cube.now) (filter (is_whole P.views self.now.cube.now)
            (map (λ v. word.old.items ++ v) (words_within P.views.turns P.extent.most)))
            tries.old word.old.items result word.new.items tries.new }
    {
        let extent = P::extent();
        // From no cube with this position fewer turns lead to an end than the pruning table says, nor from one that the
        // near set lacks so few as that has.
        let index = extent.index(extent.ones, at.one, at.middle);
        let by_one = self.tables.one_slice.distances.distance(index);
        let least = if self.tables.near.has(SearchTables::<P>::number_of(at)) {
            by_one
        } else {
            by_one.max(NEAR + 1)
        };
        for left in least..extent.most + 1 {
            if self.behind(word, at, left, tries) {
                return true;
            }
        }
        false
    }

    /// Does so with the words that go on from it by `left` turns: if that is none, with the word itself, which is a try
    /// where it leads to an end of the part.
    fn behind(&self, word: &mut Word, at: PartPosition, left: u32, tries: &mut u32) -> bool
        requires views { AreViews P.views P.extent }
        requires at { IsAt P.views self.now.cube.now word.old.items at }
        requires last { left ≡ 0 → IsTrue (ends_with P.views.is_last word.old.items) }
        requires few { length word.old.items + left ≤ P.views.before + P.extent.most }
        ensures { IsSearched (P.gives self.now.cube.now)
            (words_behind P.views.turns (is_whole P.views self.now.cube.now) word.old.items left)
            tries.old word.old.items result word.new.items tries.new }
    {
        if *tries == 0 {
            return false;
        }
        if left == 0 {
            if SearchTables::<P>::number_of(at) != P::extent().end {
                return false;
            }
            *tries -= 1;
            return P::give(self.rest, self.cube, word);
        }
        let mut turns = self.tables.turns_behind(word, at, left);
        if turns.bits == 0 {
            return false;
        }
        // The word is made longer once, and each turn is written into the same place.
        let depth = word.len();
        word.push(0);
        while let Some(place) = turns.pop() {
            let next = self.tables.after(at, place);
            word[depth] = P::extent().numbers[place as usize];
            if self.behind(word, next, left - 1, tries) {
                return true;
            }
        }
        word.pop();
        false
    }
}
