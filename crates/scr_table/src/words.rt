//! The first words to goals.

ghost use Rattle.std.specs.Prelude.{◌≡◌, ◌+◌, ◌++◌, [], ◌∷◌, ◌<◌, ◌≤◌, IfNone, IfSome, ℕ, length, slice_index, slice_index_or, take};
ghost use Rattle.scr_positions.specs.Coordinates.{moved};
ghost use Rattle.scr_table.specs.Distances.{Measures};
ghost use Rattle.scr_table.specs.Words.{goal_words_behind, words_to_goal};

use crate::line_table::{Line, LineTable};
use crate::table::GREATEST_BOUND;
use arrayvec::ArrayVec;
use scr_positions::Coord;
use std::marker::Model;

/// Words of turn numbers, one after another: at most 1,000, each of at most `GREATEST_BOUND` turns.
#[derive(Drop)]
pub struct FirstWords {
    words: ArrayVec<ArrayVec<u8, GREATEST_BOUND>, 1000>,
}

// Clauses see the list of the words.
impl Model for FirstWords {
    ghost use Rattle.std.specs.Prelude.{ℕ, List, map};

    ghost Value = { List (List ℕ) };

    ghost view = { λ found. map (λ word. word.items) found.words.items };
}

impl FirstWords {
    /// How many words there are.
    pub fn len(&self) -> usize
        ensures count { result ≡ length self.now }
        ensures at_most { result ≤ 1000 }
    {
        self.words.len()
    }

    /// The word at a place.
    pub fn word(&self, place: usize) -> &[u8]
        requires { place < length self.now }
        ensures word { result.now ≡ slice_index_or self.now place [] }
        ensures short { length result.now ≤ GREATEST_BOUND }
    {
        &self.words[place][..]
    }

    /// Puts a word of at most `GREATEST_BOUND` turns behind the others, where there is room.
    fn push(&mut self, word: &[u8])
        requires room { length self.old < 1000 }
        requires short { length word.now ≤ GREATEST_BOUND }
        ensures { self.new ≡ self.old ++ word.now ∷ [] }
    {
        let mut copy = ArrayVec::new();
        for turn in word {
            copy.push(*turn);
        }
        self.words.push(copy);
    }
}

impl<L: Line> LineTable<L> {
    /// The first `wanted` words of at most `most` turns that lead from a position, below the number of positions, to a
    /// goal, in the order of words: by length, then by turn numbers from the first turn. All of them, where there are
    /// fewer. One that meets a goal on its way is one too. It takes no memory.
    pub fn first_words(&self, position: u32, most: u32, wanted: u32) -> FirstWords
        requires position { position < L.line.coordinate.count }
        requires most { most ≤ GREATEST_BOUND }
        requires wanted { wanted ≤ 1000 }
        ensures { result ≡ take wanted (words_to_goal L.line.coordinate position most) }
    {
        let wanted = wanted as usize;
        let mut found = FirstWords {
            words: ArrayVec::new(),
        };
        let mut word = ArrayVec::new();
        let near = self.distances.distance(position);
        for left in near..most + 1 {
            if found.len() < wanted {
                self.push_behind(position, left, wanted, &mut word, &mut found);
            }
        }
        found
    }

    /// Puts behind the words that are found those that go on from a word by just `left` turns, which lead from a
    /// position to a goal, as far as they are wanted. There are fewer than are wanted so far, and the position is near
    /// enough.
    fn push_behind(
        &self,
        position: u32,
        left: u32,
        wanted: usize,
        word: &mut ArrayVec<u8, GREATEST_BOUND>,
        found: &mut FirstWords,
    )
        requires position { position < L.line.coordinate.count }
        requires measures { Measures L.line.coordinate self.now }
        requires near { slice_index self.now.distances position ≤ left }
        requires short { length word.old.items + left ≤ GREATEST_BOUND }
        requires few { wanted ≤ 1000 }
        requires wanted { length found.old < wanted }
        ensures found { found.new ≡ take wanted (found.old ++ goal_words_behind L.line.coordinate position word.old.items left) }
        ensures word { word.new.items ≡ word.old.items }
    {
        if left == 0 {
            found.push(&word[..]);
            return;
        }
        for turn in 0..self.moves.turns() {
            if found.len() >= wanted {
                return;
            }
            if let Some(next) = self.near_step(position, turn, left) {
                word.push(turn as u8);
                self.push_behind(next, left - 1, wanted, word, found);
                word.pop();
            }
        }
    }

    /// The position after a turn, if it is not barred and fewer than `left` turns lead on from there to a goal.
    #[inline]
    fn near_step(&self, position: u32, turn: u32, left: u32) -> Option<u32>
        requires position { position < L.line.coordinate.count }
        requires turn { turn < L.line.coordinate.turns }
        ensures leads { IfSome result (λ next. moved L.line.coordinate position turn ≡ Some next) }
        ensures below { IfSome result (λ next. next < L.line.coordinate.count) }
        ensures near { IfSome result (λ next. slice_index self.now.distances next < left) }
        ensures far { IfNone result ((next : ℕ) → moved L.line.coordinate position turn ≡ Some next
            → left ≤ slice_index self.now.distances next) }
    {
        let next = self.moves.after(position, turn)?;
        if self.distances.distance(next) < left {
            Some(next)
        } else {
            None
        }
    }
}
