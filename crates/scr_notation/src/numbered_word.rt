//! Words of turns, told by the turns' numbers until a scramble is made of them.
ghost use Rattle.std.specs.Prelude.{◌≡◌, ◌+◌, ◌<◌, ◌≤◌, [], ◌∷◌, ◌++◌, All, IsTrue, length, map, reverse};
ghost use Rattle.arrayvec.specs.ArrayVec.{array_vec_len};
ghost use Rattle.scr_combinatorics.specs.Back.{back};
ghost use Rattle.scr_combinatorics.specs.Tidy.{tidy, with_turn};
ghost use Rattle.scr_notation.specs.declared.event.Kind.TheVariants.{PinSets};
ghost use Rattle.scr_notation.specs.Event.{kind_of};
ghost use Rattle.scr_notation.specs.Kinds.{IsKind};
ghost use Rattle.scr_notation.specs.TurnNumbers.{turn_at, turn_count};
ghost use Rattle.scr_notation.specs.Turning.{opposite, turn_merging, has_merging};
ghost use Rattle.scr_notation.specs.Written.{numbered_word, IsWritten};

use crate::event::{Event, Kind};
use crate::scramble::{MOST_TURNS, Scramble, push_turn};
use crate::turn::{number_of, turn_at};
use crate::turning::merged_number;
use arrayvec::ArrayVec;
use std::marker::Model;

/// A word of at most 160 turns of an event, told by their numbers. So it is joined with others, tidied and taken back;
/// the last step makes turns of it.
#[derive(Drop)]
pub struct NumberedWord {
    event: Event,
    numbers: ArrayVec<u8, MOST_TURNS>,
}

// Clauses see the event and the turns.
impl Model for NumberedWord {
    ghost use Rattle.std.specs.Prelude.{All, ◌<◌};
    ghost use Rattle.scr_notation.specs.Event.{kind_of};
    ghost use Rattle.scr_notation.specs.TurnNumbers.{turn_count};
    ghost use Rattle.scr_notation.specs.Written.{Written, numbered_word};

    ghost Value = { Written };

    ghost view = { λ w. numbered_word w.event w.numbers.items };

    ghost invariant = { λ w. All (λ number. number < turn_count (kind_of w.event)) w.numbers.items };
}

impl NumberedWord {
    /// The empty word of an event.
    pub fn new(event: Event) -> NumberedWord
        ensures { result ≡ record { event = event; turns = [] } }
    {
        NumberedWord {
            event,
            numbers: ArrayVec::new(),
        }
    }

    /// The word of the turns with these numbers among an event's turns. They are at most 160.
    pub fn of(event: Event, numbers: &[u8]) -> NumberedWord
        requires few { length numbers.now ≤ 160 }
        requires below { All (λ number. number < turn_count (kind_of event)) numbers.now }
        ensures { result ≡ numbered_word event numbers.now }
    {
        let mut word = NumberedWord::new(event);
        word.push_all(numbers);
        word
    }

    /// The word of a scramble's turns, of any event but Clock.
    pub(crate) fn of_scramble(scramble: &Scramble) -> NumberedWord
        requires { kind_of scramble.now.event ≡ PinSets → ⊥ }
        ensures { result ≡ scramble.now }
    {
        let event = scramble.event();
        let mut word = NumberedWord::new(event);
        for turn in scramble.turns() {
            word.push(number_of(event.row().kind, *turn));
        }
        word
    }

    /// The numbers of the turns, in order.
    pub fn numbers(&self) -> &[u8]
        ensures value { self.now ≡ numbered_word self.now.event result.now }
        ensures below { All (λ number. number < turn_count (kind_of self.now.event)) result.now }
        ensures few { length result.now ≤ 160 }
    {
        self.numbers.as_slice()
    }

    /// Adds the turn with a number among the event's turns to a word that has room.
    pub fn push(&mut self, number: u8)
        requires room { length self.old.turns < 160 }
        requires below { number < turn_count (kind_of self.old.event) }
        ensures { self.new ≡ record { event = self.old.event; turns = self.old.turns ++ turn_at (kind_of self.old.event) number ∷ [] } }
    {
        self.numbers.push(number);
    }

    /// Adds the turns with these numbers to a word that has room for them.
    pub fn push_all(&mut self, numbers: &[u8])
        requires room { length self.old.turns + length numbers.now ≤ 160 }
        requires below { All (λ number. number < turn_count (kind_of self.old.event)) numbers.now }
        ensures { self.new ≡ record { event = self.old.event; turns = self.old.turns ++ map (turn_at (kind_of self.old.event)) numbers.now } }
    {
        if self.numbers.try_extend_from_slice(numbers).is_err() {
            unreachable!();
        }
    }

    /// What is left of a word of cubes or of Square-1 when neighbouring turns of one face, or of the layers, or two
    /// twists are merged, until there are none: two such come to one turn, or to nothing. The order in which that is done
    /// doesn't matter.
    pub fn tidied(&self) -> NumberedWord
        requires { IsTrue (has_merging (kind_of self.now.event)) }
        ensures value { result ≡ record { event = self.now.event; turns = tidy turn_merging self.now.turns } }
        ensures valid { IsWritten result }
    {
        let kind = self.event.row().kind;
        let mut numbers = ArrayVec::new();
        for place in (0..self.numbers.len()).rev() {
            put_before(kind, &mut numbers, self.numbers[place]);
        }
        numbers.as_mut_slice().reverse();
        NumberedWord {
            event: self.event,
            numbers,
        }
    }

    /// The scramble with these turns.
    pub fn scramble(&self) -> Scramble
        ensures { result ≡ self.now }
    {
        let kind = self.event.row().kind;
        let mut scramble = Scramble::new(self.event);
        for number in self.numbers.as_slice() {
            push_turn(&mut scramble, turn_at(kind, *number));
        }
        scramble
    }

    /// The scramble that undoes these turns: the opposite turns in reversed order.
    pub fn taken_back(&self) -> Scramble
        ensures { result ≡ record { event = self.now.event; turns = back opposite self.now.turns } }
    {
        let kind = self.event.row().kind;
        let mut scramble = Scramble::new(self.event);
        for place in (0..self.numbers.len()).rev() {
            let number = self.numbers[place];
            let opposite = match kind {
                Kind::Faces { .. } => number - number % 3 + (2 - number % 3),
                Kind::Axes { .. } => number - number % 2 + (1 - number % 2),
                Kind::LayersAndTwist => 12 * ((22 - number / 12) % 12) + (22 - number % 12) % 12,
                Kind::PinSets => number - number % 12 + (12 - number % 12) % 12,
                Kind::WideTurns => number - number % 2 + (1 - number % 2),
            };
            push_turn(&mut scramble, turn_at(kind, opposite));
        }
        scramble
    }
}

/// Puts a turn before a tidy word, whose turns stand with the last one first.
fn put_before(kind: Kind, last_first: &mut ArrayVec<u8, MOST_TURNS>, number: u8)
    requires merging { IsTrue (has_merging kind) }
    requires kind { IsKind kind }
    requires room { array_vec_len last_first.old < 160 }
    requires below { All (λ n. n < turn_count kind) last_first.old.items }
    requires turn { number < turn_count kind }
    ensures word { map (turn_at kind) (reverse last_first.new.items)
        ≡ with_turn turn_merging (turn_at kind number) (map (turn_at kind) (reverse last_first.old.items)) }
    ensures below { All (λ n. n < turn_count kind) last_first.new.items }
    ensures len { array_vec_len last_first.new ≤ array_vec_len last_first.old + 1 }
{
    let Some(next) = last_first.pop() else {
        last_first.push(number);
        return;
    };
    match merged_number(kind, number, next) {
        None => {
            last_first.push(next);
            last_first.push(number);
        }
        Some(Some(merged)) => last_first.push(merged),
        Some(None) => {}
    }
}
