//! The words of a list.

ghost use Rattle.std.specs.Prelude.{◌≡◌, slice_index};

use crate::Words;
use std::marker::Model;

/// The words of a list, and zeros after its last word.
#[derive(Drop)]
pub struct ListWords<'a> {
    list: &'a [u32],
    taken: u64,
}

impl<'a> Model for ListWords<'a> {
    ghost use Rattle.scr_words.specs.Taken.{Listed};

    ghost Value = { Listed };

    ghost view = { λ a. record { list = a.list.now; taken = a.taken } };
}

impl<'a> ListWords<'a> {
    /// The words of `list`, from its first word on.
    pub fn new(list: &'a [u32]) -> ListWords<'a>
        ensures value { result ≡ record { list = list.now; taken = 0 } }
        ensures words { ⟦<ListWords<'a> as Words>⟧.word_at result ≡ slice_index list.now }
        ensures none_taken { ⟦<ListWords<'a> as Words>⟧.taken result ≡ 0 }
    {
        ListWords { list, taken: 0 }
    }
}

impl Words for ListWords<'_> {
    ghost use Rattle.std.specs.Prelude.{slice_index};

    ghost word_at = { λ s. slice_index s.list };

    ghost taken = { λ s. s.taken };

    fn next(&mut self) -> u32 {
        let word = self.list.get(self.taken as usize).copied().unwrap_or(0);
        self.taken += 1;
        word
    }
}
