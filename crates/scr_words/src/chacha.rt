//! The words of a seeded stream.

ghost use Rattle.std.specs.Prelude.{◌≡◌};
ghost use Rattle.rand_chacha.specs.ChaCha.{key_of};
ghost use Rattle.scr_words.specs.Stream.{stream_word};

use crate::{Seed, Words};
use rand_chacha::ChaCha20Rng;
use rand_core::SeedableRng;
use rand_core::utils::NextWord;
use std::marker::Model;

/// The words of one stream of a seed: ChaCha20 (RFC 8439) with the seed as its key, sixteen words
/// to a block, 64 bits of block number and 64 bits of stream.
#[derive(Drop)]
pub struct ChaChaWords {
    generator: ChaCha20Rng,
}

impl Model for ChaChaWords {
    ghost use Rattle.scr_words.specs.Taken.{Stream};

    ghost Value = { Stream };

    ghost view = { λ a. record {
      key = a.generator.key;
      stream = a.generator.stream;
      taken = a.generator.word_pos;
    } };
}

impl ChaChaWords {
    /// The words of stream `stream` of a seed, from place 0 on.
    pub fn new(seed: &Seed, stream: u64) -> ChaChaWords
        ensures value { result ≡ record { key = key_of seed.now.0; stream = stream; taken = 0 } }
        ensures words { ⟦<ChaChaWords as Words>⟧.word_at result ≡ stream_word seed.now.0 stream }
        ensures none_taken { ⟦<ChaChaWords as Words>⟧.taken result ≡ 0 }
    {
        let mut generator = ChaCha20Rng::from_seed(seed.0);
        generator.set_stream(stream);
        ChaChaWords { generator }
    }
}

impl Words for ChaChaWords {
    ghost use Rattle.rand_chacha.specs.ChaCha.{word_at as chacha_word_at};

    ghost word_at = { λ s. chacha_word_at 10 s.key s.stream };

    ghost taken = { λ s. s.taken };

    fn next(&mut self) -> u32 {
        self.generator.next_word()
    }
}
