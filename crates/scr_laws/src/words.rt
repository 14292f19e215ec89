//! What the definition of a stream gives, as known from outside: a call that does nothing, whose contract is the law.

ghost use Rattle.std.specs.Prelude.{◌≡◌, ◌+◌, ◌*◌, ◌^◌, ◌++◌, [], ◌∷◌, replicate};
ghost use Rattle.std.specs.List.{range_with_len};
ghost use Rattle.scr_laws.specs.Runs.{words_from};

/// The streams have the block vectors of RFC 8439 that fit two words of block number and two of stream. The RFC's
/// counter and the first word of its nonce are the block number here, the low word first; the rest of its nonce is the
/// stream.
#[tactic(auto, unfolding(crate::proofs::WordsOnLiterals::stream_on_literals))]
pub fn block_vectors()
    // 2.3.2: the key 0, 1, 2 and so on to 31
    ensures block_function { words_from (range_with_len 0 32) 0x4a000000 (16 * (1 + 0x09000000 * 2 ^ 32)) 16
        ≡ 0xe4e7f110 ∷ 0x15593bd1 ∷ 0x1fdd0f50 ∷ 0xc47120a3 ∷ 0xc7f4d1c7 ∷ 0x0368c033 ∷ 0x9aaa2204 ∷ 0x4e6cd4c3
        ∷ 0x466482d2 ∷ 0x09aa9f07 ∷ 0x05d7c214 ∷ 0xa2028bd9 ∷ 0xd19c12b5 ∷ 0xb94e16de ∷ 0xe883d0cb ∷ 0x4e3c50a2 ∷ [] }

    // appendix A.1, vectors 1 and 2
    ensures first_blocks { words_from (replicate 32 0) 0 0 32
        ≡ 0xade0b876 ∷ 0x903df1a0 ∷ 0xe56a5d40 ∷ 0x28bd8653 ∷ 0xb819d2bd ∷ 0x1aed8da0 ∷ 0xccef36a8 ∷ 0xc70d778b
        ∷ 0x7c5941da ∷ 0x8d485751 ∷ 0x3fe02477 ∷ 0x374ad8b8 ∷ 0xf4b8436a ∷ 0x1ca11815 ∷ 0x69b687c3 ∷ 0x8665eeb2
        ∷ 0xbee7079f ∷ 0x7a385155 ∷ 0x7c97ba98 ∷ 0x0d082d73 ∷ 0xa0290fcb ∷ 0x6965e348 ∷ 0x3e53c612 ∷ 0xed7aee32
        ∷ 0x7621b729 ∷ 0x434ee69c ∷ 0xb03371d5 ∷ 0xd539d874 ∷ 0x281fed31 ∷ 0x45fb0a51 ∷ 0x1f0ae1ac ∷ 0x6f4d794b ∷ [] }

    // vector 3: the last byte of the key is 1
    ensures last_byte { words_from (replicate 31 0 ++ 1 ∷ []) 0 16 4
        ≡ 0x2452eb3a ∷ 0x9249f8ec ∷ 0x8d829d9b ∷ 0xddd4ceb1 ∷ [] }

    // vector 4: the second byte of the key is 255
    ensures second_byte { words_from (0 ∷ 0xff ∷ replicate 30 0) 0 32 4
        ≡ 0xfb4dd572 ∷ 0x4bc42ef1 ∷ 0xdf922636 ∷ 0x327f1394 ∷ [] }

    // vector 5: the last byte of the nonce, the high byte of the stream, is 2
    ensures nonce { words_from (replicate 32 0) (0x02000000 * 2 ^ 32) 0 4
        ≡ 0x374dc6c2 ∷ 0x3736d58c ∷ 0xb904e24a ∷ 0xcd3f93ef ∷ [] }

    // 2.6.2: the key 128, 129 and so on to 159, and a nonce whose last eight bytes, 0, 1 and so on to 7, are the stream
    ensures both_words { words_from (range_with_len 128 32) 0x0706050403020100 0 8
        ≡ 0x8ba0d58a ∷ 0xcc815f90 ∷ 0x27405081 ∷ 0x7194b24a ∷ 0x37b633a8 ∷ 0xa50dfde3 ∷ 0xe2b8db08 ∷ 0x46a6d1fd ∷ [] }
{}
