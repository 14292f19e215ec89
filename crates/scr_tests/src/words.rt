ghost use Rattle.std.specs.Prelude.{◌≡◌, ◌+◌, ◌^◌, ◌<◌, length};

use scr_words::{ChaChaWords, ListWords, Seed, SeedFault, Words, read_seed};
use std::process::Abort;

const ZEROS: &str = "0000000000000000000000000000000000000000000000000000000000000000";

/// Takes the words of `expected` from any source.
fn expect_words<W: Words>(rt: &impl Abort, words: &mut W, expected: &[u32])
    requires { W.taken words.old + length expected.now < 2 ^ 63 }
    ensures { W.taken words.new ≡ W.taken words.old + length expected.now }
{
    for word in expected {
        assert_eq!(rt; words.next(), *word);
    }
}

/// Texts, and the seeds that they are, or why they are none.
static SEEDS: [(&str, Result<Seed, SeedFault>); 6] = [
    (ZEROS, Ok(Seed([0; 32]))),
    (
        "1fA00000000000000000000000000000000000000000000000000000000000eF",
        Ok(Seed([
            0x1f, 0xa0, 0, 0, 0, 0, 0, 0, 0, 0, 0, 0, 0, 0, 0, 0, 0, 0, 0, 0, 0, 0, 0, 0, 0, 0, 0,
            0, 0, 0, 0, 0xef,
        ])),
    ),
    ("abc", Err(SeedFault::Length { got: 3 })),
    ("", Err(SeedFault::Length { got: 0 })),
    (
        "000000000000000000000000000000000000000000000000000000000000000g",
        Err(SeedFault::Digit { place: 63 }),
    ),
    (
        "0g00000000000000000000000000000000000000000000000000000000000g00",
        Err(SeedFault::Digit { place: 1 }),
    ),
];

#[test]
fn seeds_of_texts(rt: HostRuntime) {
    for (text, seed) in &SEEDS {
        assert_eq!(rt; read_seed(text), *seed, "{text}");
    }
}

// The first block is RFC 8439's, appendix A.1, vector 1, and the second begins as vector 2; the
// other stream begins as vector 5.
#[test]
fn words_of_streams(rt: HostRuntime) {
    let seed = Seed([0; 32]);
    let mut words = ChaChaWords::new(&seed, 0);
    expect_words(
        &rt,
        &mut words,
        &[
            2917185654, 2419978656, 3848953152, 683509331, 3088700093, 451775904,
        ],
    );
    expect_words(
        &rt,
        &mut words,
        &[
            0xccef36a8, 0xc70d778b, 0x7c5941da, 0x8d485751, 0x3fe02477, 0x374ad8b8,
        ],
    );
    expect_words(
        &rt,
        &mut words,
        &[
            0xf4b8436a, 0x1ca11815, 0x69b687c3, 0x8665eeb2, 0xbee7079f, 0x7a385155,
        ],
    );
    let mut other = ChaChaWords::new(&seed, 0x0200_0000_0000_0000);
    expect_words(&rt, &mut other, &[0x374dc6c2, 0x3736d58c]);
}

#[test]
fn words_of_a_list(rt: HostRuntime) {
    let list = [7, 0, 4294967295];
    let mut words = ListWords::new(&list);
    expect_words(&rt, &mut words, &[7, 0, 4294967295, 0, 0]);
}
