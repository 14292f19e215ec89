ghost use Rattle.std.specs.Prelude.{ℕ, ◌<◌, ◌≤◌, ◌↔◌, nat_le};
ghost use Rattle.scr_combinatorics.specs.Reach.{IsReached};
ghost use Rattle.scr_draw.specs.Row.{row_puzzle};

use scr_draw::{DrawLimit, NumberedStates, Numbering, Permit, attempt, draw};
use scr_laws::draw as laws;
use scr_words::{ChaChaWords, ListWords, Seed, Words};

/// As many states as a 2x2x2 has, each shown by its number, which is also how many turns it needs.
struct Row;

const STATES: u128 = 3674160;

impl NumberedStates<u128> for Row {
    ghost numbered = { λ _. record {
      count = 3674160;
      state_at = λ i. i;
      number_of = λ s. s;
      IsValid = λ s. s < 3674160;
    } };
}

impl Numbering for Row {
    type State = u128;

    fn count(&self) -> u128 {
        STATES
    }

    fn state_at(&self, number: u128) -> u128 {
        number
    }

    fn number_of(&self, state: &u128) -> u128 {
        *state
    }
}

impl Permit<u128> for Row {
    ghost use Rattle.scr_draw.proofs.RowLaws.{row_exact};

    ghost puzzle = { λ _. row_puzzle 3674160 };

    ghost greatest = { λ _. 4000000 };

    ghost needs = { λ _ s least. nat_le least s };

    fn needs_at_least(&self, state: &u128, least: u32) -> bool {
        u128::from(least) <= *state
    }

    ghost exact = { λ _ s least _ _ below. row_exact 3674160 s least below };
}

/// Does nothing: the states are those that turns reach.
fn is_reached()
    ensures { (s : ℕ) → (s < 3674160) ↔ IsReached (row_puzzle 3674160) s }
{}

// The words of q * 3674160, with q the quotient of 2^96, which is the first number that is refused,
// and of the number before it.
const LIMIT: [u32; 6] = [
    0xfff1c980, 0xffffffff, 0xffffffff, 0xfff1c97f, 0xffffffff, 0xffffffff,
];

/// The attempts of a list of words, at three counts.
fn attempted(list: &[u32], first: u128, second: u128, third: u128) -> [Option<u128>; 3]
    requires first { 0 < first }
    requires second { 0 < second }
    requires third { 0 < third }
{
    let mut words = ListWords::new(list);
    [
        attempt(&mut words, first),
        attempt(&mut words, second),
        attempt(&mut words, third),
    ]
}

#[test]
fn attempts_at_the_limit(rt: HostRuntime) {
    let found = attempted(&LIMIT, STATES, STATES, STATES);
    assert_eq!(rt; found, [None, Some(3674159), Some(0)]);
    let found = attempted(&[0, 1], 1 << 32, 1 << 96, 1 << 96);
    assert_eq!(rt; found, [Some(0), Some(0), Some(0)]);
}

const REFUSED: [u32; 6] = [
    0xfff1c980, 0xffffffff, 0xffffffff, 0xfff1c980, 0xffffffff, 0xffffffff,
];

/// Lists of words, the minimum, how many attempts are made, what is drawn, and the word that comes next.
static DRAWS: [(&[u32], u32, u32, Result<u128, DrawLimit>, u32); 8] = [
    (&LIMIT, 0, 2, Ok(3674159), 0),
    (&LIMIT, 0, 1, Err(DrawLimit { words: 3 }), 0xfff1c97f),
    (&REFUSED, 0, 2, Err(DrawLimit { words: 6 }), 0),
    (&REFUSED, 0, 3, Ok(0), 0),
    (&[], 1, 1_000_000, Err(DrawLimit { words: 3_000_000 }), 0),
    (&[], 1, 5, Err(DrawLimit { words: 15 }), 0),
    (&[], 0, 5, Ok(0), 0),
    (&[4, 0, 0, 5, 0, 0, 6, 0, 0, 7], 5, 1_000_000, Ok(5), 6),
];

/// What is drawn of a list of words, and the word that comes next.
fn drawn(list: &[u32], least: u32, attempts: u32) -> (Result<u128, DrawLimit>, u32)
    requires least { least ≤ 4000000 }
    requires few { attempts ≤ 1000000 }
{
    let mut words = ListWords::new(list);
    let drawn = draw(&mut words, &Row, least, attempts);
    (drawn, words.next())
}

#[test]
fn draws_of_a_list(rt: HostRuntime) {
    for (list, least, attempts, wanted, next) in &DRAWS {
        assert!(rt; *least <= 4_000_000 && *attempts <= 1_000_000);
        assert_eq!(rt; drawn(list, *least, *attempts), (*wanted, *next));
    }
}

#[test]
fn draws_of_a_stream(rt: HostRuntime) {
    let seed = Seed([0; 32]);
    let mut words = ChaChaWords::new(&seed, 0);
    assert_eq!(rt; draw(&mut words, &Row, 0, 1), Ok(3015702));
    assert_eq!(rt; words.next(), 683509331);
    let mut words = ChaChaWords::new(&seed, 0);
    assert_eq!(rt;
        attempt(&mut words, 1283918464548864),
        Some(985395116423286)
    );
    laws::each_equally(&Row);
    laws::same_ways(&Row, 2);
    is_reached();
    scr_draw::laws::drawn_fairly(&Row);
    laws::first_hit(&Row, 2);
}
