//! Why drawing is fair: calls that do nothing, whose contracts are the laws.

ghost use Rattle.std.specs.Prelude.{if◌then◌else◌, ◌≡◌, ℕ, suc, ◌+◌, ◌*◌, ◌%◌, ◌^◌, ◌<◌, ◌≤◌, ◌↔◌, ◌==◌};
ghost use Rattle.std.specs.Prelude.{All, IsTrue, Some, None, unwrap_or, length, replicate, slice_index};
ghost use Rattle.scr_combinatorics.specs.Digits.{mixed_digits, mixed_number};
ghost use Rattle.scr_combinatorics.specs.Numbering.{IsOneToOne};
ghost use Rattle.scr_words.specs.Stream.{stream_word};
ghost use Rattle.scr_draw.specs.Attempt.{is_accepted, quotient, answer, attempt_value, attempt_values};
ghost use Rattle.scr_draw.specs.Count.{IsCount, count_below};
ghost use Rattle.scr_draw.specs.Drawn.{drawn, hit};
ghost use Rattle.scr_draw.specs.FirstHit.{IsFirstHit, numbers_read};
ghost use Rattle.scr_draw.specs.Fair.{IsFair, ways};

use scr_draw::{Numbering, Permit};

/// Three words of 32 bits spell each number below 2^96, each number once.
pub fn each_number_once()
    ensures { IsOneToOne (2 ^ 96) (mixed_digits (replicate 3 (2 ^ 32))) (λ words. attempt_value (slice_index words) 0)
        (λ words. (length words ≡ 3) × All (λ word. word < 2 ^ 32) words) }
{}

/// Each number below the count is the answer of equally many accepted numbers below 2^96, and of at
/// least one; each valid state is that of as many.
pub fn each_equally<P: Numbering>(puzzle: &P)
    ensures some { 1 ≤ quotient (P.numbered puzzle.now).count }
    ensures numbers { let count = (P.numbered puzzle.now).count in
        (i : ℕ) → i < count
        → IsCount (λ v. IsTrue (is_accepted count v) × (v % count ≡ i)) (2 ^ 96) (quotient count) }
    ensures states { let n = P.numbered puzzle.now in
        (s : P.State) → n.IsValid s
        → IsCount (λ v. IsTrue (is_accepted n.count v) × (n.state_at (v % n.count) ≡ s)) (2 ^ 96) (quotient n.count) }
{
    puzzle.count();
}

/// Drawing is fair: for each number of attempts, every valid state that needs `least` is drawn by
/// the same number of lists of numbers below 2^96. `least` is in the event's range.
pub fn same_ways<P: Numbering + Permit<P::State>>(puzzle: &P, least: u32)
    requires { least ≤ P.greatest puzzle.now }
    ensures { let n = P.numbered puzzle.now in
        IsFair n.count n.state_at (hit n.count n.state_at (λ s. P.needs puzzle.now s least))
        (λ s. n.IsValid s × IsTrue (P.needs puzzle.now s least)) }
{
    puzzle.count();
}

/// Each list of numbers below 2^96 stands once among the lists that are counted.
pub fn each_list_once()
    ensures { (len : ℕ) → IsOneToOne ((2 ^ 96) ^ len) (mixed_digits (replicate len (2 ^ 96)))
        (mixed_number (replicate len (2 ^ 96))) (λ values. (length values ≡ len) × All (λ v. v < 2 ^ 96) values) }
{}

/// What is drawn is the state of the first attempt that hits one, none where each attempt misses;
/// and the attempts up to it are read. `least` is in the event's range.
pub fn first_hit<P: Numbering + Permit<P::State>>(puzzle: &P, least: u32)
    requires { least ≤ P.greatest puzzle.now }
    ensures state { let n = P.numbered puzzle.now in
        let hits = hit n.count n.state_at (λ s. P.needs puzzle.now s least) in
        (word : ℕ → ℕ) (place all : ℕ) (s : P.State) →
        (drawn hits (attempt_values word place all) ≡ Some s) ↔ ((tried : ℕ) × IsFirstHit hits word place all s tried) }
    ensures none { let n = P.numbered puzzle.now in
        let hits = hit n.count n.state_at (λ s. P.needs puzzle.now s least) in
        (word : ℕ → ℕ) (place all : ℕ) →
        (drawn hits (attempt_values word place all) ≡ None)
        ↔ ((tried : ℕ) → tried < all → hits (attempt_value word (place + 3 * tried)) ≡ None) }
    ensures read { let n = P.numbered puzzle.now in
        let hits = hit n.count n.state_at (λ s. P.needs puzzle.now s least) in
        (word : ℕ → ℕ) (place all : ℕ) (s : P.State) (tried : ℕ) → IsFirstHit hits word place all s tried
        → numbers_read hits (attempt_values word place all) ≡ suc tried }
{}

/// The definitions at worked numbers.
#[tactic(auto, unfolding(crate::proofs::DrawOnLiterals::draws_on_literals))]
pub fn rows()
    // the states of a 2x2x2: the first number that is refused, and the last that is accepted
    ensures limit { quotient 3674160 * 3674160 ≡ 79228162514264337593543018880 }
    ensures refused_at_the_limit { answer 3674160 79228162514264337593543018880 ≡ None }
    ensures accepted_below { answer 3674160 79228162514264337593543018879 ≡ Some 3674159 }

    // the first attempt on stream 0 of the zero key, on a Clock, on a 2x2x2 and on four tips
    ensures first_value { attempt_value (stream_word (replicate 32 0) 0) 0
        ≡ 3848953152 * 2 ^ 64 + 2419978656 * 2 ^ 32 + 2917185654 }
    ensures first_answers { let value = 3848953152 * 2 ^ 64 + 2419978656 * 2 ^ 32 + 2917185654 in
        (answer (12 ^ 14) value ≡ Some 985395116423286) × (answer 3674160 value ≡ Some 3015702)
        × (answer 81 value ≡ Some 72) }

    // four numbers in place of 2 ^ 96, of which number 0 hits state 7, number 1 state 8, and two miss: of the 64 lists
    // of three numbers 28 draw state 7, by `ways` and counted one by one
    ensures ways_of_few { ways 4 1 2 3 ≡ 28 }
    ensures counted_of_few { let hits = λ (v : ℕ). if v == 0 then Some 7 else if v == 1 then Some 8 else None in
        count_below (λ n. unwrap_or (drawn hits (mixed_digits (replicate 3 4) n)) 0 == 7) 64 ≡ 28 }
{}
