//! Stickers that turns move.
ghost use Rattle.std.specs.Prelude.{◌≡◌, ℕ, ◌+◌, ◌<◌, ◌≤◌, All, length};
ghost use Rattle.std.specs.Option.{option_map};
ghost use Rattle.scr_combinatorics.specs.Play.{play};
ghost use Rattle.scr_picture.specs.Stickers.{move_of, moved_times, stickers_after};

use scr_notation::Turn;
use scr_orbit::pick_into;

/// The letters of a picture after these turns, where the puzzle has these moves: each says from which sticker's place
/// one comes to each place. `None` comes exactly where a turn is none of them.
#[tactic(auto, using(crate::proofs::Cited::played))]
pub(crate) fn played<const N: usize>(
    solved: &[u8; N],
    moves: &[[u8; N]],
    turns: &[Turn],
) -> Option<[u8; N]>
    requires { All (λ from. All (λ k. k < N) from) moves.now }
    ensures { result ≡ play (stickers_after moves.now) solved.now turns.now }
{
    let mut letters = *solved;
    for turn in turns {
        letters = after(&letters, moves, *turn)?;
    }
    Some(letters)
}

/// The letters after a turn.
fn after<const N: usize>(letters: &[u8; N], moves: &[[u8; N]], turn: Turn) -> Option<[u8; N]>
    requires { All (λ from. All (λ k. k < N) from) moves.now }
    ensures { result ≡ stickers_after moves.now letters.now turn }
{
    let (number, times) = move_of(turn)?;
    let from = moves.get(number)?;
    Some(moved(letters, from, times))
}

/// Which of a puzzle's moves a turn is, and how many times.
fn move_of(turn: Turn) -> Option<(usize, u8)>
    ensures { result ≡ option_map (λ m. (m.generator, m.exponent)) (move_of turn) }
{
    match turn {
        Turn::Axis { axis, amount } => Some((usize::from(axis), amount)),
        Turn::Tip { tip, amount } => Some((4 + usize::from(tip), amount)),
        Turn::Wide { letter, plus } => Some((usize::from(letter), if plus { 1 } else { 4 })),
        _ => None,
    }
}

/// The letters after so many moves.
#[tactic(auto, using(crate::proofs::Cited::moved))]
fn moved<const N: usize>(letters: &[u8; N], from: &[u8; N], times: u8) -> [u8; N]
    requires { All (λ k. k < N) from.now }
    ensures { result ≡ moved_times times from.now letters.now }
{
    let mut now = *letters;
    for _time in 0..times {
        let mut next = [0; N];
        pick_into(&now[..], &from[..], &mut next[..]);
        now = next;
    }
    now
}
