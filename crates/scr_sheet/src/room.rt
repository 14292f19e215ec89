//! The memory for rounds.

ghost use Rattle.std.specs.Prelude.{◌≡◌, ◌≤◌, All, IfOk};
ghost use Rattle.std.specs.Vec.{vec_len};
ghost use Rattle.scr_list.specs.Rounds.{IsRound};
ghost use Rattle.scr_round.specs.Round.{slots_of};
ghost use Rattle.scr_sheet.specs.Room.{IsRoom};

use scr_list::Round;
use scr_notation::Scramble;
use scr_outside::NoMemory;
use scr_round::slots;
use scr_workers::{ClaimWord, Lane, empty_lanes};
use std::alloc::{AllocError, Global};

/// Room in which rounds are made, one behind the other. It is taken before anything is drawn, by calls that see no
/// seed; what draws takes no memory beside it. Its lists serve every round again; of the words each serves one.
#[derive(Drop)]
pub(crate) struct Room {
    /// For each round that is still to be made the word from which its slots are claimed.
    pub words: Vec<ClaimWord>,
    /// A lane for each worker, which has room for the answers of all slots of a round.
    pub lanes: Vec<Lane<Option<Scramble>>>,
    /// Places for the answers of a round's slots.
    pub answers: Vec<Option<Option<Scramble>>>,
    /// The scrambles of the round that was made last.
    pub scrambles: Vec<Scramble>,
}

impl Room {
    /// Room for so many rounds of at most so many slots, which 1 to 64 workers answer.
    pub fn take(alloc: Global, rounds: u32, slots: u32, workers: u32) -> Result<Room, NoMemory>
        requires { (1 ≤ workers) × (workers ≤ 64) }
        ensures room { IfOk result (IsRoom rounds) }
        ensures slots { IfOk result (λ room. vec_len room.answers ≡ slots) }
    {
        Ok(Room {
            words: fresh_words(alloc, rounds)?,
            lanes: empty_lanes(alloc, workers.min(slots).max(1), slots)?,
            answers: unanswered(alloc, slots)?,
            scrambles: Vec::with_capacity(alloc, slots as usize)?,
        })
    }
}

/// How many slots the rounds of a list have at most.
pub(crate) fn most_slots(rounds: &[Round]) -> u32
    requires { All IsRound rounds.now }
    ensures { All (λ round. slots_of round ≤ result) rounds.now }
{
    let mut most = 0;
    for round in rounds {
        most = slots(round).max(most);
    }
    most
}

/// So many claim words.
fn fresh_words(alloc: Global, count: u32) -> Result<Vec<ClaimWord>, NoMemory>
    ensures { IfOk result (λ words. vec_len words ≡ count) }
{
    let mut words = Vec::with_capacity(alloc, count as usize)?;
    for _word in 0..count {
        words.push_reserved(ClaimWord::new(alloc)?);
    }
    Ok(words)
}

/// A place for the answer of each slot, with none in it yet.
fn unanswered(alloc: Global, slots: u32) -> Result<Vec<Option<Option<Scramble>>>, AllocError>
    ensures { IfOk result (λ answers. vec_len answers ≡ slots) }
{
    let mut answers = Vec::with_capacity(alloc, slots as usize)?;
    for _slot in 0..slots {
        answers.push_reserved(None);
    }
    Ok(answers)
}
