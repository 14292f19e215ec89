//! How the entries of a distance table are stored: at four bits each, in blocks, beside a list of the deep ones, which
//! don't fit. All else sees them as a list of numbers.

ghost use Rattle.std.specs.Prelude.{◌≡◌, ℕ, ◌+◌, ◌*◌, ◌^◌, ◌<◌, IfOk, length, slice_index};
ghost use Rattle.scr_table.specs.Halves.{AreBlocksOf, AreRising, IsBlockFrom, IsDeepIn, StandsAt, deep_at, deep_of, half_byte_at, half_byte_of};

use std::alloc::{AllocError, Global};
use std::marker::Model;

/// How many positions share a block.
const POSITIONS: usize = 1024;

/// The half byte of a deep position, whose entry stands in the list of these.
const DEEP: u8 = 14;

/// The half byte past the last position.
const NO_POSITION: u8 = 15;

/// The entries of a table, which contracts see as a list of numbers, however they are stored.
#[derive(Drop)]
pub(crate) struct Entries {
    count: u32,
    blocks: Vec<[u8; 512]>,
    deep: Vec<(u32, u8)>,
}

impl Model for Entries {
    ghost use Rattle.std.specs.Prelude.{ℕ, List};
    ghost use Rattle.scr_table.specs.Halves.{AreStored, stored};

    ghost Value = { List ℕ };

    ghost view = { λ e. stored e.count e.blocks.items e.deep.items };

    ghost invariant = { λ e. AreStored (stored e.count e.blocks.items e.deep.items) e.count e.blocks.items e.deep.items };
}

impl Entries {
    /// The entries with these numbers, fewer than 2^32.
    #[tactic(auto, using(crate::proofs::Cited::of))]
    pub fn of(alloc: Global, numbers: &[u8]) -> Result<Entries, AllocError>
        requires { length numbers.now < 2 ^ 32 }
        ensures { IfOk result (λ entries. entries ≡ numbers.now) }
    {
        let blocks = blocks_of(alloc, numbers)?;
        let deep = deep_of(alloc, numbers)?;
        Ok(Entries {
            count: numbers.len() as u32,
            blocks,
            deep,
        })
    }

    /// How many entries there are.
    #[inline]
    pub fn len(&self) -> u32
        ensures { result ≡ length self.now }
    {
        self.count
    }

    /// The entry at a position, which is below their number.
    #[inline]
    pub fn get(&self, position: u32) -> u8
        requires { position < length self.now }
        ensures { result ≡ slice_index self.now position }
    {
        let half = half_byte_at(&self.blocks[..], position as usize);
        if half == DEEP {
            deep_entry(&self.deep[..], position)
        } else {
            half
        }
    }

    /// The blocks.
    pub fn blocks(&self) -> &[[u8; 512]]
        ensures { AreBlocksOf self.now result.now }
    {
        &self.blocks[..]
    }

    /// The deep positions, with their entries.
    pub fn deep(&self) -> &[(u32, u8)]
        ensures { result.now ≡ deep_of self.now }
    {
        &self.deep[..]
    }
}

/// The half byte of a position.
#[inline]
fn half_byte_at(blocks: &[[u8; 512]], position: usize) -> u8
    requires { position < 1024 * length blocks.now }
    ensures { result ≡ half_byte_at blocks.now position }
{
    let byte = blocks[position / POSITIONS][position % POSITIONS / 2];
    if position % 2 == 0 {
        byte % 16
    } else {
        byte / 16
    }
}

/// The blocks of some entries.
#[tactic(auto, using(crate::proofs::Cited::blocks_of))]
fn blocks_of(alloc: Global, numbers: &[u8]) -> Result<Vec<[u8; 512]>, AllocError>
    requires { length numbers.now < 2 ^ 32 }
    ensures { IfOk result (λ blocks. AreBlocksOf numbers.now blocks.items) }
{
    let count = numbers.len().div_ceil(POSITIONS);
    let mut blocks = Vec::with_capacity(alloc, count)?;
    for block in 0..count {
        blocks.push(block_of(numbers, block * POSITIONS))?;
    }
    Ok(blocks)
}

/// The block of the positions from `start` on.
#[tactic(auto, using(crate::proofs::Cited::block_of))]
fn block_of(numbers: &[u8], start: usize) -> [u8; 512]
    requires { start + 1024 < 2 ^ 63 }
    ensures { IsBlockFrom numbers.now start result }
{
    let mut block = [0; 512];
    for j in 0..512 {
        let low = half_byte_of(numbers, start + 2 * j);
        let high = half_byte_of(numbers, start + 2 * j + 1);
        block[j] = low + 16 * high;
    }
    block
}

/// The half byte of a position among some entries, or behind them.
#[inline]
fn half_byte_of(numbers: &[u8], position: usize) -> u8
    ensures half { result ≡ half_byte_of numbers.now position }
    ensures small { result < 16 }
{
    if position < numbers.len() {
        numbers[position].min(DEEP)
    } else {
        NO_POSITION
    }
}

/// The deep positions among some entries.
#[tactic(auto, using(crate::proofs::Cited::deep_of))]
fn deep_of(alloc: Global, numbers: &[u8]) -> Result<Vec<(u32, u8)>, AllocError>
    requires { length numbers.now < 2 ^ 32 }
    ensures { IfOk result (λ deep. deep.items ≡ deep_of numbers.now) }
{
    let mut deep = Vec::new(alloc);
    for position in 0..numbers.len() {
        if numbers[position] >= DEEP {
            deep.push((position as u32, numbers[position]))?;
        }
    }
    Ok(deep)
}

/// The entry of a position that stands in the list of deep ones, by halving.
fn deep_entry(deep: &[(u32, u8)], position: u32) -> u8
    requires rising { AreRising deep.now }
    requires there { IsDeepIn deep.now position }
    ensures { (i : ℕ) → StandsAt deep.now i position → result ≡ (deep_at deep.now i).1 }
{
    let mut low = 0;
    let mut high = deep.len();
    while low < high {
        let middle = low + (high - low) / 2;
        let (there, entry) = deep[middle];
        if there == position {
            return entry;
        }
        if there < position {
            low = middle + 1;
        } else {
            high = middle;
        }
    }
    unreachable!()
}
