//! Entries block by block.

ghost use Rattle.std.specs.Prelude.{◌≡◌, ◌≢◌, ℕ, ◌+◌, ◌*◌, ◌^◌, ◌<◌, ◌≤◌, length, slice_index};
ghost use Rattle.std.specs.Bool.{OnTrue, OnFalse};
ghost use Rattle.scr_table.specs.Filled.{entered};

/// How many positions a block has, but for the last.
pub(crate) const BLOCK: usize = 1024;

/// What a worker made of a block: its entries, where there is something to enter. There is nothing at all before.
pub(crate) type Made = Option<Option<[u8; BLOCK]>>;

/// Whether an entry stands at one of the positions from `start` up to `end`. All are looked at, which is faster than to
/// stop there.
pub(crate) fn contains(entries: &[u8], start: usize, end: usize, entry: u8) -> bool
    requires { end ≤ length entries.now }
    ensures found { OnTrue result ((p : ℕ) × (start ≤ p) × (p < end) × (slice_index entries.now p ≡ entry)) }
    ensures none { OnFalse result ((p : ℕ) → start ≤ p → p < end → slice_index entries.now p ≢ entry) }
{
    let mut found = false;
    for position in start..end {
        if entries[position] == entry {
            found = true;
        }
    }
    found
}

/// Enters the blocks that there are, fewer than 2^32.
pub(crate) fn enter_blocks(entries: &mut [u8], blocks: &[Made])
    requires { length blocks.now < 2 ^ 32 }
    ensures { (p : ℕ) → p < length entries.old → slice_index entries.new p ≡ entered blocks.now entries.old p }
{
    for block in 0..blocks.len() {
        if let Some(Some(next)) = &blocks[block] {
            enter_block(entries, block, next);
        }
    }
}

/// Enters one block.
fn enter_block(entries: &mut [u8], block: usize, next: &[u8; BLOCK])
    requires { block < 2 ^ 32 }
    ensures entered { (k : ℕ) → k < 1024 → 1024 * block + k < length entries.old
        → slice_index entries.new (1024 * block + k) ≡ slice_index next.now k }
    ensures kept { (p : ℕ) → p < 1024 * block → slice_index entries.new p ≡ slice_index entries.old p }
    ensures kept_behind { (p : ℕ) → 1024 * block + 1024 ≤ p → slice_index entries.new p ≡ slice_index entries.old p }
{
    let start = block * BLOCK;
    let end = entries.len().min(start + BLOCK);
    for position in start..end {
        entries[position] = next[position - start];
    }
}
