//! Pieces at the places of a block, and lists that are put together place by place.
ghost use Rattle.std.specs.Prelude.{◌≡◌, ◌<◌, ◌≤◌, All, length};
ghost use Rattle.scr_combinatorics.specs.Permutations.{IsPermutation, place_of};
ghost use Rattle.scr_stages.specs.Tetrads.{arranged, in_block};

/// The place of a number in a list, or the list's length where it isn't there.
#[inline]
pub(crate) fn place_of(number: u8, list: &[u8]) -> usize
    ensures value { result ≡ place_of number list.now }
    ensures within { result ≤ length list.now }
{
    for place in 0..list.len() {
        if list[place] == number {
            return place;
        }
    }
    list.len()
}

/// Fills `out` with the pieces that stand at the places of a block, of which there are at most 255, told by their
/// places in the block.
pub(crate) fn pieces_in_block(pieces: &[u8], block: &[u8], out: &mut [u8])
    requires same_length { length out.old ≡ length block.now }
    requires few { length block.now ≤ 255 }
    requires places { All (λ place. place < length pieces.now) block.now }
    ensures { out.new ≡ in_block block.now pieces.now }
{
    for place in 0..out.len() {
        let piece = pieces[usize::from(block[place])];
        out[place] = place_of(piece, block) as u8;
    }
}

/// Puts pieces at places, one after the other: `places` has each number below its length, of at most 255, once.
#[tactic(auto, using(crate::proofs::Cited::arrange))]
pub(crate) fn arrange(places: &[u8], pieces: &[u8], out: &mut [u8])
    requires few { length out.old ≤ 255 }
    requires places { IsPermutation (length out.old) places.now }
    requires pieces { length pieces.now ≡ length out.old }
    ensures { out.new ≡ arranged places.now pieces.now }
{
    for place in 0..out.len() {
        out[place] = pieces[place_of(place as u8, places)];
    }
}
