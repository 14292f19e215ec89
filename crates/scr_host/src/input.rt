//! The reading of a whole input.

ghost use Rattle.std.specs.Result.{result_map_both};
ghost use Rattle.scr_outside.specs.Change.{intake_of};
ghost use Rattle.scr_host.specs.Input.{ReadsInput};

use crate::fault::Fault;
use scr_outside::Source;
use std::alloc::Global;

/// An input has at most so many bytes.
pub const MOST_BYTES: usize = 67_108_864;

/// So many bytes are read at once.
const PIECE_ROOM: usize = 16_384;

/// Reads an input to its end, which the source tells once, or to a piece with the first byte past the most that it may
/// have.
pub fn read_input<S: Source, Own>(alloc: Global, source: &mut S) -> Result<Vec<u8>, Fault<Own>>
    ensures { ReadsInput (intake_of S.left S.faults S.ends source.old source.new)
        (result_map_both (λ bytes. bytes.items) (λ why. why) result) }
{
    let mut bytes = Vec::new(alloc);
    let mut piece = [0; PIECE_ROOM];
    'pieces: while bytes.len() <= MOST_BYTES {
        let Ok(count) = source.read(&mut piece) else {
            return Err(Fault::Read);
        };
        if count == 0 {
            return Ok(bytes);
        }
        bytes.extend_from_slice(&piece[..count])?;
    }
    Err(Fault::TooLong)
}
