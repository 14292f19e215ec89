//! The reading of a list.

ghost use Rattle.std.specs.Prelude.{◌≡◌, ◌+◌, ◌<◌, ◌≤◌, length, take, Ok, IfOk, OnErr, IfErr};
ghost use Rattle.scr_outside.specs.Change.{intake_of, Gives, TellsEnd};
ghost use Rattle.scr_list.specs.RoundLists.{IsRounds};
ghost use Rattle.scr_list.specs.Reading.{ReadsList, ReadsInPart, ReadsNoList, most_read};

use crate::fault::ListFault;
use crate::grammar::rounds_of;
use crate::round::Round;
use crate::version::{BYTE_ROOM, FIRST_ROOM, ROUND_ROOM, version_of};
use arrayvec::ArrayVec;
use scr_outside::{Failed, Source};

/// Reads a list to the end of input, which the source tells once, or to the first byte past the most that
/// a list of its version may have, and never more. `TooLong` and `Line` come exactly by the grammar; `Read`
/// comes only where the source's count of faults rose, and any other answer only where it stayed. It takes
/// no memory.
pub fn read_rounds<S: Source>(source: &mut S) -> Result<ArrayVec<Round, ROUND_ROOM>, ListFault>
    ensures read { IfOk result (λ rounds.
        ReadsList (intake_of S.left S.faults S.ends source.old source.new) (Ok rounds.items)) }
    ensures rounds { IfOk result (λ rounds. IsRounds rounds.items) }
    ensures fault { IfErr result (λ fault.
        ReadsNoList (intake_of S.left S.faults S.ends source.old source.new) fault) }
{
    let mut buffer = [0; BYTE_ROOM];
    let filled = read_list(source, &mut buffer)?;
    rounds_of(&buffer[..filled])
}

/// Reads a list into a buffer, to the end of input or to the first byte past the most that a list of its
/// version may have, and says how many bytes it took. The version is decided once as many were read as
/// are too many for the first.
fn read_list<S: Source>(source: &mut S, buffer: &mut [u8]) -> Result<usize, Failed>
    requires { length buffer.old ≡ BYTE_ROOM }
    ensures within { IfOk result (λ n. n ≤ length buffer.new) }
    ensures most { IfOk result (λ n. n ≤ most_read (take n buffer.new)) }
    ensures taken { IfOk result (λ n.
        Gives (intake_of S.left S.faults S.ends source.old source.new) (take n buffer.new)) }
    ensures end { IfOk result (λ n. n < most_read (take n buffer.new)
        → TellsEnd (intake_of S.left S.faults S.ends source.old source.new)) }
    ensures no_end { IfOk result (λ n. n ≡ most_read (take n buffer.new) → S.ends source.new ≡ S.ends source.old) }
    ensures part { OnErr result (ReadsInPart (intake_of S.left S.faults S.ends source.old source.new) most_read) }
{
    let filled = read_all(source, &mut buffer[..FIRST_ROOM])?;
    if filled < FIRST_ROOM {
        return Ok(filled);
    }
    let room = read_room(&buffer[..FIRST_ROOM]);
    let more = read_all(source, &mut buffer[FIRST_ROOM..room])?;
    Ok(FIRST_ROOM + more)
}

/// At how many bytes the reading of a list ends that begins with these: one more than it may have.
fn read_room(bytes: &[u8]) -> usize
    ensures room { result ≡ most_read bytes.now }
    ensures least { FIRST_ROOM ≤ result }
    ensures most { result ≤ BYTE_ROOM }
{
    version_of(bytes).most_bytes as usize + 1
}

/// Fills a buffer from a source, to the end of input or of the buffer, and says how many bytes it took.
fn read_all<S: Source>(source: &mut S, buffer: &mut [u8]) -> Result<usize, Failed>
    ensures within { IfOk result (λ n. n ≤ length buffer.old) }
    ensures taken { IfOk result (λ n.
        Gives (intake_of S.left S.faults S.ends source.old source.new) (take n buffer.new)) }
    ensures end { IfOk result (λ n.
        n < length buffer.old → TellsEnd (intake_of S.left S.faults S.ends source.old source.new)) }
    ensures no_end { IfOk result (λ n. n ≡ length buffer.old → S.ends source.new ≡ S.ends source.old) }
    ensures part { OnErr result
        (ReadsInPart (intake_of S.left S.faults S.ends source.old source.new) (λ _. length buffer.old)) }
{
    let mut filled = 0;
    while filled < buffer.len() {
        let count = source.read(&mut buffer[filled..])?;
        if count == 0 {
            return Ok(filled);
        }
        filled += count;
    }
    Ok(filled)
}
