//! What a reader took from its source: a call that does nothing, whose contract is the law.

ghost use Rattle.std.specs.Prelude.{◌≡◌, ◌+◌, ℕ, true, List, [], ◌++◌};
ghost use Rattle.scr_outside.specs.Bytes.{put_back};
ghost use Rattle.scr_outside.specs.Change.{intake_of, Gives, TellsEnd};
ghost use Rattle.scr_check.specs.Reading.{Reading, fresh, Takes, StopsShort};

use scr_outside::Source;

/// What was taken from a new reader, and what it has read ahead, its source gave; nothing is ahead where the
/// end was met, which the source told once, and its count of faults rose where it failed.
pub fn what_the_source_gave<S: Source>(source: &S)
    ensures gives { (after : Reading S) (bytes : List ℕ)
        → Takes S.left S.faults S.ends (fresh source.now) after bytes
        → Gives (intake_of S.left S.faults S.ends source.now after.source) (bytes ++ after.ahead) }
    ensures end { (after : Reading S) (bytes : List ℕ)
        → Takes S.left S.faults S.ends (fresh source.now) after bytes → after.ended ≡ true
        → TellsEnd (intake_of S.left S.faults S.ends source.now after.source) × (after.ahead ≡ []) }
    ensures gave { (after : Reading S) (bytes : List ℕ)
        → StopsShort S.left S.faults S.ends (fresh source.now) after bytes
        → S.left source.now ≡ put_back (bytes ++ after.ahead) (S.left after.source) }
{}
