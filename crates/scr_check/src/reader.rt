//! A source's bytes one by one.

ghost use Rattle.std.specs.Prelude.{◌≡◌, ◌↔◌, ◌≤◌, [], true, None, IfOk, OnErr, length};
ghost use Rattle.scr_check.specs.Ahead.{most_ahead};

use crate::ahead::Ahead;
use scr_outside::{Failed, Source};

/// A reader of single bytes, which reads its source in larger pieces: at most 4,096 bytes are read and not yet taken.
#[derive(Drop)]
pub struct ByteReader<'a, S> {
    source: &'a mut S,
    ahead: Ahead,
    pub ghost few_ahead: { length ahead.bytes ≤ most_ahead },
}

impl<'a, S: Source> ByteReader<'a, S> {
    ghost use Rattle.scr_check.specs.Reading.{reading, source_name, fresh, byte_given, Takes, StopsShort};

    /// A reader of what the source has left. It reads nothing yet.
    pub fn new(source: &'a mut S) -> ByteReader<'a, S>
        ensures same_source { source_name result ≡ source.entry.ghost_name }
        ensures fresh { reading result ≡ fresh source.old }
    {
        ByteReader {
            source,
            ahead: Ahead::new(),
        }
    }

    /// The next byte, or `None` at the end of input: exactly where the source's read answered `Ok(0)`, in
    /// this call or in an earlier one. Once the end was met the source isn't asked again. `Failed` comes
    /// only where the source's count of faults rose, and takes no byte.
    pub fn next(&mut self) -> Result<Option<u8>, Failed>
        ensures same_source { source_name self.new ≡ source_name self.old }
        ensures byte { IfOk result (λ byte.
            Takes S.left S.faults S.ends (reading self.old) (reading self.new) (byte_given byte)) }
        ensures end { IfOk result (λ byte. byte ≡ None ↔ (reading self.new).ended ≡ true) }
        ensures failed { OnErr result
            (StopsShort S.left S.faults S.ends (reading self.old) (reading self.new) []) }
    {
        if self.ahead.wants_more() {
            self.ahead.fill(self.source)?;
        }
        Ok(self.ahead.pop())
    }
}
