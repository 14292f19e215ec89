//! Sources and sinks used once each, with what they hold read back.

use scr_outside::*;
use std::io;
use std::process::Abort;
use std::test::Fail;

/// A reader that gives `a`, is interrupted, fails twice, gives `b`, and ends.
#[derive(Drop)]
struct Interrupted {
    calls: u8,
}

impl io::Read for Interrupted {
    fn read(&mut self, buffer: &mut [u8]) -> io::Result<usize> {
        self.calls = self.calls.saturating_add(1);
        let byte = match self.calls {
            1 => b'a',
            2 => return Err(io::Error::from(io::ErrorKind::Interrupted)),
            3 => return Err(io::Error::from(io::ErrorKind::WouldBlock)),
            4 => return Err(io::Error::from(io::ErrorKind::Other)),
            5 => b'b',
            _ => return Ok(0),
        };
        match buffer {
            [] => Ok(0),
            [first, ..] => {
                *first = byte;
                Ok(1)
            }
        }
    }
}

/// A writer that takes one byte, then none, then fails three times, and then takes all.
#[derive(Drop)]
struct Faltering {
    calls: u8,
}

impl io::Write for Faltering {
    fn write(&mut self, piece: &[u8]) -> io::Result<usize> {
        self.calls = self.calls.saturating_add(1);
        match self.calls {
            1 => Ok(piece.len().min(1)),
            2 => Ok(0),
            3 => Err(io::Error::from(io::ErrorKind::Interrupted)),
            4 => Err(io::Error::from(io::ErrorKind::WouldBlock)),
            5 => Err(io::Error::from(io::ErrorKind::Other)),
            _ => Ok(piece.len()),
        }
    }

    fn flush(&mut self) -> io::Result<()> {
        Ok(())
    }
}

/// Pieces, and what writing each answers.
type Writes<'a> = &'a [(&'a str, Result<(), Failed>)];

/// How many bytes sinks have room for, how many they take a call at most, which calls fail, what writing answers, and
/// what the sink holds then.
static SINKS: [(usize, usize, &[u32], Writes<'static>, &str); 2] = [
    (4, 9, &[], &[("hello", Err(Failed))], "hell"),
    (
        9,
        2,
        &[2],
        &[("hello", Err(Failed)), ("y!", Ok(()))],
        "hey!",
    ),
];

/// Writing these pieces answers so, and then the sink holds this.
fn takes(rt: &impl Abort, sink: &mut MemSink, writes: Writes<'_>, contents: &str) {
    for (piece, wanted) in writes {
        assert_eq!(rt; write_all(sink, piece.as_bytes()), *wanted);
    }
    assert_eq!(rt; sink.contents(), contents.as_bytes());
}

#[test]
fn sinks_fail_where_they_are_told_to(rt: HostRuntime) -> Result<(), Fail> {
    for (room, most, fails, writes, contents) in &SINKS {
        assert!(rt; 0 < *most);
        let mut sink = MemSink::new(rt.alloc(), *room, *most, fails.to_vec(rt.alloc())?)?;
        takes(&rt, &mut sink, writes, contents);
    }
    assert_eq!(rt; write_all(&mut NullSink::new(), b"ab"), Ok(()));
    Ok(())
}

/// Labels and texts, and what writing the line answers.
static LINES: [(&str, &str, Result<(), Failed>); 3] = [
    ("1. ", "R U2", Ok(())),
    ("", "", Ok(())),
    ("2. ", "F'", Err(Failed)),
];

/// Writing the lines above answers so.
fn takes_lines(rt: &impl Abort, sink: &mut MemSink) {
    for (label, text, wanted) in &LINES {
        assert!(rt; label.len() < 10 && text.len() < 10);
        assert_eq!(rt; write_line(sink, label, text), *wanted);
    }
}

#[test]
fn a_line_is_one_piece(rt: HostRuntime) -> Result<(), Fail> {
    let mut sink = MemSink::new(rt.alloc(), 99, 99, vec![in rt.alloc(); 3]?)?;
    takes_lines(&rt, &mut sink);
    assert_eq!(rt; sink.contents(), b"1. R U2\n\n".as_slice());
    Ok(())
}

/// Each read of a source into a buffer of eight bytes answers this, and then this byte stands first in the buffer.
fn gives<S: Source>(rt: &impl Abort, source: &mut S, reads: &[(Result<usize, Failed>, u8)]) {
    let mut buffer = [0; 8];
    for (wanted, byte) in reads {
        assert_eq!(rt; source.read(&mut buffer), *wanted);
        assert_eq!(rt; buffer[0], *byte);
    }
}

/// Those of `abc` by two bytes a call, of which the second call fails, and whole.
static READS_BY_TWO: [(Result<usize, Failed>, u8); 4] = [
    (Ok(2), b'a'),
    (Err(Failed), b'a'),
    (Ok(1), b'c'),
    (Ok(0), b'c'),
];

static READS_WHOLE: [(Result<usize, Failed>, u8); 2] = [(Ok(3), b'a'), (Ok(0), b'a')];

#[test]
fn sources_give_their_bytes(rt: HostRuntime) -> Result<(), Fail> {
    let bytes = b"abc".to_vec(rt.alloc())?;
    let mut memory = MemSource::new(bytes, 2, vec![in rt.alloc(); 2]?);
    gives(&rt, &mut memory, &READS_BY_TWO);
    gives(&rt, &mut SliceSource::new(b"abc"), &READS_WHOLE);
    Ok(())
}

/// Those of the reader above.
static READS: [(Result<usize, Failed>, u8); 7] = [
    (Ok(1), b'a'),
    (Err(Failed), b'a'),
    (Err(Failed), b'a'),
    (Err(Failed), b'a'),
    (Ok(1), b'b'),
    (Ok(0), b'b'),
    (Ok(0), b'b'),
];

/// What each write answers.
static WRITES: [Result<usize, Failed>; 7] = [
    Ok(1),
    Err(Failed),
    Err(Failed),
    Err(Failed),
    Err(Failed),
    Ok(2),
    Ok(2),
];

// Each answer is the stream's at just that call: an adapter that failed without asking, once or for ever after a fault,
// would be a call behind, and one that asked again at an error would be ahead.
#[test]
fn adapters_pass_bytes_and_faults(rt: HostRuntime) {
    gives(&rt, &mut StdSource::new(Interrupted { calls: 0 }), &READS);
    let mut sink = StdSink::new(Faltering { calls: 0 });
    for wanted in &WRITES {
        assert_eq!(rt; sink.write(b"ab"), *wanted);
    }
}
