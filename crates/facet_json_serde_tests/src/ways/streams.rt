//! Readers and writers that give and take a few bytes at a time, and fail at each call in turn.

use crate::forms::again::are_bytes;
use facet_json_serde::{StreamError, from_reader, to_writer};
use std::alloc::Global;
use std::io;
use std::io::{ErrorKind, Read, Write};

/// The text that is read and written, three bytes at a time.
const TEXT: &str = "[1,20,3]";

/// Counts a call, and fails where it is the one of this number.
fn count(calls: &mut usize, fails_at: usize) -> io::Result<()> {
    let at = *calls;
    *calls = at.saturating_add(1);
    if at == fails_at {
        Err(io::Error::from(ErrorKind::TimedOut))
    } else {
        Ok(())
    }
}

/// What is left to be read, and at which read, counted from 0, it fails.
#[derive(Drop)]
struct Pieces {
    left: &'static [u8],
    reads: usize,
    fails_at: usize,
}

impl Read for Pieces {
    fn read(&mut self, buf: &mut [u8]) -> io::Result<usize> {
        count(&mut self.reads, self.fails_at)?;
        let n = self.left.len().min(buf.len()).min(3);
        let (now, later) = self.left.split_at(n);
        buf[..n].copy_from_slice(now);
        self.left = later;
        Ok(n)
    }
}

/// What was written, and at which write, counted from 0, it fails.
#[derive(Drop)]
struct Taken {
    bytes: Vec<u8>,
    writes: usize,
    fails_at: usize,
}

impl Write for Taken {
    fn write(&mut self, buf: &[u8]) -> io::Result<usize> {
        count(&mut self.writes, self.fails_at)?;
        let n = buf.len().min(3);
        self.bytes.extend_from_slice(&buf[..n])?;
        Ok(n)
    }

    fn flush(&mut self) -> io::Result<()> {
        Ok(())
    }
}

/// The stream's own error, or none where all was done.
fn error<T: Drop>(answer: Result<T, StreamError<'_>>) -> Option<ErrorKind> {
    match answer {
        Ok(_) => None,
        Err(StreamError::Io(error)) => Some(error.kind()),
        Err(_) => Some(ErrorKind::InvalidData),
    }
}

/// What is read where this read fails.
fn read(alloc: Global, fails_at: usize) -> Result<Vec<u8>, StreamError<'static>> {
    let mut pieces = Pieces {
        left: TEXT.as_bytes(),
        reads: 0,
        fails_at,
    };
    from_reader(alloc, &mut pieces)
}

#[test]
fn a_read_fails_in_turn(rt: HostRuntime) {
    let alloc = rt.alloc();
    for at in 0..4 {
        assert!(rt;
            error(read(alloc, at)) == Some(ErrorKind::TimedOut),
            "at {at}"
        );
    }
    assert!(rt; are_bytes(read(alloc, 4), &[1, 20, 3]));
}

/// Which write fails, the error, and what was taken before it; at last, one that is not made.
static WRITES: [(usize, Option<ErrorKind>, &str); 4] = [
    (0, Some(ErrorKind::TimedOut), ""),
    (1, Some(ErrorKind::TimedOut), "[1,"),
    (2, Some(ErrorKind::TimedOut), "[1,20,"),
    (3, None, TEXT),
];

/// Whether the write that fails, if one is made, gives this error, after this text was taken.
fn fails_so(alloc: Global, fails_at: usize, wanted: Option<ErrorKind>, text: &str) -> bool {
    let mut taken = Taken {
        bytes: Vec::new(alloc),
        writes: 0,
        fails_at,
    };
    let answer = to_writer(alloc, &mut taken, &(1u8, 20u8, 3u8));
    (error(answer) == wanted) & (taken.bytes.as_slice() == text.as_bytes())
}

#[test]
fn a_write_fails_in_turn(rt: HostRuntime) {
    for (fails_at, wanted, text) in &WRITES {
        assert!(rt;
            fails_so(rt.alloc(), *fails_at, *wanted, *text),
            "at {fails_at}"
        );
    }
}
