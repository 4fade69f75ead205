//! Runs of the program over readers and writers that fail at one of their calls.

use crate::scans::{Scan, with_failed_scan};
use facet_json_command::run::{OUT_OF_MEMORY, Outcome, run};
use facet_json_row_values::told::Told;
use std::alloc::Global;
use std::io;
use std::io::{ErrorKind, Read, Write};

/// What a run answers and writes.
#[derive(Clone, Copy)]
pub struct Case<'a> {
    pub args: &'a [String],
    pub input: &'a [u8],
    pub outcome: Outcome,
    pub written: &'a [u8],
}

/// Counts calls, of which one fails.
#[derive(Drop)]
struct Fault {
    calls: usize,
    fails_at: usize,
    kind: ErrorKind,
}

impl Fault {
    fn at(fails_at: usize, kind: ErrorKind) -> Fault {
        Fault {
            calls: 0,
            fails_at,
            kind,
        }
    }

    fn call(&mut self) -> io::Result<()> {
        let at = self.calls;
        self.calls = at.saturating_add(1);
        if at == self.fails_at {
            return Err(io::Error::from(self.kind));
        }
        Ok(())
    }

    fn is_met(&self) -> bool {
        self.calls > self.fails_at
    }
}

/// Gives half of what it has and is asked for, at least a byte.
#[derive(Drop)]
pub struct FaultyReader<'a> {
    left: &'a [u8],
    longest: usize,
    fault: Fault,
}

impl<'a> FaultyReader<'a> {
    /// A reader of the input whose call fails so, the first one being 0.
    pub fn new(input: &'a [u8], fails_at: usize, kind: ErrorKind) -> FaultyReader<'a> {
        FaultyReader {
            left: input,
            longest: 0,
            fault: Fault::at(fails_at, kind),
        }
    }

    /// The most bytes that it was asked for at once.
    pub fn longest(&self) -> usize {
        self.longest
    }

    /// Whether its call failed.
    pub fn has_failed(&self) -> bool {
        self.fault.is_met()
    }
}

impl Read for FaultyReader<'_> {
    fn read(&mut self, buf: &mut [u8]) -> io::Result<usize> {
        self.longest = self.longest.max(buf.len());
        self.fault.call()?;
        let room = self.left.len().min(buf.len());
        let n = room - room / 2;
        buf[..n].copy_from_slice(&self.left[..n]);
        self.left = &self.left[n..];
        Ok(n)
    }
}

/// Takes three bytes at a time, and passes them on at a flush alone.
#[derive(Drop)]
struct FaultyWriter {
    taken: Vec<u8>,
    passed_on: usize,
    fault: Fault,
}

impl Write for FaultyWriter {
    fn write(&mut self, buf: &[u8]) -> io::Result<usize> {
        self.fault.call()?;
        let n = buf.len().min(3);
        self.taken.extend_from_slice(&buf[..n])?;
        Ok(n)
    }

    fn flush(&mut self) -> io::Result<()> {
        self.fault.call()?;
        self.passed_on = self.taken.len();
        Ok(())
    }
}

/// How a run over a reader or writer ended of which one call fails.
#[derive(Clone, Copy)]
pub enum Ended {
    /// It told of the failure.
    Told,
    /// It ended before that call, and answered as without one.
    Answered,
    /// Neither.
    Wrong,
}

impl Ended {
    /// A run whose call failed or did not, and which told of that, or answered as without it.
    pub fn of(is_met: bool, is_told: bool, is_answered: bool) -> Ended {
        match (is_met, is_told, is_answered) {
            (true, true, _) => Ended::Told,
            (false, _, true) => Ended::Answered,
            _ => Ended::Wrong,
        }
    }
}

/// How a run of the program over this reader and writer ends.
pub fn run_over<R: Read, W: Write>(
    alloc: Global,
    args: &[String],
    reader: &mut R,
    writer: &mut W,
) -> Outcome {
    run(alloc, args, reader, writer)
}

/// A run of which one read fails. It tells of that, and writes nothing.
fn with_failed_read(alloc: Global, case: &Case<'_>, kind: ErrorKind, at: usize) -> Ended {
    let told = match kind {
        ErrorKind::OutOfMemory => OUT_OF_MEMORY,
        _ => Outcome::Io,
    };
    let mut reader = FaultyReader::new(case.input, at, kind);
    let mut written = Vec::new(alloc);
    let outcome = run_over(alloc, case.args, &mut reader, &mut written);
    Ended::of(
        reader.has_failed(),
        outcome == told && written.is_empty(),
        outcome == case.outcome && written.as_slice() == case.written,
    )
}

/// A run of which one write or flush fails. It tells of that, and has written a part of its text, from the first byte on.
fn with_failed_write(alloc: Global, case: &Case<'_>, at: usize) -> Ended {
    let mut reader = case.input;
    let mut writer = FaultyWriter {
        taken: Vec::new(alloc),
        passed_on: 0,
        fault: Fault::at(at, ErrorKind::BrokenPipe),
    };
    let outcome = run_over(alloc, case.args, &mut reader, &mut writer);
    let taken = writer.taken.as_slice();
    Ended::of(
        writer.fault.is_met(),
        outcome == Outcome::Io && case.written.starts_with(taken),
        outcome == case.outcome && taken == case.written && writer.passed_on == taken.len(),
    )
}

/// More calls than any run makes.
const MANY_CALLS: usize = 100_000;

/// A run of which each call fails in turn.
#[derive(Clone, Copy)]
pub enum Trial<'a> {
    /// Reads of the program fail so.
    Read(&'a Case<'a>, ErrorKind),
    /// Writes and flushes of the program fail.
    Write(&'a Case<'a>),
    /// Reads of a scan fail.
    Scan(Scan<'a>),
}

impl Trial<'_> {
    /// How the run ends whose call of this number fails.
    fn ended(self, alloc: Global, at: usize) -> Ended {
        match self {
            Trial::Read(case, kind) => with_failed_read(alloc, case, kind, at),
            Trial::Write(case) => with_failed_write(alloc, case, at),
            Trial::Scan(scan) => with_failed_scan(alloc, scan, at),
        }
    }

    /// Whether the run tells of each call that fails.
    pub fn tells(self, alloc: Global) -> bool {
        for at in 0..MANY_CALLS {
            match self.ended(alloc, at) {
                Ended::Told => {}
                Ended::Answered => return true,
                Ended::Wrong => return false,
            }
        }
        false
    }
}

/// Tells which failures a run does not tell of.
pub fn write_untold(alloc: Global, case: &Case<'_>, told: &mut Told) {
    if !Trial::Read(case, ErrorKind::BrokenPipe).tells(alloc) {
        told.line("DIFFERS: where a read fails");
    }
    if !Trial::Read(case, ErrorKind::OutOfMemory).tells(alloc) {
        told.line("DIFFERS: where a read is out of memory");
    }
    if !Trial::Write(case).tells(alloc) {
        told.line("DIFFERS: where a write fails or waits for a flush");
    }
}
