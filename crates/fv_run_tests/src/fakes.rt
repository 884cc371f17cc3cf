//! The readers, the writers and the files of the tests.

ghost use Rattle.std.specs.Prelude.{⊤};

use fv_command::Opener;
use std::alloc::Global;
use std::io;
use std::io::{ErrorKind, Read, Write};

/// A reader that gives at most `step` bytes per call, and fails after `until_failure` bytes in all.
#[derive(Drop)]
pub struct FakeReader<'a> {
    /// The bytes that are still to be given.
    rest: &'a [u8],
    /// How many bytes a call gives at most.
    step: usize,
    /// How many bytes are given before a call fails.
    until_failure: usize,
    /// Whether every second call is interrupted.
    is_interrupted: bool,
    /// Whether the last call was interrupted.
    was_interrupted: bool,
}

impl<'a> FakeReader<'a> {
    /// Returns a reader of all of the bytes.
    pub(crate) fn new(bytes: &'a [u8], step: usize, is_interrupted: bool) -> FakeReader<'a> {
        FakeReader {
            rest: bytes,
            step,
            until_failure: usize::MAX,
            is_interrupted,
            was_interrupted: false,
        }
    }

    /// Returns a reader that gives the first `count` bytes and then fails, also if no byte is left.
    pub(crate) fn failing(bytes: &'a [u8], step: usize, count: usize) -> FakeReader<'a> {
        FakeReader {
            rest: bytes,
            step,
            until_failure: count,
            is_interrupted: false,
            was_interrupted: false,
        }
    }
}

impl<'a> Read for FakeReader<'a> {
    fn read(&mut self, buf: &mut [u8]) -> io::Result<usize> {
        self.was_interrupted = !self.was_interrupted;
        if self.is_interrupted && self.was_interrupted {
            return Err(io::Error::from(ErrorKind::Interrupted));
        }
        if self.until_failure == 0 {
            return Err(io::Error::from(ErrorKind::BrokenPipe));
        }
        let most = buf.len().min(self.step).min(self.until_failure);
        let count = self.rest.len().min(most);
        let (given, rest) = self.rest.split_at(count);
        buf[..count].copy_from_slice(given);
        self.rest = rest;
        self.until_failure -= count;
        Ok(count)
    }
}

/// A reader that gives spaces without end.
#[derive(Drop)]
pub(crate) struct SpaceReader {
    /// How often the reader was called.
    pub calls: u64,
    /// The largest number of bytes that a call asked for.
    pub most: usize,
}

impl Read for SpaceReader {
    fn read(&mut self, buf: &mut [u8]) -> io::Result<usize> {
        self.calls = self.calls.saturating_add(1);
        self.most = self.most.max(buf.len());
        buf.fill(b' ');
        Ok(buf.len())
    }
}

/// A reader that gives two digits, and is interrupted from then on.
#[derive(Drop)]
pub(crate) struct InterruptedReader {
    /// How often the reader was called.
    pub calls: u64,
}

impl Read for InterruptedReader {
    fn read(&mut self, buf: &mut [u8]) -> io::Result<usize> {
        self.calls = self.calls.saturating_add(1);
        if self.calls > 1 || buf.len() < 2 {
            return Err(io::Error::from(ErrorKind::Interrupted));
        }
        buf[..2].copy_from_slice(b"00");
        Ok(2)
    }
}

/// A writer that takes `room` bytes, and then fails.
#[derive(Drop)]
pub(crate) struct FakeWriter {
    /// The bytes that the writer took.
    taken: Vec<u8>,
    /// Whether a call came after the first call that failed.
    is_late: bool,
    /// How many bytes a call takes at most.
    step: usize,
    /// How many more bytes the writer takes.
    room: usize,
    /// Whether a call without room returns an error. Otherwise it takes no byte.
    is_broken: bool,
    /// Whether a call has failed, or took no byte.
    has_failed: bool,
    /// How often the writer was asked to flush.
    flushes: u64,
    /// Whether a flush fails.
    flush_fails: bool,
}

impl FakeWriter {
    /// Returns a writer with room for `room` bytes.
    pub(crate) fn new(alloc: Global, step: usize, room: usize, is_broken: bool) -> FakeWriter {
        FakeWriter {
            taken: Vec::new(alloc),
            is_late: false,
            step,
            room,
            is_broken,
            has_failed: false,
            flushes: 0,
            flush_fails: false,
        }
    }

    /// Returns a writer that takes all bytes, and whose flush fails.
    pub(crate) fn without_flush(alloc: Global) -> FakeWriter {
        FakeWriter {
            flush_fails: true,
            ..FakeWriter::new(alloc, usize::MAX, usize::MAX, true)
        }
    }

    /// Returns whether the writer was asked exactly once to flush.
    pub(crate) fn was_flushed(&self) -> bool {
        self.flushes == 1
    }

    /// Returns whether the writer took exactly these bytes, and no call came after the first call
    /// that failed.
    pub(crate) fn took_only(&self, bytes: &[u8]) -> bool {
        !self.is_late && self.taken.as_slice() == bytes
    }
}

impl Write for FakeWriter {
    fn write(&mut self, buf: &[u8]) -> io::Result<usize> {
        if self.has_failed {
            self.is_late = true;
            return Err(io::Error::from(ErrorKind::BrokenPipe));
        }
        let count = buf.len().min(self.step).min(self.room);
        self.has_failed = count == 0;
        if count == 0 && self.is_broken {
            return Err(io::Error::from(ErrorKind::BrokenPipe));
        }
        self.taken.extend_from_slice(&buf[..count])?;
        self.room -= count;
        Ok(count)
    }

    fn flush(&mut self) -> io::Result<()> {
        self.is_late = self.is_late || self.has_failed;
        self.flushes = self.flushes.saturating_add(1);
        if self.flush_fails {
            return Err(io::Error::from(ErrorKind::BrokenPipe));
        }
        Ok(())
    }
}

/// Two files, `a.fv` and `b.fv`, and standard input.
#[derive(Drop)]
pub struct FakeOpener<'a> {
    /// The bytes of `a.fv`.
    first: &'a [u8],
    /// The bytes of `b.fv`.
    second: &'a [u8],
    /// The bytes of standard input.
    standard: &'a [u8],
    /// The stated length of each file.
    len_hint: usize,
}

impl<'a> FakeOpener<'a> {
    /// Returns an opener of files and standard input with these bytes. The stated length of each
    /// file is `len_hint` bytes.
    pub(crate) fn new(
        first: &'a [u8],
        second: &'a [u8],
        standard: &'a [u8],
        len_hint: usize,
    ) -> FakeOpener<'a> {
        FakeOpener {
            first,
            second,
            standard,
            len_hint,
        }
    }
}

impl<'a> Opener for FakeOpener<'a> {
    type File = FakeReader<'a>;

    type Standard = FakeReader<'a>;

    ghost opens = { λ _ _ _. ⊤ };

    ghost is_standard = { λ _ _. ⊤ };

    fn file_at(&self, path: &str) -> Option<FakeReader<'a>> {
        match path.as_bytes() {
            b"a.fv" => Some(FakeReader::new(self.first, 50, false)),
            b"b.fv" => Some(FakeReader::new(self.second, 50, false)),
            _ => None,
        }
    }

    fn standard_input(&self) -> FakeReader<'a> {
        FakeReader::new(self.standard, 50, false)
    }

    fn len_hint(&self, _file: &FakeReader<'a>) -> usize {
        self.len_hint
    }
}
