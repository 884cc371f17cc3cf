//! Ports over readers and writers that fail: which results they pass on, and which errors they
//! remember.

use fv_base::Port;
use std::alloc::Global;
use std::io;
use std::io::{ErrorKind, Read, Write};

/// A reader that gives one byte per call, returns `Interrupted` at every third call, and fails
/// after `good` bytes.
#[derive(Drop)]
pub(super) struct FailingReader<'a> {
    pub(super) bytes: &'a [u8],
    pub(super) calls: u8,
    pub(super) good: usize,
}

impl<'a> Read for FailingReader<'a> {
    fn read(&mut self, buf: &mut [u8]) -> io::Result<usize> {
        self.calls = self.calls % 3 + 1;
        if self.calls == 3 {
            return Err(io::Error::from(ErrorKind::Interrupted));
        }
        if self.good == 0 {
            return Err(io::Error::from(ErrorKind::WouldBlock));
        }
        self.good -= 1;
        let one = buf.len().min(1);
        self.bytes.read(&mut buf[..one])
    }
}

/// A writer that takes at most `step` bytes per call and `room` bytes in all. After that each call
/// fails, or returns 0.
#[derive(Drop)]
pub(super) struct LimitedWriter {
    pub(super) taken: Vec<u8>,
    pub(super) step: usize,
    pub(super) room: usize,
    pub(super) fails: bool,
}

impl Write for LimitedWriter {
    fn write(&mut self, buf: &[u8]) -> io::Result<usize> {
        if self.room == 0 && self.fails {
            return Err(io::Error::from(ErrorKind::WouldBlock));
        }
        let count = buf.len().min(self.step).min(self.room);
        self.taken.extend_from_slice(&buf[..count])?;
        self.room -= count;
        Ok(count)
    }

    fn flush(&mut self) -> io::Result<()> {
        Ok(())
    }
}

// Returns the count that a call returned, or the kind of its error.
fn count_or_error_kind(outcome: io::Result<usize>) -> Result<usize, ErrorKind> {
    match outcome {
        Ok(count) => Ok(count),
        Err(error) => Err(error.kind()),
    }
}

#[test]
fn a_port_reads_what_its_reader_gives(rt: HostRuntime) {
    let mut buf = [0u8; 4];
    let mut reader = Port::new([1u8, 2, 3].as_slice());
    let first = count_or_error_kind(reader.read(&mut buf));
    let filled = buf;
    let rest = count_or_error_kind(reader.read(&mut buf));
    let is_right = first == Ok(3) && filled == [1, 2, 3, 0] && rest == Ok(0);
    assert!(rt; is_right && !reader.erred());
}

#[test]
fn a_port_has_the_room_that_it_is_made_with(rt: HostRuntime) {
    let full = Port::with_room([1u8, 2, 3].as_slice(), 3);
    assert!(rt; full.room() == 3 && !full.erred() && full.into_inner().len() == 3);
    assert!(rt; Port::new([1u8, 2, 3].as_slice()).room() == 0);
}

// Returns whether a read has this outcome, and the port remembers an error if the read failed.
fn is_read_as(
    reader: &mut Port<FailingReader>,
    buf: &mut [u8],
    want: Result<usize, ErrorKind>,
) -> bool {
    let failed = want.is_err() || reader.erred();
    count_or_error_kind(reader.read(buf)) == want && reader.erred() == failed
}

// The port passes on the reader's own error, which no contract states.
#[test]
fn a_port_remembers_a_read_that_failed(rt: HostRuntime) {
    let mut buf = [0u8; 4];
    let mut reader = Port::new(FailingReader {
        bytes: &[5, 6, 7],
        calls: 0,
        good: 3,
    });
    for want in [
        Ok(1),
        Ok(1),
        Err(ErrorKind::Interrupted),
        Ok(1),
        Err(ErrorKind::WouldBlock),
    ] {
        assert!(rt; is_read_as(&mut reader, &mut buf, want));
    }
    assert!(rt; buf == [7, 0, 0, 0] && reader.into_inner().good == 0);
}

#[test]
fn a_port_writes_what_it_is_given(rt: HostRuntime) {
    let mut writer = Port::new(Vec::new(rt.alloc()));
    let first = count_or_error_kind(writer.write(&[7, 8]));
    let empty = count_or_error_kind(writer.write(&[]));
    assert!(rt; first == Ok(2) && empty == Ok(0) && !writer.erred());
    assert!(rt; writer.into_inner().as_slice() == [7u8, 8].as_slice());
}

// Returns a port over a writer that has taken nothing.
pub(super) fn limited_writer(
    alloc: Global,
    step: usize,
    room: usize,
    fails: bool,
) -> Port<LimitedWriter> {
    Port::new(LimitedWriter {
        taken: Vec::new(alloc),
        step,
        room,
        fails,
    })
}

// Returns whether a write has this outcome, and afterwards the port's error flag has this value.
fn is_written_as(
    writer: &mut Port<LimitedWriter>,
    bytes: &[u8],
    want: Result<usize, ErrorKind>,
    erred: bool,
) -> bool {
    count_or_error_kind(writer.write(bytes)) == want && writer.erred() == erred
}

// Returns whether three of four bytes are taken, and the write of the fourth has this outcome.
fn is_last_written_as(alloc: Global, fails: bool, last: Result<usize, ErrorKind>) -> bool {
    let mut writer = limited_writer(alloc, 2, 3, fails);
    let is_right = is_written_as(&mut writer, &[1, 2, 3, 4], Ok(2), false)
        && is_written_as(&mut writer, &[3, 4], Ok(1), false)
        && is_written_as(&mut writer, &[4], last, true);
    let taken = writer.into_inner().taken;
    is_right && taken.as_slice() == [1u8, 2, 3].as_slice()
}

// A write that takes no byte although some were given has failed too. The port passes on the
// writer's own error.
#[test]
fn a_port_remembers_a_write_that_failed(rt: HostRuntime) {
    assert!(rt; is_last_written_as(rt.alloc(), false, Ok(0)));
    assert!(rt; is_last_written_as(rt.alloc(), true, Err(ErrorKind::WouldBlock)));
}
