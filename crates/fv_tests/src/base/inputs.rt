//! Inputs that come in pieces, fail, are too long or never end; and how often a reader is called,
//! and for how many bytes.

use super::ports::FailingReader;
use fv_base::{Fault, FaultKind, Port, read_input};
use std::alloc::Global;
use std::io;
use std::io::{ErrorKind, Read};

/// A reader that gives `left` bytes, as many as each call asks for, and then nothing, or
/// `Interrupted` for ever. It counts its calls, and keeps the size of the largest buffer that was
/// passed in.
#[derive(Drop)]
struct CountingReader {
    left: usize,
    ends: bool,
    calls: u64,
    largest: usize,
}

impl Read for CountingReader {
    fn read(&mut self, buf: &mut [u8]) -> io::Result<usize> {
        self.calls = self.calls.saturating_add(1);
        self.largest = self.largest.max(buf.len());
        if self.left == 0 && !self.ends {
            return Err(io::Error::from(ErrorKind::Interrupted));
        }
        let count = self.left.min(buf.len());
        self.left -= count;
        Ok(count)
    }
}

// Returns a reader of `left` bytes that counts its calls, in a port with this room.
fn counting_reader(left: usize, ends: bool, room: usize) -> Port<CountingReader> {
    let reader = CountingReader {
        left,
        ends,
        calls: 0,
        largest: 0,
    };
    Port::with_room(reader, room)
}

// Fills the buffer with bytes, each different from its neighbours.
fn count_up(bytes: &mut [u8]) {
    for i in 0..bytes.len() {
        bytes[i] = (i % 251) as u8;
    }
}

// Returns whether the bytes are read to their end through a port with this room.
fn is_read_whole(alloc: Global, bytes: &[u8], room: usize) -> bool {
    let mut reader = Port::with_room(bytes, room);
    match read_input(alloc, &mut reader) {
        Ok(got) => got.as_slice() == bytes && !reader.erred(),
        Err(_) => false,
    }
}

// Returns whether this many bytes are read to their end through a port with this room.
fn are_read(alloc: Global, length: usize, room: usize) -> bool {
    match vec![in alloc; 0; length] {
        Ok(mut bytes) => {
            count_up(bytes.as_mut_slice());
            is_read_whole(alloc, bytes.as_slice(), room)
        }
        Err(_) => false,
    }
}

// The room of the port does not matter: it may be none, too little, just enough, or more than any
// input needs.
#[test]
fn inputs_are_read_to_their_end(rt: HostRuntime) {
    for length in [0, 1, 1000, 65_536, 200_000] {
        for room in [0, 1, 1000, 65_536, 200_000, 500_000, usize::MAX] {
            assert!(rt; are_read(rt.alloc(), length, room), "{length} {room}");
        }
    }
}

// Returns 1000 bytes, each different from its neighbours.
fn first_thousand() -> [u8; 1000] {
    let mut bytes = [0; 1000];
    count_up(&mut bytes);
    bytes
}

// Returns whether a reader that fails after `good` bytes is reported as failing at this offset or,
// if `good` is more than the number of bytes, all bytes are read. The port remembers an error in
// both cases, because an interruption is an error too.
fn is_read_until_failure(alloc: Global, bytes: &[u8], good: usize) -> bool {
    let mut reader = Port::new(FailingReader {
        bytes,
        calls: 0,
        good,
    });
    match read_input(alloc, &mut reader) {
        Ok(got) => good > bytes.len() && got.as_slice() == bytes && reader.erred(),
        Err(fault) => {
            good <= bytes.len()
                && fault == Fault::outer(FaultKind::ReadFault, good as u64)
                && reader.erred()
        }
    }
}

// Reading goes on after an interruption. The last reader fails only after one byte more than there
// are, so the reading finds the end of the input.
#[test]
fn a_failed_read_is_reported_at_its_offset(rt: HostRuntime) {
    let bytes = first_thousand();
    for good in [0usize, 1, 2, 7, 1000, 1001] {
        assert!(rt; is_read_until_failure(rt.alloc(), &bytes, good), "{good}");
    }
}

// Returns whether reading has this outcome after this many calls, and whether the largest call asks
// for this many bytes.
fn is_read_in(
    alloc: Global,
    mut reader: Port<CountingReader>,
    want: Result<usize, Fault>,
    calls: u64,
    largest: usize,
) -> bool {
    let outcome = match read_input(alloc, &mut reader) {
        Ok(got) => Ok(got.len()),
        Err(fault) => Err(fault),
    };
    let reader = reader.into_inner();
    outcome == want && reader.calls == calls && reader.largest == largest
}

// Each call asks for a sixteenth of the port's room, but for at least 16,384 and at most 65,536
// bytes, and for 65,536 bytes if the room is 0. There are only as many calls as the bytes and the
// end need.
#[test]
fn each_read_asks_for_a_sixteenth_of_the_room(rt: HostRuntime) {
    for (room, asked, bytes, calls) in [
        (0usize, 65_536usize, 65_536usize, 2u64),
        (0, 65_536, 65_537, 3),
        (1, 16_384, 0, 1),
        (16_384, 16_384, 16_384, 2),
        (262_159, 16_384, 16_385, 3),
        (262_160, 16_385, 200_000, 14),
        (1_048_575, 65_535, 65_536, 3),
        (usize::MAX, 65_536, 200_000, 5),
    ] {
        let reader = counting_reader(bytes, true, room);
        assert!(rt;
            is_read_in(rt.alloc(), reader, Ok(bytes), calls, asked),
            "{room} {bytes}"
        );
    }
}

// An input with as many bytes as a volume may have is accepted. One byte more is the fault Length
// at the limit.
#[test]
fn an_input_longer_than_the_limit_is_rejected(rt: HostRuntime) {
    let limit = 268_435_456;
    let whole = counting_reader(limit, true, 0);
    let long = counting_reader(limit + 1, true, 1);
    let fault = Fault::outer(FaultKind::Length, 268_435_456);
    assert!(rt; is_read_in(rt.alloc(), whole, Ok(limit), 4097, 65_536));
    assert!(rt; is_read_in(rt.alloc(), long, Err(fault), 16_385, 16_384));
}

// Reading stops if the reader is interrupted for ever. (So many calls take a second or two in a
// built test, and too long under `rt try`.)
#[test]
fn reading_ends_if_every_call_is_interrupted(rt: HostRuntime) {
    let reader = counting_reader(10, false, 0);
    let fault = Fault::outer(FaultKind::ReadFault, 10);
    assert!(rt; is_read_in(rt.alloc(), reader, Err(fault), 268_435_458, 65_536));
}
