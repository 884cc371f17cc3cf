//! Comparisons whose readers or writer stop early, or whose readers never end.

use crate::fakes::{FakeReader, FakeWriter, InterruptedReader, SpaceReader};
use crate::row_bytes::bytes_of;
use fv_base::{Fault, FaultKind, Port};
use fv_canon::{Side, run_compare};
use std::alloc::Global;
use std::io::Read;

/// The line that a comparison of the two volumes writes.
const LINE: &[u8; 31] = b"different at file 0 attributes\n";

// Returns whether a comparison returns this result, and writes these bytes and nothing after them.
fn comparison_ends_as<R: Read + Drop, Q: Read + Drop>(
    alloc: Global,
    first: &mut Port<R>,
    second: &mut Port<Q>,
    writer: FakeWriter,
    wanted_end: (Result<bool, (Side, Fault)>, &[u8]),
) -> bool {
    let mut writer = Port::new(writer);
    let returned = run_compare(alloc, first, second, &mut writer);
    returned == wanted_end.0 && writer.into_inner().took_only(wanted_end.1)
}

// Returns whether nothing is written if the reader of a side stops the run with this fault. The
// inputs after it are not read.
fn writes_nothing_if_stopped<R: Read + Drop>(
    alloc: Global,
    side: Side,
    volume: &[u8],
    stopping: R,
    fault: Fault,
) -> bool {
    let writer = FakeWriter::new(alloc, 7, usize::MAX, true);
    let wanted_end = (Err((side, fault)), b"".as_slice());
    let mut stopping = Port::new(stopping);
    if side == Side::First {
        let mut unread = Port::new(FakeReader::failing(b"", 1, 0));
        return comparison_ends_as(alloc, &mut stopping, &mut unread, writer, wanted_end);
    }
    let mut first = Port::new(FakeReader::new(volume, 4096, false));
    comparison_ends_as(alloc, &mut first, &mut stopping, writer, wanted_end)
}

// Returns whether nothing is written if the reader of either side fails after `count` bytes.
fn writes_nothing_if_reading_fails(
    alloc: Global,
    first: &[u8],
    second: &[u8],
    step: usize,
    count: usize,
) -> bool {
    let fault = Fault::outer(FaultKind::ReadFault, count as u64);
    let failing = FakeReader::failing(first, step, count);
    let other = FakeReader::failing(second, step, count);
    writes_nothing_if_stopped(alloc, Side::First, first, failing, fault)
        && writes_nothing_if_stopped(alloc, Side::Second, first, other, fault)
}

// Returns whether the run ends as expected if the writer takes `room` bytes, and then fails or
// takes no byte. In the run in which it fails, every second call of the readers is interrupted.
fn writes_as_far_as_there_is_room(
    alloc: Global,
    first: &[u8],
    second: &[u8],
    step: usize,
    room: usize,
) -> bool {
    let fault = Fault::outer(FaultKind::WriteFault, room as u64);
    let wanted = &LINE[..room.min(LINE.len())];
    let outcome = if room < LINE.len() {
        Err((Side::Output, fault))
    } else {
        Ok(false)
    };
    for is_broken in [false, true] {
        let mut reader = Port::new(FakeReader::new(first, step, is_broken));
        let mut other = Port::new(FakeReader::new(second, step, is_broken));
        let writer = FakeWriter::new(alloc, step, room, is_broken);
        if !comparison_ends_as(alloc, &mut reader, &mut other, writer, (outcome, wanted)) {
            return false;
        }
    }
    true
}

// Returns whether a run stops if the reader of a side is interrupted for ever after 2 bytes.
fn gives_up_if_always_interrupted(alloc: Global, side: Side, volume: &[u8]) -> bool {
    let fault = Fault::outer(FaultKind::ReadFault, 2);
    let wanted_end = (Err((side, fault)), b"".as_slice());
    let writer = FakeWriter::new(alloc, 7, usize::MAX, true);
    let mut stalled = Port::new(InterruptedReader { calls: 0 });
    let mut first = Port::new(volume);
    let is_stopped = if side == Side::First {
        comparison_ends_as(alloc, &mut stalled, &mut first, writer, wanted_end)
    } else {
        comparison_ends_as(alloc, &mut first, &mut stalled, writer, wanted_end)
    };
    is_stopped && stalled.into_inner().calls == 268_435_458
}

// Returns whether the run over two volumes stops at each byte of the volumes and of the line, if a
// reader or the writer stops there.
fn stops_at_each_byte(alloc: Global, first: &[u8], second: &[u8], step: usize) -> bool {
    for count in 0..=128 {
        if !writes_nothing_if_reading_fails(alloc, first, second, step, count) {
            return false;
        }
    }
    for room in 0..=LINE.len() {
        if !writes_as_far_as_there_is_room(alloc, first, second, step, room) {
            return false;
        }
    }
    true
}

// Returns whether the run over the two volumes stops at each byte of the volumes and of the line.
fn comparison_stops_at_each_byte(alloc: Global, step: usize) -> Option<bool> {
    let first = bytes_of(alloc, "file-sum-zero-data")?;
    let second = bytes_of(alloc, "file-without-data")?;
    Some(stops_at_each_byte(alloc, &first, &second, step))
}

// Returns whether the run stops if the reader of a side does not end, or is always interrupted.
fn comparison_stops_without_end(alloc: Global, side: Side) -> bool {
    let fault = Fault::outer(FaultKind::Length, 268_435_456);
    let endless = SpaceReader { calls: 0, most: 0 };
    match bytes_of(alloc, "file-sum-zero-data") {
        Some(volume) => {
            writes_nothing_if_stopped(alloc, side, &volume, endless, fault)
                && gives_up_if_always_interrupted(alloc, side, &volume)
        }
        None => false,
    }
}

#[test]
fn a_comparison_stops_with_its_readers_or_writer(rt: HostRuntime) {
    for step in [1, 50, 4096] {
        assert!(rt;
            comparison_stops_at_each_byte(rt.alloc(), step) == Some(true),
            "{step}"
        );
    }
    for side in [Side::First, Side::Second] {
        assert!(rt; comparison_stops_without_end(rt.alloc(), side), "{side:?}");
    }
}
