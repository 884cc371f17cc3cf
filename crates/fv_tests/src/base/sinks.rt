//! Which bytes sinks keep and write, and where they stop.

use super::ports::{LimitedWriter, limited_writer};
use fv_base::{ByteList, Fault, FaultKind, ListSink, Polarity, Port, Sink, WriteSink, fill};
use std::alloc::Global;

/// The numbers of bytes of the fills.
const COUNTS: [usize; 4] = [0, 1, 65_536, 200_000];

// Returns whether the bytes are `count` times this byte, and then 1 and 2.
fn is_fill(bytes: &[u8], byte: u8, count: usize) -> bool {
    match bytes.split_at_checked(count) {
        Some((first, rest)) => rest == [1u8, 2].as_slice() && first.iter().all(|one| *one == byte),
        None => false,
    }
}

// Returns whether a list has kept a fill, and then 1 and 2.
fn has_kept(list: ListSink, byte: u8, count: usize) -> bool {
    match list.finish() {
        Ok(bytes) => is_fill(bytes.as_slice(), byte, count),
        Err(_) => false,
    }
}

// Returns whether a list keeps a fill of erased bytes.
fn is_kept(alloc: Global, polarity: Polarity, count: usize) -> bool {
    match ListSink::with_room(alloc, count) {
        Ok(mut list) => {
            fill(&mut list, polarity.erased(), count as u64);
            list.put(&[1, 2]);
            has_kept(list, polarity.erased(), count)
        }
        Err(_) => false,
    }
}

// Returns whether a fill of erased bytes and two more bytes are written, and no byte after them.
// The fault of the first byte without room contains the number of written bytes.
fn is_room_filled(port: &mut Port<LimitedWriter>, polarity: Polarity, count: usize) -> bool {
    let mut sink = WriteSink::new(port);
    fill(&mut sink, polarity.erased(), count as u64);
    sink.put(&[1, 2]);
    let filled = sink.outcome();
    sink.put(&[3]);
    let stopped = Fault::outer(FaultKind::WriteFault, (count as u64).saturating_add(2));
    filled == Ok(()) && sink.outcome() == Err(stopped)
}

// Returns whether a fill is written if there is just enough room.
fn is_written(alloc: Global, polarity: Polarity, count: usize) -> bool {
    let mut port = limited_writer(alloc, usize::MAX, count.saturating_add(2), false);
    let is_filled = is_room_filled(&mut port, polarity, count);
    let taken = port.into_inner().taken;
    is_filled && is_fill(taken.as_slice(), polarity.erased(), count)
}

#[test]
fn sinks_keep_and_write_fills(rt: HostRuntime) {
    assert!(rt; Polarity::Ones.erased() == 0xff && Polarity::Zeros.erased() == 0);
    for polarity in [Polarity::Ones, Polarity::Zeros] {
        for count in COUNTS {
            let is_kept = is_kept(rt.alloc(), polarity, count);
            assert!(rt;
                is_kept && is_written(rt.alloc(), polarity, count),
                "{count}"
            );
        }
    }
}

// Returns whether a copy of the list has the bytes 1 and 2.
fn is_copied(alloc: Global, list: &ByteList) -> bool {
    match ByteList::from_slice(alloc, list.as_slice()) {
        Ok(copy) => copy.as_slice() == b"\x01\x02".as_slice(),
        Err(_) => false,
    }
}

// Returns whether the list of a vector with the bytes 1 and 2 has these bytes, and a copy of it has
// them too.
fn are_listed(alloc: Global) -> bool {
    match [1u8, 2].to_vec(alloc) {
        Ok(bytes) => {
            let list = ByteList::from_vec(bytes);
            list.as_slice() == b"\x01\x02".as_slice() && is_copied(alloc, &list)
        }
        Err(_) => false,
    }
}

#[test]
fn byte_lists_have_their_bytes(rt: HostRuntime) {
    assert!(rt; are_listed(rt.alloc()));
}

// Returns whether a sink stops after this many erased bytes, and writes nothing more.
fn stops_after(port: &mut Port<LimitedWriter>, room: usize) -> bool {
    let mut sink = WriteSink::new(port);
    fill(&mut sink, 0xff, 200_000);
    let filled = sink.outcome();
    sink.put(&[1, 2]);
    let stopped = Err(Fault::outer(FaultKind::WriteFault, room as u64));
    filled == stopped && sink.outcome() == stopped
}

// Returns whether the bytes are this many erased bytes.
fn are_erased(bytes: &[u8], count: usize) -> bool {
    bytes.len() == count && bytes.iter().all(|byte| *byte == 0xff)
}

// Returns whether a sink stops where the room of its writer ends.
fn stops_where_room_ends(alloc: Global, fails: bool, room: usize) -> bool {
    let mut port = limited_writer(alloc, 1000, room, fails);
    let is_stopped = stops_after(&mut port, room) && port.erred();
    let taken = port.into_inner().taken;
    is_stopped && are_erased(taken.as_slice(), room)
}

#[test]
fn sinks_stop_where_a_write_fails(rt: HostRuntime) {
    for fails in [false, true] {
        for room in [0usize, 1, 65_536, 100_000] {
            assert!(rt; stops_where_room_ends(rt.alloc(), fails, room), "{room}");
        }
    }
}
