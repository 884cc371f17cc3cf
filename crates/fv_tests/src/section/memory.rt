//! Failed allocations: `tests/program/test_memory.py` makes each allocation of the test fail in
//! turn, and no wrong result may be returned.

use super::streams::{ExpectedFrame, PAIR, PAIR_FRAMES, has_frame_at, is_split};
use super::written::is_written;
use crate::faults::OUT_OF_MEMORY;
use fv_section::{FrameWalk, freeform, ui_text, version};
use std::alloc::Global;

/// Nine sections without bodies.
const NINE: [u8; 36] = [
    0x04, 0x00, 0x00, 0x19, 0x04, 0x00, 0x00, 0x19, 0x04, 0x00, 0x00, 0x19, 0x04, 0x00, 0x00, 0x19,
    0x04, 0x00, 0x00, 0x19, 0x04, 0x00, 0x00, 0x19, 0x04, 0x00, 0x00, 0x19, 0x04, 0x00, 0x00, 0x19,
    0x04, 0x00, 0x00, 0x19,
];

/// The frames of the nine sections.
const NINE_FRAMES: [ExpectedFrame<'static>; 9] = [
    (0, 0x19, false, &[]),
    (4, 0x19, false, &[]),
    (8, 0x19, false, &[]),
    (12, 0x19, false, &[]),
    (16, 0x19, false, &[]),
    (20, 0x19, false, &[]),
    (24, 0x19, false, &[]),
    (28, 0x19, false, &[]),
    (32, 0x19, false, &[]),
];

// Returns whether a stream is split into these frames and this tail, or memory ran out.
fn is_split_or_out_of_memory(
    alloc: Global,
    stream: &[u8],
    expected: &[ExpectedFrame],
    tail: u8,
) -> bool {
    let found = is_split(alloc, stream, expected, tail);
    found == Ok(true) || found == Err(OUT_OF_MEMORY)
}

// Returns whether a walk over the two sections counts the frames that are left.
fn walk_counts_frames() -> bool {
    let Ok(mut walk) = FrameWalk::of(&PAIR[..15]) else {
        return false;
    };
    let all = walk.frames_left();
    let first = walk.next_frame();
    first.is_some() && all == 2 && walk.frames_left() == 1 && walk.tail() == 1
}

/// The body of a freeform section: its GUID, and the byte 0x01.
const FREEFORM: [u8; 17] = [
    0x0a, 0x0a, 0x0a, 0x0a, 0x0a, 0x0a, 0x0a, 0x0a, 0x0a, 0x0a, 0x0a, 0x0a, 0x0a, 0x0a, 0x0a, 0x0a,
    0x01,
];

/// The body of a freeform section that contains only its GUID.
const GUID: [u8; 16] = [
    0x10, 0x11, 0x12, 0x13, 0x14, 0x15, 0x16, 0x17, 0x18, 0x19, 0x1a, 0x1b, 0x1c, 0x1d, 0x1e, 0x1f,
];

// Returns whether the body has this text.
fn has_text(body: &[u8], text: &[u8]) -> bool {
    ui_text(body) == Some(text)
}

// Returns whether the body has this build number and text.
fn has_version(body: &[u8], number: u16, text: &[u8]) -> bool {
    version(body) == Some((number, text))
}

// Returns whether the body has this GUID, and these bytes after it.
fn has_freeform_parts(body: &[u8], name: &[u8], bytes: &[u8]) -> bool {
    match freeform(body) {
        Some((guid, rest)) => {
            let own = guid.to_bytes();
            own.as_slice() == name && rest == bytes
        }
        None => false,
    }
}

// Returns whether the calls that do not allocate return the right results for texts.
fn texts_are_right() -> bool {
    has_text(
        &[0x41, 0x00, 0x42, 0x00, 0x00, 0x00],
        &[0x41, 0x00, 0x42, 0x00],
    ) && has_version(&[0x01, 0x00, 0x31, 0x00, 0x00, 0x00], 1, &[0x31, 0x00])
        && has_version(&[0x34, 0x12, 0x00, 0x00], 0x1234, &[])
}

// Returns whether the calls that do not allocate return the right results for freeform bodies.
fn freeforms_are_right() -> bool {
    has_freeform_parts(&FREEFORM, &[0x0a; 16], &[0x01])
        && has_freeform_parts(&FREEFORM[..16], &[0x0a; 16], &[])
        && has_freeform_parts(&GUID, &GUID, &[])
}

// Returns whether the calls that do not allocate return the right results for sections.
fn sections_are_right() -> bool {
    has_frame_at(&PAIR, 8, &Some((8, 0x19, false, &[0x01, 0x02])))
        && walk_counts_frames()
        && is_written(0x19, false, 1, &[0x05, 0x00, 0x00, 0x19])
}

#[test]
fn out_of_memory_is_reported(rt: HostRuntime) {
    assert!(rt; is_split_or_out_of_memory(rt.alloc(), &PAIR[..16], &PAIR_FRAMES, 2));
    assert!(rt; is_split_or_out_of_memory(rt.alloc(), &NINE, &NINE_FRAMES, 0));
    assert!(rt; texts_are_right() && freeforms_are_right() && sections_are_right());
}
