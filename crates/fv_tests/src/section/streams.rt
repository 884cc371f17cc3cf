//! The frames of a stream, and the frame at each offset.

use fv_base::Fault;
use fv_section::{Frame, frames, next_frame};
use std::alloc::Global;

/// The offset of a frame, its type, whether its header is extended, and its body.
pub(super) type ExpectedFrame<'a> = (u64, u8, bool, &'a [u8]);

/// Two sections with filler of 0xEE between them, and 3 such bytes after the last. The tail may have
/// at most 2 bytes here: the first 14, 15 or 16 bytes are a stream, and all 17 are not.
pub(super) const PAIR: [u8; 17] = [
    0x05, 0x00, 0x00, 0x19, 0x5a, 0xee, 0xee, 0xee, 0x06, 0x00, 0x00, 0x19, 0x01, 0x02, 0xee, 0xee,
    0xee,
];

/// The frames of the two sections.
pub(super) const PAIR_FRAMES: [ExpectedFrame<'static>; 2] = [
    (0, 0x19, false, &[0x5a]),
    (8, 0x19, false, &[0x01, 0x02]),
];

/// Some bytes, an offset, and the frame of the bytes at this offset, if there is one. The bytes need
/// not be a stream.
const PLACES: [(&[u8], u64, Option<ExpectedFrame<'static>>); 7] = [
    (&PAIR, 0, Some((0, 0x19, false, &[0x5a]))),
    (&PAIR, 8, Some((8, 0x19, false, &[0x01, 0x02]))),
    (
        &[0x04, 0x00, 0x00, 0x19, 0x00, 0x00],
        0,
        Some((0, 0x19, false, &[])),
    ),
    // The end of the stream, and offsets past the end.
    (&[0x04, 0x00, 0x00, 0x19, 0x00, 0x00], 6, None),
    (&[0x04, 0x00, 0x00, 0x19, 0x00, 0x00], 8, None),
    (&[0x04, 0x00, 0x00, 0x19, 0x00, 0x00], u64::MAX, None),
    (&[], 0, None),
];

// Returns whether a frame is the expected one.
fn is_frame(frame: &Frame, expected: &ExpectedFrame) -> bool {
    let (offset, kind, extended, body) = *expected;
    frame.offset == offset && frame.kind == kind && frame.extended == extended && frame.body == body
}

// Returns whether a stream is split into the expected frames and this tail.
pub(super) fn is_split(
    alloc: Global,
    stream: &[u8],
    expected: &[ExpectedFrame],
    tail: u8,
) -> Result<bool, Fault> {
    let found = frames(alloc, stream)?;
    let list = found.as_slice();
    if list.len() != expected.len() || found.tail() != tail {
        return Ok(false);
    }
    for index in 0..expected.len() {
        if !is_frame(&list[index], &expected[index]) {
            return Ok(false);
        }
    }
    Ok(true)
}

// Returns whether the expected frame, or none, is at an offset of the stream.
pub(super) fn has_frame_at(stream: &[u8], at: u64, expected: &Option<ExpectedFrame>) -> bool {
    match (next_frame(stream, at), expected) {
        (Ok(Some(frame)), Some(one)) => is_frame(&frame, one),
        (Ok(None), None) => true,
        _ => false,
    }
}

#[test]
fn the_next_frame_is_at_its_offset(rt: HostRuntime) {
    for (stream, at, expected) in PLACES {
        assert!(rt; has_frame_at(stream, at, &expected), "{stream:?} {at}");
    }
}
