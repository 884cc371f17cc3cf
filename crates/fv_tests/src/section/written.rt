//! Written headers.

use fv_section::{SectionHead, section_head_bytes};

/// The type, whether the header is extended, the length of the body, and the header's bytes.
const HEADS: [(u8, bool, u64, &[u8]); 8] = [
    (0x19, false, 1, &[0x05, 0x00, 0x00, 0x19]),
    (0x17, false, 0, &[0x04, 0x00, 0x00, 0x17]),
    (0x15, false, 0x1234, &[0x38, 0x12, 0x00, 0x15]),
    // The largest size of a section with a short header.
    (0x19, false, 0xff_fffa, &[0xfe, 0xff, 0xff, 0x19]),
    // A section of any size may have an extended header.
    (
        0x19,
        true,
        0,
        &[0xff, 0xff, 0xff, 0x19, 0x08, 0x00, 0x00, 0x00],
    ),
    (
        0x19,
        true,
        0xff_fff7,
        &[0xff, 0xff, 0xff, 0x19, 0xff, 0xff, 0xff, 0x00],
    ),
    (
        0x15,
        true,
        0x1234_5678,
        &[0xff, 0xff, 0xff, 0x15, 0x80, 0x56, 0x34, 0x12],
    ),
    // The largest size of a section.
    (
        0x17,
        true,
        0xffff_fff7,
        &[0xff, 0xff, 0xff, 0x17, 0xff, 0xff, 0xff, 0xff],
    ),
];

// Returns the header of a section if its size fits the form of the header.
fn head_of(kind: u8, extended: bool, body_len: u64) -> Option<SectionHead> {
    if extended && body_len <= 0xffff_fff7 {
        Some(section_head_bytes(kind, true, body_len))
    } else if !extended && body_len <= 0xff_fffa {
        Some(section_head_bytes(kind, false, body_len))
    } else {
        None
    }
}

// Returns whether the header is written as these bytes.
pub(super) fn is_written(kind: u8, extended: bool, body_len: u64, bytes: &[u8]) -> bool {
    let Some(head) = head_of(kind, extended, body_len) else {
        return false;
    };
    head.as_slice() == bytes
}

#[test]
fn headers_are_written(rt: HostRuntime) {
    for (kind, extended, body_len, bytes) in HEADS {
        assert!(rt; is_written(kind, extended, body_len, bytes), "{bytes:?}");
    }
}
