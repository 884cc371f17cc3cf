//! A long list.

use super::{END, HANDOFF, is_list_written_as};
use crate::parts::overwrite;
use fv_hob::{HobList, Span, read_hobs, volume_hobs};
use std::alloc::Global;

/// A volume of 16 bytes at the address 0.
const VOLUME: [u8; 24] = [
    0x05, 0x00, 0x18, 0x00, 0x00, 0x00, 0x00, 0x00, 0x00, 0x00, 0x00, 0x00, 0x00, 0x00, 0x00, 0x00,
    0x10, 0x00, 0x00, 0x00, 0x00, 0x00, 0x00, 0x00,
];

// Returns a list of 1000 volumes of 16 bytes, at the addresses 0 to 999.
fn long_list() -> [u8; 24064] {
    let mut bytes = [0; 24064];
    overwrite(&mut bytes, 0, &HANDOFF);
    let mut offset = 56usize;
    for at in 0..1000u16 {
        overwrite(&mut bytes, offset, &VOLUME);
        overwrite(&mut bytes, offset.saturating_add(8), &at.to_le_bytes());
        offset = offset.saturating_add(24);
    }
    overwrite(&mut bytes, offset, &END);
    bytes
}

// Returns how many of the volumes of 16 bytes at 0, at 1 and so on are among the spans in this
// order. Other spans are passed over.
fn count_in_order(spans: &[Span]) -> u64 {
    let mut at = 0u64;
    for span in spans {
        if span.base == at && span.length == 16 {
            at = at.wrapping_add(1);
        }
    }
    at
}

// Returns whether a list describes the volumes of the long list.
fn has_thousand_volumes(alloc: Global, list: &HobList) -> bool {
    match volume_hobs(alloc, list) {
        Ok(spans) => { spans.as_slice().len() == 1000 && count_in_order(spans.as_slice()) == 1000 }
        Err(_) => false,
    }
}

// Returns whether the bytes are read as the long list, which is written as it was.
fn is_long_list(alloc: Global, bytes: &[u8]) -> bool {
    match read_hobs(alloc, bytes) {
        Ok((list, length)) => {
            list.as_slice().len() == 1002
                && length == 24064
                && has_thousand_volumes(alloc, &list)
                && is_list_written_as(alloc, &list, bytes, false)
        }
        Err(_) => false,
    }
}

#[test]
fn a_long_list_is_read_and_written(rt: HostRuntime) {
    let bytes = long_list();
    assert!(rt; is_long_list(rt.alloc(), &bytes));
}
