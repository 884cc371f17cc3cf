//! Failed allocations: `tests/program/test_memory.py` makes each allocation of the test fail in
//! turn, and no wrong result may be returned.

use super::Parts;
use super::known::{Known, lists};
use super::read::is_read_as;
use crate::parts::overwrite;
use std::alloc::Global;

// Writes the joined parts over the bytes.
fn overwrite_joined(bytes: &mut [u8], parts: Parts) {
    let mut at = 0usize;
    for part in parts {
        overwrite(bytes, at, part);
        at = at.saturating_add(part.len());
    }
}

// Returns whether a known list is read and written as it was, or memory ran out. The longest known
// list has 448 bytes. In this list the body of the unused block, 16 bytes at 320, is set to zeros
// before the list is read, because the body is written as zeros.
fn is_read_or_out_of_memory(alloc: Global, known: &Known) -> bool {
    let mut bytes = [0u8; 448];
    overwrite_joined(&mut bytes, known.parts);
    overwrite(&mut bytes, 320, &[0; 16]);
    let list = &bytes[..known.length.min(448) as usize];
    is_read_as(alloc, list, known, list, true)
}

#[test]
fn out_of_memory_is_reported(rt: HostRuntime) {
    for known in lists() {
        assert!(rt; is_read_or_out_of_memory(rt.alloc(), known));
    }
}
