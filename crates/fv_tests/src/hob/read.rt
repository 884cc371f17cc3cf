//! Lists that are read and written back, and the volumes that they describe.

use super::known::{Block, Known, are_described, is_found, lists};
use super::{FURTHER, OUT_OF_MEMORY, is_list_written_as};
use crate::parts::{joined, overwrite};
use fv_hob::{HobList, read_hobs, volume_hobs};
use std::alloc::Global;

// Returns whether a list describes the volumes of these blocks. If `is_scarce` is set, memory may
// also run out.
fn has_volumes(alloc: Global, list: &HobList, blocks: &[Block], is_scarce: bool) -> bool {
    match volume_hobs(alloc, list) {
        Ok(spans) => are_described(spans.as_slice(), blocks),
        Err(fault) => is_scarce && fault == OUT_OF_MEMORY,
    }
}

// Returns whether the bytes are read as a known list, which describes its volumes and is written as
// the bytes `written`. If `is_scarce` is set, memory may also run out.
pub(super) fn is_read_as(
    alloc: Global,
    bytes: &[u8],
    known: &Known,
    written: &[u8],
    is_scarce: bool,
) -> bool {
    match read_hobs(alloc, bytes) {
        Ok((list, length)) => {
            is_found(list.as_slice(), length, known)
                && has_volumes(alloc, &list, known.blocks, is_scarce)
                && is_list_written_as(alloc, &list, written, is_scarce)
        }
        Err(fault) => is_scarce && fault == OUT_OF_MEMORY,
    }
}

// Returns whether the bytes are read as a known list, and the list is written with the same bytes,
// except that the body of an unused block is written as zeros. Only the list of all types has an
// unused block with a body. The block is at 312, and its body is at 320.
fn is_written_back(alloc: Global, bytes: &[u8], known: &Known) -> bool {
    match joined(alloc, known.parts, &[]) {
        Ok(mut written) => {
            overwrite(written.as_mut_slice(), 320, &[0; 16]);
            is_read_as(alloc, bytes, known, written.as_slice(), false)
        }
        Err(_) => false,
    }
}

// Returns whether a list is read and written if the first `more` parts of FURTHER follow it.
fn is_read_before(alloc: Global, known: &Known, more: usize) -> bool {
    match joined(alloc, known.parts, &FURTHER[..more.min(FURTHER.len())]) {
        Ok(bytes) => is_written_back(alloc, bytes.as_slice(), known),
        Err(_) => false,
    }
}

#[test]
fn lists_are_read_and_written_whatever_follows(rt: HostRuntime) {
    for known in lists() {
        for more in 0..5usize {
            assert!(rt; is_read_before(rt.alloc(), known, more), "{more}");
        }
    }
}
