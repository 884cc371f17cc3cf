//! Blocks with lengths that their types allow are written back. The rows in `lengths.rows` of
//! fv_run_tests check that such blocks are read, and that blocks with other lengths are rejected.

use super::{END, HANDOFF, header_of, is_list_written_as};
use crate::parts::overwrite;
use fv_hob::read_hobs;
use std::alloc::{AllocError, Global};

/// The types, and for each type some lengths that its blocks may have.
const LENGTHS: &[(u16, &[u16])] = &[
    (0x0001, &[56]),
    (0x0002, &[48, 56, 0xfff8]),
    (0x0003, &[48]),
    (0x0004, &[24, 32, 0xfff8]),
    (0x0005, &[24]),
    (0x0006, &[16]),
    (0x0007, &[8]),
    (0x0009, &[56]),
    (0x000b, &[24]),
    (0xfffe, &[8, 16, 0xfff8]),
    // Types without a kind of their own.
    (0x0000, &[8, 16]),
    (0x0008, &[8, 24]),
    (0x000a, &[8, 56]),
    (0x000c, &[8, 16, 0xfff8]),
    (0xfffd, &[8, 48]),
];

// Returns a list whose second block has this type, this length field, and zeros after its header.
fn list_with(alloc: Global, code: u16, length: u16) -> Result<Vec<u8>, AllocError> {
    let end = 56 + usize::from(length.max(8));
    let mut bytes = vec![in alloc; 0; end + 8]?;
    overwrite(bytes.as_mut_slice(), 0, &HANDOFF);
    overwrite(bytes.as_mut_slice(), 56, &header_of(code, length));
    overwrite(bytes.as_mut_slice(), end, &END);
    Ok(bytes)
}

// Returns whether the bytes are read as a list, and written as they were.
fn is_written_back(alloc: Global, bytes: &[u8]) -> bool {
    match read_hobs(alloc, bytes) {
        Ok((list, _)) => is_list_written_as(alloc, &list, bytes, false),
        Err(_) => false,
    }
}

// Returns whether a list with such a block is read, and written as it was.
fn is_block_written_back(alloc: Global, code: u16, length: u16) -> bool {
    match list_with(alloc, code, length) {
        Ok(bytes) => is_written_back(alloc, bytes.as_slice()),
        Err(_) => false,
    }
}

#[test]
fn each_length_of_a_type_is_written_back(rt: HostRuntime) {
    for (code, lengths) in LENGTHS {
        for length in *lengths {
            assert!(rt;
                is_block_written_back(rt.alloc(), *code, *length),
                "{code} {length}"
            );
        }
    }
}
