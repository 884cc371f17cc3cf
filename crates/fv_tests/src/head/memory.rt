//! The fields of a header, and failed allocations: `tests/program/test_memory.py` makes each
//! allocation of the test fail in turn, and no wrong result may be returned.

use super::extended::{BARE, has_ext, image_ext, image_head, is_written_until};
use crate::faults::OUT_OF_MEMORY;
use bitflags::Flags;
use fv_base::{ByteList, Fault, FileSystem, Polarity};
use fv_head::{
    Extent, VolumeHead, ext_bytes, first_edge, head_bytes, is_one_volume, read_head, verify_fv,
};
use std::alloc::Global;

/// The extent of the bare volume.
const EXTENT: Extent = Extent {
    length: 192,
    header_len: 72,
    first: 104,
    file_system: FileSystem::Ffs2,
    polarity: Polarity::Ones,
};

// Returns whether these bytes are made, or memory ran out.
fn is_expected_or_out_of_memory(made: Result<ByteList, Fault>, wanted: &[u8]) -> bool {
    match made {
        Ok(bytes) => bytes.as_slice() == wanted,
        Err(fault) => fault == OUT_OF_MEMORY,
    }
}

// Returns whether a header has the fields of the bare volume.
fn has_fields(head: &VolumeHead) -> bool {
    let is_named = *head.zero_vector() == [0u8; 16] && head.file_system() == FileSystem::Ffs2;
    let bits = head.attributes();
    let has_bits = bits.bits() == 0x0004_feff && bits.polarity() == Polarity::Ones;
    let is_long = head.length() == 192 && head.header_len() == 72;
    let has_blocks = head.blocks().as_slice() == [(1u32, 192u32)].as_slice();
    is_named && has_bits && is_long && has_blocks && head.reserved() == 0
}

// Returns whether the volume header of the canonical image is made, and the extended header with
// its used size and with a used size of 0, or memory ran out.
fn has_heads_or_out_of_memory(alloc: Global, head: &VolumeHead) -> bool {
    let Some(ext) = head.ext() else {
        return false;
    };
    is_expected_or_out_of_memory(head_bytes(alloc, head), &image_head())
        && is_expected_or_out_of_memory(ext_bytes(alloc, ext, 152), image_ext())
        && is_expected_or_out_of_memory(ext_bytes(alloc, ext, 0), &BARE[72..100])
}

// Returns whether the calls that do not allocate return the right results.
fn calls_without_memory_are_right(head: &VolumeHead) -> bool {
    verify_fv(&BARE) == Ok(EXTENT)
        && is_one_volume(&BARE)
        && first_edge(head) == 128
        && is_written_until(head, false, &image_head(), 72)
        && is_written_until(head, true, image_ext(), 28)
}

// Returns whether the bare volume is read, and its headers are made again, or memory ran out.
fn is_read_or_out_of_memory(alloc: Global) -> bool {
    match read_head(alloc, &BARE) {
        Ok((head, extent)) => {
            extent == EXTENT
                && has_fields(&head)
                && has_ext(&head, &[(3, &[0; 4])], &[])
                && has_heads_or_out_of_memory(alloc, &head)
                && calls_without_memory_are_right(&head)
        }
        Err(fault) => fault == OUT_OF_MEMORY,
    }
}

#[test]
fn out_of_memory_is_reported(rt: HostRuntime) {
    assert!(rt; is_read_or_out_of_memory(rt.alloc()));
}
