//! Deleted and incomplete files, and failed allocations: `tests/program/test_memory.py` makes each
//! allocation of the test fail in turn, and no wrong result may be returned.

use super::written::{file_head, is_joined, pad_head};
use super::{A, P};
use crate::checks::assert_rows;
use crate::faults::OUT_OF_MEMORY;
use crate::spelling::spelled_in_two_tries;
use fv_base::{FileSystem, Polarity};
use fv_file::FileState::{Construction, DataValid, Deleted, Free, HeaderValid, Marked};
use fv_file::{Cell, FileState, cells, file_state, verify_ffs_file};
use std::alloc::Global;

/// The state, the offset and the length of a cell. A stub is listed as a header under construction.
type CellRow = (FileState, u64, u64);

/// A volume whose body begins at 72, and the cells of the body.
type BodyRow = (&'static str, &'static [CellRow]);

/// Volumes with files that are not valid or that are marked for update, and with headers that were
/// not completed. Erased bytes are ones.
const BODIES_OF_ONES: &[BodyRow] = &[
    // A deleted file, a marked file and two other valid files.
    (
        "00*72 0c*16 1faa0100200000e8 00*8 0a*16 3faa0100200000f0 01*8 0b*16 37aa0100180000f8 0a*16 3faa0100200000f8 02*8 ff*64",
        &[
            (Deleted, 72, 32),
            (Marked, 104, 32),
            (DataValid, 136, 24),
            (DataValid, 160, 32),
            (Free, 192, 64),
        ],
    ),
    // A file whose data are not complete.
    (
        "00*72 0a*16 47aa0100180000fc ff*32",
        &[(HeaderValid, 72, 24), (Free, 96, 32)],
    ),
    // A deleted file with the fixed bit and a wrong file checksum, and filler.
    (
        "00*72 0a*16 42ab0104190000e8 ff*32",
        &[(Deleted, 72, 32), (Free, 104, 24)],
    ),
    // A deleted pad.
    (
        "00*72 ff*16 08aaf000180000e8 ff*32",
        &[(Deleted, 72, 24), (Free, 96, 32)],
    ),
    // Two bodies: a file and a header under construction, of 32 bytes and then of 24 bytes.
    (
        "00*72 0a*16 47aa0100180000f8 ff*16 fffffffffffffffe ff*8",
        &[(DataValid, 72, 24), (Construction, 96, 32)],
    ),
    (
        "00*72 0a*16 47aa0100180000f8 ff*16 fffffffefffffffe ff*8",
        &[(DataValid, 72, 24), (Construction, 96, 24), (Free, 120, 8)],
    ),
    // An invalid header, and a file.
    (
        "00*72 0a*16 00000104000000de 0b*16 37aa0100180000f8",
        &[(Construction, 72, 24), (DataValid, 96, 24)],
    ),
];

/// The same if erased bytes are zeros.
const BODIES_OF_ZEROS: &[BodyRow] = &[
    // A marked file and a deleted file.
    (
        "00*72 0a*16 47aa01001800000f 0b*16 37aa010018000017 00*8",
        &[(Marked, 72, 24), (Deleted, 96, 24), (Free, 120, 8)],
    ),
    // Headers under construction, of 24 and of 32 bytes.
    (
        "00*72 00*16 0000000000000001 00*16 0000000100000001 00*8",
        &[(Construction, 72, 24), (Construction, 96, 32)],
    ),
];

// Returns the rows. No other function names `BODIES_OF_ONES` and `BODIES_OF_ZEROS`, because the
// proof of each function that names a large constant contains the whole constant.
fn bodies(polarity: Polarity) -> &'static [BodyRow] {
    match polarity {
        Polarity::Ones => BODIES_OF_ONES,
        Polarity::Zeros => BODIES_OF_ZEROS,
    }
}

// Returns whether a cell is not a pad, and has this state, offset and length.
fn is_cell(cell: &Cell, wanted: CellRow) -> bool {
    match *cell {
        Cell::Valid { offset, head, .. } => wanted == (head.state, offset, head.size),
        Cell::Pad { .. } => false,
        Cell::Dead { offset, len, state } => wanted == (state, offset, len),
        Cell::Stub { offset, len } => wanted == (Construction, offset, len),
        Cell::Free { offset, len } => wanted == (Free, offset, len),
    }
}

// Returns whether the cells are the expected ones.
fn are_cells(found: &[Cell], wanted: &[CellRow]) -> bool {
    let mut is_same = found.len() == wanted.len();
    for i in 0..found.len().min(wanted.len()) {
        is_same = is_same && is_cell(&found[i], wanted[i]);
    }
    is_same
}

// Returns whether a volume has these cells, or memory ran out.
fn has_cells_or_out_of_memory(
    alloc: Global,
    bytes: &[u8],
    system: FileSystem,
    polarity: Polarity,
    wanted: &[CellRow],
) -> bool {
    if bytes.len() < 72 || bytes.len() % 8 != 0 {
        return false;
    }
    match cells(alloc, bytes, 72, system, polarity) {
        Ok(found) => are_cells(found.as_slice(), wanted),
        Err(fault) => fault == OUT_OF_MEMORY,
    }
}

// Returns whether the volume of a row is split into its cells in both file systems, or memory ran
// out.
fn is_row_cut(alloc: Global, polarity: Polarity, row: &BodyRow) -> bool {
    let (text, wanted) = *row;
    match spelled_in_two_tries(alloc, text) {
        Some(bytes) => {
            has_cells_or_out_of_memory(alloc, &bytes, FileSystem::Ffs2, polarity, wanted)
                && has_cells_or_out_of_memory(alloc, &bytes, FileSystem::Ffs3, polarity, wanted)
        }
        None => false,
    }
}

// Returns whether the calls that do not allocate return the right results.
fn calls_without_memory_are_right() -> bool {
    let polarity = Polarity::Ones;
    let (Some(file), Some(pad)) = (
        file_head(0x01, 0, 0, 0xaa, polarity),
        pad_head(24, polarity),
    ) else {
        return false;
    };
    let file_fields = [0x47, 0xaa, 0x01, 0x00, 0x18, 0x00, 0x00, 0xf8];
    let pad_fields = [0x08, 0xaa, 0xf0, 0x00, 0x18, 0x00, 0x00, 0xf8];
    is_joined(file.as_slice(), A, &file_fields)
        && is_joined(pad.as_slice(), P, &pad_fields)
        && verify_ffs_file(file.as_slice(), FileSystem::Ffs2, polarity).is_ok()
        && verify_ffs_file(pad.as_slice(), FileSystem::Ffs2, polarity).is_ok()
        && file_state(0xf8, polarity) == Some(DataValid)
}

#[test]
fn out_of_memory_is_reported(rt: HostRuntime) {
    for polarity in [Polarity::Ones, Polarity::Zeros] {
        assert_rows!(rt; bodies(polarity), |row| is_row_cut(rt.alloc(), polarity, row));
    }
    assert!(rt; calls_without_memory_are_right());
}
