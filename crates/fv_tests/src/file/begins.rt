//! Bytes that begin with a file.

use super::{A, P};
use crate::checks::assert_rows;
use bitflags::Flags;
use fv_base::{Fault, FaultKind, FileSystem, Guid, Polarity};
use fv_file::{FileAttributes, FileHead, FileState, verify_ffs_file};

/// A file or a pad: its name, the eight bytes after the name, and the bytes after these eight; then
/// the size of the file, the length of its header, and its state.
type FileRow = ([u8; 16], u64, &'static [u8], u64, u64, FileState);

/// Files and pads in FFS3.
const FILES: &[FileRow] = &[
    // Two files without data. The second is marked for update.
    (A, 0x47aa_0100_1800_00f8, &[], 24, 24, FileState::DataValid),
    (A, 0x47aa_0100_1800_00f0, &[], 24, 24, FileState::Marked),
    // A file with the checksum attribute, and without filler.
    (
        A,
        0x03f6_0140_1c00_00f8,
        &[1, 2, 3, 4],
        28,
        24,
        FileState::DataValid,
    ),
    // A file with one byte of data, and other bytes after the file.
    (
        A,
        0x46aa_0100_1900_00f8,
        &[0x5a, 1, 2, 3, 4, 5, 6, 7, 8, 9],
        25,
        24,
        FileState::DataValid,
    ),
    // A pad, and a pad with the fixed bit and a wrong file checksum.
    (P, 0x08aa_f000_1800_00f8, &[], 24, 24, FileState::DataValid),
    (P, 0x0455_f004_1800_00f8, &[], 24, 24, FileState::DataValid),
    // A large file.
    (
        A,
        0x3eaa_0101_0000_00f8,
        &[32, 0, 0, 0, 0, 0, 0, 0],
        32,
        32,
        FileState::DataValid,
    ),
];

/// A fault and its offset, and the eight bytes after the name in headers that are rejected with
/// this fault in FFS2.
type RejectedRow = (FaultKind, u64, &'static [u64]);

/// Headers that are rejected.
const REJECTED: &[RejectedRow] = &[
    (
        FaultKind::FileState,
        23,
        &[
            // A State in which bit 0x40 was written, and a State in which all bits were written.
            0x47aa_0100_1800_00b8,
            0x47aa_0100_1800_0000,
            // A file whose data are not complete, a deleted file, and an erased State byte.
            0x47aa_0100_1800_00fc,
            0x47aa_0100_1800_00e8,
            0x47aa_0100_1800_00ff,
            // A header under construction, and an invalid header.
            0xffff_ffff_ffff_fffe,
            0xffff_ffff_ffff_ffde,
        ],
    ),
    // A large file.
    (FaultKind::LargeFile, 19, &[0x47aa_0101_1800_00f8]),
    // The header checksum is off by one.
    (FaultKind::FileHeaderSum, 0, &[0x48aa_0100_1800_00f8]),
    // Sizes of 23 and of 64.
    (
        FaultKind::FileSize,
        20,
        &[0x48aa_0100_1700_00f8, 0x1faa_0100_4000_00f8],
    ),
    // A file with the fixed bit.
    (FaultKind::Fixed, 19, &[0x43aa_0104_1800_00f8]),
    // A file checksum that is not 0xAA.
    (FaultKind::FileSum, 17, &[0x47ab_0100_1800_00f8]),
];

// Returns a name, the eight bytes after it, at most 32 other bytes, and then erased bytes.
fn with_fields(name: [u8; 16], fields: u64, more: &[u8]) -> [u8; 56] {
    let mut bytes = [0xff; 56];
    let count = more.len().min(32);
    bytes[24..24 + count].copy_from_slice(&more[..count]);
    bytes[16..24].copy_from_slice(&fields.to_be_bytes());
    bytes[..16].copy_from_slice(&name);
    bytes
}

// Returns the rows. No other function names `FILES`, because the proof of each function that names
// a large constant contains the whole constant.
fn files() -> &'static [FileRow] {
    FILES
}

// Returns the header that a row describes. Its checksums, its type and its attribute bits follow
// the name.
fn head_of(row: &FileRow) -> FileHead {
    let (name, fields, _, size, header_len, state) = *row;
    let [header_sum, file_sum, kind, attributes, ..] = fields.to_be_bytes();
    FileHead {
        size,
        header_len,
        name: Guid::from_bytes(name),
        kind,
        attributes: FileAttributes::from_bits_retain(attributes),
        header_sum,
        file_sum,
        state,
    }
}

// Returns whether the bytes of a row begin with its file.
fn is_found(row: &FileRow) -> bool {
    let (name, fields, more, ..) = *row;
    let bytes = with_fields(name, fields, more);
    let end = 24 + more.len().min(32);
    verify_ffs_file(&bytes[..end], FileSystem::Ffs3, Polarity::Ones) == Ok(head_of(row))
}

// Returns the fault of the first `count` bytes of a file with the name A, if they do not begin with
// a file.
fn fault_of(
    fields: u64,
    more: &[u8],
    count: usize,
    system: FileSystem,
    polarity: Polarity,
) -> Option<Fault> {
    let bytes = with_fields(A, fields, more);
    verify_ffs_file(&bytes[..count.min(56)], system, polarity).err()
}

// Returns the rejected headers.
fn rejected() -> &'static [RejectedRow] {
    REJECTED
}

// Returns whether the headers of a row are rejected with its fault.
fn is_rejected(row: &RejectedRow) -> bool {
    let (kind, offset, headers) = *row;
    let fault = Some(Fault::outer(kind, offset));
    let mut is_right = true;
    for fields in headers {
        let found = fault_of(*fields, &[], 56, FileSystem::Ffs2, Polarity::Ones);
        is_right = is_right && found == fault;
    }
    is_right
}

#[test]
fn bytes_have_their_header_or_their_fault(rt: HostRuntime) {
    assert_rows!(rt; files(), |row| is_found(row));
    assert_rows!(rt; rejected(), |row| is_rejected(row));
}

/// The bytes after the name of a file of 28 bytes, and of a large file of 32 bytes: eight bytes of
/// the header, and the rest.
const WHOLE: [(u64, &[u8]); 2] = [
    (0x03f6_0140_1c00_00f8, &[1, 2, 3, 4]),
    (0x3eaa_0101_0000_00f8, &[32, 0, 0, 0, 0, 0, 0, 0]),
];

// A file is rejected if some of its bytes are missing.
#[test]
fn incomplete_files_are_rejected(rt: HostRuntime) {
    let fault = Some(Fault::outer(FaultKind::FileSize, 20));
    for (fields, more) in WHOLE {
        for count in 0..24 + more.len().min(32) {
            assert!(rt;
                fault_of(fields, more, count, FileSystem::Ffs3, Polarity::Ones) == fault,
                "{count}"
            );
        }
    }
}

#[test]
fn polarity_inverts_the_state(rt: HostRuntime) {
    let fault = Some(Fault::outer(FaultKind::FileState, 23));
    for (state, polarity, expected) in [
        (0xf8u8, Polarity::Ones, None),
        (0xf8, Polarity::Zeros, fault),
        (0x07, Polarity::Ones, fault),
        (0x07, Polarity::Zeros, None),
        (0x0f, Polarity::Zeros, None),
        (0x17, Polarity::Zeros, fault),
        (0x00, Polarity::Zeros, fault),
    ] {
        let fields = 0x47aa_0100_1800_0000 | u64::from(state);
        assert!(rt;
            fault_of(fields, &[], 24, FileSystem::Ffs2, polarity) == expected,
            "{state}"
        );
    }
}
