//! Written headers.

use super::{A, P};
use bitflags::Flags;
use fv_base::{FileSystem, Guid, Polarity};
use fv_file::{FileAttributes, HeadBytes, file_head_bytes, pad_head_bytes, verify_ffs_file};

/// A file: the type, the attribute bits, the length of the data, the file checksum and the
/// polarity; then the bytes after the name, as two numbers of eight bytes each. A short header ends
/// after the first number, and the second number is then 0.
type FileRow = (u8, u8, u64, u8, Polarity, u64, u64);

/// A pad: its size, its polarity and the eight bytes after its name.
type PadRow = (u64, Polarity, u64);

// Returns the header of a file with this type, these attribute bits, this much data and this file
// checksum, if there is such a header.
pub(super) fn file_head(
    kind: u8,
    attributes: u8,
    data_len: u64,
    file_sum: u8,
    polarity: Polarity,
) -> Option<HeadBytes> {
    let attributes = FileAttributes::from_bits_retain(attributes);
    if kind == 0xf0 || attributes.is_large() || attributes.is_fixed() || data_len > 268_435_424 {
        return None;
    }
    let name = Guid::from_bytes(A);
    Some(file_head_bytes(name, kind, attributes, data_len, file_sum, polarity))
}

// Returns the header of a pad of this size, if there is such a header.
pub(super) fn pad_head(size: u64, polarity: Polarity) -> Option<HeadBytes> {
    if size < 24 || size > 0xff_ffff {
        return None;
    }
    Some(pad_head_bytes(size, polarity))
}

// Returns whether the bytes are the name followed by the fields.
pub(super) fn is_joined(bytes: &[u8], name: [u8; 16], fields: &[u8]) -> bool {
    bytes.len() >= 16 && &bytes[..16] == name.as_slice() && &bytes[16..] == fields
}

// Returns whether a header of 24 bytes is read as a file or a pad with these fields.
fn is_read_back(
    bytes: &[u8],
    name: [u8; 16],
    kind: u8,
    attributes: u8,
    file_sum: u8,
    polarity: Polarity,
) -> bool {
    let Ok(found) = verify_ffs_file(bytes, FileSystem::Ffs2, polarity) else {
        return false;
    };
    found.name == Guid::from_bytes(name)
        && found.kind == kind
        && found.attributes.bits() == attributes
        && found.size == 24
        && found.file_sum == file_sum
}

// Returns whether the bytes are a name followed by these numbers. The second number is missing if
// it is 0.
fn is_joined_of(bytes: &[u8], name: [u8; 16], first: u64, second: u64) -> bool {
    let mut fields = [0; 16];
    fields[..8].copy_from_slice(&first.to_be_bytes());
    fields[8..].copy_from_slice(&second.to_be_bytes());
    let len = if second == 0 { 8 } else { 16 };
    is_joined(bytes, name, &fields[..len])
}

// Returns whether the header of a row's file is written as expected and, if the file has no data,
// is read back.
fn file_head_is_written(row: FileRow) -> bool {
    let (kind, attributes, data_len, file_sum, polarity, first, second) = row;
    let Some(head) = file_head(kind, attributes, data_len, file_sum, polarity) else {
        return false;
    };
    let bytes = head.as_slice();
    is_joined_of(bytes, A, first, second)
        && (data_len != 0 || is_read_back(bytes, A, kind, attributes, file_sum, polarity))
}

// Returns whether the header of a row's pad is written as expected and, if the pad has no data, is
// read back.
fn pad_head_is_written(row: PadRow) -> bool {
    let (size, polarity, first) = row;
    let Some(head) = pad_head(size, polarity) else {
        return false;
    };
    let bytes = head.as_slice();
    is_joined_of(bytes, P, first, 0)
        && (size != 24 || is_read_back(bytes, P, 0xf0, 0, 0xaa, polarity))
}

// The data of one file are the longest that fit a short header, and the data of the next file are
// one byte longer. The last two files have the most data that a file may have. The last file has
// all attribute bits that the call accepts, which are all bits except 0x01 and 0x04.
#[test]
fn headers_are_written(rt: HostRuntime) {
    let (ones, zeros) = (Polarity::Ones, Polarity::Zeros);
    for row in [
        (0x01, 0x00, 0, 0xaa, ones, 0x47aa_0100_1800_00f8, 0),
        (0x01, 0x00, 0, 0xaa, zeros, 0x47aa_0100_1800_0007, 0),
        (0xff, 0x00, 0, 0xaa, ones, 0x49aa_ff00_1800_00f8, 0),
        (0x01, 0x00, 1, 0xaa, ones, 0x46aa_0100_1900_00f8, 0),
        (0x01, 0x40, 0, 0x00, ones, 0x0700_0140_1800_00f8, 0),
        (0x01, 0x40, 4, 0xf6, ones, 0x03f6_0140_1c00_00f8, 0),
        (0x01, 0x00, 16_777_191, 0xaa, ones, 0x62aa_0100_ffff_fff8, 0),
        (
            0x01,
            0x00,
            16_777_192,
            0xaa,
            ones,
            0x55aa_0101_0000_00f8,
            0x0800_0001_0000_0000,
        ),
        (
            0x01,
            0x00,
            268_435_424,
            0xaa,
            ones,
            0x4eaa_0101_0000_00f8,
            0x0000_0010_0000_0000,
        ),
        (
            0x01,
            0xfa,
            268_435_424,
            0x55,
            zeros,
            0x5455_01fb_0000_0007,
            0x0000_0010_0000_0000,
        ),
    ] {
        assert!(rt; file_head_is_written(row), "{row:?}");
    }
    for row in [
        (24, ones, 0x08aa_f000_1800_00f8),
        (24, zeros, 0x08aa_f000_1800_0007),
        (40, ones, 0xf8aa_f000_2800_00f8),
        (144, ones, 0x90aa_f000_9000_00f8),
        (16_777_215, ones, 0x23aa_f000_ffff_fff8),
    ] {
        assert!(rt; pad_head_is_written(row), "{row:?}");
    }
}
