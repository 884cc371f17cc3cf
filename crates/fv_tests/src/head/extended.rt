//! Volumes with an extended header: the bare volume, and changed copies of it.

use crate::checks::assert_rows;
use crate::parts::overwrite;
use fv_base::{Fault, FaultKind, FileSystem, Polarity, Port};
use fv_head::{
    Extent, VolumeHead, first_edge, len_of_ext, read_head, verify_fv, write_ext, write_head,
};
use std::alloc::Global;

/// The name in the extended header of each of the volumes.
const NAME: [u8; 16] = [0x0e; 16];

/// The bare volume: its extended header directly follows the volume header, so it is not in a pad
/// file. The extended header contains a used size of 0.
pub(super) const BARE: [u8; 192] = [
    0x00, 0x00, 0x00, 0x00, 0x00, 0x00, 0x00, 0x00, 0x00, 0x00, 0x00, 0x00, 0x00, 0x00, 0x00, 0x00,
    0x78, 0xe5, 0x8c, 0x8c, 0x3d, 0x8a, 0x1c, 0x4f, 0x99, 0x35, 0x89, 0x61, 0x85, 0xc3, 0x2d, 0xd3,
    0xc0, 0x00, 0x00, 0x00, 0x00, 0x00, 0x00, 0x00, 0x5f, 0x46, 0x56, 0x48, 0xff, 0xfe, 0x04, 0x00,
    0x48, 0x00, 0x06, 0xf5, 0x48, 0x00, 0x00, 0x02, 0x01, 0x00, 0x00, 0x00, 0xc0, 0x00, 0x00, 0x00,
    0x00, 0x00, 0x00, 0x00, 0x00, 0x00, 0x00, 0x00, 0x0e, 0x0e, 0x0e, 0x0e, 0x0e, 0x0e, 0x0e, 0x0e,
    0x0e, 0x0e, 0x0e, 0x0e, 0x0e, 0x0e, 0x0e, 0x0e, 0x1c, 0x00, 0x00, 0x00, 0x08, 0x00, 0x03, 0x00,
    0x00, 0x00, 0x00, 0x00, 0xff, 0xff, 0xff, 0xff, 0x0a, 0x0a, 0x0a, 0x0a, 0x0a, 0x0a, 0x0a, 0x0a,
    0x0a, 0x0a, 0x0a, 0x0a, 0x0a, 0x0a, 0x0a, 0x0a, 0x47, 0xaa, 0x01, 0x00, 0x18, 0x00, 0x00, 0xf8,
    0xff, 0xff, 0xff, 0xff, 0xff, 0xff, 0xff, 0xff, 0xff, 0xff, 0xff, 0xff, 0xff, 0xff, 0xff, 0xff,
    0xff, 0xff, 0xff, 0xff, 0xff, 0xff, 0xff, 0xff, 0xff, 0xff, 0xff, 0xff, 0xff, 0xff, 0xff, 0xff,
    0xff, 0xff, 0xff, 0xff, 0xff, 0xff, 0xff, 0xff, 0xff, 0xff, 0xff, 0xff, 0xff, 0xff, 0xff, 0xff,
    0xff, 0xff, 0xff, 0xff, 0xff, 0xff, 0xff, 0xff, 0xff, 0xff, 0xff, 0xff, 0xff, 0xff, 0xff, 0xff,
];

/// The bytes after the first 48 in the canonical image of this volume. The extended header is in a
/// pad file, and the used size is 152.
const MOVED: [u8; 144] = [
    0x48, 0x00, 0xee, 0xf4, 0x60, 0x00, 0x00, 0x02, 0x01, 0x00, 0x00, 0x00, 0xc0, 0x00, 0x00, 0x00,
    0x00, 0x00, 0x00, 0x00, 0x00, 0x00, 0x00, 0x00, 0xff, 0xff, 0xff, 0xff, 0xff, 0xff, 0xff, 0xff,
    0xff, 0xff, 0xff, 0xff, 0xff, 0xff, 0xff, 0xff, 0xec, 0xaa, 0xf0, 0x00, 0x34, 0x00, 0x00, 0xf8,
    0x0e, 0x0e, 0x0e, 0x0e, 0x0e, 0x0e, 0x0e, 0x0e, 0x0e, 0x0e, 0x0e, 0x0e, 0x0e, 0x0e, 0x0e, 0x0e,
    0x1c, 0x00, 0x00, 0x00, 0x08, 0x00, 0x03, 0x00, 0x98, 0x00, 0x00, 0x00, 0xff, 0xff, 0xff, 0xff,
    0x0a, 0x0a, 0x0a, 0x0a, 0x0a, 0x0a, 0x0a, 0x0a, 0x0a, 0x0a, 0x0a, 0x0a, 0x0a, 0x0a, 0x0a, 0x0a,
    0x47, 0xaa, 0x01, 0x00, 0x18, 0x00, 0x00, 0xf8, 0xff, 0xff, 0xff, 0xff, 0xff, 0xff, 0xff, 0xff,
    0xff, 0xff, 0xff, 0xff, 0xff, 0xff, 0xff, 0xff, 0xff, 0xff, 0xff, 0xff, 0xff, 0xff, 0xff, 0xff,
    0xff, 0xff, 0xff, 0xff, 0xff, 0xff, 0xff, 0xff, 0xff, 0xff, 0xff, 0xff, 0xff, 0xff, 0xff, 0xff,
];

/// The changes that turn the bare volume into its canonical image.
const AS_IMAGE: &[(usize, &[u8])] = &[(48, &MOVED)];

/// The same changes with a used size of 0, and with zeros up to the first file.
const IN_PAD: &[(usize, &[u8])] = &[(48, &MOVED), (120, &[0x00; 8])];

/// The changes that leave the bare volume without an entry, but with a tail of 5 bytes.
const TAIL_ONLY: &[(usize, &[u8])] = &[
    (88, &[0x19, 0x00, 0x00, 0x00, 0x03, 0x00, 0x01, 0x00, 0xaa]),
    (97, &[0xff; 39]),
];

/// The tail of 5 bytes.
const TAIL: [u8; 5] = [0x03, 0x00, 0x01, 0x00, 0xaa];

/// The changes that make a volume of 104 bytes, whose extended header has neither entries nor a
/// tail.
const WITHOUT_ROOM: &[(usize, &[u8])] = &[
    (32, &[0x68]),
    (50, &[0xb6, 0xf5]),
    (60, &[0x68]),
    (88, &[0x14]),
    (92, &[0xff; 12]),
];

/// The changes that move an extended header without entries to offset 77, after other bytes.
const AT_77: &[(usize, &[u8])] = &[
    (50, &[0x01, 0xf5, 0x4d]),
    (72, &[0x01, 0x02, 0x03, 0x04, 0x05]),
    (77, &[0x0e; 16]),
    (93, &[0x14, 0x00, 0x00, 0x00]),
];

/// The bytes that are changed in a volume.
type Changes = &'static [(usize, &'static [u8])];

/// The type and the payload of each entry.
type Entries = &'static [(u16, &'static [u8])];

/// The changes to the bare volume; then the offset at which its first file may begin, and the
/// entries and the tail of its extended header; and then the length of the extended header.
type ReadRow = (Changes, u64, Entries, &'static [u8], u32);

/// The rows of extended headers that are read.
const READ: &[ReadRow] = &[
    (&[], 104, &[(3, &[0; 4])], &[], 28),
    (IN_PAD, 128, &[(3, &[0; 4])], &[], 28),
    (AS_IMAGE, 128, &[(3, &[0; 4])], &[], 28),
    (TAIL_ONLY, 104, &[], &TAIL, 25),
    // There is no room for the pad file of a canonical image, but the header is accepted.
    (WITHOUT_ROOM, 96, &[], &[], 20),
    // The bytes between the volume header and a misaligned extended header are not read.
    (AT_77, 104, &[], &[], 20),
    // In the first row there is no room for an entry. In the second row there is only room for the
    // header of an entry, whose size is too large.
    (&[(88, &[0x14])], 96, &[], &[], 20),
    (&[(88, &[0x18])], 96, &[], &[8, 0, 3, 0], 24),
    // An entry with a size of 3 bytes, and an entry that ends one byte after the extended header.
    (&[(92, &[0x03])], 104, &[], &[3, 0, 3, 0, 0, 0, 0, 0], 28),
    (&[(92, &[0x09])], 104, &[], &[9, 0, 3, 0, 0, 0, 0, 0], 28),
    // An entry without a payload, and then a tail of 4 bytes.
    (&[(92, &[0x04])], 104, &[(3, &[])], &[0, 0, 0, 0], 28),
    // An entry of type 3 with a payload of 5 bytes, an entry of type 3 with 4 bytes, and an entry
    // of type 2 with 4 bytes.
    (
        &[(88, &[0x1d]), (92, &[0x09]), (96, &[1, 2, 3, 4, 5])],
        104,
        &[(3, &[1, 2, 3, 4, 5])],
        &[],
        29,
    ),
    (&[(96, &[1, 2, 3, 4])], 104, &[(3, &[0, 0, 0, 0])], &[], 28),
    (
        &[(88, &[0x1f]), (94, &[0x02]), (96, &[1, 2, 3, 4, 5, 6, 7])],
        104,
        &[(2, &[1, 2, 3, 4])],
        &[5, 6, 7],
        31,
    ),
];

// Returns the volume header of the canonical image.
pub(super) fn image_head() -> [u8; 72] {
    let mut bytes = [0; 72];
    bytes[..48].copy_from_slice(&BARE[..48]);
    bytes[48..].copy_from_slice(&MOVED[..24]);
    bytes
}

// Returns the extended header of the canonical image, which is at 96.
pub(super) fn image_ext() -> &'static [u8] {
    &MOVED[48..76]
}

// Writes each part over the bytes at its offset.
fn overwrite_each(bytes: &mut [u8], changes: &[(usize, &[u8])]) {
    for (at, part) in changes {
        overwrite(bytes, *at, part);
    }
}

// Returns whether a header has an extended header with the name NAME, these entries and this tail.
pub(super) fn has_ext(head: &VolumeHead, entries: &[(u16, &[u8])], tail: &[u8]) -> bool {
    let Some(ext) = head.ext() else {
        return false;
    };
    let found = ext.entries();
    let mut is_same = found.len() == entries.len();
    for i in 0..found.len().min(entries.len()) {
        let (kind, payload) = entries[i];
        is_same = is_same && found[i].kind() == kind && found[i].payload() == payload;
    }
    ext.tail() == tail && is_same && ext.name().to_bytes() == NAME
}

// Returns whether a header has an extended header of this length, and whether `first_edge` is the
// sum of 72, 24 and this length, rounded up to a multiple of 8.
fn has_length(head: &VolumeHead, length: u32) -> bool {
    let edge = (72 + 24 + u64::from(length) + 7) / 8 * 8;
    match head.ext() {
        Some(ext) => len_of_ext(ext) == length && first_edge(head) == edge,
        None => false,
    }
}

// Returns whether a header and its extent have the values of a row, in a volume of this length.
fn is_head_of(head: &VolumeHead, found: Extent, volume_len: u64, row: &ReadRow) -> bool {
    let (_, first, entries, tail, length) = *row;
    let extent = Extent {
        length: volume_len,
        header_len: 72,
        first,
        file_system: FileSystem::Ffs2,
        polarity: Polarity::Ones,
    };
    found == extent && has_ext(head, entries, tail) && has_length(head, length)
}

// Returns whether the bytes are read as a row states.
fn is_read_as(alloc: Global, bytes: &[u8], row: &ReadRow) -> bool {
    match read_head(alloc, bytes) {
        Ok((head, found)) => {
            verify_fv(bytes) == Ok(found) && is_head_of(&head, found, bytes.len() as u64, row)
        }
        Err(_) => false,
    }
}

// Returns whether the bare volume, changed as a row states, is read as the row states. The byte at
// 32 is the length of each changed volume.
fn is_row_read(alloc: Global, row: &ReadRow) -> bool {
    let mut bytes = BARE;
    overwrite_each(&mut bytes, row.0);
    let end = usize::from(bytes[32]).min(192);
    is_read_as(alloc, &bytes[..end], row)
}

// Returns the rows. No other function names `READ`, because the proof of each function that names a
// large constant contains the whole constant.
fn read_rows() -> &'static [ReadRow] {
    READ
}

#[test]
fn extended_headers_are_read(rt: HostRuntime) {
    assert_rows!(rt; read_rows(), |row| is_row_read(rt.alloc(), row));
}

// Writes the volume header or, if `is_ext` is set, the extended header with a used size of 152, into
// `full`. If there is too little room, the write fails.
fn write_to(head: &VolumeHead, is_ext: bool, full: &mut [u8]) -> Result<(), Fault> {
    let mut port = Port::new(full);
    match head.ext() {
        Some(ext) if is_ext => write_ext(ext, 152, &mut port),
        _ => write_head(head, &mut port),
    }
}

// Returns whether as many of these bytes are written as there is room for, and whether the result is
// right: Ok if all bytes fit, and otherwise WriteFault at the offset `room`.
pub(super) fn is_written_until(head: &VolumeHead, is_ext: bool, whole: &[u8], room: usize) -> bool {
    let mut taken = [0u8; 72];
    let outcome = write_to(head, is_ext, &mut taken[..room.min(72)]);
    let expected = if room < whole.len() {
        Err(Fault::outer(FaultKind::WriteFault, room as u64))
    } else {
        Ok(())
    };
    outcome == expected && taken.get(..room) == whole.get(..room)
}

// Returns whether the header of the bare volume or, with `is_ext`, its extended header is written
// until the room ends, with the bytes of `whole`, for each room up to the length of `whole`.
fn stops_where_room_ends(alloc: Global, is_ext: bool, whole: &[u8]) -> bool {
    match read_head(alloc, &BARE) {
        Ok((head, _)) => {
            let mut is_right = true;
            for room in 0..=whole.len() {
                is_right = is_right && is_written_until(&head, is_ext, whole, room);
            }
            is_right
        }
        Err(_) => false,
    }
}

#[test]
fn heads_are_written_until_a_write_fails(rt: HostRuntime) {
    assert!(rt; stops_where_room_ends(rt.alloc(), false, &image_head()));
    assert!(rt; stops_where_room_ends(rt.alloc(), true, image_ext()));
}
