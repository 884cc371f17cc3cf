//! Look-ups of files by their order and type, and the offsets of frames.

use super::view_of;
use crate::spelling::spelled_bytes;
use fv_tree::{FileView, Item, Lookup, VolumeView, file_by_type, next_file, section_by_type};
use std::alloc::Global;

// Returns the number of the next file and the first byte of its name, or None if there is no next
// file. The next file is the one after the file with this number, or the first file if `number` is
// None.
fn file_after(view: &VolumeView, number: Option<u32>) -> Option<(u32, u8)> {
    let (number, file) = next_file(view, number)?;
    Some((number, file.name().to_bytes()[0]))
}

// Returns the first byte of the name of the file with this instance among the files of type 0x01.
// Instances are counted from 1.
fn of_type(view: &VolumeView, instance: u32) -> Option<u8> {
    let file = file_by_type(view, 0x01, instance)?;
    Some(file.name().to_bytes()[0])
}

// Returns whether a volume has exactly two files, B and then A, and the look-ups by number and by
// instance find them.
fn has_files(view: &VolumeView) -> bool {
    let next = [
        file_after(view, None),
        file_after(view, Some(0)),
        file_after(view, Some(1)),
        file_after(view, Some(u32::MAX)),
    ];
    let found = [
        of_type(view, 0),
        of_type(view, 1),
        of_type(view, 2),
        of_type(view, 3),
    ];
    let wanted = [Some((0, 0x0b)), Some((1, 0x0a)), None, None];
    let is_last = view.file(2).is_none() && view.file(u32::MAX).is_none();
    next == wanted && found == [None, Some(0x0b), Some(0x0a), None] && is_last
}

/// A deleted file with the name C, a file with the name A that is marked for update, a file with
/// the name B, and a file with the name A that supersedes the marked file.
const STATES: &str =
    "00*16 78e58c8c3d8a1c4f9935896185c32dd3 0001 00*6 5f465648 fffe0400 4800cef4 00000002 01000000 00010000 00*8 \
     0c*16 1faa0100200000e8 00*8 0a*16 3faa0100200000f0 01*8 0b*16 37aa0100180000f8 0a*16 3faa0100200000f8 02*8 ff*64";

// Returns whether the look-ups find the files of a volume with these bytes.
fn files_are_found(alloc: Global, bytes: &[u8]) -> bool {
    match view_of(alloc, bytes) {
        Ok(view) => has_files(&view),
        Err(_) => false,
    }
}

/// A security core whose data are two frames: one without a body, and one whose body is a byte.
const FRAMES: &str =
    "00*16 78e58c8c3d8a1c4f9935896185c32dd3 8000 00*6 5f465648 fffe0400 4800cef5 00000002 01000000 80000000 00*8 \
     0a*16 3caa0300210000f8 040000190500001958 ff*23";

// Returns whether the frame with this instance among the frames of type 0x19 is at this offset of
// the data, and has this body.
fn has_frame(file: &FileView, instance: u32, offset: u64, body: &[u8]) -> bool {
    match section_by_type(file, 0x19, instance) {
        Lookup::Found(Item::Frame(frame)) => frame.offset == offset && frame.body == body,
        _ => false,
    }
}

// Returns whether both frames are found in the only file of a volume with these bytes.
fn frames_are_found(alloc: Global, bytes: &[u8]) -> bool {
    match view_of(alloc, bytes) {
        Ok(view) => view.file(0).is_some_and(|file| has_frame(file, 1, 0, &[])
            && has_frame(file, 2, 4, &[0x58])),
        Err(_) => false,
    }
}

#[test]
fn files_and_frames_are_looked_up(rt: HostRuntime) {
    let bytes = spelled_bytes(rt.alloc(), STATES);
    assert!(rt; bytes.is_some_and(|bytes| files_are_found(rt.alloc(), &bytes)));
    let bytes = spelled_bytes(rt.alloc(), FRAMES);
    assert!(rt; bytes.is_some_and(|bytes| frames_are_found(rt.alloc(), &bytes)));
}
