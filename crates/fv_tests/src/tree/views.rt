//! The slices that a view lends.

use super::view_of;
use crate::spelling::spelled_bytes;
use fv_tree::{Content, VolumeView};
use std::alloc::Global;

/// A file whose data are the byte 0x5a.
const BYTE: &str =
    "00*16 78e58c8c3d8a1c4f9935896185c32dd3 8000 00*6 5f465648 fffe0400 4800cef5 00000002 01000000 80000000 00*8 \
     0a*16 46aa0100190000f8 5a ff*31";

/// A file with one section, whose body is the byte 0x5a.
const SECTION: &str =
    "00*16 78e58c8c3d8a1c4f9935896185c32dd3 6800 00*6 5f465648 fffe0400 4800fef5 00000002 01000000 68000000 00*8 \
     0a*16 41aa02001d0000f8 050000195affffff";

// Returns the data of the first file of a volume, or the body of the first section in it.
fn part_of<'a>(view: &VolumeView<'a>) -> Option<&'a [u8]> {
    let file = view.file(0)?;
    match file.content() {
        Content::Plain(_) => file.plain(),
        Content::Stream(mut sections) => sections.next_section()?.leaf(),
    }
}

// Returns a part of the first file of a volume. The view is dropped before the part is used.
fn first_part(alloc: Global, volume: &[u8]) -> Option<&[u8]> {
    let view = view_of(alloc, volume).ok()?;
    let part = part_of(&view);
    drop(view);
    part
}

// Returns whether the part is this one byte of the input. The input is dropped only afterwards.
fn part_is(alloc: Global, text: &str, byte: u8) -> Option<bool> {
    let input = spelled_bytes(alloc, text)?;
    let part = first_part(alloc, &input)?;
    let is_same = part == [byte].as_slice();
    drop(input);
    Some(is_same)
}

#[test]
fn slices_outlive_the_view(rt: HostRuntime) {
    assert!(rt; part_is(rt.alloc(), BYTE, 0x5a) == Some(true));
    assert!(rt; part_is(rt.alloc(), SECTION, 0x5a) == Some(true));
}
