//! Tests of `first_difference`: small images, whose parts were worked out by hand.

use crate::{Difference, PartPlace, first_difference, outside_difference};
use fv_budget::Budget;
use fv_levels::open_all;
use std::alloc::Global;

// A volume with one file, which has a compression section of CompressionType 0 (at 96, 121 bytes). Its
// contents are a volume with one file, which has a compression section of CompressionType 0 (at 96 of
// that volume, 13 bytes), whose contents are four bytes. The survey of the first volume finds the
// second one in the body of the section, because it is not compressed.
static NESTED: [u8; 224] = [
    0x00, 0x00, 0x00, 0x00, 0x00, 0x00, 0x00, 0x00, 0x00, 0x00, 0x00, 0x00, 0x00, 0x00, 0x00, 0x00,
    0x78, 0xe5, 0x8c, 0x8c, 0x3d, 0x8a, 0x1c, 0x4f, 0x99, 0x35, 0x89, 0x61, 0x85, 0xc3, 0x2d, 0xd3,
    0xe0, 0x00, 0x00, 0x00, 0x00, 0x00, 0x00, 0x00, 0x5f, 0x46, 0x56, 0x48, 0xff, 0xfe, 0x00, 0x00,
    0x48, 0x00, 0x12, 0xf5, 0x00, 0x00, 0x00, 0x02, 0x01, 0x00, 0x00, 0x00, 0xe0, 0x00, 0x00, 0x00,
    0x00, 0x00, 0x00, 0x00, 0x00, 0x00, 0x00, 0x00, 0x02, 0x02, 0x02, 0x02, 0x02, 0x02, 0x02, 0x02,
    0x02, 0x02, 0x02, 0x02, 0x02, 0x02, 0x02, 0x02, 0x4d, 0xaa, 0x02, 0x00, 0x91, 0x00, 0x00, 0xf8,
    0x79, 0x00, 0x00, 0x01, 0x70, 0x00, 0x00, 0x00, 0x00, 0x00, 0x00, 0x00, 0x00, 0x00, 0x00, 0x00,
    0x00, 0x00, 0x00, 0x00, 0x00, 0x00, 0x00, 0x00, 0x00, 0x78, 0xe5, 0x8c, 0x8c, 0x3d, 0x8a, 0x1c,
    0x4f, 0x99, 0x35, 0x89, 0x61, 0x85, 0xc3, 0x2d, 0xd3, 0x70, 0x00, 0x00, 0x00, 0x00, 0x00, 0x00,
    0x00, 0x5f, 0x46, 0x56, 0x48, 0xff, 0xfe, 0x00, 0x00, 0x48, 0x00, 0xf2, 0xf5, 0x00, 0x00, 0x00,
    0x02, 0x01, 0x00, 0x00, 0x00, 0x70, 0x00, 0x00, 0x00, 0x00, 0x00, 0x00, 0x00, 0x00, 0x00, 0x00,
    0x00, 0x02, 0x02, 0x02, 0x02, 0x02, 0x02, 0x02, 0x02, 0x02, 0x02, 0x02, 0x02, 0x02, 0x02, 0x02,
    0x02, 0xb9, 0xaa, 0x02, 0x00, 0x25, 0x00, 0x00, 0xf8, 0x0d, 0x00, 0x00, 0x01, 0x04, 0x00, 0x00,
    0x00, 0x00, 0x61, 0x62, 0x63, 0x64, 0xff, 0xff, 0xff, 0xff, 0xff, 0xff, 0xff, 0xff, 0xff, 0xff,
];

// Returns where NESTED differs from NESTED with another byte at an offset.
fn difference_at(alloc: Global, offset: usize) -> Option<Option<Difference>> {
    let mut changed = NESTED;
    *changed.get_mut(offset)? ^= 0x10;
    let first = open_all(alloc, &NESTED, Budget::full()).ok()?;
    let second = open_all(alloc, &changed, Budget::full()).ok()?;
    first_difference(alloc, &first, &second).ok()
}

// Returns a difference between two rows at the same place.
fn at(source: usize, offset: u64, length: u64) -> Option<Option<Difference>> {
    let place = PartPlace {
        source,
        offset,
        length,
    };
    Some(Some(Difference {
        first: Some(place),
        second: Some(place),
    }))
}

#[test]
fn an_image_is_the_same_as_itself(rt: HostRuntime) {
    let Ok(levels) = open_all(rt.alloc(), &NESTED, Budget::full()) else {
        panic!(rt; "out of memory");
    };
    assert!(rt; first_difference(rt.alloc(), &levels, &levels) == Ok(None));
}

#[test]
fn checksums_and_fillers_do_not_count(rt: HostRuntime) {
    // The checksum of the volume header, the checksums of the file and the last filler.
    for offset in [50, 88, 89, 223] {
        assert!(rt; difference_at(rt.alloc(), offset) == Some(None));
    }
}

#[test]
fn contents_count(rt: HostRuntime) {
    // The last byte of the innermost contents, and the name of the file in the contents.
    assert!(rt; difference_at(rt.alloc(), 213) == at(2, 0, 4));
    assert!(rt; difference_at(rt.alloc(), 177) == at(1, 72, 24));
}

#[test]
fn headers_count(rt: HostRuntime) {
    // ZeroVector of the volume, and the name of the file.
    assert!(rt; difference_at(rt.alloc(), 0) == at(0, 0, 72));
    assert!(rt; difference_at(rt.alloc(), 72) == at(0, 72, 24));
}

// Returns in how many bytes outside of the meaning NESTED differs from NESTED with another byte at an
// offset.
fn outside_at(alloc: Global, offset: usize) -> Option<u64> {
    let mut changed = NESTED;
    *changed.get_mut(offset)? ^= 0x10;
    let first = open_all(alloc, &NESTED, Budget::full()).ok()?;
    let second = open_all(alloc, &changed, Budget::full()).ok()?;
    outside_difference(alloc, &first, &second).ok()
}

#[test]
fn bytes_outside_are_counted(rt: HostRuntime) {
    // The checksum of the volume header does not count. The last filler has 7 bytes, which are not all
    // erased in one image.
    assert!(rt; outside_at(rt.alloc(), 50) == Some(0));
    assert!(rt; outside_at(rt.alloc(), 223) == Some(7));
}
