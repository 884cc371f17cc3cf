//! Failed allocations: `tests/program/test_memory.py` makes each allocation of the test fail in
//! turn, and no wrong result may be returned.

use crate::row_bytes::{bytes_in_two_tries, number_of};
use fv_base::{ByteList, Fault, FaultKind, Port};
use fv_canon::{
    Layout, Side, VolumeCheck, VolumeOutcome, body_bytes, canonical, check_image, file_bytes,
    is_canonical, layout, normalise, normalise_image, run_compare, run_normalise, write_canonical,
};
use fv_tree::{FileView, Item, Lookup, VolumeView, read_volume, section_by_type};
use std::alloc::Global;

// Returns the fault that a call returns if memory ran out.
fn out_of_memory() -> Fault {
    Fault::outer(FaultKind::OutOfMemory, 0)
}

// Returns whether these bytes are made, or memory ran out.
fn is_made_or_memory_ran_out(made: Result<ByteList, Fault>, wanted: &[u8]) -> bool {
    match made {
        Ok(bytes) => bytes.as_slice() == wanted,
        Err(fault) => fault == out_of_memory(),
    }
}

// Returns whether the check that a volume is its own image has this result, or memory ran out.
fn is_judged_or_memory_ran_out(alloc: Global, volume: &[u8], wanted: bool) -> bool {
    let judged = is_canonical(alloc, volume);
    judged == Ok(wanted) || judged == Err(out_of_memory())
}

// Returns whether the check of an image with a single volume has this outcome, or memory ran out.
fn is_checked_or_memory_ran_out(alloc: Global, image: &[u8], outcome: VolumeOutcome) -> bool {
    let wanted = VolumeCheck {
        offset: 0,
        length: image.len() as u64,
        outcome,
    };
    match check_image(alloc, image) {
        Ok(checks) => checks.len() == 1 && checks[0] == wanted,
        Err(fault) => fault == out_of_memory(),
    }
}

// Returns whether the files are at exactly these offsets.
fn has_starts(places: &Layout, starts: &str) -> bool {
    let mut index = 0u32;
    for digits in starts.split_whitespace() {
        let start = number_of(digits);
        if start.is_none() || places.start(index) != start {
            return false;
        }
        index = index.saturating_add(1);
    }
    places.start(index).is_none()
}

// Returns whether the files are laid out at these offsets, or memory ran out. Once they are laid
// out, writing the image allocates nothing.
fn is_laid_out_or_memory_ran_out(
    alloc: Global,
    view: &VolumeView,
    image: &[u8],
    starts: &str,
) -> bool {
    let places = match layout(alloc, view) {
        Ok(places) => places,
        Err(fault) => return fault == out_of_memory(),
    };
    let mut taken = [0u8; 392];
    let room = image.len().min(392);
    let mut writer = Port::new(&mut taken[..room]);
    let is_done = write_canonical(view, &places, &mut writer) == Ok(());
    is_done && &taken[..room] == image && has_starts(&places, starts)
}

// Returns whether a run writes the image, or nothing if memory ran out.
fn run_writes_all_or_nothing(alloc: Global, volume: &[u8], image: &[u8]) -> bool {
    let mut taken = [0u8; 392];
    let room = image.len().min(392);
    let mut reader = Port::new(volume);
    let mut writer = Port::new(&mut taken[..room]);
    match run_normalise(alloc, &mut reader, &mut writer) {
        Ok(()) => &taken[..room] == image,
        Err(fault) => fault == out_of_memory() && taken == [0; 392],
    }
}

// Returns whether the image of a view is made, or memory ran out.
fn view_has_image_or_memory_ran_out(
    alloc: Global,
    volume: &[u8],
    image: &[u8],
    starts: &str,
) -> bool {
    match read_volume(alloc, volume) {
        Ok((view, _)) => {
            is_laid_out_or_memory_ran_out(alloc, &view, image, starts)
                && is_made_or_memory_ran_out(canonical(alloc, &view), image)
        }
        Err(fault) => fault == out_of_memory(),
    }
}

// Returns whether each call on a volume, its image and the starts of its files returns the right
// result, or memory ran out.
fn calls_are_right(alloc: Global, volume: &[u8], image: &[u8], starts: &str) -> bool {
    view_has_image_or_memory_ran_out(alloc, volume, image, starts)
        && is_made_or_memory_ran_out(normalise(alloc, volume), image)
        && is_made_or_memory_ran_out(normalise_image(alloc, volume), image)
        && is_judged_or_memory_ran_out(alloc, volume, false)
        && is_judged_or_memory_ran_out(alloc, image, true)
        && is_checked_or_memory_ran_out(alloc, volume, VolumeOutcome::NotCanonical)
        && is_checked_or_memory_ran_out(alloc, image, VolumeOutcome::Canonical)
        && run_writes_all_or_nothing(alloc, volume, image)
}

// Returns whether each call on the volume of a line, its image and the starts of its files returns
// the right result, or memory ran out.
fn calls_on_row_are_right(alloc: Global, line: &str) -> Option<bool> {
    let (name, rest) = line.split_once(": ")?;
    let (other, starts) = rest.split_once(" -> ")?;
    let volume = bytes_in_two_tries(alloc, name)?;
    let image = bytes_in_two_tries(alloc, other)?;
    Some(calls_are_right(alloc, &volume, &image, starts))
}

// Returns whether the data of a file and the volume in it are made, or memory ran out.
fn parts_of_file_are_right(alloc: Global, file: &FileView, image: &[u8]) -> bool {
    let Lookup::Found(Item::Section(section)) = section_by_type(file, 0x17, 1) else {
        return false;
    };
    image.len() >= 228
        && is_made_or_memory_ran_out(file_bytes(alloc, file), &image[96..228])
        && is_made_or_memory_ran_out(body_bytes(alloc, &section), &image[100..228])
}

// Returns whether the data of a view's first file and the volume in it are made, or memory ran out.
fn parts_of_view_are_right(alloc: Global, view: &VolumeView, image: &[u8]) -> bool {
    match view.file(0) {
        Some(file) => parts_of_file_are_right(alloc, file, image),
        None => false,
    }
}

// Returns whether the data of a volume's first file and the volume in it are made, or memory ran
// out.
fn parts_of_volume_are_right(alloc: Global, volume: &[u8], image: &[u8]) -> bool {
    match read_volume(alloc, volume) {
        Ok((view, _)) => parts_of_view_are_right(alloc, &view, image),
        Err(fault) => fault == out_of_memory(),
    }
}

// Returns whether two volumes are compared, or nothing is written because memory ran out.
fn comparison_writes_all_or_nothing(alloc: Global, first: &[u8], second: &[u8]) -> bool {
    let line = b"different at file 0 attributes\n";
    let mut taken = [0u8; 31];
    let mut writer = Port::new(taken.as_mut_slice());
    match run_compare(
        alloc,
        &mut Port::new(first),
        &mut Port::new(second),
        &mut writer,
    ) {
        Ok(is_same) => !is_same && taken == *line,
        Err((side, fault)) => side != Side::Output && fault == out_of_memory() && taken == [0; 31],
    }
}

// Returns whether the parts of a volume are made, or memory ran out.
fn parts_are_right(alloc: Global) -> Option<bool> {
    let volume = bytes_in_two_tries(alloc, "nested-with-deleted-file")?;
    let image = bytes_in_two_tries(alloc, "nested-image")?;
    Some(parts_of_volume_are_right(alloc, &volume, &image))
}

// Returns whether two volumes are compared, or memory ran out.
fn comparison_is_right(alloc: Global) -> Option<bool> {
    let first = bytes_in_two_tries(alloc, "file-sum-zero-data")?;
    let second = bytes_in_two_tries(alloc, "file-without-data")?;
    Some(comparison_writes_all_or_nothing(alloc, &first, &second))
}

/// Volumes with their images, and the offsets of the files in each image.
const LINES: [&str; 2] = [
    "three-aligned-392: three-aligned-392-image -> 72 136 360",
    "nested-with-deleted-file: nested-image -> 72",
];

#[test]
fn out_of_memory_is_reported(rt: HostRuntime) {
    for line in LINES {
        assert!(rt;
            calls_on_row_are_right(rt.alloc(), line) == Some(true),
            "{line}"
        );
    }
    let are_parts_right = parts_are_right(rt.alloc()) == Some(true);
    assert!(rt; are_parts_right && comparison_is_right(rt.alloc()) == Some(true));
}
