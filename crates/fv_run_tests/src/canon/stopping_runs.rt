//! Runs that normalise, over readers and writers that stop early.

use crate::fakes::{FakeReader, FakeWriter};
use crate::row_bytes::bytes_of;
use fv_base::{Fault, FaultKind, Port};
use fv_canon::run_normalise;
use std::alloc::Global;

/// The names of images with an extended header, a pad before an aligned file, and a volume inside.
const IMAGES: [&str; 3] = ["ext-header-image", "misaligned-file-image", "nested-image"];

// Returns whether a run returns this result, and writes these bytes and nothing after them.
fn run_ends_as(
    alloc: Global,
    reader: FakeReader<'_>,
    writer: FakeWriter,
    outcome: Result<(), Fault>,
    wanted: &[u8],
) -> bool {
    let mut reader = Port::new(reader);
    let mut writer = Port::new(writer);
    let returned = run_normalise(alloc, &mut reader, &mut writer);
    returned == outcome && writer.into_inner().took_only(wanted)
}

// Returns whether nothing is written if the reader fails after `count` bytes.
fn writes_nothing_if_reading_fails(alloc: Global, image: &[u8], step: usize, count: usize) -> bool {
    let reader = FakeReader::failing(image, step, count);
    let writer = FakeWriter::new(alloc, step, usize::MAX, true);
    let fault = Fault::outer(FaultKind::ReadFault, count as u64);
    run_ends_as(alloc, reader, writer, Err(fault), b"")
}

// Returns whether as many bytes are written as the writer has room for. When the writer is full, it
// fails or takes no byte.
fn writes_as_far_as_there_is_room(alloc: Global, image: &[u8], step: usize, room: usize) -> bool {
    let fault = Fault::outer(FaultKind::WriteFault, room as u64);
    let wanted = &image[..room.min(image.len())];
    for is_broken in [false, true] {
        let reader = FakeReader::new(image, step, false);
        let writer = FakeWriter::new(alloc, step, room, is_broken);
        if !run_ends_as(alloc, reader, writer, Err(fault), wanted) {
            return false;
        }
    }
    true
}

// Returns whether the image is written, also if every second call of the reader is interrupted.
fn is_written(alloc: Global, image: &[u8], step: usize) -> bool {
    for is_interrupted in [false, true] {
        let reader = FakeReader::new(image, step, is_interrupted);
        let writer = FakeWriter::new(alloc, step, usize::MAX, true);
        if !run_ends_as(alloc, reader, writer, Ok(()), image) {
            return false;
        }
    }
    true
}

// Returns whether nothing is written if the reader stops, and only the first bytes of the image are
// written if the writer stops.
fn stops_at_each_byte(alloc: Global, image: &[u8], step: usize) -> bool {
    for count in 0..image.len() {
        if !writes_nothing_if_reading_fails(alloc, image, step, count)
            || !writes_as_far_as_there_is_room(alloc, image, step, count)
        {
            return false;
        }
    }
    writes_nothing_if_reading_fails(alloc, image, step, image.len())
}

// Returns whether an image is written, nothing if the reader stops, and only the first bytes of the
// image if the writer stops.
fn run_stops_at_each_byte(alloc: Global, name: &str, step: usize) -> bool {
    match bytes_of(alloc, name) {
        Some(image) => {
            is_written(alloc, &image, step) && stops_at_each_byte(alloc, &image, step)
        }
        None => false,
    }
}

#[test]
fn a_run_stops_with_its_reader_or_writer(rt: HostRuntime) {
    for name in IMAGES {
        for step in [1, 50, 4096] {
            assert!(rt;
                run_stops_at_each_byte(rt.alloc(), name, step),
                "{name} {step}"
            );
        }
    }
}
