//! Small images and their rows, which were worked out by hand.

use crate::spelling::spelled_bytes;
use fv_survey::{Row, survey};
use std::alloc::Global;

// Images with their rows. A line is a name, a colon, the words of the image, an arrow, and the rows
// with commas between them: what the row is about, its depth, its offset, its length and, if there
// are findings, their number. `spelled_bytes` gives the words of the image their meaning.
fn images() -> &'static str {
    "\
    no bytes: -> \n\
    bytes outside of volumes: 010203 -> Gap 0 0 3\n\
    a volume at an odd offset: ff*5 \
        00*16 78e58c8c3d8a1c4f9935896185c32dd3 50000000000000005f465648fffe0000480032f600000002 \
        01000000500000000000000000000000 ff*8 00 \
        -> Gap 0 0 5, Volume 0 5 80, VolumeHeader 1 5 72, Free 1 77 8, Gap 0 85 1\n\
    a wrong checksum: \
        00*16 78e58c8c3d8a1c4f9935896185c32dd3 50000000000000005f465648fffe0000480032f700000002 \
        01000000500000000000000000000000 ff*8 \
        -> Volume 0 0 80 64, VolumeHeader 1 0 72, Free 1 72 8\n\
    two files of one name and a wrong checksum: \
        00*16 78e58c8c3d8a1c4f9935896185c32dd3 78000000000000005f465648fffe00004800e3f500000002 \
        01000000780000000000000000000000 01*16 d7aa0100180000f8 01*16 d7aa0100180000f8 \
        -> Volume 0 0 120 131136, VolumeHeader 1 0 72, File 1 72 24, FileHeader 2 72 24, \
        File 1 96 24, FileHeader 2 96 24\n\
    an unknown file system and a wrong checksum: \
        00*16 79e58c8c3d8a1c4f9935896185c32dd3 50000000000000005f465648fffe0000480032f600000002 \
        01000000500000000000000000000000 ff*8 \
        -> Gap 0 0 80\n\
    a volume that is cut off: \
        00*16 78e58c8c3d8a1c4f9935896185c32dd3 00100000000000005f465648fffe00004800d2d600000002 \
        01000000001000000000000000000000 ff*8 \
        -> Volume 0 0 80 2, VolumeHeader 1 0 72, Free 1 72 8\n\
    a file of type 1: \
        00*16 78e58c8c3d8a1c4f9935896185c32dd3 68000000000000005f465648fffe0000480002f600000002 \
        01000000680000000000000000000000 01*16 cfaa0100200000f8 11*8 \
        -> Volume 0 0 104, VolumeHeader 1 0 72, File 1 72 32, FileHeader 2 72 24, Data 2 96 8\n\
    a wrong file checksum: \
        00*16 78e58c8c3d8a1c4f9935896185c32dd3 68000000000000005f465648fffe0000480002f600000002 \
        01000000680000000000000000000000 01*16 cfab0100200000f8 11*8 \
        -> Volume 0 0 104, VolumeHeader 1 0 72, File 1 72 32 16384, FileHeader 2 72 24, \
        Data 2 96 8\n\
    a file of type 2 with a section: \
        00*16 78e58c8c3d8a1c4f9935896185c32dd3 68000000000000005f465648fffe0000480002f600000002 \
        01000000680000000000000000000000 02*16 beaa0200200000f8 0800001961626364 \
        -> Volume 0 0 104, VolumeHeader 1 0 72, File 1 72 32, FileHeader 2 72 24, \
        Section 2 96 8, SectionHeader 3 96 4, Body 3 100 4\n\
    a volume in the data of a file: \
        00*16 78e58c8c3d8a1c4f9935896185c32dd3 b0000000000000005f465648fffe0000480072f500000002 \
        01000000b00000000000000000000000 03*16 67aa0100680000f8 \
        00*16 78e58c8c3d8a1c4f9935896185c32dd3 50000000000000005f465648fffe0000480032f600000002 \
        01000000500000000000000000000000 ff*8 \
        -> Volume 0 0 176, VolumeHeader 1 0 72, File 1 72 104, FileHeader 2 72 24, \
        Volume 2 96 80, VolumeHeader 3 96 72, Free 3 168 8\n\
    a byte in the free space: \
        00*16 78e58c8c3d8a1c4f9935896185c32dd3 58000000000000005f465648fffe0000480022f600000002 \
        01000000580000000000000000000000 ff*15 00 \
        -> Volume 0 0 88, VolumeHeader 1 0 72, Free 1 72 8 65536, Lost 1 80 8 65536, \
        Unread 2 80 8\n"
}

// Appends the text of a row.
fn push_row(alloc: Global, text: &mut String, row: &Row) -> Option<()> {
    let kind = row.kind;
    let Row {
        depth,
        offset,
        length,
        ..
    } = *row;
    let place = format!(in alloc; "{kind:?} {depth} {offset} {length}").ok()?;
    text.push_str(place.as_str()).ok()?;
    let findings = row.findings.bits();
    if findings != 0 {
        let number = format!(in alloc; " {findings}").ok()?;
        text.push_str(number.as_str()).ok()?;
    }
    Some(())
}

// Returns the text of the rows of an image.
fn rows_text(alloc: Global, image: &[u8]) -> Option<String> {
    let rows = survey(alloc, image).ok()?;
    let mut text = String::new(alloc);
    for row in rows.as_slice() {
        if !text.is_empty() {
            text.push_str(", ").ok()?;
        }
        push_row(alloc, &mut text, row)?;
    }
    Some(text)
}

// Returns whether the image of a line has the rows of the line.
fn has_rows(alloc: Global, line: &str) -> Option<bool> {
    let (_, rest) = line.split_once(": ")?;
    let (words, rows) = rest.split_once("-> ")?;
    let image = spelled_bytes(alloc, words)?;
    let text = rows_text(alloc, &image)?;
    Some(text.as_str() == rows)
}

#[test]
fn images_have_their_rows(rt: HostRuntime) {
    for line in images().lines() {
        assert!(rt; has_rows(rt.alloc(), line) == Some(true), "{line}");
    }
}
