//! Tests of fv_marks: volumes and streams of sections that lose the marks of fixed files at every
//! depth. The images are made by `tests/making.py`, and `tests/second_reader.py`, which is another
//! reader of the format, found the marks: it reads an image, the mark that its fault Fixed names is
//! taken away, and so on until it accepts the image or reports another fault.

use crate::faults::is_named;
use crate::spelling::push_words;
use fv_base::Fault;
use fv_marks::{sections_without_marks, without_marks};
use fv_tree::{read_volume, whole_stream};
use std::alloc::Global;

/// The words that INNER means: a volume of 168 bytes without the 5 erased bytes at its end. Its first
/// and its last file are fixed.
const INNER: &str =
    "00*16 78e58c8c3d8a1c4f9935896185c32dd3a8000000000000005f4656480008000048000ded000000021500000008 00*11 \
     010000007777774787777777777777776aaa01041c0000f864617461ffffffff0200000077777747877777777777777770aa0100190000f8\
     78ffffffffffffff0300000077777747877777777777777729ab01441b0000f873756d";

// Returns volumes and streams of sections. A line is one of these two words, a comma, a name, a colon,
// the words of the bytes, an arrow, the offsets of the headers whose marks are taken away, a bar, and
// the number, the offset and the depth of the first fault that is left, if there is one.
fn images() -> &'static str {
    "\
    volume, no mark: 00*16 78e58c8c3d8a1c4f9935896185c32dd388000000000000005f46564800080000480031ed00000002110000000\
        8 00*11 010000007777774787777777777777776eaa01001c0000f864617461ffffffff0200000077777747877777777777777730880\
        140190000f878ffffffffffffff -> |\n\
    volume, own files: INNER ffffffffff -> 72 136 |\n\
    volume, own files on zeros: 00*16 78e58c8c3d8a1c4f9935896185c32dd3e8000000000000005f465648000000004800c5f40000000\
        21d00000008 00*11 010000007777774787777777777777776aaa01041c0000076461746100000000020000007777774787777777777\
        7777770aa01001900000778000000000000000300000077777747877777777777777729ab01441b00000773756d 00*69 -> 72 136 \
        |\n\
    volume, pads, deleted and updated files: 00*16 78e58c8c3d8a1c4f9935896185c32dd3a8000000000000005f4656480008000048\
        000ded000000021500000008 00*11 0900000077777747877777777777777774aaf0041b0000f8706164ffffffffff04000000777777\
        47877777777777777767aa01041c0000e8676f6e65ffffffff0500000077777747877777777777777767aa01041b0000f06f6c64fffff\
        fffff -> 136 |\n\
    volume, a volume in a fixed file with a sum: 00*16 78e58c8c3d8a1c4f9935896185c32dd330010000000000005f465648000800\
        00480074ec000000022600000008 00*11 0600000077777747877777777777777773040b44c40000f8ac000017 INNER ff*9 \
        0700000077777747877777777777777764aa01041c0000f864617461ffffffff -> 72 272 172 236 |\n\
    volume, a volume in a file that is not fixed: 00*16 78e58c8c3d8a1c4f9935896185c32dd318010000000000005f46564800080\
        00048008fec000000022300000008 00*11 06000000777777478777777777777777afaa0b00cc0000f80800001561000000ac000017 \
        INNER ff*9 -> 180 244 |\n\
    volume, groups around a volume: 00*16 78e58c8c3d8a1c4f9935896185c32dd3c8010000000000005f465648000800004800c9eb000\
        000023900000008 00*11 06000000777777478777777777777777faaa0704800100f8bc000003b0000003ac000017 \
        INNER ffffffffff0800001562000000ac000017 INNER ffffffffff -> 72 180 244 360 424 |\n\
    volume, three volumes, each with fixed files: 00*16 78e58c8c3d8a1c4f9935896185c32dd378010000000000005f46564800080\
        000480023ec000000022f00000008 00*11 0800000077777747877777777777777711e502442c0100f814010017 00*16 \
        78e58c8c3d8a1c4f9935896185c32dd310010000000000005f46564800080000480098ec000000022200000008 00*11 \
        0600000077777747877777777777777773040b44c40000f8ac000017 INNER ff*13 -> 72 172 272 336 |\n\
    volume, large files in FFS3: 00*16 7ac07354cb3dca4dbd6f1e9689e7349a40010000000000005f465648000800004800793d000000\
        022800000008 00*11 0100000077777747877777777777777760aa0105000000f825000000000000006c61726765ffffff0600000077\
        77774787777777777777776a040b45000000f8cc00000000000000ac000017 INNER ff*9 -> 72 112 220 284 |\n\
    volume, a security core and a raw file are plain: 00*16 78e58c8c3d8a1c4f9935896185c32dd3d8010000000000005f4656480\
        00800004800b7eb000000023b00000008 00*11 0a000000777777478777777777777777b7aa0304c40000f8ac000017 INNER ff*9 \
        0b000000777777478777777777777777bcaa0100c40000f8ac000017 INNER ff*9 -> 72 |\n\
    volume, data of a superseded file: 00*16 78e58c8c3d8a1c4f9935896185c32dd330010000000000005f46564800080000480074ec\
        000000022600000008 00*11 06000000777777478777777777777777b3aa0b04c40000f0ac000017 INNER ff*9 \
        060000007777774787777777777777775baa0b00200000f8080000156e000000 -> 72 |\n\
    volume, an extended header, and bytes after the volume: 00*16 78e58c8c3d8a1c4f9935896185c32dd300040000000000005f4\
        65648000800004800eae8600000028000000008 00*11 ff*16 f4aaf0002c0000f82800000077777747877777777777777714000000f\
        fffffff0600000077777747877777777777777773040b44c40000f8ac000017 INNER ff*713 7461696c -> 120 220 284 |\n\
    volume, seven groups around a volume: 00*16 78e58c8c3d8a1c4f9935896185c32dd328010000000000005f4656480008000048007\
        dec000000022500000008 00*11 060000007777774787777777777777779baa0b00e00000f8c8000003c4000003c0000003bc000003b\
        8000003b4000003b0000003ac000017 INNER ffffffffff -> 200 264 |\n\
    volume, eight groups around a volume: 00*16 78e58c8c3d8a1c4f9935896185c32dd330010000000000005f4656480008000048007\
        4ec000000022600000008 00*11 0600000077777747877777777777777797aa0b00e40000f8cc000003c8000003c4000003c0000003b\
        c000003b8000003b4000003b0000003ac000017 INNER ff*9 -> | 21 128 8\n\
    volume, a fault after a mark: 00*16 78e58c8c3d8a1c4f9935896185c32dd3a8000000000000005f4656480008000048000ded00000\
        0021500000008 00*11 010000007777774787777777777777776aaa01041c0000f864617461ffffffff0200000077777747877777777\
        777777768aa01041c0000f864617461ffffffff0300000077777747877777777777777768aa01041c0000f864617461ffffffff -> \
        72 | 11 104 0\n\
    volume, a fixed file with a wrong sum: 00*16 78e58c8c3d8a1c4f9935896185c32dd3a8000000000000005f465648000800004800\
        0ded000000021500000008 00*11 010000007777774787777777777777776aaa01041c0000f864617461ffffffff0200000077777747\
        87777777777777772aab01441b0000f872756dffffffffff0300000077777747877777777777777768aa01041c0000f864617461fffff\
        fff -> 72 104 | 14 121 0\n\
    volume, a fault in an inner volume: 00*16 78e58c8c3d8a1c4f9935896185c32dd330010000000000005f46564800080000480074e\
        c000000022600000008 00*11 06000000777777478777777777777777b7aa0b00c40000f8ac000017 00*16 \
        78e58c8c3d8a1c4f9935896185c32dd3a8000000000000005f4656480008000048000ded000000021500000008 00*11 \
        010000007777774787777777777777776aaa01041c0000f864617461ffffffff0200000077777747877777777777777768aa01041c000\
        0f864617461ffffffff0300000077777747877777777777777768aa01041c0000f864617461 ff*8 \
        0700000077777747877777777777777764aa01041c0000f864617461ffffffff -> 272 172 | 11 204 1\n\
    volume, two files of one name: 00*16 78e58c8c3d8a1c4f9935896185c32dd330010000000000005f46564800080000480074ec0000\
        00022600000008 00*11 06000000777777478777777777777777b3aa0b04c40000f8ac000017 INNER ff*9 \
        0600000077777747877777777777777765aa01041c0000f864617461ffffffff -> 72 272 | 17 272 0\n\
    volume, a section of a wrong size: 00*16 78e58c8c3d8a1c4f9935896185c32dd310010000000000005f46564800080000480098ec\
        000000022200000008 00*11 06000000777777478777777777777777afaa0b04c80000f8ac000017 INNER ffffffffff63000019 -> \
        72 | 19 268 0\n\
    volume, no volume: 6e6f74206120766f6c756d65 -> | 1 12 0\n\
    volume, a packed section: 00*16 78e58c8c3d8a1c4f9935896185c32dd3f0000000000000005f465648000800004800bcec000000021\
        e00000008 00*11 06000000777777478777777777777777d3aa0b04a40000f88c00000298584eee143959429d6edc7bd79403cf18000\
        1005d00008000 ff*8 0056002c2e00d3ca24385b6d8f514a3a1570ffb15874c9fd0d50322400b90732ffe1972c260e37b1668118998e\
        83212458d52b82e87236d3af3f1fa7bad76c5658bc95f1bb15f1cac9f2e580077058605de7590529ce50f8c1f182ed09392c48efbfff9\
        f970000ffffffff -> 72 |\n\
    stream, no sections:  -> |\n\
    stream, volumes and a group: 0800001561000000ac000017 INNER ffffffffffb0000003ac000017 \
        INNER ffffffffff07000019726177 -> 84 148 260 324 |\n\
    stream, eight groups around a section: cc000003c8000003c4000003c0000003bc000003b8000003b4000003b0000003ac000017 \
        INNER ffffffffff -> | 21 32 8\n\
    stream, a tail: ac000017 INNER ffffffffff6162 -> | 20 172 0\n\
    "
}

// Returns the bytes that words spell. The word INNER means the inner volume.
fn image_of(alloc: Global, text: &str) -> Option<Vec<u8>> {
    let mut bytes = Vec::new(alloc);
    for word in text.split_whitespace() {
        push_words(
            alloc,
            &mut bytes,
            if word == "INNER" { INNER } else { word },
        )?;
    }
    Some(bytes)
}

// Adds a number to the byte at an offset, if there is such a byte.
fn add_to(bytes: &mut [u8], at: usize, number: u8) {
    if at < bytes.len() {
        bytes[at] = bytes[at].wrapping_add(number);
    }
}

// Returns the offset that decimal digits spell. Other texts mean an offset at which there is no byte.
fn offset_of(digits: &str) -> usize {
    digits.parse().unwrap_or(usize::MAX)
}

// Takes the marks away from the headers at these offsets: adds 4 to the header checksum, and
// subtracts 4 from the attributes.
fn unmark(bytes: &mut [u8], places: &str) {
    for place in places.split_whitespace() {
        add_to(bytes, offset_of(place).saturating_add(16), 4);
        add_to(bytes, offset_of(place).saturating_add(19), 252);
    }
}

// Returns a copy of a volume or, if `is_stream` is set, of a stream of sections, without the marks.
fn copy_of(alloc: Global, is_stream: bool, bytes: &[u8]) -> Result<Vec<u8>, Fault> {
    if is_stream {
        sections_without_marks(alloc, bytes)
    } else {
        without_marks(alloc, bytes)
    }
}

// Returns the first fault of a volume or, if `is_stream` is set, of a stream of sections.
fn fault_of(alloc: Global, is_stream: bool, bytes: &[u8]) -> Option<Fault> {
    if is_stream {
        whole_stream(alloc, bytes).err()
    } else {
        read_volume(alloc, bytes).err()
    }
}

// Returns whether a copy without marks is the same as the bytes without the marks at these places, or
// has this fault. If there is a fault, the copy may also have lost marks after it.
fn has_lost(alloc: Global, is_stream: bool, copy: &[u8], bytes: &[u8], fault: &str) -> bool {
    let is_same = !fault.is_empty() || copy == bytes;
    is_same && is_named(alloc, fault_of(alloc, is_stream, copy), fault)
}

// Returns whether a copy of the bytes loses the marks at these places, and what is left has this fault.
fn loses(alloc: Global, is_stream: bool, bytes: &mut [u8], places: &str, fault: &str) -> bool {
    match copy_of(alloc, is_stream, bytes) {
        Ok(copy) => {
            unmark(bytes, places);
            has_lost(alloc, is_stream, &copy, bytes, fault)
        }
        Err(_) => false,
    }
}

// Returns whether the image of a line loses the marks that the line names.
fn loses_marks(alloc: Global, line: &str) -> Option<bool> {
    let (name, rest) = line.split_once(": ")?;
    let (words, rest) = rest.split_once(" ->")?;
    let (places, fault) = rest.split_once('|')?;
    let mut bytes = image_of(alloc, words)?;
    Some(loses(
        alloc,
        name.starts_with("stream"),
        &mut bytes,
        places,
        fault.trim(),
    ))
}

#[test]
fn images_lose_marks(rt: HostRuntime) {
    for line in images().lines() {
        assert!(rt; loses_marks(rt.alloc(), line) == Some(true), "{line}");
    }
}
