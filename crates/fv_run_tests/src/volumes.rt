//! Volumes and a hand-off list as text, in tables. A line is a name, a colon and words. A word is
//! digits, which a star and a number repeat, or the name of a line. The expected result follows an
//! arrow. `rows/volumes.rows` contains each of these lines, and more.
//!
//! Each table is a single text that only one function names: a function that names many texts is
//! far slower to prove.

// Returns the words of a text, which end at an arrow if it has one.
fn words_of(text: &str) -> &str {
    match text.split_once(" -> ") {
        Some((words, _)) => words,
        None => text,
    }
}

/// Returns the words of the line with this name.
pub(crate) fn text_named<'a>(table: &'a str, wanted: &str) -> Option<&'a str> {
    for line in table.lines() {
        let (name, text) = line.split_once(": ")?;
        if name == wanted {
            return Some(words_of(text));
        }
    }
    None
}

/// Returns volume headers, named by the length of their volume, with one block and no extended
/// header; and the first block of a hand-off list.
pub(crate) fn parts() -> &'static str {
    "\
    H72: 00*16 78e58c8c3d8a1c4f9935896185c32dd34800 00*6 5f465648fffe040048003ef600000002010000004800 00*10\n\
    H128: 00*16 78e58c8c3d8a1c4f9935896185c32dd38000 00*6 5f465648fffe04004800cef500000002010000008000 00*10\n\
    H136: 00*16 78e58c8c3d8a1c4f9935896185c32dd38800 00*6 5f465648fffe04004800bef500000002010000008800 00*10\n\
    H160: 00*16 78e58c8c3d8a1c4f9935896185c32dd3a000 00*6 5f465648fffe040048008ef50000000201000000a000 00*10\n\
    H200: 00*16 78e58c8c3d8a1c4f9935896185c32dd3c800 00*6 5f465648fffe040048003ef50000000201000000c800 00*10\n\
    H256: 00*16 78e58c8c3d8a1c4f9935896185c32dd30001 00*6 5f465648fffe04004800cef400000002010000000001 00*10\n\
    H392: 00*16 78e58c8c3d8a1c4f9935896185c32dd38801 00*6 5f465648fffe04004800bef300000002010000008801 00*10\n\
    PHIT: 010038000000000009 00*10 10 00*7 08 00*7 0f 00*7 09000000009800000800000000\n\
    "
}

/// Returns volumes, two of which are rejected, and a hand-off list. After an arrow come the words
/// of the volume's image, if it differs from the volume, or the line of the fault.
pub(crate) fn volumes() -> &'static str {
    "\
    empty: H128 ff*56\n\
    ext-header-image: 00*16 78e58c8c3d8a1c4f9935896185c32dd3c0 00*7 5f465648fffe04004800eef46000000201000000c0 \
        00*11 ff*16 ecaaf000340000f8 0e*16 1c0000000800030098000000ffffffff 0a*16 47aa0100180000f8 ff*40\n\
    file-state-bit: H128 0a*16 47aa0100180000b8 ff*32 -> fault 10 at 95\n\
    file-sum-zero-data: H128 0a*16 07000140180000f8 ff*32\n\
    file-without-data: H128 0a*16 47aa0100180000f8 ff*32\n\
    filler-zero: H128 0a*16 46aa0100190000f85a 00*7 ff*24 -> filler-erased\n\
    misaligned-file-image: H160 0a*16 47aa0100180000f8 ff*16 08aaf000180000f8 0b*16 \
        27aa0108200000f80102030405060708 ff*8\n\
    nested-image: H256 0a*16 b9aa0b009c0000f884000017 H128 ff*84\n\
    nested-with-deleted-file: H256 0a*16 b9aa0b009c0000f884000017 H128 0b*16 37aa0100180000e8 ff*60 -> nested-image\n\
    security-core-frames: H128 0a*16 3caa0300210000f8040000190500001958 ff*23\n\
    states: H256 0c*16 1faa0100200000e8 00*8 0a*16 3faa0100200000f0 01*8 0b*16 37aa0100180000f8 0a*16 \
        3faa0100200000f8 02*8 ff*64 -> states-image\n\
    three-aligned-392: H392 0a*16 37aa0100280000f8 00*16 ff*16 f8aaf000280000f8 ff*16 0b*16 f7aa0108500000f8 00*56 \
        0c*16 0faa0110200000f8 00*8 ff*128 -> three-aligned-392-image\n\
    three-aligned-392-image: H392 0a*16 37aa0100280000f8 00*16 ff*16 08aaf000180000f8 0b*16 f7aa0108500000f8 00*56 \
        ff*16 90aaf000900000f8 ff*120 0c*16 0faa0110200000f8 00*8\n\
    two-sections: H128 0a*16 f89c0240260000f8050000195aeeeeee060000190102 ff*18 -> two-sections-image\n\
    two-sections-image: H128 0a*16 f8660240260000f8050000195a000000060000190102 ff*18\n\
    deleted-file: H128 0c*16 1faa0100200000e8 00*8 ff*24 -> empty\n\
    head-sum-off-by-one: 00*16 78e58c8c3d8a1c4f9935896185c32dd380 00*7 5f465648fffe04004800cff5000000020100000080 \
        00*11 ff*56 -> fault 6 at 0\n\
    hand-off-list: PHIT 090038 00*7 ff000000000080 00*7 0e*16 0a*16 feff0800000000000400200000000000 0c*16 \
        0102030405060708ffff080000000000aabbcc\n\
    "
}
