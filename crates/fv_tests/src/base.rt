//! Tests of fv_base, with results that were worked out by hand: the values that the specifications
//! fix, the printed texts, and readers and writers that fail in mid-stream.

mod inputs;
mod ports;
mod sinks;

use crate::checks::is_printed_as;
use fv_base::{Align, Fault, FaultKind, Guid, Place, guid_at, sum8, sum16};

/// The GUIDs of the two file systems and of the volume top file: the bytes and the text of each.
const NAMES: [([u8; 16], &str); 3] = [
    (
        [
            0x78, 0xe5, 0x8c, 0x8c, 0x3d, 0x8a, 0x1c, 0x4f, 0x99, 0x35, 0x89, 0x61, 0x85, 0xc3,
            0x2d, 0xd3,
        ],
        "8c8ce578-8a3d-4f1c-9935-896185c32dd3",
    ),
    (
        [
            0x7a, 0xc0, 0x73, 0x54, 0xcb, 0x3d, 0xca, 0x4d, 0xbd, 0x6f, 0x1e, 0x96, 0x89, 0xe7,
            0x34, 0x9a,
        ],
        "5473c07a-3dcb-4dca-bd6f-1e9689e7349a",
    ),
    (
        [
            0x2e, 0x06, 0xa0, 0x1b, 0x79, 0xc7, 0x82, 0x45, 0x85, 0x66, 0x33, 0x6a, 0xe8, 0xf7,
            0x8f, 0x09,
        ],
        "1ba0062e-c779-4582-8566-336ae8f78f09",
    ),
];

// Returns whether the GUID with these bytes has this text.
fn has_text(bytes: [u8; 16], text: &str) -> bool {
    let guid = Guid::from_bytes(bytes);
    guid.to_bytes() == bytes
        && guid.text().as_slice() == text.as_bytes()
        && Guid::parse(text) == Some(guid)
}

#[test]
fn guids_have_their_texts(rt: HostRuntime) {
    for (bytes, text) in NAMES {
        assert!(rt; has_text(bytes, text), "{text}");
    }
}

/// Each line contains the textual forms of one GUID. The form with hyphens is the first.
const FORMS: &str = "\
    8c8ce578-8a3d-4f1c-9935-896185c32dd3 8c8ce5788a3d4f1c9935896185c32dd3 \
    {8c8ce578-8a3d-4f1c-9935-896185c32dd3} urn:uuid:8c8ce578-8a3d-4f1c-9935-896185c32dd3 \
    8C8CE578-8A3D-4F1C-9935-896185C32DD3 8C8CE5788A3D4F1C9935896185C32DD3 \
    {8C8CE578-8A3D-4F1C-9935-896185C32DD3}
    5473c07a-3dcb-4dca-bd6f-1e9689e7349a 5473c07a3dcb4dcabd6f1e9689e7349a \
    {5473c07a-3dcb-4dca-bd6f-1e9689e7349a} urn:uuid:5473c07a-3dcb-4dca-bd6f-1e9689e7349a \
    5473C07A-3DCB-4DCA-BD6F-1E9689E7349A 5473C07A3DCB4DCABD6F1E9689E7349A \
    {5473C07A-3DCB-4DCA-BD6F-1E9689E7349A}
    1ba0062e-c779-4582-8566-336ae8f78f09 1ba0062ec77945828566336ae8f78f09 \
    {1ba0062e-c779-4582-8566-336ae8f78f09} urn:uuid:1ba0062e-c779-4582-8566-336ae8f78f09 \
    1BA0062E-C779-4582-8566-336AE8F78F09 1BA0062EC77945828566336AE8F78F09 \
    {1BA0062E-C779-4582-8566-336AE8F78F09}";

// All forms in a line are read as the same GUID.
#[test]
fn guids_are_parsed_from_each_form(rt: HostRuntime) {
    for line in FORMS.lines() {
        let guid = Guid::parse(line.split_whitespace().next().unwrap_or(""));
        for form in line.split_whitespace() {
            assert!(rt; guid.is_some() && Guid::parse(form) == guid, "{form}");
        }
    }
}

#[test]
fn guids_are_parsed_from_no_other_text(rt: HostRuntime) {
    for text in [
        "",
        "8c8ce578-8a3d-4f1c-9935-896185c32dd",
        "8c8ce5788a3d4f1c9935896185c32dd",
        "8c8ce578-8a3d-4f1c-9935-896185c32ddg",
        "8c8ce578-8a3d-4f1c-9935896185c32dd3",
    ] {
        assert!(rt; Guid::parse(text).is_none(), "{text}");
    }
}

#[test]
fn a_guid_is_read_at_its_offset(rt: HostRuntime) {
    let bytes: [u8; 21] = [
        0xe0, 0xe1, 0xe2, 0x10, 0x21, 0x32, 0x43, 0x54, 0x65, 0x76, 0x87, 0x98, 0xa9, 0xba, 0xcb,
        0xdc, 0xed, 0xfe, 0x0f, 0xe3, 0xe4,
    ];
    let want: [u8; 16] = [
        0x10, 0x21, 0x32, 0x43, 0x54, 0x65, 0x76, 0x87, 0x98, 0xa9, 0xba, 0xcb, 0xdc, 0xed, 0xfe,
        0x0f,
    ];
    assert!(rt; guid_at(&bytes, 3).to_bytes() == want);
}

// Returns whether the number of bytes is even, and the bytes have these sums.
fn has_sums(bytes: &[u8], plain: u8, words: u16) -> bool {
    bytes.len() % 2 == 0 && sum8(bytes) == plain && sum16(bytes) == words
}

#[test]
fn sums_are_those_worked_out_by_hand(rt: HostRuntime) {
    let cases: [(&[u8], u8, u16); 4] = [
        (&[], 0, 0),
        (&[1, 2], 3, 513),
        (&[255, 255, 1, 0], 255, 0),
        (&[0, 128, 0, 128, 2, 1], 3, 258),
    ];
    for (bytes, plain, words) in cases {
        let length = bytes.len();
        assert!(rt; has_sums(bytes, plain, words), "{length}");
    }
}

/// The bits of each alignment code, and its alignment in bytes without and with bit 0x02.
const ALIGNMENTS: [(u8, u64, u64); 8] = [
    (0, 1, 131_072),
    (8, 16, 262_144),
    (16, 128, 524_288),
    (24, 512, 1_048_576),
    (32, 1024, 2_097_152),
    (40, 4096, 4_194_304),
    (48, 32_768, 8_388_608),
    (56, 65_536, 16_777_216),
];

// Returns whether attributes with these bits have this alignment, both if all other bits are clear
// and if all other bits are set.
fn has_alignment(bits: u8, want: u64) -> bool {
    Align::from_attributes(bits).bytes() == want
        && Align::from_attributes(bits | 0xc5).bytes() == want
}

#[test]
fn each_alignment_has_its_bits(rt: HostRuntime) {
    for (bits, first, second) in ALIGNMENTS {
        let has_both = has_alignment(bits, first) && has_alignment(bits | 2, second);
        assert!(rt; has_both, "{bits}");
    }
}

#[test]
fn each_fault_has_its_number(rt: HostRuntime) {
    let kinds: [FaultKind; 26] = [
        FaultKind::Truncated,
        FaultKind::Signature,
        FaultKind::FileSystem,
        FaultKind::Revision,
        FaultKind::HeaderLength,
        FaultKind::HeaderSum,
        FaultKind::BlockMap,
        FaultKind::Length,
        FaultKind::ExtHeader,
        FaultKind::FileState,
        FaultKind::FileHeaderSum,
        FaultKind::FileSize,
        FaultKind::LargeFile,
        FaultKind::FileSum,
        FaultKind::Fixed,
        FaultKind::FreeSpace,
        FaultKind::DuplicateName,
        FaultKind::TopFile,
        FaultKind::SectionSize,
        FaultKind::SectionTail,
        FaultKind::Depth,
        FaultKind::NoRoom,
        FaultKind::TopAlignment,
        FaultKind::OutOfMemory,
        FaultKind::ReadFault,
        FaultKind::WriteFault,
    ];
    let mut number = 0u8;
    for kind in kinds {
        number = number.wrapping_add(1);
        assert!(rt; kind.number() == number, "{number}");
    }
}

#[test]
fn faults_have_their_texts(rt: HostRuntime) {
    let inner = Fault {
        kind: FaultKind::FreeSpace,
        place: Place {
            offset: 4096,
            depth: 2,
        },
    };
    let outer = Fault::outer(FaultKind::Signature, 40);
    let free = "the free space of a volume is not erased (fault 16) at offset 4096, depth 2";
    let sign = "no volume begins here: its signature is missing (fault 2) at offset 40, depth 0";
    assert!(rt; is_printed_as(rt.alloc(), &inner, free));
    assert!(rt; is_printed_as(rt.alloc(), &outer, sign));
}
