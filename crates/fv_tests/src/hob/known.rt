//! Lists, and the blocks in them.

use super::{A, B, DATA, END, HANDOFF, LIST, OTHER_BODY, Parts, REST, SHORTEST, TYPES};
use fv_base::Guid;
use fv_hob::{Handoff, Hob, HobKind, MemoryAllocation, Resource, Span};

/// The content of a block. There is only one allocation and one resource, both in the list of all
/// types.
pub(super) enum Said {
    Handoff(Handoff),
    Allocation,
    Resource,
    Extension([u8; 16], &'static [u8]),
    Volume(u64, u64),
    Cpu(u8, u8, [u8; 6]),
    Pool,
    Volume2(u64, u64, [u8; 16], [u8; 16]),
    Capsule(u64, u64),
    Unused(u16),
    End,
    Other(u16, &'static [u8]),
}

/// The reserved field, the type, the length and the content of a block.
pub(super) type Block = (u32, u16, u16, Said);

/// A list, and the values that it is read as.
pub(super) struct Known {
    /// The bytes of the list, in parts.
    pub parts: Parts,
    /// The length of the list.
    pub length: u64,
    /// The blocks of the list.
    pub blocks: &'static [Block],
}

/// The hand-off information table at the start of each list.
const TABLE: Said = Said::Handoff(Handoff {
    version: 9,
    boot_mode: 0,
    memory_top: 0x1000_0000,
    memory_bottom: 0x0800_0000,
    free_memory_top: 0x0f00_0000,
    free_memory_bottom: 0x0900_0000,
    end_of_list: 0x0800_0098,
});

/// The second hand-off information table in the list of all types.
const SECOND: Said = Said::Handoff(Handoff {
    version: 0xc3c2_c1c0,
    boot_mode: 0xc7c6_c5c4,
    memory_top: 0xcfce_cdcc_cbca_c9c8,
    memory_bottom: 0xd7d6_d5d4_d3d2_d1d0,
    free_memory_top: 0xdfde_dddc_dbda_d9d8,
    free_memory_bottom: 0xe7e6_e5e4_e3e2_e1e0,
    end_of_list: 0xefee_edec_ebea_e9e8,
});

/// The list of 160 bytes.
const KNOWN_LIST: Known = Known {
    parts: LIST,
    length: 160,
    blocks: &[
        (0, 0x0001, 56, TABLE),
        (
            0,
            0x0009,
            56,
            Said::Volume2(0x00ff_0000, 128, [0x0e; 16], [0x0a; 16]),
        ),
        (0, 0xfffe, 8, Said::Unused(0)),
        (
            0,
            0x0004,
            32,
            Said::Extension([0x0c; 16], &[1, 2, 3, 4, 5, 6, 7, 8]),
        ),
        (0, 0xffff, 8, Said::End),
    ],
};

/// The list of all types.
const KNOWN_TYPES: Known = Known {
    parts: TYPES,
    length: 448,
    blocks: &[
        (0, 0x0001, 56, TABLE),
        (0x0102_0304, 0x0002, 56, Said::Allocation),
        (0, 0x0003, 48, Said::Resource),
        (
            0,
            0x0005,
            24,
            Said::Volume(0x6f6e_6d6c_6b6a_6968, 0x7776_7574_7372_7170),
        ),
        (
            0x0000_00ff,
            0x0006,
            16,
            Said::Cpu(48, 16, [0x7a, 0x7b, 0x7c, 0x7d, 0x7e, 0x7f]),
        ),
        (0xaa00_0000, 0x0007, 8, Said::Pool),
        (
            0,
            0x000b,
            24,
            Said::Capsule(0x8786_8584_8382_8180, 0x8f8e_8d8c_8b8a_8988),
        ),
        (0, 0x000c, 24, Said::Other(0x000c, OTHER_BODY)),
        (0x1234_5678, 0x0001, 56, SECOND),
        (0xdead_beef, 0xfffe, 24, Said::Unused(16)),
        (
            0,
            0x0009,
            56,
            Said::Volume2(0xf7f6_f5f4_f3f2_f1f0, 0xfffe_fdfc_fbfa_f9f8, A, B),
        ),
        (0, 0x0004, 48, Said::Extension(B, DATA)),
        (1, 0xffff, 8, Said::End),
    ],
};

/// The shortest list.
const KNOWN_SHORTEST: Known = Known {
    parts: SHORTEST,
    length: 64,
    blocks: &[(0, 0x0001, 56, TABLE), (0, 0xffff, 8, Said::End)],
};

/// A list with a volume of 16 bytes, whose address is 8 less than 2 ^ 64.
const KNOWN_WRAPS: Known = Known {
    parts: &[
        &HANDOFF,
        &[0x05, 0x00, 0x18, 0x00, 0x00, 0x00, 0x00, 0x00],
        &[0xf8, 0xff, 0xff, 0xff, 0xff, 0xff, 0xff, 0xff],
        &[0x10, 0x00, 0x00, 0x00, 0x00, 0x00, 0x00, 0x00],
        &END,
    ],
    length: 88,
    blocks: &[
        (0, 0x0001, 56, TABLE),
        (0, 0x0005, 24, Said::Volume(0xffff_ffff_ffff_fff8, 16)),
        (0, 0xffff, 8, Said::End),
    ],
};

/// All known lists.
const LISTS: &[Known] = &[KNOWN_LIST, KNOWN_TYPES, KNOWN_SHORTEST, KNOWN_WRAPS];

// Returns the lists. No other function names `LISTS`, because the proof of each function that names
// a large constant contains the whole constant.
pub(super) fn lists() -> &'static [Known] {
    LISTS
}

// Returns whether an allocation is the one in the list of all types.
fn is_allocation(found: &MemoryAllocation) -> bool {
    found.name == Guid::from_bytes(A)
        && found.base == 0x2726_2524_2322_2120
        && found.length == 0x2f2e_2d2c_2b2a_2928
        && found.memory_type == 0x3332_3130
        && found.reserved == [0x34, 0x35, 0x36, 0x37]
        && found.rest.as_slice() == REST
}

// Returns whether a resource is the one in the list of all types.
fn is_resource(found: &Resource) -> bool {
    *found
        == Resource {
            owner: Guid::from_bytes(B),
            resource_type: 0x5352_5150,
            attribute: 0x5756_5554,
            start: 0x5f5e_5d5c_5b5a_5958,
            length: 0x6766_6564_6362_6160,
        }
}

// Returns whether a block of this kind has this content.
fn has_content(kind: &HobKind, said: &Said) -> bool {
    match (kind, said) {
        (HobKind::Handoff(found), Said::Handoff(fields)) => *found == *fields,
        (HobKind::MemoryAllocation(found), Said::Allocation) => is_allocation(found),
        (HobKind::Resource(found), Said::Resource) => is_resource(found),
        (HobKind::GuidExtension { name, payload }, Said::Extension(guid, data)) => {
            *name == Guid::from_bytes(*guid) && payload.as_slice() == *data
        }
        (HobKind::FirmwareVolume { base, length }, Said::Volume(at, size))
        | (HobKind::Capsule { base, length }, Said::Capsule(at, size)) => {
            *base == *at && *length == *size
        }
        (
            HobKind::Cpu {
                memory_bits,
                io_bits,
                reserved,
            },
            Said::Cpu(memory, io, bytes),
        ) => { *memory_bits == *memory && *io_bits == *io && *reserved == *bytes }
        (
            HobKind::FirmwareVolume2 {
                base,
                length,
                volume_name,
                file_name,
            },
            Said::Volume2(at, size, volume, file),
        ) => {
            *base == *at
                && *length == *size
                && *volume_name == Guid::from_bytes(*volume)
                && *file_name == Guid::from_bytes(*file)
        }
        (HobKind::Unused { body_len }, Said::Unused(length)) => *body_len == *length,
        (HobKind::Other { code, payload }, Said::Other(its, body)) => {
            *code == *its && payload.as_slice() == *body
        }
        (HobKind::MemoryPool, Said::Pool) | (HobKind::End, Said::End) => true,
        _ => false,
    }
}

// Returns the place of the volume that a block describes, if it describes one.
fn span_of(said: &Said) -> Option<Span> {
    match said {
        Said::Volume(base, length) | Said::Volume2(base, length, _, _) => Some(Span {
            base: *base,
            length: *length,
        }),
        _ => None,
    }
}

// Returns whether a block is the expected one.
fn is_block(hob: &Hob, block: &Block) -> bool {
    let (reserved, code, length, said) = block;
    hob.reserved() == *reserved
        && hob.code() == *code
        && hob.length() == *length
        && hob.span() == span_of(said)
        && has_content(hob.kind(), said)
}

// Returns how many of these blocks are found, in this order.
fn found(hobs: &[Hob], blocks: &[Block]) -> usize {
    let mut at = 0;
    for hob in hobs {
        if at < blocks.len() && is_block(hob, &blocks[at]) {
            at += 1;
        }
    }
    at
}

// Returns whether the blocks and the length that were read are the blocks and the length of a known
// list.
pub(super) fn is_found(hobs: &[Hob], length: u64, known: &Known) -> bool {
    length == known.length
        && hobs.len() == known.blocks.len()
        && found(hobs, known.blocks) == hobs.len()
}

// Returns whether the volumes are those that the blocks describe, in the same order.
pub(super) fn are_described(volumes: &[Span], blocks: &[Block]) -> bool {
    let mut at = 0;
    for (_, _, _, said) in blocks {
        if let Some(span) = span_of(said) {
            if at >= volumes.len() || volumes[at] != span {
                return false;
            }
            at += 1;
        }
    }
    at == volumes.len()
}
