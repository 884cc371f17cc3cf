//! The limits on volumes, on their headers, on nesting, on hexadecimal text and on one read, and the
//! least memory that is taken for an input. The code defines each of these numbers only here. Each
//! of them also has a definition with a number of its own: in `specs/Limits.antt` for volumes, their
//! headers and the nesting depth, in `specs/Input.antt` for one read and for the least memory of an
//! input, and in `specs/HexIn.antt` of `fv_text` for hexadecimal text. Contracts tie the two
//! together, so a number must be changed in both places, or the proof fails.

/// The maximum length in bytes of a volume, of each binary input of a run, and of a flash image
/// that is checked or laid out.
pub const VOLUME_LIMIT: u64 = 268_435_456;

/// The maximum length of a volume header in bytes: 56, and 8 for each of 256 block map entries and
/// for the pair of zeros after them.
pub const HEADER_LIMIT: usize = 2112;

/// The maximum length of an extended header in bytes.
pub const EXT_LIMIT: u32 = 65_535;

/// The maximum depth to which groups and opened volumes nest in a volume.
pub const DEPTH_LIMIT: u8 = 8;

/// The maximum length of the hexadecimal text that a run reads, in bytes: two digits, and as much
/// white space, for each byte of a volume.
pub const TEXT_LIMIT: u64 = 4 * VOLUME_LIMIT;

/// The maximum number of bytes that a single read asks for.
pub const READ_LIMIT: usize = 65_536;

/// The least number of bytes for which memory is taken before an input is read: a volume header
/// without its block map.
pub const LEAST_ROOM: usize = 56;
