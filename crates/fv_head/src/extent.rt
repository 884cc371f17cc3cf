//! The extent of a volume.

use fv_base::{FileSystem, Polarity};

/// The extent of a volume, and the properties of its body that its header gives: where the body
/// begins, its file system and its erase polarity. (PI specification, volume 3, section 3.2.1.1.)
#[derive(Clone, Copy, Debug, PartialEq, Eq)]
pub struct Extent {
    /// The length of the volume in bytes, `FvLength`.
    pub length: u64,
    /// The length of its header in bytes, `HeaderLength`.
    pub header_len: u64,
    /// The offset at which its first file may begin, in bytes from the volume's start.
    pub first: u64,
    /// Its file system.
    pub file_system: FileSystem,
    /// Its erase polarity, by `EFI_FVB2_ERASE_POLARITY`.
    pub polarity: Polarity,
}
