//! The offsets of the fields of a file's header, in bytes from the header's first byte, the lengths
//! of its two forms, and the greatest size of a file with the short form. (PI specification, volume
//! 3, section 3.2.3.1, `EFI_FFS_FILE_HEADER` and `EFI_FFS_FILE_HEADER2`.)

/// `Name`, 16 bytes.
pub(crate) const NAME_OFFSET: usize = 0;

/// `IntegrityCheck.Checksum.Header`, 1 byte.
pub(crate) const HEADER_SUM_OFFSET: usize = 16;

/// `IntegrityCheck.Checksum.File`, 1 byte.
pub(crate) const FILE_SUM_OFFSET: usize = 17;

/// `Type`, 1 byte.
pub(crate) const TYPE_OFFSET: usize = 18;

/// `Attributes`, 1 byte.
pub(crate) const ATTRIBUTES_OFFSET: usize = 19;

/// `Size`, 3 bytes: the size of the file, including its header, or zero in a large header.
pub(crate) const SIZE_OFFSET: usize = 20;

/// `State`, 1 byte.
pub const STATE_OFFSET: usize = 23;

/// `ExtendedSize`, 8 bytes, only in a large header: the size of the file, including its header.
pub(crate) const EXTENDED_SIZE_OFFSET: usize = 24;

/// The length of `EFI_FFS_FILE_HEADER` in bytes.
pub const HEADER_LEN: usize = 24;

/// The length of `EFI_FFS_FILE_HEADER2` in bytes.
pub const LARGE_HEADER_LEN: usize = 32;

/// The greatest size in bytes of a file with a short header, including the header: `Size` has 3
/// bytes.
pub const SHORT_SIZE_LIMIT: u64 = 0xff_ffff;
