//! The offsets of the fields of a section header, in bytes from its first byte, and the lengths of
//! its two forms; then the offsets of fields in the bodies of two leaf types. (PI specification,
//! volume 3, section 3.2.4, `EFI_COMMON_SECTION_HEADER` and `EFI_COMMON_SECTION_HEADER2`.)

/// `Size`, 3 bytes: the size of the section, including its header, or 0xFFFFFF in an extended
/// header.
pub(crate) const SIZE_OFFSET: usize = 0;

/// `Type`, 1 byte.
pub(crate) const TYPE_OFFSET: usize = 3;

/// `ExtendedSize`, 4 bytes, only in an extended header: the size of the section, including its
/// header.
pub(crate) const EXTENDED_SIZE_OFFSET: usize = 4;

/// The length of `EFI_COMMON_SECTION_HEADER` in bytes.
pub const HEADER_LEN: usize = 4;

/// The length of `EFI_COMMON_SECTION_HEADER2` in bytes.
pub const EXTENDED_HEADER_LEN: usize = 8;

/// `VersionString` in the body of a version section, after the 2 bytes of `BuildNumber`. (Section
/// 3.2.5.15, `EFI_VERSION_SECTION`.)
pub(crate) const VERSION_STRING_OFFSET: usize = 2;

/// The data in the body of a freeform subtype section, after the 16 bytes of `SubTypeGuid`.
/// (Section 3.2.5.6, `EFI_FREEFORM_SUBTYPE_GUID_SECTION`.)
pub(crate) const SUBTYPE_DATA_OFFSET: usize = 16;
