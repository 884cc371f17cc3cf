//! The types of files, `EFI_FV_FILETYPE`, which are the values of a file's `Type`. (PI
//! specification, volume 3, section 3.2.3.)

/// `EFI_FV_FILETYPE_FREEFORM`: the data are sections.
pub const FREEFORM: u8 = 0x02;

/// `EFI_FV_FILETYPE_SECURITY_CORE`: the data are kept as plain bytes, although they may be
/// sections.
pub const SECURITY_CORE: u8 = 0x03;

/// `EFI_FV_FILETYPE_PEI_CORE`. The data of a file are also sections if the file has this type,
/// `MM_CORE_STANDALONE` or any type between the two.
pub const PEI_CORE: u8 = 0x04;

/// `EFI_FV_FILETYPE_MM_CORE_STANDALONE`, the last type of this range.
pub const MM_CORE_STANDALONE: u8 = 0x0f;

/// `EFI_FV_FILETYPE_FFS_PAD`: a pad file, which fills a gap.
pub const FFS_PAD: u8 = 0xf0;
