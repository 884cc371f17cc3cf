//! Section types (`EFI_SECTION_TYPE`), the values of a section header's `Type`. (PI specification,
//! volume 3, section 3.2.5.)

/// `EFI_SECTION_DISPOSABLE`: a group of sections.
pub const DISPOSABLE: u8 = 0x03;

/// `EFI_SECTION_DXE_DEPEX`: a dependency expression of a DXE driver.
pub const DXE_DEPEX: u8 = 0x13;

/// `EFI_SECTION_VERSION`: a build number and a text. (Section 3.2.5.15.)
pub const VERSION: u8 = 0x14;

/// `EFI_SECTION_USER_INTERFACE`: a text. (Section 3.2.5.14.)
pub const USER_INTERFACE: u8 = 0x15;

/// `EFI_SECTION_FIRMWARE_VOLUME_IMAGE`: a body that may be a firmware volume.
pub const FIRMWARE_VOLUME_IMAGE: u8 = 0x17;

/// `EFI_SECTION_FREEFORM_SUBTYPE_GUID`: a GUID and data. (Section 3.2.5.6.)
pub const FREEFORM_SUBTYPE_GUID: u8 = 0x18;

/// `EFI_SECTION_PEI_DEPEX`: a dependency expression of a PEIM.
pub const PEI_DEPEX: u8 = 0x1b;

/// `EFI_SECTION_MM_DEPEX`: a dependency expression of an MM driver.
pub const MM_DEPEX: u8 = 0x1c;
