//! The types of hand-off blocks, HobType (PI specification, volume 3, section 5). Both the reader
//! and the writer use them.

/// EFI_HOB_TYPE_HANDOFF, the hand-off information table (PHIT).
pub const HANDOFF: u16 = 0x0001;

/// EFI_HOB_TYPE_MEMORY_ALLOCATION.
pub const MEMORY_ALLOCATION: u16 = 0x0002;

/// EFI_HOB_TYPE_RESOURCE_DESCRIPTOR.
pub const RESOURCE: u16 = 0x0003;

/// EFI_HOB_TYPE_GUID_EXTENSION.
pub const GUID_EXTENSION: u16 = 0x0004;

/// EFI_HOB_TYPE_FV.
pub const FIRMWARE_VOLUME: u16 = 0x0005;

/// EFI_HOB_TYPE_CPU.
pub const CPU: u16 = 0x0006;

/// EFI_HOB_TYPE_MEMORY_POOL.
pub const MEMORY_POOL: u16 = 0x0007;

/// EFI_HOB_TYPE_FV2.
pub const FIRMWARE_VOLUME2: u16 = 0x0009;

/// EFI_HOB_TYPE_UEFI_CAPSULE.
pub const CAPSULE: u16 = 0x000b;

/// EFI_HOB_TYPE_UNUSED.
pub const UNUSED: u16 = 0xfffe;

/// EFI_HOB_TYPE_END_OF_HOB_LIST.
pub const END: u16 = 0xffff;
