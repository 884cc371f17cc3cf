//! The offsets of the fields of hand-off blocks, in bytes from the first byte of the block, and the
//! length of each block in bytes, including its header. (PI specification, volume 3, section 5.)

/// The header at the start of every block, EFI_HOB_GENERIC_HEADER (section 5.2).
pub mod header {
    /// HobType, u16.
    pub const HOB_TYPE: usize = 0;

    /// HobLength, u16.
    pub const HOB_LENGTH: usize = 2;

    /// Reserved, u32.
    pub const RESERVED: usize = 4;

    /// The header's length.
    pub const LEN: usize = 8;
}

/// EFI_HOB_HANDOFF_INFO_TABLE (section 5.3).
pub mod handoff {
    /// Version, u32.
    pub const VERSION: usize = 8;

    /// BootMode, u32.
    pub const BOOT_MODE: usize = 12;

    /// EfiMemoryTop, u64.
    pub const MEMORY_TOP: usize = 16;

    /// EfiMemoryBottom, u64.
    pub const MEMORY_BOTTOM: usize = 24;

    /// EfiFreeMemoryTop, u64.
    pub const FREE_MEMORY_TOP: usize = 32;

    /// EfiFreeMemoryBottom, u64.
    pub const FREE_MEMORY_BOTTOM: usize = 40;

    /// EfiEndOfHobList, u64.
    pub const END_OF_LIST: usize = 48;

    /// The block's length.
    pub const LEN: usize = 56;
}

/// EFI_HOB_MEMORY_ALLOCATION (section 5.4).
pub mod allocation {
    /// AllocDescriptor.Name, a GUID.
    pub const NAME: usize = 8;

    /// AllocDescriptor.MemoryBaseAddress, u64, followed by MemoryLength, u64.
    pub const BASE: usize = 24;

    /// AllocDescriptor.MemoryType, u32.
    pub const MEMORY_TYPE: usize = 40;

    /// AllocDescriptor.Reserved, 4 bytes.
    pub const RESERVED: usize = 44;

    /// The least length of the block, and the offset of the bytes after these fields.
    pub const LEAST: usize = 48;
}

/// EFI_HOB_RESOURCE_DESCRIPTOR (section 5.5).
pub mod resource {
    /// Owner, a GUID.
    pub const OWNER: usize = 8;

    /// ResourceType, u32.
    pub const RESOURCE_TYPE: usize = 24;

    /// ResourceAttribute, u32.
    pub const ATTRIBUTE: usize = 28;

    /// PhysicalStart, u64, followed by ResourceLength, u64.
    pub const START: usize = 32;

    /// The block's length.
    pub const LEN: usize = 48;
}

/// EFI_HOB_GUID_TYPE (section 5.6).
pub mod extension {
    /// Name, a GUID.
    pub const NAME: usize = 8;

    /// The least length of the block, and the offset of the data.
    pub const LEAST: usize = 24;
}

/// EFI_HOB_FIRMWARE_VOLUME (section 5.7), EFI_HOB_UEFI_CAPSULE (section 5.10), and the first fields
/// of EFI_HOB_FIRMWARE_VOLUME2 (section 5.7).
pub mod span {
    /// BaseAddress, u64, followed by Length, u64.
    pub const BASE: usize = 8;

    /// The length of an FV block and of a UEFI capsule block.
    pub const LEN: usize = 24;
}

/// EFI_HOB_FIRMWARE_VOLUME2 (section 5.7): the fields after the base and the length.
pub mod volume2 {
    /// FvName, a GUID.
    pub const VOLUME_NAME: usize = 24;

    /// FileName, a GUID.
    pub const FILE_NAME: usize = 40;

    /// The block's length.
    pub const LEN: usize = 56;
}

/// EFI_HOB_CPU (section 5.8).
pub mod cpu {
    /// SizeOfMemorySpace, u8.
    pub const MEMORY_BITS: usize = 8;

    /// SizeOfIoSpace, u8.
    pub const IO_BITS: usize = 9;

    /// Reserved, 6 bytes.
    pub const RESERVED: usize = 10;

    /// The block's length.
    pub const LEN: usize = 16;
}
