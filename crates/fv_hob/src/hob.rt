//! Hand-off blocks. Addresses and lengths are in bytes; numbers are stored little-endian.

ghost use Rattle.std.specs.Prelude.{◌≡◌};
ghost use Rattle.fv_hob.specs.Hobs.{IsReadHob, hob_type, hob_len};

use crate::hob_type;
use crate::offsets::{allocation, cpu, extension, handoff, header, resource, span, volume2};
use fv_base::{ByteList, Guid};
use std::marker::Model;

/// The fields of the hand-off information table (PHIT), EFI_HOB_HANDOFF_INFO_TABLE. (PI
/// specification, volume 3, section 5.3.)
#[derive(Clone, Copy, Debug, PartialEq, Eq)]
pub struct Handoff {
    /// Version: the version of the table.
    pub version: u32,
    /// BootMode.
    pub boot_mode: u32,
    /// EfiMemoryTop: the highest address of the memory that is allocated for use by the HOB
    /// producer phase.
    pub memory_top: u64,
    /// EfiMemoryBottom: the lowest address of the memory that is allocated for use by the HOB
    /// producer phase.
    pub memory_bottom: u64,
    /// EfiFreeMemoryTop: the highest address of the free memory that is available to the HOB
    /// producer phase.
    pub free_memory_top: u64,
    /// EfiFreeMemoryBottom: the lowest address of the free memory that is available to the HOB
    /// producer phase.
    pub free_memory_bottom: u64,
    /// EfiEndOfHobList: the address of the end of the HOB list.
    pub end_of_list: u64,
}

/// The fields of a memory allocation, EFI_HOB_MEMORY_ALLOCATION. (PI specification, volume 3,
/// section 5.4.)
#[derive(Drop)]
pub struct MemoryAllocation {
    /// Name: the purpose of the allocation.
    pub name: Guid,
    /// MemoryBaseAddress.
    pub base: u64,
    /// MemoryLength.
    pub length: u64,
    /// MemoryType.
    pub memory_type: u32,
    /// Reserved, as it was read.
    pub reserved: [u8; 4],
    /// The bytes of the block from offset 48 on, as they were read.
    pub rest: ByteList,
}

/// The fields of a resource, EFI_HOB_RESOURCE_DESCRIPTOR. (PI specification, volume 3, section
/// 5.5.)
#[derive(Clone, Copy, Debug, PartialEq, Eq)]
pub struct Resource {
    /// Owner.
    pub owner: Guid,
    /// ResourceType.
    pub resource_type: u32,
    /// ResourceAttribute.
    pub attribute: u32,
    /// PhysicalStart.
    pub start: u64,
    /// ResourceLength.
    pub length: u64,
}

/// The content of a block, by its type. The comment of each variant gives its HobType and the
/// length that the block must have, in bytes, including its header of 8 bytes. (PI specification,
/// volume 3, section 5.)
#[derive(Drop)]
pub enum HobKind {
    /// EFI_HOB_TYPE_HANDOFF, 0x0001: the hand-off information table (PHIT), 56 bytes.
    Handoff(Handoff),
    /// EFI_HOB_TYPE_MEMORY_ALLOCATION, 0x0002: a memory allocation, at least 48 bytes.
    MemoryAllocation(MemoryAllocation),
    /// EFI_HOB_TYPE_RESOURCE_DESCRIPTOR, 0x0003: a resource, 48 bytes.
    Resource(Resource),
    /// EFI_HOB_TYPE_GUID_EXTENSION, 0x0004: data with a name, at least 24 bytes.
    GuidExtension {
        /// Name.
        name: Guid,
        /// The data: the bytes of the block from offset 24 on, as they were read.
        payload: ByteList,
    },
    /// EFI_HOB_TYPE_FV, 0x0005: a firmware volume, 24 bytes.
    FirmwareVolume {
        /// BaseAddress.
        base: u64,
        /// Length.
        length: u64,
    },
    /// EFI_HOB_TYPE_CPU, 0x0006: the processor, 16 bytes.
    Cpu {
        /// SizeOfMemorySpace: the number of bits of a memory address.
        memory_bits: u8,
        /// SizeOfIoSpace: the number of bits of an I/O address.
        io_bits: u8,
        /// Reserved, as it was read.
        reserved: [u8; 6],
    },
    /// EFI_HOB_TYPE_MEMORY_POOL, 0x0007: a pool of memory, 8 bytes.
    MemoryPool,
    /// EFI_HOB_TYPE_FV2, 0x0009: a firmware volume that was extracted from a file of another
    /// firmware volume, 56 bytes.
    FirmwareVolume2 {
        /// BaseAddress.
        base: u64,
        /// Length.
        length: u64,
        /// FvName: the name of the firmware volume.
        volume_name: Guid,
        /// FileName: the name of the file that contained the firmware volume.
        file_name: Guid,
    },
    /// EFI_HOB_TYPE_UEFI_CAPSULE, 0x000B: a capsule, 24 bytes.
    Capsule {
        /// BaseAddress.
        base: u64,
        /// Length.
        length: u64,
    },
    /// EFI_HOB_TYPE_UNUSED, 0xFFFE: an unused block, at least 8 bytes. Its body is not read, and is
    /// written as zeros.
    Unused {
        /// The number of bytes after the block's header.
        body_len: u16,
    },
    /// EFI_HOB_TYPE_END_OF_HOB_LIST, 0xFFFF: the end of the list, 8 bytes.
    End,
    /// Any other type, including EFI_HOB_TYPE_FV3 (0x000C), at least 8 bytes.
    Other {
        /// HobType.
        code: u16,
        /// The bytes of the block from offset 8 on, as they were read.
        payload: ByteList,
    },
}

/// A hand-off block. Only `read_hobs` makes a value of this type. (PI specification, volume 3,
/// section 5.)
#[derive(Drop)]
pub struct Hob {
    reserved: u32,
    kind: HobKind,
}

impl Model for Hob {
    ghost use Rattle.fv_hob.specs.Hobs.{HobForm, IsReadHob};

    ghost Value = { HobForm };

    ghost view = { λ h. record { reserved = h.reserved; kind = h.kind } };

    ghost invariant = { λ h. IsReadHob (record { reserved = h.reserved; kind = h.kind }) };
}

// Returns the length in bytes of a block with this content, including its header.
fn len_of(kind: &HobKind) -> usize
    ensures { result ≡ hob_len kind.now }
{
    match kind {
        HobKind::Handoff(_) => handoff::LEN,
        HobKind::MemoryAllocation(fields) => allocation::LEAST + fields.rest.as_slice().len(),
        HobKind::Resource(_) => resource::LEN,
        HobKind::GuidExtension { payload, .. } => extension::LEAST + payload.as_slice().len(),
        HobKind::FirmwareVolume { .. } | HobKind::Capsule { .. } => span::LEN,
        HobKind::Cpu { .. } => cpu::LEN,
        HobKind::FirmwareVolume2 { .. } => volume2::LEN,
        HobKind::MemoryPool | HobKind::End => header::LEN,
        HobKind::Unused { body_len } => header::LEN + usize::from(*body_len),
        HobKind::Other { payload, .. } => header::LEN + payload.as_slice().len(),
    }
}

impl Hob {
    // Makes the block with this reserved field and this content.
    pub(crate) fn from_parts(reserved: u32, kind: HobKind) -> Hob
        requires { IsReadHob (record { reserved = reserved; kind = kind }) }
        ensures { result ≡ record { reserved = reserved; kind = kind } }
    {
        Hob { reserved, kind }
    }

    /// Returns the header's Reserved (EFI_HOB_GENERIC_HEADER, section 5.2), as it was read.
    pub fn reserved(&self) -> u32
        ensures { result ≡ self.now.reserved }
    {
        self.reserved
    }

    /// Returns the content of the block, by its type.
    pub fn kind(&self) -> &HobKind
        ensures kind { result.now ≡ self.now.kind }

        // Some bytes are this block.
        ensures read { IsReadHob self.now }
    {
        &self.kind
    }

    /// Returns the header's HobType, for example 0x0001 (EFI_HOB_TYPE_HANDOFF) or 0xFFFF
    /// (EFI_HOB_TYPE_END_OF_HOB_LIST).
    pub fn code(&self) -> u16
        ensures { result ≡ hob_type self.now.kind }
    {
        match &self.kind {
            HobKind::Handoff(_) => hob_type::HANDOFF,
            HobKind::MemoryAllocation(_) => hob_type::MEMORY_ALLOCATION,
            HobKind::Resource(_) => hob_type::RESOURCE,
            HobKind::GuidExtension { .. } => hob_type::GUID_EXTENSION,
            HobKind::FirmwareVolume { .. } => hob_type::FIRMWARE_VOLUME,
            HobKind::Cpu { .. } => hob_type::CPU,
            HobKind::MemoryPool => hob_type::MEMORY_POOL,
            HobKind::FirmwareVolume2 { .. } => hob_type::FIRMWARE_VOLUME2,
            HobKind::Capsule { .. } => hob_type::CAPSULE,
            HobKind::Unused { .. } => hob_type::UNUSED,
            HobKind::End => hob_type::END,
            HobKind::Other { code, .. } => *code,
        }
    }

    /// Returns the header's HobLength: the length of the block in bytes, including its header of 8
    /// bytes.
    pub fn length(&self) -> u16
        ensures { result ≡ hob_len self.now.kind }
    {
        len_of(&self.kind) as u16
    }
}
