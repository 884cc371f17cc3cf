//! Reading one block by its type. (PI specification, volume 3, section 5.)

ghost use Rattle.std.specs.Prelude.{◌≡◌, ◌≤◌, ◌+◌, length, IfOk};
ghost use Rattle.fv_base.specs.Words.{le_at};
ghost use Rattle.fv_hob.specs.Hobs.{IsBlock, IsHob, allocation_in, handoff_in, has_shape, hob_type_at, kind_by};
ghost use Rattle.fv_hob.specs.Hobs.{resource_in};

use crate::hob::{Handoff, Hob, HobKind, MemoryAllocation, Resource};
use crate::hob_type;
use crate::offsets::{allocation, cpu, extension, handoff, header, resource, span, volume2};
use fv_base::field::{bytes_from, field, u16_at, u32_at, u64_at};
use fv_base::{ByteList, guid_at};
use std::alloc::{AllocError, Global};

/// Returns whether this HobType allows this HobLength. Does not check the rule for all types: a
/// multiple of 8, and at least 8 (`is_hob_len`).
pub fn has_shape(code: u16, len: usize) -> bool
    ensures { result ≡ has_shape code len }
{
    match code {
        hob_type::HANDOFF => len == handoff::LEN,
        hob_type::MEMORY_ALLOCATION => len >= allocation::LEAST,
        hob_type::RESOURCE => len == resource::LEN,
        hob_type::GUID_EXTENSION => len >= extension::LEAST,
        hob_type::FIRMWARE_VOLUME | hob_type::CAPSULE => len == span::LEN,
        hob_type::CPU => len == cpu::LEN,
        hob_type::FIRMWARE_VOLUME2 => len == volume2::LEN,
        hob_type::MEMORY_POOL | hob_type::END => len == header::LEN,
        _ => true,
    }
}

// Reads the fields of a hand-off information table.
fn handoff_in(block: &[u8]) -> Handoff
    requires { length block.now ≡ 56 }
    ensures { result ≡ handoff_in block.now }
{
    Handoff {
        version: u32_at(block, handoff::VERSION),
        boot_mode: u32_at(block, handoff::BOOT_MODE),
        memory_top: u64_at(block, handoff::MEMORY_TOP),
        memory_bottom: u64_at(block, handoff::MEMORY_BOTTOM),
        free_memory_top: u64_at(block, handoff::FREE_MEMORY_TOP),
        free_memory_bottom: u64_at(block, handoff::FREE_MEMORY_BOTTOM),
        end_of_list: u64_at(block, handoff::END_OF_LIST),
    }
}

// Reads the base at the offset `at`, and the length after it.
fn span_at(block: &[u8], at: usize) -> (u64, u64)
    requires { at + 16 ≤ length block.now }
    ensures { (result.0 ≡ le_at at 8 block.now) × (result.1 ≡ le_at (at + 8) 8 block.now) }
{
    (u64_at(block, at), u64_at(block, at + 8))
}

// Reads the fields of a memory allocation.
fn allocation_in(alloc: Global, block: &[u8]) -> Result<MemoryAllocation, AllocError>
    requires { 48 ≤ length block.now }
    ensures { IfOk result (λ fields. fields ≡ allocation_in block.now) }
{
    let mut reserved = [0u8; 4];
    reserved.copy_from_slice(field(block, allocation::RESERVED, 4));
    let (base, length) = span_at(block, allocation::BASE);
    Ok(MemoryAllocation {
        name: guid_at(block, allocation::NAME),
        base,
        length,
        memory_type: u32_at(block, allocation::MEMORY_TYPE),
        reserved,
        rest: ByteList::from_slice(alloc, bytes_from(block, allocation::LEAST))?,
    })
}

// Reads the fields of a resource.
fn resource_in(block: &[u8]) -> Resource
    requires { length block.now ≡ 48 }
    ensures { result ≡ resource_in block.now }
{
    let (start, length) = span_at(block, resource::START);
    Resource {
        owner: guid_at(block, resource::OWNER),
        resource_type: u32_at(block, resource::RESOURCE_TYPE),
        attribute: u32_at(block, resource::ATTRIBUTE),
        start,
        length,
    }
}

// Reads the fields of the processor block.
fn cpu_in(block: &[u8]) -> HobKind
    requires { length block.now ≡ 16 }
    ensures { result ≡ kind_by 0x0006 block.now }
{
    let mut reserved = [0u8; 6];
    reserved.copy_from_slice(field(block, cpu::RESERVED, 6));
    HobKind::Cpu {
        memory_bits: block[cpu::MEMORY_BITS],
        io_bits: block[cpu::IO_BITS],
        reserved,
    }
}

// Reads the fields of an FV2 block, for a volume that was extracted from a file of another volume.
fn volume2_in(block: &[u8]) -> HobKind
    requires { length block.now ≡ 56 }
    ensures { result ≡ kind_by 0x0009 block.now }
{
    let (base, length) = span_at(block, span::BASE);
    HobKind::FirmwareVolume2 {
        base,
        length,
        volume_name: guid_at(block, volume2::VOLUME_NAME),
        file_name: guid_at(block, volume2::FILE_NAME),
    }
}

// Reads the content of a block: the fields after its header. For an unused block, the content is only
// the number of bytes after the header. For a type without a kind of its own it includes HobType too.
fn kind_in(alloc: Global, block: &[u8]) -> Result<HobKind, AllocError>
    requires { IsBlock block.now }
    ensures { IfOk result (λ kind. kind ≡ kind_by (hob_type_at block.now) block.now) }
{
    let code = u16_at(block, header::HOB_TYPE);
    Ok(match code {
        hob_type::HANDOFF => HobKind::Handoff(handoff_in(block)),
        hob_type::MEMORY_ALLOCATION => HobKind::MemoryAllocation(allocation_in(alloc, block)?),
        hob_type::RESOURCE => HobKind::Resource(resource_in(block)),
        hob_type::GUID_EXTENSION => HobKind::GuidExtension {
            name: guid_at(block, extension::NAME),
            payload: ByteList::from_slice(alloc, bytes_from(block, extension::LEAST))?,
        },
        hob_type::FIRMWARE_VOLUME => {
            let (base, length) = span_at(block, span::BASE);
            HobKind::FirmwareVolume { base, length }
        }
        hob_type::CPU => cpu_in(block),
        hob_type::MEMORY_POOL => HobKind::MemoryPool,
        hob_type::FIRMWARE_VOLUME2 => volume2_in(block),
        hob_type::CAPSULE => {
            let (base, length) = span_at(block, span::BASE);
            HobKind::Capsule { base, length }
        }
        hob_type::UNUSED => HobKind::Unused {
            body_len: u16_at(block, header::HOB_LENGTH) - header::LEN as u16,
        },
        hob_type::END => HobKind::End,
        _ => HobKind::Other {
            code,
            payload: ByteList::from_slice(alloc, bytes_from(block, header::LEN))?,
        },
    })
}

/// Reads the block with these bytes.
pub fn hob_in(alloc: Global, block: &[u8]) -> Result<Hob, AllocError>
    requires { IsBlock block.now }
    ensures { IfOk result (λ h. IsHob h block.now) }
{
    let kind = kind_in(alloc, block)?;
    Ok(Hob::from_parts(u32_at(block, header::RESERVED), kind))
}
