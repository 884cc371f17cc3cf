//! Writing hand-off lists.

ghost use Rattle.std.specs.Prelude.{◌≡◌, ℕ, List, [], ◌∷◌, ◌++◌, replicate, OnOk, IfOk, IfErr};
ghost use Rattle.std.specs.List.{AllByRecursion, concat};
ghost use Rattle.fv_base.specs.Words.{bytes_of, le_bytes};
ghost use Rattle.fv_hob.specs.HobChecks.{hob_out_of_memory};
ghost use Rattle.fv_hob.specs.declared.hob.HobKind.TheVariants as kinds;
ghost use Rattle.fv_hob.specs.Lists.{IsHobList, IsUsedHob};
ghost use Rattle.fv_hob.specs.Hobs.{hob_fields, hob_spelled, list_spelled};

use crate::fault::HobFault;
use crate::hob::{Handoff, Hob, HobKind, MemoryAllocation, Resource};
use crate::hob_list::HobList;
use byteorder::{ByteOrder, LittleEndian};
use fv_base::{ByteList, Guid};
use std::alloc::{AllocError, Global};

// Appends a 16-bit number, little-endian.
fn push_u16(bytes: &mut Vec<u8>, number: u16) -> Result<(), AllocError>
    ensures { OnOk result (bytes.new.items ≡ bytes.old.items ++ le_bytes 2 number) }
{
    let mut spelled = [0u8; 2];
    LittleEndian::write_u16(&mut spelled, number);
    bytes.extend_from_slice(&spelled)
}

// Appends a 32-bit number, little-endian.
fn push_u32(bytes: &mut Vec<u8>, number: u32) -> Result<(), AllocError>
    ensures { OnOk result (bytes.new.items ≡ bytes.old.items ++ le_bytes 4 number) }
{
    let mut spelled = [0u8; 4];
    LittleEndian::write_u32(&mut spelled, number);
    bytes.extend_from_slice(&spelled)
}

// Appends a 64-bit number, little-endian.
fn push_u64(bytes: &mut Vec<u8>, number: u64) -> Result<(), AllocError>
    ensures { OnOk result (bytes.new.items ≡ bytes.old.items ++ le_bytes 8 number) }
{
    let mut spelled = [0u8; 8];
    LittleEndian::write_u64(&mut spelled, number);
    bytes.extend_from_slice(&spelled)
}

// Appends bytes.
fn push_bytes(bytes: &mut Vec<u8>, more: &[u8]) -> Result<(), AllocError>
    ensures { OnOk result (bytes.new.items ≡ bytes.old.items ++ more.now) }
{
    bytes.extend_from_slice(more)
}

// Appends the bytes of a GUID.
fn push_guid(bytes: &mut Vec<u8>, guid: &Guid) -> Result<(), AllocError>
    ensures { OnOk result (bytes.new.items ≡ bytes.old.items ++ bytes_of guid.now) }
{
    push_bytes(bytes, &guid.to_bytes())
}

// Appends `count` zero bytes.
fn push_zeros(bytes: &mut Vec<u8>, count: u16) -> Result<(), AllocError>
    ensures { OnOk result (bytes.new.items ≡ bytes.old.items ++ replicate count 0) }
{
    let len = bytes.len();
    bytes.resize(len + usize::from(count), 0)
}

// Appends the base and the length of a span.
fn push_span(bytes: &mut Vec<u8>, base: u64, length: u64) -> Result<(), AllocError>
    ensures { OnOk result
        (bytes.new.items ≡ bytes.old.items ++ concat (hob_fields (kinds.FirmwareVolume base length))) }
{
    push_u64(bytes, base)?;
    push_u64(bytes, length)
}

// Appends the body of a hand-off information table.
fn push_handoff(bytes: &mut Vec<u8>, fields: &Handoff) -> Result<(), AllocError>
    ensures { OnOk result (bytes.new.items ≡ bytes.old.items ++ concat (hob_fields (kinds.Handoff fields.now))) }
{
    push_u32(bytes, fields.version)?;
    push_u32(bytes, fields.boot_mode)?;
    push_u64(bytes, fields.memory_top)?;
    push_u64(bytes, fields.memory_bottom)?;
    push_u64(bytes, fields.free_memory_top)?;
    push_u64(bytes, fields.free_memory_bottom)?;
    push_u64(bytes, fields.end_of_list)
}

// Appends the body of a memory allocation.
fn push_allocation(bytes: &mut Vec<u8>, fields: &MemoryAllocation) -> Result<(), AllocError>
    ensures { OnOk result (bytes.new.items ≡ bytes.old.items ++ concat (hob_fields (kinds.MemoryAllocation fields.now))) }
{
    push_guid(bytes, &fields.name)?;
    push_span(bytes, fields.base, fields.length)?;
    push_u32(bytes, fields.memory_type)?;
    push_bytes(bytes, &fields.reserved)?;
    push_bytes(bytes, fields.rest.as_slice())
}

// Appends the body of a resource.
fn push_resource(bytes: &mut Vec<u8>, fields: &Resource) -> Result<(), AllocError>
    ensures { OnOk result (bytes.new.items ≡ bytes.old.items ++ concat (hob_fields (kinds.Resource fields.now))) }
{
    push_guid(bytes, &fields.owner)?;
    push_u32(bytes, fields.resource_type)?;
    push_u32(bytes, fields.attribute)?;
    push_span(bytes, fields.start, fields.length)
}

// Appends the bytes of `one`, followed by the bytes of `other`.
fn push_pair(bytes: &mut Vec<u8>, one: &[u8], other: &[u8]) -> Result<(), AllocError>
    ensures { OnOk result (bytes.new.items ≡ bytes.old.items ++ concat (one.now ∷ other.now ∷ [])) }
{
    push_bytes(bytes, one)?;
    push_bytes(bytes, other)
}

// Appends the body of an FV2 block: the base and the length of a volume, FvName and FileName.
fn push_volume2(
    bytes: &mut Vec<u8>,
    base: u64,
    length: u64,
    volume: &Guid,
    file: &Guid,
) -> Result<(), AllocError>
    ensures { OnOk result (bytes.new.items
        ≡ bytes.old.items ++ concat (hob_fields (kinds.FirmwareVolume2 base length volume.now file.now))) }
{
    push_span(bytes, base, length)?;
    push_pair(bytes, &volume.to_bytes(), &file.to_bytes())
}

// Appends the body of a block.
fn push_body(bytes: &mut Vec<u8>, kind: &HobKind) -> Result<(), AllocError>
    ensures { OnOk result (bytes.new.items ≡ bytes.old.items ++ concat (hob_fields kind.now)) }
{
    match kind {
        HobKind::Handoff(fields) => push_handoff(bytes, fields),
        HobKind::MemoryAllocation(fields) => push_allocation(bytes, fields),
        HobKind::Resource(fields) => push_resource(bytes, fields),
        HobKind::GuidExtension { name, payload } => {
            push_pair(bytes, &name.to_bytes(), payload.as_slice())
        }
        HobKind::FirmwareVolume { base, length } => push_span(bytes, *base, *length),
        HobKind::Cpu {
            memory_bits,
            io_bits,
            reserved,
        } => push_pair(bytes, &[*memory_bits, *io_bits], reserved),
        HobKind::FirmwareVolume2 {
            base,
            length,
            volume_name,
            file_name,
        } => push_volume2(bytes, *base, *length, volume_name, file_name),
        HobKind::Capsule { base, length } => push_span(bytes, *base, *length),
        HobKind::Unused { body_len } => push_zeros(bytes, *body_len),
        HobKind::MemoryPool | HobKind::End => Ok(()),
        HobKind::Other { payload, .. } => push_bytes(bytes, payload.as_slice()),
    }
}

// Appends the bytes of a block.
fn push_hob(bytes: &mut Vec<u8>, hob: &Hob) -> Result<(), AllocError>
    ensures { OnOk result (bytes.new.items ≡ bytes.old.items ++ hob_spelled hob.now) }
{
    push_u16(bytes, hob.code())?;
    push_u16(bytes, hob.length())?;
    push_u32(bytes, hob.reserved())?;
    push_body(bytes, hob.kind())
}

// Returns the bytes of some blocks, one block after another.
fn list_spelled(alloc: Global, hobs: &[Hob]) -> Result<Vec<u8>, AllocError>
    ensures { IfOk result (λ v. v.items ≡ list_spelled hobs.now) }
{
    let mut bytes = Vec::new(alloc);
    for hob in hobs {
        push_hob(&mut bytes, hob)?;
    }
    Ok(bytes)
}

/// Returns the bytes of a list. These are the bytes from which the list was read, except that the
/// body of an unused block (EFI_HOB_TYPE_UNUSED) is zeros. (PI specification, volume 3, section 5.)
///
/// # Errors
///
/// OutOfMemory.
pub fn hob_bytes(alloc: Global, hobs: &HobList) -> Result<ByteList, HobFault>
    // The returned bytes are this list.
    ensures list { IfOk result (λ b. IsHobList hobs.now b) }

    // If no block is unused, they are the bytes from which the list was read.
    ensures kept { IfOk result (λ b. (c : List ℕ) → IsHobList hobs.now c → AllByRecursion IsUsedHob hobs.now → b ≡ c) }

    // They are the bytes of the blocks, one block after another, as `list_spelled` defines them.
    ensures bytes { IfOk result (λ b. b ≡ list_spelled hobs.now) }

    // The only error is OutOfMemory.
    ensures err { IfErr result (λ f. f ≡ hob_out_of_memory) }
{
    let bytes = list_spelled(alloc, hobs.as_slice())?;
    Ok(ByteList::from_vec(bytes))
}
