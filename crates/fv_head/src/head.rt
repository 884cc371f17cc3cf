//! The header of a volume: how it is kept in memory, and how it is read.

ghost use Rattle.std.specs.Prelude.{◌≡◌, ◌⊎◌, ◌%◌, ◌≤◌, length, IfOk, IfErr, option_copied};
ghost use Rattle.fv_base.specs.Words.{OrMemory, IsFirstFault, out_of_memory, header_limit};
ghost use Rattle.fv_head.specs.Head.{HasExt, HeadFields, BeginsVolume, header_len_of};
ghost use Rattle.fv_head.specs.HeadReads.{IsReadHead};
ghost use Rattle.fv_head.specs.HeadChecks.{head_checks, BeginsWithHeader};
ghost use Rattle.fv_head.specs.Pairs.{pairs_of};
ghost use Rattle.fv_head.specs.declared.extent.Extent.{Extent};

use crate::attributes::FvAttributes;
use crate::block_map::{BlockMap, first_pair};
use crate::ext::{ExtHeader, ext_of};
use crate::extent::Extent;
use crate::header_checks::verify_fv;
use crate::offsets::{
    ATTRIBUTES_OFFSET, BLOCK_MAP_OFFSET, HEADER_LEAST, RESERVED_OFFSET, ZERO_VECTOR_OFFSET,
    ext_bytes_at, ext_offset_at, volume_len_at,
};
use bitflags::Flags;
use fv_base::field::{field, u32_at};
use fv_base::{Fault, FileSystem};
use std::alloc::Global;
use std::marker::Model;

/// The header of a volume. Only reading a volume header makes a value of this type. In contracts,
/// it is a `HeadFields` for which `IsReadHead` holds: there are bytes that form a volume header
/// with these fields. (PI specification, volume 3, section 3.2.1.1, `EFI_FIRMWARE_VOLUME_HEADER`.)
#[derive(Drop)]
pub struct VolumeHead<'a> {
    zero_vector: [u8; 16],
    file_system: FileSystem,
    length: u64,
    attributes: FvAttributes,
    reserved: u8,
    blocks: BlockMap,
    ext: Option<ExtHeader<'a>>,
}

impl<'a> Model for VolumeHead<'a> {
    ghost use Rattle.fv_head.specs.Head.{HeadFields};
    ghost use Rattle.fv_head.specs.HeadReads.{IsReadHead};

    ghost Value = { HeadFields };

    ghost use Rattle.fv_head.specs.HeadView.{fields_held};

    ghost view = { fields_held };

    ghost invariant = { λ a. IsReadHead (fields_held a) };
}

impl<'a> VolumeHead<'a> {
    /// Returns `ZeroVector`, the 16 bytes at the volume's start, as found.
    pub fn zero_vector(&self) -> &[u8; 16]
        ensures { result.now ≡ self.now.zero_vector }
    {
        &self.zero_vector
    }

    /// Returns the file system that `FileSystemGuid` names.
    pub fn file_system(&self) -> FileSystem
        ensures { result ≡ self.now.file_system }
    {
        self.file_system
    }

    /// Returns the length of the volume in bytes, `FvLength`.
    pub fn length(&self) -> u64
        ensures { result ≡ self.now.length }
    {
        self.length
    }

    /// Returns the attribute bits, `Attributes`.
    pub fn attributes(&self) -> FvAttributes
        ensures { result.0 ≡ self.now.attributes }
    {
        self.attributes
    }

    /// Returns the reserved byte, `Reserved`, as found.
    pub fn reserved(&self) -> u8
        ensures { result ≡ self.now.reserved }
    {
        self.reserved
    }

    /// Returns the block map, `BlockMap`.
    pub fn blocks(&self) -> &BlockMap
        ensures { result.now ≡ self.now.blocks }
    {
        &self.blocks
    }

    /// Returns the length of the header in bytes, `HeaderLength`.
    pub fn header_len(&self) -> u16
        ensures length { result ≡ header_len_of self.now }
        ensures most { header_len_of self.now ≤ header_limit }

        // There are bytes that form a volume header with these fields.
        ensures read { IsReadHead self.now }
    {
        8 * (self.blocks.as_slice().len() as u16 + 1) + 56
    }

    /// Returns the extended header, which was read at `ExtHeaderOffset`, if there is one.
    pub fn ext(&self) -> Option<&ExtHeader<'a>>
        ensures { option_copied result ≡ self.now.ext }
    {
        self.ext.as_ref()
    }
}

// Reads a block map from the bytes of its entries, without the pair of zeros that ends it.
fn blocks_of(alloc: Global, bytes: &[u8]) -> Result<BlockMap, Fault>
    requires { length bytes.now % 8 ≡ 0 }
    ensures ok { IfOk result (λ m. m ≡ pairs_of bytes.now) }
    ensures err { IfErr result (λ f. f ≡ out_of_memory) }
{
    let mut blocks = Vec::new(alloc);
    let mut rest = bytes;
    while let Some((pair, after)) = first_pair(rest) {
        blocks.push(pair)?;
        rest = after;
    }
    Ok(BlockMap::from_vec(blocks))
}

// Reads the extended header, if there is one, of the volume that the bytes begin with.
fn ext_at<'a>(
    alloc: Global,
    bytes: &'a [u8],
    extent: &Extent,
) -> Result<Option<ExtHeader<'a>>, Fault>
    requires begins { (h : HeadFields) × BeginsVolume h extent.now bytes.now }
    ensures ok { IfOk result (λ x. HasExt x extent.now bytes.now) }
    ensures err { IfErr result (λ f. f ≡ out_of_memory) }
{
    if ext_offset_at(bytes) == 0 {
        return Ok(None);
    }
    Ok(Some(ext_of(alloc, ext_bytes_at(bytes))?))
}

// Reads the header of the volume that the bytes begin with. The header was checked before.
fn head_of<'a>(alloc: Global, bytes: &'a [u8], extent: &Extent) -> Result<VolumeHead<'a>, Fault>
    requires begins { (h : HeadFields) × BeginsVolume h extent.now bytes.now }
    ensures ok { IfOk result (λ h. BeginsVolume h extent.now bytes.now) }
    ensures err { IfErr result (λ f. f ≡ out_of_memory) }
{
    let header_len = extent.header_len as usize;
    let blocks = blocks_of(
        alloc,
        field(bytes, BLOCK_MAP_OFFSET, header_len - HEADER_LEAST),
    )?;
    let mut zero_vector = [0u8; 16];
    zero_vector.copy_from_slice(field(bytes, ZERO_VECTOR_OFFSET, 16));
    Ok(VolumeHead {
        zero_vector,
        file_system: extent.file_system,
        length: volume_len_at(bytes),
        attributes: FvAttributes::from_bits_retain(u32_at(bytes, ATTRIBUTES_OFFSET)),
        reserved: bytes[RESERVED_OFFSET],
        blocks,
        ext: ext_at(alloc, bytes, extent)?,
    })
}

/// Checks and reads the header of the volume that the bytes begin with. Returns the header and the
/// volume's extent. (PI specification, volume 3, section 3.2.1.1.)
///
/// # Errors
///
/// The first fault of the header, as for `verify_fv`. OutOfMemory at offset 0, but only if the
/// bytes begin with a volume header.
pub fn read_head(alloc: Global, bytes: &[u8]) -> Result<(VolumeHead<'_>, Extent), Fault>
    // The bytes begin with a volume that has this header and this extent.
    ensures found { IfOk result (λ r. BeginsVolume r.0 r.1 bytes.now) }

    // If the bytes begin with a volume, its header and its extent are returned, unless memory runs
    // out.
    ensures only { (h : HeadFields) (e : Extent) → BeginsVolume h e bytes.now
        → (result ≡ Ok (h, e)) ⊎ (result ≡ Err out_of_memory) }

    // An error other than OutOfMemory is the fault of the first check that does not hold.
    ensures first { IfErr result (OrMemory (IsFirstFault (head_checks bytes.now))) }

    // OutOfMemory is returned only if the bytes begin with a volume header.
    ensures memory { IfErr result (λ f. f ≡ out_of_memory → BeginsWithHeader bytes.now) }

    // The offset of an error is within the bytes or at their end.
    ensures bound { IfErr result (λ f. f.place.offset ≤ length bytes.now) }
{
    let extent = verify_fv(bytes)?;
    let head = head_of(alloc, bytes, &extent)?;
    Ok((head, extent))
}
