//! The checks of a volume's header, and the extent of a volume whose header passes them.

ghost use Rattle.std.specs.Prelude.{◌≡◌, ◌%◌, ◌≤◌, nat_le, length, IfOk, IfErr, OnOk, None, Some, true};
ghost use Rattle.fv_base.specs.Words.{IsFirstFault, bytes_of};
ghost use Rattle.fv_base.specs.inner.Verdicts.{first_fault};
ghost use Rattle.fv_head.specs.Head.{HeadFields, BeginsVolume, system_guid};
ghost use Rattle.fv_head.specs.HeadChecks.{has_signature, file_system_at, is_one_volume, header_len_at, volume_len_at};
ghost use Rattle.fv_head.specs.HeadChecks.{is_header_len, has_sum, is_zero_pair, makes_up, has_block_map, is_volume_len, has_ext};
ghost use Rattle.fv_head.specs.HeadChecks.{leading_checks, later_checks, head_checks, BeginsWithHeader};
ghost use Rattle.fv_head.specs.inner.HeadVerdicts.{ExtHeaderWithin, first_at, extent_at, head_verdict};
ghost use Rattle.fv_head.specs.Pairs.{pairs_of};
ghost use Rattle.fv_head.specs.declared.extent.Extent.{Extent};

use crate::attributes::FvAttributes;
use crate::block_map::first_pair;
use crate::extent::Extent;
use crate::offsets::{
    ATTRIBUTES_OFFSET, BLOCK_ENTRY_LEN, BLOCK_LENGTH_OFFSET, BLOCK_MAP_OFFSET, EXT_HEADER_LEN,
    EXT_HEADER_OFFSET_OFFSET, FILE_SYSTEM_GUID_OFFSET, FV_LENGTH_OFFSET, HEADER_LEAST,
    HEADER_LENGTH_OFFSET, NUM_BLOCKS_OFFSET, REVISION_OFFSET, SIGNATURE_OFFSET, ext_offset_at,
    ext_size_at, header_len_at, volume_len_at,
};
use bitflags::Flags;
use fv_base::field::{field, u32_at, up_to_8};
use fv_base::limits::{EXT_LIMIT, HEADER_LIMIT, VOLUME_LIMIT};
use fv_base::{Fault, FaultKind, FileSystem, Guid, check, guid_at, sum16};

/// The value of `Signature`, `_FVH`: `EFI_FVH_SIGNATURE`. (PI specification, volume 3, section
/// 3.2.1.1.)
pub const SIGNATURE: [u8; 4] = [0x5f, 0x46, 0x56, 0x48];

/// The value of `Revision`: `EFI_FVH_REVISION`.
pub(crate) const REVISION: u8 = 2;

/// `EFI_FIRMWARE_FILE_SYSTEM2_GUID`, 8c8ce578-8a3d-4f1c-9935-896185c32dd3.
const FFS2: [u8; 16] = [
    0x78, 0xe5, 0x8c, 0x8c, 0x3d, 0x8a, 0x1c, 0x4f, 0x99, 0x35, 0x89, 0x61, 0x85, 0xc3, 0x2d, 0xd3,
];

/// `EFI_FIRMWARE_FILE_SYSTEM3_GUID`, 5473c07a-3dcb-4dca-bd6f-1e9689e7349a.
const FFS3: [u8; 16] = [
    0x7a, 0xc0, 0x73, 0x54, 0xcb, 0x3d, 0xca, 0x4d, 0xbd, 0x6f, 0x1e, 0x96, 0x89, 0xe7, 0x34, 0x9a,
];

// Returns the GUID of a file system, as it is in `FileSystemGuid`.
pub(crate) fn system_guid(file_system: FileSystem) -> Guid
    ensures { bytes_of result ≡ system_guid file_system }
{
    match file_system {
        FileSystem::Ffs2 => Guid::from_bytes(FFS2),
        FileSystem::Ffs3 => Guid::from_bytes(FFS3),
    }
}

// Returns whether `Signature` is `_FVH`.
fn has_signature(bytes: &[u8]) -> bool
    requires { 56 ≤ length bytes.now }
    ensures { result ≡ has_signature bytes.now }
{
    bytes[SIGNATURE_OFFSET..SIGNATURE_OFFSET + 4] == SIGNATURE[..]
}

// Returns the file system whose GUID is in `FileSystemGuid`, or None if the GUID is neither the
// GUID of FFS2 nor the GUID of FFS3.
fn file_system_at(bytes: &[u8]) -> Option<FileSystem>
    requires { 56 ≤ length bytes.now }
    ensures { result ≡ file_system_at bytes.now }
{
    let guid = guid_at(bytes, FILE_SYSTEM_GUID_OFFSET);
    if guid == system_guid(FileSystem::Ffs2) {
        Some(FileSystem::Ffs2)
    } else if guid == system_guid(FileSystem::Ffs3) {
        Some(FileSystem::Ffs3)
    } else {
        None
    }
}

/// Returns whether the bytes claim to be exactly one volume: there are at least 56 bytes, the
/// `Signature` at 40 is `_FVH`, the `FileSystemGuid` at 16 is the GUID of FFS2 or FFS3, and
/// `FvLength` is the number of bytes. No other check of the header is made. Takes no memory. (PI
/// specification, volume 3, section 3.2.1.1.)
pub fn is_one_volume(bytes: &[u8]) -> bool
    ensures { result ≡ is_one_volume bytes.now }
{
    bytes.len() >= BLOCK_MAP_OFFSET
        && has_signature(bytes)
        && file_system_at(bytes).is_some()
        && volume_len_at(bytes) == bytes.len() as u64
}

// Returns whether `HeaderLength` may have this value: a multiple of 8 from 64 to the limit.
fn is_header_len(len: usize) -> bool
    ensures { result ≡ is_header_len len }
{
    len % 8 == 0 && HEADER_LEAST <= len && len <= HEADER_LIMIT
}

// Returns whether `FvLength` may have the value `len`: a multiple of 8, at least the header's
// length `header_len`, and at most the limit.
fn is_volume_len(header_len: usize, len: u64) -> bool
    ensures { result ≡ is_volume_len header_len len }
{
    len % 8 == 0 && header_len as u64 <= len && len <= VOLUME_LIMIT
}

// Returns whether all bytes of the header are there.
fn has_header(bytes: &[u8]) -> bool
    requires { 56 ≤ length bytes.now }
    ensures { result ≡ nat_le (header_len_at bytes.now) (length bytes.now) }
{
    header_len_at(bytes) <= bytes.len()
}

// Returns whether the 16-bit words of the header sum to 0 modulo 65536.
fn has_sum(bytes: &[u8]) -> bool
    requires long { 56 ≤ length bytes.now }
    requires header_len { is_header_len (header_len_at bytes.now) ≡ true }
    requires within { header_len_at bytes.now ≤ length bytes.now }
    ensures { result ≡ has_sum (header_len_at bytes.now) bytes.now }
{
    sum16(&bytes[..header_len_at(bytes)]) == 0
}

// Returns whether both numbers of a pair are zero, as in the pair that ends a block map.
fn is_zero_pair(count: u32, size: u32) -> bool
    ensures { result ≡ is_zero_pair (count, size) }
{
    count == 0 && size == 0
}

// Returns whether no pair is a pair of zeros, and the blocks of all pairs together have `total`
// bytes. The loop counts down from `total`, so no sum can wrap.
fn makes_up(blocks: &[u8], total: u64) -> bool
    requires { length blocks.now % 8 ≡ 0 }
    ensures { result ≡ makes_up (pairs_of blocks.now) total }
{
    let mut rest = blocks;
    let mut left = total;
    while let Some(((count, size), after)) = first_pair(rest) {
        if is_zero_pair(count, size) {
            return false;
        }
        let bytes = u64::from(count) * u64::from(size);
        if left < bytes {
            return false;
        }
        left -= bytes;
        rest = after;
    }
    left == 0
}

// Returns whether the first pair of zeros is at the end of the header, and the blocks of the pairs
// before it together have `FvLength` bytes.
fn has_block_map(bytes: &[u8]) -> bool
    requires long { 56 ≤ length bytes.now }
    requires header_len { is_header_len (header_len_at bytes.now) ≡ true }
    requires within { header_len_at bytes.now ≤ length bytes.now }
    ensures { result ≡ has_block_map (header_len_at bytes.now) bytes.now }
{
    let header_len = header_len_at(bytes);
    let blocks = field(bytes, BLOCK_MAP_OFFSET, header_len - HEADER_LEAST);
    let last = header_len - BLOCK_ENTRY_LEN;
    makes_up(blocks, volume_len_at(bytes))
        && u32_at(bytes, last + NUM_BLOCKS_OFFSET) == 0
        && u32_at(bytes, last + BLOCK_LENGTH_OFFSET) == 0
}

// Returns whether `FvLength` may have its value.
fn has_volume_len(bytes: &[u8]) -> bool
    requires { 56 ≤ length bytes.now }
    ensures { result ≡ is_volume_len (header_len_at bytes.now) (volume_len_at bytes.now) }
{
    is_volume_len(header_len_at(bytes), volume_len_at(bytes))
}

// Returns whether all bytes of the volume are there.
fn has_volume(bytes: &[u8]) -> bool
    requires { 56 ≤ length bytes.now }
    ensures { result ≡ nat_le (volume_len_at bytes.now) (length bytes.now) }
{
    volume_len_at(bytes) <= bytes.len() as u64
}

// Returns whether there is no extended header, or it has 20 to `EXT_LIMIT` bytes and lies after the
// volume header and within the volume.
fn has_ext(bytes: &[u8]) -> bool
    requires least { 56 ≤ length bytes.now }
    requires within { volume_len_at bytes.now ≤ length bytes.now }
    ensures { result ≡ has_ext (header_len_at bytes.now) (volume_len_at bytes.now) bytes.now }
{
    let header_len = header_len_at(bytes);
    let volume_len = volume_len_at(bytes);
    let offset = ext_offset_at(bytes);
    if offset == 0 {
        return true;
    }
    let start = usize::from(offset);
    if start < header_len || (start + EXT_HEADER_LEN) as u64 > volume_len {
        return false;
    }
    let size = ext_size_at(bytes);
    EXT_HEADER_LEN as u32 <= size
        && size <= EXT_LIMIT
        && start as u64 + u64::from(size) <= volume_len
}

// Returns the offset at which the first file may begin.
fn first_at(bytes: &[u8]) -> u64
    requires least { 56 ≤ length bytes.now }
    requires ext { ExtHeaderWithin bytes.now }
    ensures { result ≡ first_at bytes.now }
{
    let offset = ext_offset_at(bytes);
    if offset == 0 {
        return header_len_at(bytes) as u64;
    }
    let size = ext_size_at(bytes);
    up_to_8(u64::from(offset) + u64::from(size))
}

// Returns the extent of a volume with this file system, whose header has no fault.
fn extent_at(bytes: &[u8], file_system: FileSystem) -> Extent
    requires least { 56 ≤ length bytes.now }
    requires ext { ExtHeaderWithin bytes.now }
    ensures { result ≡ extent_at file_system bytes.now }
{
    Extent {
        length: volume_len_at(bytes),
        header_len: header_len_at(bytes) as u64,
        first: first_at(bytes),
        file_system,
        polarity: FvAttributes::from_bits_retain(u32_at(bytes, ATTRIBUTES_OFFSET)).polarity(),
    }
}

/// Returns the extent of the volume that the bytes begin with, and checks nothing. The caller must
/// know that the bytes begin with a volume: for example, because `verify_fv` found no fault in
/// them. Takes no memory. (PI specification, volume 3, section 3.2.1.1.)
pub fn checked_extent(bytes: &[u8]) -> Extent
    requires { BeginsWithHeader bytes.now }

    // No other extent fits the bytes.
    ensures { (h : HeadFields) (e : Extent) → BeginsVolume h e bytes.now → result ≡ e }
{
    let Some(file_system) = file_system_at(bytes) else {
        unreachable!()
    };
    extent_at(bytes, file_system)
}

// Checks the first 56 bytes of the header. Returns the file system, or the first fault.
fn leading_verdict(bytes: &[u8]) -> Result<FileSystem, Fault>
    ensures ok { IfOk result
        (λ s. (first_fault (leading_checks bytes.now) ≡ None) × (file_system_at bytes.now ≡ Some s)) }
    ensures long { OnOk result (56 ≤ length bytes.now) }
    ensures header_len { OnOk result (is_header_len (header_len_at bytes.now) ≡ true) }
    ensures err { IfErr result (λ f. first_fault (leading_checks bytes.now) ≡ Some f) }
{
    let end = bytes.len() as u64;
    check(bytes.len() >= BLOCK_MAP_OFFSET, FaultKind::Truncated, end)?;
    check(
        has_signature(bytes),
        FaultKind::Signature,
        SIGNATURE_OFFSET as u64,
    )?;
    let Some(file_system) = file_system_at(bytes) else {
        return Err(Fault::outer(FaultKind::FileSystem, FILE_SYSTEM_GUID_OFFSET as u64));
    };
    let revision = bytes[REVISION_OFFSET];
    check(
        revision == REVISION,
        FaultKind::Revision,
        REVISION_OFFSET as u64,
    )?;
    let header_len = header_len_at(bytes);
    check(
        is_header_len(header_len),
        FaultKind::HeaderLength,
        HEADER_LENGTH_OFFSET as u64,
    )?;
    Ok(file_system)
}

// Makes the checks that come after `leading_verdict`: whether all HeaderLength bytes are there,
// their checksum, the block map, FvLength, whether all FvLength bytes are there, and the extended
// header. Returns the first fault, if there is one.
fn later_verdict(bytes: &[u8]) -> Result<(), Fault>
    requires long { 56 ≤ length bytes.now }
    requires header_len { is_header_len (header_len_at bytes.now) ≡ true }
    ensures ok { OnOk result (first_fault (later_checks bytes.now) ≡ None) }
    ensures ext { OnOk result (ExtHeaderWithin bytes.now) }
    ensures err { IfErr result (λ f. first_fault (later_checks bytes.now) ≡ Some f) }
{
    let end = bytes.len() as u64;
    check(has_header(bytes), FaultKind::Truncated, end)?;
    check(has_sum(bytes), FaultKind::HeaderSum, 0)?;
    check(
        has_block_map(bytes),
        FaultKind::BlockMap,
        BLOCK_MAP_OFFSET as u64,
    )?;
    check(
        has_volume_len(bytes),
        FaultKind::Length,
        FV_LENGTH_OFFSET as u64,
    )?;
    check(has_volume(bytes), FaultKind::Truncated, end)?;
    check(
        has_ext(bytes),
        FaultKind::ExtHeader,
        EXT_HEADER_OFFSET_OFFSET as u64,
    )
}

// Makes all checks of a header. Returns the volume's extent, or the first fault.
fn verdict(bytes: &[u8]) -> Result<Extent, Fault>
    ensures { result ≡ head_verdict bytes.now }
{
    let file_system = leading_verdict(bytes)?;
    later_verdict(bytes)?;
    Ok(extent_at(bytes, file_system))
}

/// Checks the header of the volume that the bytes begin with. Returns the volume's extent:
/// `FvLength`, `HeaderLength`, where the first file may begin, the file system and the erase
/// polarity. Takes no memory. (PI specification, volume 3, section 3.2.1.1.)
///
/// # Errors
///
/// The first fault of the header. The checks are made in this order: Truncated if there are fewer
/// than 56 bytes, Signature, FileSystem, Revision, HeaderLength, Truncated if there are fewer than
/// HeaderLength bytes, HeaderSum, BlockMap, Length, Truncated if there are fewer than FvLength
/// bytes, ExtHeader. Offsets are counted from the first byte.
pub fn verify_fv(bytes: &[u8]) -> Result<Extent, Fault>
    // The bytes begin with a volume that has this extent.
    ensures found { IfOk result (λ e. (h : HeadFields) × BeginsVolume h e bytes.now) }

    // If the bytes begin with a volume, its extent is returned.
    ensures only { (h : HeadFields) (e : Extent) → BeginsVolume h e bytes.now → result ≡ Ok e }

    // An error is the fault of the first check that does not hold.
    ensures first { IfErr result (IsFirstFault (head_checks bytes.now)) }

    // The offset of an error is within the bytes or at their end.
    ensures bound { IfErr result (λ f. f.place.offset ≤ length bytes.now) }
{
    verdict(bytes)
}
