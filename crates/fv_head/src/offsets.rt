//! The offsets of the fields of a volume's headers, in bytes from the first byte of the header or
//! entry, and functions for the fields that are read in several places. (PI specification, volume
//! 3, section 3.2.1.1, `EFI_FIRMWARE_VOLUME_HEADER`, and section 3.2.1.2,
//! `EFI_FIRMWARE_VOLUME_EXT_HEADER`.)

ghost use Rattle.std.specs.Prelude.{◌≡◌, ◌+◌, ◌≤◌, length};
ghost use Rattle.fv_base.specs.Words.{field};
ghost use Rattle.fv_head.specs.HeadChecks.{header_len_at, volume_len_at, ext_offset_at, ext_size_at};

use fv_base::field::{field, u16_at, u32_at, u64_at};

/// `ZeroVector`, 16 bytes.
pub(crate) const ZERO_VECTOR_OFFSET: usize = 0;

/// `FileSystemGuid`, 16 bytes.
pub(crate) const FILE_SYSTEM_GUID_OFFSET: usize = 16;

/// `FvLength`, 8 bytes.
pub(crate) const FV_LENGTH_OFFSET: usize = 32;

/// `Signature`, 4 bytes.
pub(crate) const SIGNATURE_OFFSET: usize = 40;

/// `Attributes`, 4 bytes.
pub(crate) const ATTRIBUTES_OFFSET: usize = 44;

/// `HeaderLength`, 2 bytes.
pub(crate) const HEADER_LENGTH_OFFSET: usize = 48;

/// `Checksum`, 2 bytes.
pub(crate) const CHECKSUM_OFFSET: usize = 50;

/// `ExtHeaderOffset`, 2 bytes.
pub(crate) const EXT_HEADER_OFFSET_OFFSET: usize = 52;

/// `Reserved`, 1 byte.
pub(crate) const RESERVED_OFFSET: usize = 54;

/// `Revision`, 1 byte.
pub(crate) const REVISION_OFFSET: usize = 55;

/// `BlockMap`, which ends the header.
pub(crate) const BLOCK_MAP_OFFSET: usize = 56;

/// The length of an entry of `BlockMap`, `EFI_FV_BLOCK_MAP_ENTRY`.
pub(crate) const BLOCK_ENTRY_LEN: usize = 8;

/// `NumBlocks` of an entry of `BlockMap`, 4 bytes.
pub(crate) const NUM_BLOCKS_OFFSET: usize = 0;

/// `Length` of an entry of `BlockMap`, 4 bytes.
pub(crate) const BLOCK_LENGTH_OFFSET: usize = 4;

/// The length of a header whose `BlockMap` is only the pair of zeros.
pub(crate) const HEADER_LEAST: usize = 64;

/// `FvName` of an extended header, 16 bytes.
pub(crate) const FV_NAME_OFFSET: usize = 0;

/// `ExtHeaderSize` of an extended header, 4 bytes.
pub(crate) const EXT_HEADER_SIZE_OFFSET: usize = 16;

/// The length of `FvName` and `ExtHeaderSize`, with which an extended header begins. The entries and
/// the tail follow.
pub(crate) const EXT_HEADER_LEN: usize = 20;

/// `ExtEntrySize` of an entry of an extended header, 2 bytes. (`EFI_FIRMWARE_VOLUME_EXT_ENTRY`.)
pub(crate) const EXT_ENTRY_SIZE_OFFSET: usize = 0;

/// `ExtEntryType` of an entry, 2 bytes.
pub(crate) const EXT_ENTRY_TYPE_OFFSET: usize = 2;

/// The length of an entry's header. Its payload follows the header.
pub(crate) const EXT_ENTRY_HEADER_LEN: usize = 4;

// Returns `HeaderLength`.
pub(crate) fn header_len_at(bytes: &[u8]) -> usize
    requires { 56 ≤ length bytes.now }
    ensures { result ≡ header_len_at bytes.now }
{
    usize::from(u16_at(bytes, HEADER_LENGTH_OFFSET))
}

// Returns `FvLength`.
pub(crate) fn volume_len_at(bytes: &[u8]) -> u64
    requires { 56 ≤ length bytes.now }
    ensures { result ≡ volume_len_at bytes.now }
{
    u64_at(bytes, FV_LENGTH_OFFSET)
}

// Returns `ExtHeaderOffset`, which is 0 if there is no extended header.
pub(crate) fn ext_offset_at(bytes: &[u8]) -> u16
    requires { 56 ≤ length bytes.now }
    ensures { result ≡ ext_offset_at bytes.now }
{
    u16_at(bytes, EXT_HEADER_OFFSET_OFFSET)
}

// Returns `ExtHeaderSize` of the extended header at `ExtHeaderOffset`.
pub(crate) fn ext_size_at(bytes: &[u8]) -> u32
    requires least { 56 ≤ length bytes.now }
    requires within { ext_offset_at bytes.now + 20 ≤ length bytes.now }
    ensures { result ≡ ext_size_at bytes.now }
{
    u32_at(
        bytes,
        usize::from(ext_offset_at(bytes)) + EXT_HEADER_SIZE_OFFSET,
    )
}

// Returns the extended header at `ExtHeaderOffset`: `ExtHeaderSize` bytes.
pub(crate) fn ext_bytes_at(bytes: &[u8]) -> &[u8]
    requires least { 56 ≤ length bytes.now }
    requires header { ext_offset_at bytes.now + 20 ≤ length bytes.now }
    requires within { ext_offset_at bytes.now + ext_size_at bytes.now ≤ length bytes.now }
    ensures bytes { result.now ≡ field (ext_offset_at bytes.now) (ext_size_at bytes.now) bytes.now }
    ensures length { length result.now ≡ ext_size_at bytes.now }
{
    let offset = usize::from(ext_offset_at(bytes));
    field(bytes, offset, ext_size_at(bytes) as usize)
}
