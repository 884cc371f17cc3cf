//! The extended header of a volume: how it is kept in memory, and how it is read.

ghost use Rattle.std.specs.Prelude.{◌≡◌, ◌*◌, ◌≤◌, ℕ, List, drop, length, IfOk, IfErr, IfSome, IfNone};
ghost use Rattle.fv_base.specs.Words.{out_of_memory, ext_limit, le_at};
ghost use Rattle.fv_head.specs.Ext.{BeginNoEntry, SplitsEntries, IsExt, kept_payload, is_used_size};
ghost use Rattle.fv_head.specs.HeadReads.{IsReadExt};

use crate::offsets::{
    EXT_ENTRY_HEADER_LEN, EXT_ENTRY_SIZE_OFFSET, EXT_ENTRY_TYPE_OFFSET, EXT_HEADER_LEN,
    FV_NAME_OFFSET,
};
use fv_base::field::{bytes_from, u16_at};
use fv_base::{Fault, Guid, guid_at};
use std::alloc::Global;
use std::marker::Model;
use std::mem::size_of;

/// The type of an entry that holds the used size: `EFI_FV_EXT_TYPE_USED_SIZE_TYPE`.
const USED_SIZE: u16 = 3;

/// The payload that is kept in place of the value of a used size.
const ZERO_USED_SIZE: [u8; 4] = [0; 4];

/// An entry of an extended header. In contracts, it is the pair of its type and its payload. (PI
/// specification, volume 3, section 3.2.1.2, `EFI_FIRMWARE_VOLUME_EXT_ENTRY`.)
#[derive(Drop)]
pub struct ExtEntry<'a> {
    // The entry's header of 4 bytes, and then its payload. A field for the type would take more
    // memory, and an entry in a volume can be as short as its header.
    bytes: &'a [u8],
}

// An entry has at least 4 bytes in the volume, and a value of this type has 16 bytes. So the values
// of a list take at most 4 times the length that the entries have in the volume.
const _: () = prove!(size_of::<ExtEntry<'static>>() == 16);

impl<'a> Model for ExtEntry<'a> {
    ghost use Rattle.std.specs.Prelude.{◌≤◌, ℕ, List, drop, length};
    ghost use Rattle.fv_base.specs.Words.{le_at};
    ghost use Rattle.fv_head.specs.Ext.{kept_payload};

    ghost Value = { ℕ × List ℕ };

    ghost view = { λ e. (le_at 2 2 e.bytes.now, kept_payload (le_at 2 2 e.bytes.now) (drop 4 e.bytes.now)) };

    ghost invariant = { λ e. 4 ≤ length e.bytes.now };
}

impl<'a> ExtEntry<'a> {
    /// Returns the entry's type, `ExtEntryType`: 1 for OEM types (`EFI_FV_EXT_TYPE_OEM_TYPE`), 2
    /// for a GUID entry (`EFI_FV_EXT_TYPE_GUID_TYPE`), 3 for the used size
    /// (`EFI_FV_EXT_TYPE_USED_SIZE_TYPE`). It may have any other value too. An entry of type 3 holds
    /// the used size only if its payload has 4 bytes.
    pub fn kind(&self) -> u16
        ensures { result ≡ self.now.0 }
    {
        u16_at(self.bytes, EXT_ENTRY_TYPE_OFFSET)
    }

    /// Returns the bytes after the entry's header. For a used size (an entry of type 3 with 4 bytes
    /// of payload) they are four zero bytes, because its value is not part of the meaning.
    pub fn payload(&self) -> &'a [u8]
        ensures { result.now ≡ self.now.1 }
    {
        let payload = &self.bytes[EXT_ENTRY_HEADER_LEN..];
        if is_used_size(self.kind(), payload) {
            return &ZERO_USED_SIZE;
        }
        payload
    }
}

/// The extended header of a volume. Only reading an extended header makes a value of this type. In
/// contracts, it is an `Extension` for which `IsReadExt` holds: there are bytes that form an
/// extended header with this meaning. (PI specification, volume 3, section 3.2.1.2,
/// `EFI_FIRMWARE_VOLUME_EXT_HEADER`.)
#[derive(Drop)]
pub struct ExtHeader<'a> {
    name: Guid,
    entries: Vec<ExtEntry<'a>>,
    tail: &'a [u8],
}

impl<'a> Model for ExtHeader<'a> {
    ghost use Rattle.fv_head.specs.Ext.{Extension};
    ghost use Rattle.fv_head.specs.HeadReads.{IsReadExt};

    ghost Value = { Extension };

    ghost view = { λ x. record { name = x.name; entries = x.entries.items; tail = x.tail.now } };

    ghost invariant = { λ x. IsReadExt (record { name = x.name; entries = x.entries.items; tail = x.tail.now }) };
}

impl<'a> ExtHeader<'a> {
    /// Returns the name of the volume, `FvName`.
    pub fn name(&self) -> Guid
        ensures name { result ≡ self.now.name }

        // There are bytes that form an extended header with this meaning.
        ensures read { IsReadExt self.now }
    {
        self.name
    }

    /// Returns the entries, in order.
    pub fn entries(&self) -> &[ExtEntry<'a>]
        ensures { result.now ≡ self.now.entries }
    {
        self.entries.as_slice()
    }

    /// Returns the bytes after the last entry, which do not begin with an entry.
    pub fn tail(&self) -> &'a [u8]
        ensures { result.now ≡ self.now.tail }
    {
        self.tail
    }
}

// Returns the size of the entry that the bytes begin with, or None if they do not begin with an
// entry.
fn entry_len(bytes: &[u8]) -> Option<usize>
    ensures some { IfSome result (λ n. (n ≡ le_at 0 2 bytes.now) × (4 ≤ n) × (n ≤ length bytes.now)) }
    ensures none { IfNone result (BeginNoEntry bytes.now) }
{
    if bytes.len() < EXT_ENTRY_HEADER_LEN {
        return None;
    }
    let size = usize::from(u16_at(bytes, EXT_ENTRY_SIZE_OFFSET));
    if size < EXT_ENTRY_HEADER_LEN || bytes.len() < size {
        return None;
    }
    Some(size)
}

// Returns whether an entry with this type and this payload holds the used size.
pub(crate) fn is_used_size(kind: u16, payload: &[u8]) -> bool
    ensures { result ≡ is_used_size kind payload.now }
{
    kind == USED_SIZE && payload.len() == 4
}

// Reads these bytes as an entry: a header of 4 bytes, and then the payload.
fn entry_of(bytes: &[u8]) -> ExtEntry<'_>
    requires { 4 ≤ length bytes.now }
    ensures kind { result.0 ≡ le_at 2 2 bytes.now }
    ensures payload { result.1 ≡ kept_payload (le_at 2 2 bytes.now) (drop 4 bytes.now) }
{
    ExtEntry { bytes }
}

// Returns how many entries the bytes begin with, so that room for all of them is allocated at once.
fn entry_count(bytes: &[u8]) -> usize
    // If the bytes are some entries and a tail, the result is the number of these entries.
    ensures count { (es : List (ℕ × List ℕ)) (tail : List ℕ) → SplitsEntries es tail bytes.now → result ≡ length es }

    // In any case the result is at most the number of the bytes, divided by 4.
    ensures most { 4 * result ≤ length bytes.now }
{
    let mut rest = bytes;
    let mut count = 0;
    while let Some(len) = entry_len(rest) {
        rest = bytes_from(rest, len);
        count += 1;
    }
    count
}

// Reads the entries that the bytes begin with. Returns the entries, and the tail, which is the
// bytes after the last entry.
fn entries_of(alloc: Global, bytes: &[u8]) -> Result<(Vec<ExtEntry<'_>>, &[u8]), Fault>
    ensures ok { IfOk result (λ r. SplitsEntries r.0.items r.1.now bytes.now) }
    ensures err { IfErr result (λ f. f ≡ out_of_memory) }
{
    let mut entries = Vec::with_capacity(alloc, entry_count(bytes))?;
    let mut rest = bytes;
    while let Some(len) = entry_len(rest) {
        let (entry, after) = rest.split_at(len);
        entries.push(entry_of(entry))?;
        rest = after;
    }
    Ok((entries, rest))
}

// Reads these bytes as an extended header.
pub(crate) fn ext_of(alloc: Global, bytes: &[u8]) -> Result<ExtHeader<'_>, Fault>
    requires least { 20 ≤ length bytes.now }
    requires most { length bytes.now ≤ ext_limit }
    requires size { le_at 16 4 bytes.now ≡ length bytes.now }
    ensures ok { IfOk result (λ x. IsExt x bytes.now) }
    ensures err { IfErr result (λ f. f ≡ out_of_memory) }
{
    let (entries, tail) = entries_of(alloc, &bytes[EXT_HEADER_LEN..])?;
    Ok(ExtHeader {
        name: guid_at(bytes, FV_NAME_OFFSET),
        entries,
        tail,
    })
}
