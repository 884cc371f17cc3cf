//! Finding firmware volumes.

ghost use Rattle.std.specs.Prelude.{◌≡◌, true, ◌%◌, ◌≤◌, ◌+◌, ℕ, List, length, drop, IfOk, IfErr, IfSome, IfNone};
ghost use Rattle.fv_base.specs.Words.{field, out_of_memory};
ghost use Rattle.fv_head.specs.Words.{has_signature};
ghost use Rattle.fv_flash.specs.FoundVolumes.{AreFound, Found, IsPlace, VolumeAt};
ghost use Rattle.fv_flash.specs.inner.FoundWalks.{IsNext, IsReached, NoneFrom};

use fv_base::Fault;
use fv_base::field::{bytes_from, field};
use fv_head::{SIGNATURE, verify_fv};
use std::alloc::Global;
use std::marker::Model;

/// The place of a firmware volume in some bytes.
#[derive(Clone, Copy, Debug, PartialEq, Eq)]
pub struct FoundVolume {
    /// The offset at which the volume begins, in bytes from the first byte.
    pub offset: u64,
    /// FvLength: the length of the volume in bytes.
    pub length: u64,
}

impl FoundVolume {
    /// Returns the bytes of the volume, which must be in the image.
    pub fn bytes(self, image: &[u8]) -> &[u8]
        requires { VolumeAt image.now self.offset self.length }
        ensures bytes { result.now ≡ field self.offset self.length image.now }
        ensures length { length result.now ≡ self.length }
    {
        field(image, self.offset as usize, self.length as usize)
    }
}

/// The offsets at which volumes begin in some bytes, in ascending order, in bytes from the first
/// byte. Contracts see the list of the offsets.
#[derive(Drop)]
pub struct Offsets {
    list: Vec<u64>,
}

impl Model for Offsets {
    ghost use Rattle.std.specs.Prelude.{ℕ, List};

    ghost Value = { List ℕ };

    ghost view = { λ o. o.list.items };
}

impl Offsets {
    /// Returns the offsets in order.
    pub fn as_slice(&self) -> &[u64]
        ensures { result.now ≡ self.now }
    {
        self.list.as_slice()
    }
}

// Returns whether the signature is 40 bytes after the offset `at`, where the header of a volume at
// `at` would have it.
fn is_signed(bytes: &[u8], at: usize) -> bool
    requires { at + 56 ≤ length bytes.now }
    ensures { result ≡ has_signature (drop at bytes.now) }
{
    bytes[at + 40..at + 44] == SIGNATURE[..]
}

// Returns the first of the offsets `from`, `from` + 8, and so on, from which at least 56 bytes are
// left and which has the signature 40 bytes after it.
fn next_signature(bytes: &[u8], from: usize) -> Option<usize>
    requires multiple { from % 8 ≡ 0 }
    requires within { from ≤ length bytes.now }
    ensures some { IfSome result (λ at. IsReached bytes.now from at × (at + 56 ≤ length bytes.now)
        × (has_signature (drop at bytes.now) ≡ true)) }
    ensures none { IfNone result (NoneFrom bytes.now from) }
{
    let mut at = from;
    while at + 56 <= bytes.len() {
        if is_signed(bytes, at) {
            return Some(at);
        }
        at += 8;
    }
    None
}

// Returns the first volume that begins at one of the offsets `from`, `from` + 8, and so on.
fn next_volume(bytes: &[u8], from: usize) -> Option<FoundVolume>
    requires multiple { from % 8 ≡ 0 }
    requires within { from ≤ length bytes.now }
    ensures some { IfSome result (λ v. IsNext bytes.now from v.offset v.length) }
    ensures none { IfNone result (NoneFrom bytes.now from) }
{
    let mut place = from;
    while let Some(at) = next_signature(bytes, place) {
        if let Ok(extent) = verify_fv(bytes_from(bytes, at)) {
            return Some(FoundVolume {
                offset: at as u64,
                length: extent.length,
            });
        }
        place = at + 8;
    }
    None
}

/// Returns the volumes in the bytes, in the order of their offsets. The search starts at the first
/// byte, goes on in steps of 8, and continues at the end of each volume that it finds. A volume
/// begins at an offset if `verify_fv` of the bytes from there on returns Ok. `verify_fv` is called
/// only if the signature is 40 bytes after the offset, and it sums at most 2112 bytes, so the time
/// is linear in the number of bytes, whatever they are. (PI specification, volume 3, section
/// 3.2.1.1.)
///
/// # Errors
///
/// OutOfMemory at offset 0, only if a volume begins in the bytes.
pub fn volumes(alloc: Global, bytes: &[u8]) -> Result<Vec<FoundVolume>, Fault>
    // The result lists the volumes in the bytes, each with its offset and its length.
    ensures found { IfOk result (λ v. AreFound bytes.now v.items) }

    // No other list of volumes satisfies `AreFound`.
    ensures only { IfOk result (λ v. (other : List FoundVolume) → AreFound bytes.now other → other ≡ v.items) }

    // The only error is OutOfMemory.
    ensures err { IfErr result (λ f. f ≡ out_of_memory) }

    // Memory runs out only if a volume begins in the bytes, at a multiple of 8.
    ensures memory { IfErr result (λ _. (place : ℕ) × IsPlace bytes.now place) }
{
    let mut list = Vec::new(alloc);
    let mut from = 0;
    while let Some(volume) = next_volume(bytes, from) {
        list.push(volume)?;
        from = volume.offset as usize + volume.length as usize;
    }
    Ok(list)
}

/// Returns the offsets of the volumes that `volumes` finds in the bytes, in ascending order. (PI
/// specification, volume 3, section 3.2.1.1.)
///
/// # Errors
///
/// OutOfMemory at offset 0, only if a volume begins in the bytes.
pub fn scan(alloc: Global, bytes: &[u8]) -> Result<Offsets, Fault>
    // The result lists the offsets at which the volumes in the bytes begin.
    ensures found { IfOk result (λ o. Found bytes.now o) }

    // No other list of offsets satisfies `Found`.
    ensures only { IfOk result (λ o. (p : List ℕ) → Found bytes.now p → p ≡ o) }

    // The only error is OutOfMemory.
    ensures err { IfErr result (λ f. f ≡ out_of_memory) }

    // Memory runs out only if a volume begins in the bytes, at a multiple of 8.
    ensures memory { IfErr result (λ _. (place : ℕ) × IsPlace bytes.now place) }
{
    let found = volumes(alloc, bytes)?;
    let mut offsets = Vec::new(alloc);
    for volume in found.as_slice() {
        offsets.push(volume.offset)?;
    }
    Ok(Offsets { list: offsets })
}
