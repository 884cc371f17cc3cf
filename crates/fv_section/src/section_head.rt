//! Writing section headers.

ghost use Rattle.std.specs.Prelude.{◌≡◌, ◌≤◌, [], ◌∷◌, ◌++◌};
ghost use Rattle.fv_base.specs.Words.{le_bytes};
ghost use Rattle.fv_section.specs.Frames.{IsSectionHeader};
ghost use Rattle.fv_section.specs.StreamReads.{FitsForm, IsHeadOfFrame, StreamsAreRead};
ghost use Rattle.fv_section.specs.SectionImage.{section_head_of};

use crate::offsets::{EXTENDED_HEADER_LEN, EXTENDED_SIZE_OFFSET, HEADER_LEN, TYPE_OFFSET};
use byteorder::{ByteOrder, LittleEndian};
use std::marker::Model;

/// The bytes of a section header: 4, or 8 for an extended header. Contracts see the list of these
/// bytes. (PI specification, volume 3, section 3.2.4, `EFI_COMMON_SECTION_HEADER` and
/// `EFI_COMMON_SECTION_HEADER2`.)
#[derive(Drop)]
pub struct SectionHead {
    bytes: [u8; EXTENDED_HEADER_LEN],
    count: usize,
}

impl Model for SectionHead {
    ghost use Rattle.std.specs.Prelude.{List, ℕ, ◌≤◌, take};

    ghost Value = { List ℕ };

    ghost view = { λ h. take h.count h.bytes };

    ghost invariant = { λ h. h.count ≤ 8 };
}

impl SectionHead {
    /// Returns the bytes in order.
    pub fn as_slice(&self) -> &[u8]
        ensures { result.now ≡ self.now }
    {
        &self.bytes[..self.count]
    }
}

// Returns an `EFI_COMMON_SECTION_HEADER` with this type and size.
fn short_head(kind: u8, size: u32) -> SectionHead
    requires { size ≤ 0xffffff }
    ensures { result ≡ le_bytes 3 size ++ (kind ∷ []) }
{
    let mut bytes = [0; EXTENDED_HEADER_LEN];
    LittleEndian::write_u24(&mut bytes, size);
    bytes[TYPE_OFFSET] = kind;
    SectionHead {
        bytes,
        count: HEADER_LEN,
    }
}

// Returns an `EFI_COMMON_SECTION_HEADER2` with this type and size.
fn extended_head(kind: u8, size: u32) -> SectionHead
    ensures { result ≡ le_bytes 3 0xffffff ++ (kind ∷ le_bytes 4 size) }
{
    let mut bytes = [0xff; EXTENDED_HEADER_LEN];
    bytes[TYPE_OFFSET] = kind;
    LittleEndian::write_u32(&mut bytes[EXTENDED_SIZE_OFFSET..], size);
    SectionHead {
        bytes,
        count: EXTENDED_HEADER_LEN,
    }
}

/// Returns the header of a section with this `Type` and a body of `body_len` bytes. A short header
/// holds the section's size in `Size`; an extended header holds 0xFFFFFF there and the size in
/// `ExtendedSize`. The size includes the header, and must fit the form: it is at most 0xFFFFFE for
/// a short header, and at most 0xFFFFFFFF for an extended header. Allocates no memory. (PI
/// specification, volume 3, section 3.2.4.)
pub fn section_head_bytes(kind: u8, extended: bool, body_len: u64) -> SectionHead
    requires fits { FitsForm extended body_len }

    // The result is a header of this form and type for a body of `body_len` bytes.
    ensures read { IsSectionHeader extended kind body_len result }

    // Followed by any body of `body_len` bytes, it makes a frame.
    ensures frame { IsHeadOfFrame extended kind body_len result }

    // Its bytes are the bytes that `section_head_of` defines.
    ensures bytes { result ≡ section_head_of kind extended body_len }

    // Frames that are written one after another, with zero bytes between them, are read back as the
    // same frames.
    ensures streams { StreamsAreRead }
{
    if extended {
        extended_head(kind, (body_len + EXTENDED_HEADER_LEN as u64) as u32)
    } else {
        short_head(kind, (body_len + HEADER_LEN as u64) as u32)
    }
}
