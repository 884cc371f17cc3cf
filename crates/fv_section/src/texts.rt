//! The inner formats of three types of leaf sections.

ghost use Rattle.std.specs.Prelude.{◌≡◌, ℕ, List, IfSome, IfNone};
ghost use Rattle.fv_base.specs.Words.{words_of};
ghost use Rattle.fv_section.specs.Texts.{IsText, IsVersion, IsFreeform};
ghost use Rattle.fv_section.specs.inner.FrameVerdicts.{none_zero, is_text};

use crate::offsets::{SUBTYPE_DATA_OFFSET, VERSION_STRING_OFFSET};
use byteorder::{ByteOrder, LittleEndian};
use fv_base::{Guid, guid_at};

// Returns whether no 16-bit unit is zero.
fn none_zero(units: &[u8]) -> bool
    ensures { result ≡ none_zero (words_of units.now) }
{
    let mut rest = units;
    while rest.len() >= 2 {
        if LittleEndian::read_u16(rest) == 0 {
            return false;
        }
        rest = &rest[2..];
    }
    true
}

// Returns whether the bytes are 16-bit units, and only the last unit is zero.
fn is_text(bytes: &[u8]) -> bool
    ensures { result ≡ is_text bytes.now }
{
    let len = bytes.len();
    len >= 2
        && len % 2 == 0
        && LittleEndian::read_u16(&bytes[len - 2..]) == 0
        && none_zero(&bytes[..len - 2])
}

/// Returns the text (`FileNameString`) of a user interface section's body
/// (`EFI_SECTION_USER_INTERFACE`, type 0x15): the bytes of its 16-bit units, without the zero unit
/// that ends them. Returns None if the body is empty or has an odd number of bytes, or if its last
/// unit is not its only zero unit. Allocates no memory. (PI specification, volume 3, section
/// 3.2.5.14.)
pub fn ui_text(body: &[u8]) -> Option<&[u8]>
    ensures found { IfSome result (λ text. IsText body.now text.now) }
    ensures none { IfNone result ((text : List ℕ) → IsText body.now text → ⊥) }
{
    if is_text(body) {
        Some(&body[..body.len() - 2])
    } else {
        None
    }
}

/// Returns the number (`BuildNumber`) and the text (`VersionString`) of a version section's body
/// (`EFI_SECTION_VERSION`, type 0x14). The text is returned without the zero unit that ends it.
/// Returns None if the body is not a 2-byte number followed by a text and its zero unit. Allocates
/// no memory. (PI specification, volume 3, section 3.2.5.15.)
pub fn version(body: &[u8]) -> Option<(u16, &[u8])>
    ensures found { IfSome result (λ v. IsVersion body.now v.0 v.1.now) }
    ensures none { IfNone result ((build : ℕ) (text : List ℕ) → IsVersion body.now build text → ⊥) }
{
    if body.len() < VERSION_STRING_OFFSET {
        return None;
    }
    let (number, units) = body.split_at(VERSION_STRING_OFFSET);
    let text = ui_text(units)?;
    Some((LittleEndian::read_u16(number), text))
}

/// Returns the GUID (`SubTypeGuid`) at the start of a freeform subtype section's body
/// (`EFI_SECTION_FREEFORM_SUBTYPE_GUID`, type 0x18), and the bytes after it. Returns None if the
/// body has fewer than 16 bytes. Allocates no memory. (PI specification, volume 3, section
/// 3.2.5.6.)
pub fn freeform(body: &[u8]) -> Option<(Guid, &[u8])>
    ensures found { IfSome result (λ v. IsFreeform body.now v.0 v.1.now) }
    ensures none { IfNone result ((guid : Guid) (rest : List ℕ) → IsFreeform body.now guid rest → ⊥) }
{
    if body.len() < SUBTYPE_DATA_OFFSET {
        return None;
    }
    Some((guid_at(body, 0), &body[SUBTYPE_DATA_OFFSET..]))
}
