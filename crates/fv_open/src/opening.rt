//! Opening a section.

ghost use Rattle.std.specs.Prelude.{◌≡◌, ◌≢◌, ◌⊎◌, ◌+◌, ◌≤◌, ◌<◌, ◌^◌, length, vec_len, Ok, Err, IfOk, IfErr, IsOkAnd, true, false};
ghost use Rattle.std.specs.Cow.{IsBorrowedSlice};
ghost use Rattle.fv_packed.specs.Words.{packed_out_of_memory};
ghost use Rattle.fv_section.specs.Words.{frame_form, frame_len};
ghost use Rattle.fv_open.specs.Contents.{as_stored, by_way, contents, decoded, opened, opened_form, standard, stored_sum, with_sum};
ghost use Rattle.fv_open.specs.Headers.{body_offset, way_of};
ghost use Rattle.fv_open.specs.OpenFaults.{open_out_of_memory};
ghost use Rattle.fv_open.specs.inner.Views.{GivesOpened};
ghost use Rattle.fv_open.specs.Ways.{is_decoded};
ghost use Rattle.fv_open.specs.declared.way.Way.TheVariants as ways;

use crate::encapsulation::{Encapsulation, body_offset, data_from, head_in};
use crate::fault::{OpenFault, OpenFaultKind};
use crate::offsets::CRC32_OFFSET;
use crate::opened::Opened;
use crate::sections::first_section;
use crate::unpack::{customized, lzma_x86, moved, standard};
use crate::way::Way;
use fv_base::field::u32_at;
use fv_crc32::crc32;
use fv_packed::PackedFault;
use fv_section::Frame;
use fv_tiano::Width;
use std::alloc::Global;
use std::borrow::CowSlice;

// Returns data as they are, as contents.
fn as_stored<'a>(
    head: Encapsulation,
    bytes: &'a [u8],
    limit: usize,
) -> Result<Opened<'a>, OpenFault>
    ensures gives { GivesOpened result (as_stored limit head bytes.now) }
    ensures lent { IfOk result (λ o. IsBorrowedSlice o.contents) }
    ensures bound { IfErr result (λ f. f.offset ≤ head.data_offset) }
    ensures known { IfErr result (λ f. f ≢ open_out_of_memory) }
{
    if limit < bytes.len() {
        return Err(OpenFault::at(OpenFaultKind::TooLong, head.data_offset));
    }
    Ok(Opened {
        way: head.way,
        contents: CowSlice::Borrowed(bytes),
    })
}

// Returns the CRC32 that a section stores.
fn stored_sum(section: &Frame<'_>) -> u32
    requires { 24 ≤ length section.now.body.now }
    ensures { result ≡ stored_sum (frame_form section.now) }
{
    u32_at(section.body, CRC32_OFFSET)
}

// Returns the data of a section as they are, as contents, if their CRC32 is the stored one.
fn with_sum<'a>(
    section: &Frame<'a>,
    head: Encapsulation,
    bytes: &'a [u8],
    limit: usize,
) -> Result<Opened<'a>, OpenFault>
    requires within { head.data_offset ≤ frame_len (frame_form section.now) }
    requires sum { 24 ≤ length section.now.body.now }
    ensures gives { GivesOpened result (with_sum limit head (frame_form section.now) bytes.now) }
    ensures lent { IfOk result (λ o. IsBorrowedSlice o.contents) }
    ensures bound { IfErr result (λ f. f.offset ≤ frame_len (frame_form section.now)) }
    ensures known { IfErr result (λ f. f ≢ open_out_of_memory) }
{
    let opened = as_stored(head, bytes, limit)?;
    if crc32(bytes) != stored_sum(section) {
        let place = body_offset(section) + CRC32_OFFSET;
        return Err(OpenFault::at(OpenFaultKind::Sum, place));
    }
    Ok(opened)
}

// Returns what data gave by a way, as contents.
fn decoded<'a>(
    way: Way,
    found: Result<Vec<u8>, PackedFault>,
    head: Encapsulation,
    bytes: &'a [u8],
) -> Result<Opened<'a>, OpenFault>
    requires { head.data_offset + length bytes.now < 2 ^ 63 + 8 }
    ensures ok { IfOk found (λ v. GivesOpened result (decoded head bytes.now (by_way way (Ok v.items)))) }
    ensures err { IfErr found (λ f. GivesOpened result (decoded head bytes.now (by_way way (Err f)))) }
    ensures way { IfOk result (λ o. o.way ≡ way) }
    ensures bound { IfErr result (λ f. f.offset ≤ head.data_offset + length bytes.now) }
{
    match found {
        Ok(contents) => Ok(Opened {
            way,
            contents: CowSlice::Owned(contents),
        }),
        Err(fault) => Err(moved(fault, head.data_offset, bytes.len())),
    }
}

// Returns what the data of a compression section of CompressionType 1 give, as contents.
fn standard_contents<'a>(
    alloc: Global,
    head: Encapsulation,
    bytes: &'a [u8],
    limit: usize,
) -> Result<Opened<'a>, OpenFault>
    requires { head.data_offset + length bytes.now < 2 ^ 63 + 8 }
    ensures gives { GivesOpened result (decoded head bytes.now (standard limit bytes.now)) }
    ensures way { IfOk result (λ o. is_decoded o.way ≡ true) }
    ensures bound { IfErr result (λ f. f.offset ≤ head.data_offset + length bytes.now) }
{
    match standard(alloc, bytes, limit) {
        Ok((way, contents)) => Ok(Opened {
            way,
            contents: CowSlice::Owned(contents),
        }),
        Err(fault) => Err(moved(fault, head.data_offset, bytes.len())),
    }
}

/// Returns the contents of a section with this header.
pub(crate) fn contents<'a>(
    alloc: Global,
    section: &Frame<'a>,
    head: Encapsulation,
    limit: usize,
) -> Result<Opened<'a>, OpenFault>
    requires after { body_offset (frame_form section.now) ≤ head.data_offset }
    requires within { head.data_offset ≤ frame_len (frame_form section.now) }
    requires sum { head.way ≡ ways.Crc32 → 24 ≤ length section.now.body.now }
    ensures gives { GivesOpened result (contents limit (frame_form section.now) head) }
    ensures lent { IfOk result (λ o. is_decoded o.way ≡ false → IsBorrowedSlice o.contents) }
    ensures bound { IfErr result (λ f. f.offset ≤ frame_len (frame_form section.now)) }
    ensures memory { IfErr result (λ f. f ≡ open_out_of_memory → is_decoded head.way ≡ true) }
{
    let data = data_from(section, head.data_offset);
    match head.way {
        Way::Standard => standard_contents(alloc, head, data, limit),
        Way::Uefi => {
            let found = fv_tiano::decode(alloc, data, Width::Uefi, limit);
            decoded(Way::Uefi, found, head, data)
        }
        Way::Tiano => {
            let found = fv_tiano::decode(alloc, data, Width::Tiano, limit);
            decoded(Way::Tiano, found, head, data)
        }
        Way::Customized => decoded(Way::Lzma, customized(alloc, data, limit), head, data),
        Way::Lzma => decoded(Way::Lzma, fv_lzma::decode(alloc, data, limit), head, data),
        Way::LzmaX86 => decoded(Way::LzmaX86, lzma_x86(alloc, data, limit), head, data),
        Way::Crc32 => with_sum(section, head, data, limit),
        _ => as_stored(head, data, limit),
    }
}

/// Returns the contents of the section at the start of the bytes, and the way that gave them. Bytes
/// after this section are not read. The contents have at most `limit` bytes. Contents that are stored
/// as they are are borrowed from the section. Only decoding allocates memory. (PI specification,
/// volume 3, sections 3.2.4, 3.2.5.2 and 3.2.5.7.)
///
/// # Errors
///
/// Short or UnknownWay, as `way_of`. Damaged or TooLong, where the decoder stopped. TooLong at the
/// contents if they are stored as they are and longer than the limit. Sum at the stored CRC32, if the
/// contents have another one. OutOfMemory at 0.
pub fn open<'a>(alloc: Global, section: &'a [u8], limit: usize) -> Result<Opened<'a>, OpenFault>
    // The result is what the section contains, and the way.
    ensures found { IfOk result (λ o. opened limit section.now ≡ Ok (opened_form o)) }

    // The error is the first fault of the section, or memory ran out.
    ensures none { IfErr result (λ f. (f ≡ open_out_of_memory) ⊎ (opened limit section.now ≡ Err f)) }

    // Contents that are not decoded are borrowed from the section.
    ensures lent { IfOk result (λ o. is_decoded o.way ≡ false → IsBorrowedSlice o.contents) }

    // Memory runs out only if the contents have to be decoded.
    ensures memory { IfErr result (λ f. f ≡ open_out_of_memory → IsOkAnd (way_of section.now) (λ e. is_decoded e.way ≡ true)) }

    // The place of a fault is within the bytes.
    ensures bound { IfErr result (λ f. f.offset ≤ length section.now) }
{
    let frame = first_section(section)?;
    let head = head_in(&frame)?;
    contents(alloc, &frame, head, limit)
}
