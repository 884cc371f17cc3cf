//! The header of a compression section or of a GUID-defined section.

ghost use Rattle.std.specs.Prelude.{◌≡◌, ◌≢◌, ◌+◌, ◌-◌, ◌<◌, ◌≤◌, ◌^◌, length, drop, true, false, IfOk, IfErr};
ghost use Rattle.fv_section.specs.Words.{frame_form, frame_in, frame_len};
ghost use Rattle.fv_open.specs.Headers.{body_offset, compression_head, data_from, data_offset, guided_head, head_in};
ghost use Rattle.fv_open.specs.Headers.{fields_len, has_data_offset, lzma_promised, promised, tiano_promised, way_of};
ghost use Rattle.fv_open.specs.OpenFaults.{open_fault, open_out_of_memory};
ghost use Rattle.fv_open.specs.declared.way.Way.TheVariants as ways;

use crate::fault::{OpenFault, OpenFaultKind};
use crate::offsets::{
    ATTRIBUTES_OFFSET, COMPRESSION, COMPRESSION_DATA_OFFSET, COMPRESSION_TYPE_OFFSET, CRC32_LEN,
    DATA_OFFSET_OFFSET, GUID_DEFINED, GUID_OFFSET, GUIDED_LEN, LZMA_HEADER_LEN, LZMA_LENGTH_OFFSET,
    TIANO_HEADER_LEN, TIANO_LENGTH_OFFSET, TYPE_OFFSET, UNCOMPRESSED_LENGTH_OFFSET,
};
use crate::sections::first_section;
use crate::way::{Way, compression_way, guided_way};
use fv_base::field::{u16_at, u32_at, u64_at};
use fv_base::guid_at;
use fv_section::{Frame, section_header_len};

/// What the header of a compression section or of a GUID-defined section says. (PI specification,
/// volume 3, section 3.2.5.2, `EFI_COMPRESSION_SECTION`, and section 3.2.5.7,
/// `EFI_GUID_DEFINED_SECTION`.)
#[derive(Clone, Copy, Debug, PartialEq, Eq)]
pub struct Encapsulation {
    /// The way to open the section.
    pub way: Way,
    /// The offset of the data, in bytes from the first byte of the section.
    pub data_offset: usize,
    /// The length of the contents in bytes that a header promises, if one does: UncompressedLength of
    /// a compression section, the length in the header of a stream, or the number of bytes after
    /// DataOffset if they are stored as they are. Contents that are decoded may have another length,
    /// because some vendors store another UncompressedLength.
    pub promised: Option<u64>,
}

// Returns the length in the header of an LZMA stream, if there is one.
fn lzma_promised(bytes: &[u8]) -> Option<u64>
    ensures { result ≡ lzma_promised bytes.now }
{
    if bytes.len() < LZMA_HEADER_LEN {
        return None;
    }
    let length = u64_at(bytes, LZMA_LENGTH_OFFSET);
    if length == u64::MAX {
        return None;
    }
    Some(length)
}

// Returns the length in the header of a stream of Tiano's compression, if there is one.
fn tiano_promised(bytes: &[u8]) -> Option<u64>
    ensures { result ≡ tiano_promised bytes.now }
{
    if bytes.len() < TIANO_HEADER_LEN {
        return None;
    }
    Some(u32_at(bytes, TIANO_LENGTH_OFFSET) as u64)
}

// Returns the length of the contents that the data of a GUID-defined section promise.
fn promised(way: Way, bytes: &[u8]) -> Option<u64>
    ensures { result ≡ promised way bytes.now }
{
    match way {
        Way::Lzma => lzma_promised(bytes),
        Way::LzmaX86 => lzma_promised(bytes),
        Way::Tiano => tiano_promised(bytes),
        _ => Some(bytes.len() as u64),
    }
}

/// Returns the offset of the first byte after the section header.
pub(crate) fn body_offset(section: &Frame<'_>) -> usize
    ensures { result ≡ body_offset (frame_form section.now) }
{
    section_header_len(section.extended) as usize
}

/// Returns the data of a section from an offset on, in bytes from the first byte of the section.
pub(crate) fn data_from<'a>(section: &Frame<'a>, offset: usize) -> &'a [u8]
    requires after { body_offset (frame_form section.now) ≤ offset }
    requires within { offset ≤ frame_len (frame_form section.now) }
    ensures data { result.now ≡ data_from offset (frame_form section.now) }
    ensures length { offset + length result.now ≡ frame_len (frame_form section.now) }
{
    &section.body[offset - body_offset(section)..]
}

// Returns what the header of a compression section says.
fn compression_head(section: &Frame<'_>) -> Result<Encapsulation, OpenFault>
    ensures head { result ≡ compression_head (frame_form section.now) }
    ensures after { IfOk result (λ e. body_offset (frame_form section.now) ≤ e.data_offset) }
    ensures within { IfOk result (λ e. e.data_offset ≤ frame_len (frame_form section.now)) }
    ensures sum { IfOk result (λ e. e.way ≢ ways.Crc32) }
    ensures bound { IfErr result (λ f. f.offset ≤ frame_len (frame_form section.now)) }
    ensures known { IfErr result (λ f. f ≢ open_out_of_memory) }
{
    let body = section.body;
    let start = body_offset(section);
    if body.len() < COMPRESSION_DATA_OFFSET {
        return Err(OpenFault::at(OpenFaultKind::Short, start + body.len()));
    }
    let Some(way) = compression_way(body[COMPRESSION_TYPE_OFFSET]) else {
        return Err(OpenFault::at(OpenFaultKind::UnknownWay, start + COMPRESSION_TYPE_OFFSET));
    };
    Ok(Encapsulation {
        way,
        data_offset: start + COMPRESSION_DATA_OFFSET,
        promised: Some(u32_at(body, UNCOMPRESSED_LENGTH_OFFSET) as u64),
    })
}

// Returns the length of the fields of a GUID-defined section in bytes.
fn fields_len(way: Way) -> usize
    ensures { result ≡ fields_len way }
{
    match way {
        Way::Crc32 => CRC32_LEN,
        _ => GUIDED_LEN,
    }
}

// Returns DataOffset of a GUID-defined section, in bytes from the first byte of the section.
fn data_offset(section: &Frame<'_>) -> usize
    requires { 20 ≤ length section.now.body.now }
    ensures { result ≡ data_offset (frame_form section.now) }
{
    u16_at(section.body, DATA_OFFSET_OFFSET) as usize
}

// Returns whether DataOffset is at most the end of the section, and not within its fields.
fn has_data_offset(section: &Frame<'_>, fields: usize) -> bool
    requires body { 20 ≤ length section.now.body.now }
    requires fields { fields ≤ 24 }
    ensures { result ≡ has_data_offset (frame_form section.now) fields }
{
    let offset = data_offset(section);
    let start = body_offset(section);
    start + fields <= offset && offset <= start + section.body.len()
}

// Returns what the header of a GUID-defined section says.
fn guided_head(section: &Frame<'_>) -> Result<Encapsulation, OpenFault>
    ensures head { result ≡ guided_head (frame_form section.now) }
    ensures after { IfOk result (λ e. body_offset (frame_form section.now) ≤ e.data_offset) }
    ensures within { IfOk result (λ e. e.data_offset ≤ frame_len (frame_form section.now)) }
    ensures sum { IfOk result (λ e. e.way ≡ ways.Crc32 → 24 ≤ length section.now.body.now) }
    ensures bound { IfErr result (λ f. f.offset ≤ frame_len (frame_form section.now)) }
    ensures known { IfErr result (λ f. f ≢ open_out_of_memory) }
{
    let body = section.body;
    let start = body_offset(section);
    if body.len() < GUIDED_LEN {
        return Err(OpenFault::at(OpenFaultKind::Short, start + body.len()));
    }
    let Some(way) = guided_way(guid_at(body, GUID_OFFSET), u16_at(body, ATTRIBUTES_OFFSET)) else {
        return Err(OpenFault::at(OpenFaultKind::UnknownWay, start));
    };
    if !has_data_offset(section, fields_len(way)) {
        return Err(OpenFault::at(OpenFaultKind::Short, start + DATA_OFFSET_OFFSET));
    }
    let data_offset = data_offset(section);
    Ok(Encapsulation {
        way,
        data_offset,
        promised: promised(way, data_from(section, data_offset)),
    })
}

/// Returns what the header of a section says.
///
/// # Errors
///
/// As `way_of`, except for bytes that do not begin with a whole section.
pub(crate) fn head_in(section: &Frame<'_>) -> Result<Encapsulation, OpenFault>
    ensures head { result ≡ head_in (frame_form section.now) }
    ensures after { IfOk result (λ e. body_offset (frame_form section.now) ≤ e.data_offset) }
    ensures within { IfOk result (λ e. e.data_offset ≤ frame_len (frame_form section.now)) }
    ensures sum { IfOk result (λ e. e.way ≡ ways.Crc32 → 24 ≤ length section.now.body.now) }
    ensures bound { IfErr result (λ f. f.offset ≤ frame_len (frame_form section.now)) }
    ensures known { IfErr result (λ f. f ≢ open_out_of_memory) }
{
    if section.kind == COMPRESSION {
        compression_head(section)
    } else if section.kind == GUID_DEFINED {
        guided_head(section)
    } else {
        Err(OpenFault::at(OpenFaultKind::UnknownWay, TYPE_OFFSET))
    }
}

/// Returns what the header of the section at the start of the bytes says, without decoding anything.
/// Bytes after this section are not read. Allocates no memory. (PI specification, volume 3, sections
/// 3.2.4, 3.2.5.2 and 3.2.5.7.)
///
/// # Errors
///
/// Short if the bytes do not begin with a whole section (at 0), if the section ends before the fields
/// of its type (at its end), or if DataOffset points into these fields or past the end of the section
/// (at DataOffset). UnknownWay if the type of the section (at 3), its CompressionType or its GUID (at
/// this field) names no way that is known.
pub fn way_of(section: &[u8]) -> Result<Encapsulation, OpenFault>
    // The result is what the header says, or the first fault.
    ensures way { result ≡ way_of section.now }

    // The data and the place of a fault are within the bytes.
    ensures data { IfOk result (λ e. e.data_offset ≤ length section.now) }
    ensures bound { IfErr result (λ f. f.offset ≤ length section.now) }
{
    head_in(&first_section(section)?)
}
