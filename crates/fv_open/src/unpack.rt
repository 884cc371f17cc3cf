//! Decoding of packed data.

ghost use Rattle.std.specs.Prelude.{◌≡◌, ◌≢◌, ◌⊎◌, ◌+◌, ◌<◌, ◌≤◌, ◌^◌, length, drop, false, true};
ghost use Rattle.std.specs.Prelude.{IfSome, IfNone, Ok, Err, IfOk, IfErr, IsTrue};
ghost use Rattle.fv_lzma.specs.Words.{lzma};
ghost use Rattle.fv_packed.specs.Words.{packed_out_of_memory};
ghost use Rattle.fv_tiano.specs.Words.{tiano, bits_of};
ghost use Rattle.fv_tiano.specs.declared.width.Width.TheVariants as widths;
ghost use Rattle.fv_open.specs.Contents.{customized, first_value, lzma_x86, moved, standard};
ghost use Rattle.fv_open.specs.SectionStreams.{is_stream};
ghost use Rattle.fv_open.specs.Ways.{is_decoded};
ghost use Rattle.fv_open.specs.inner.Views.{GivesWay, IsOther};

use crate::fault::{OpenFault, OpenFaultKind};
use crate::sections::is_stream;
use crate::way::Way;
use fv_packed::{PackedFault, PackedFaultKind};
use fv_tiano::Width;
use std::alloc::Global;

/// Returns the fault of `length` bytes of packed data that begin at an offset of the section.
pub(crate) fn moved(fault: PackedFault, offset: usize, length: usize) -> OpenFault
    requires { offset + length < 2 ^ 63 + 8 }
    ensures fault { result ≡ moved offset length fault }
    ensures bound { result.offset ≤ offset + length }
{
    let place = offset as u64 + fault.offset.min(length as u64);
    match fault.kind {
        PackedFaultKind::TooLong => OpenFault {
            kind: OpenFaultKind::TooLong,
            offset: place,
        },
        PackedFaultKind::OutOfMemory => OpenFault {
            kind: OpenFaultKind::OutOfMemory,
            offset: 0,
        },
        kind => OpenFault {
            kind: OpenFaultKind::Damaged(kind),
            offset: place,
        },
    }
}

// Returns the bytes after the first four, or none if there are fewer.
fn after_four(bytes: &[u8]) -> &[u8]
    ensures { result.now ≡ drop 4 bytes.now }
{
    if bytes.len() < 4 {
        return &bytes[bytes.len()..];
    }
    &bytes[4..]
}

// Returns whether a fault reports that memory ran out.
fn is_memory(fault: PackedFault) -> bool
    ensures yes { IsTrue result → fault ≡ packed_out_of_memory }
    ensures no { result ≡ false → fault ≢ packed_out_of_memory }
{
    fault.kind == PackedFaultKind::OutOfMemory && fault.offset == 0
}

// Returns what an LZMA stream after four bytes gives, or the fault `first` if that is not a stream.
fn after_first(
    alloc: Global,
    bytes: &[u8],
    limit: usize,
    first: PackedFault,
) -> Result<Vec<u8>, PackedFault>
    ensures found { IfOk result (λ v. first_value (Err first) (lzma limit (drop 4 bytes.now)) ≡ Ok v.items) }
    ensures none { IfErr result (λ f. (f ≡ packed_out_of_memory)
        ⊎ (first_value (Err first) (lzma limit (drop 4 bytes.now)) ≡ Err f)) }
{
    match fv_lzma::decode(alloc, after_four(bytes), limit) {
        Ok(contents) => Ok(contents),
        Err(second) => {
            if is_memory(second) {
                return Err(second);
            }
            Err(first)
        }
    }
}

/// Returns what the data of a compression section of CompressionType 2 give: an LZMA stream at their
/// start or, if that is not a stream, after four bytes.
pub(crate) fn customized(alloc: Global, bytes: &[u8], limit: usize) -> Result<Vec<u8>, PackedFault>
    ensures found { IfOk result (λ v. customized limit bytes.now ≡ Ok v.items) }
    ensures none { IfErr result (λ f. (f ≡ packed_out_of_memory) ⊎ (customized limit bytes.now ≡ Err f)) }
{
    match fv_lzma::decode(alloc, bytes, limit) {
        Ok(contents) => Ok(contents),
        Err(first) => {
            if is_memory(first) {
                return Err(first);
            }
            after_first(alloc, bytes, limit, first)
        }
    }
}

/// Returns what LZMA data of x86 code give: the bytes of the stream, with distances in calls and jumps
/// again.
pub(crate) fn lzma_x86(alloc: Global, bytes: &[u8], limit: usize) -> Result<Vec<u8>, PackedFault>
    ensures found { IfOk result (λ v. lzma_x86 limit bytes.now ≡ Ok v.items) }
    ensures none { IfErr result (λ f. (f ≡ packed_out_of_memory) ⊎ (lzma_x86 limit bytes.now ≡ Err f)) }
{
    let mut contents = fv_lzma::decode(alloc, bytes, limit)?;
    fv_x86::decode(&mut contents);
    Ok(contents)
}

// Returns the contents by the compression of the UEFI specification, if they are a stream of sections.
fn uefi_sections(alloc: Global, bytes: &[u8], limit: usize) -> Result<Option<Vec<u8>>, PackedFault>
    ensures some { IfOk result (λ o. IfSome o (λ v.
        (tiano (bits_of widths.Uefi) limit bytes.now ≡ Ok v.items) × (is_stream v.items ≡ true))) }
    ensures none { IfOk result (λ o. IfNone o (IsOther (tiano (bits_of widths.Uefi) limit bytes.now))) }
    ensures memory { IfErr result (λ f. f ≡ packed_out_of_memory) }
{
    match fv_tiano::decode(alloc, bytes, Width::Uefi, limit) {
        Ok(contents) => {
            if is_stream(&contents) {
                return Ok(Some(contents));
            }
            Ok(None)
        }
        Err(fault) => {
            if is_memory(fault) {
                return Err(fault);
            }
            Ok(None)
        }
    }
}

/// Returns what the data of a compression section of CompressionType 1 give, and the way: the
/// compression of the UEFI specification if that gives a stream of sections, and otherwise Tiano's.
pub(crate) fn standard(
    alloc: Global,
    bytes: &[u8],
    limit: usize,
) -> Result<(Way, Vec<u8>), PackedFault>
    ensures gives { GivesWay result (standard limit bytes.now) }
    ensures way { IfOk result (λ v. is_decoded v.0 ≡ true) }
{
    if let Some(contents) = uefi_sections(alloc, bytes, limit)? {
        return Ok((Way::Uefi, contents));
    }
    let contents = fv_tiano::decode(alloc, bytes, Width::Tiano, limit)?;
    Ok((Way::Tiano, contents))
}
