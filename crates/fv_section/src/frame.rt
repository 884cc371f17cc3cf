//! Sections in a stream, and the reading of their headers.

ghost use Rattle.std.specs.Prelude.{◌≡◌, ◌<◌, ◌≤◌, length, drop, Ok, Err, IfOk, IfErr, IfSome, IfNone};
ghost use Rattle.fv_base.specs.Words.{IsFirstFault, le_at};
ghost use Rattle.fv_section.specs.FrameChecks.{has_extended_size, section_header_len_at, section_size_at};
ghost use Rattle.fv_section.specs.FrameChecks.{has_section_size, frame_checks};
ghost use Rattle.fv_section.specs.inner.FrameVerdicts.{frame_verdict};
ghost use Rattle.fv_section.specs.Frames.{FrameForm, section_header_len};
ghost use Rattle.fv_section.specs.StreamReads.{HasFrameAt, after_first, after_size, frame_form, frame_in};

use crate::offsets::{
    EXTENDED_HEADER_LEN, EXTENDED_SIZE_OFFSET, HEADER_LEN, SIZE_OFFSET, TYPE_OFFSET,
};
use byteorder::{ByteOrder, LittleEndian};
use fv_base::field::{field, u32_at};
use fv_base::{Fault, FaultKind, check};

/// The value of `Size` in an extended header; the size of the section is then in `ExtendedSize`.
const EXTENDED: u32 = 0xff_ffff;

/// A section in its stream. (PI specification, volume 3, section 3.2.4, `EFI_COMMON_SECTION_HEADER`
/// and `EFI_COMMON_SECTION_HEADER2`.)
#[derive(Clone, Copy)]
pub struct Frame<'a> {
    /// The offset of the section's header, in bytes from the stream's start.
    pub offset: u64,
    /// The section's `Type`, for example 0x15 for `EFI_SECTION_USER_INTERFACE`.
    pub kind: u8,
    /// Whether the header is `EFI_COMMON_SECTION_HEADER2`, of 8 bytes, rather than
    /// `EFI_COMMON_SECTION_HEADER`, of 4 bytes.
    pub extended: bool,
    /// The bytes after the header.
    pub body: &'a [u8],
}

/// Returns the length of a section header in bytes: 4, or 8 for an extended header. (PI
/// specification, volume 3, section 3.2.4, `EFI_COMMON_SECTION_HEADER` and
/// `EFI_COMMON_SECTION_HEADER2`.)
pub fn section_header_len(extended: bool) -> u64
    ensures { result ≡ section_header_len extended }
{
    if extended {
        EXTENDED_HEADER_LEN as u64
    } else {
        HEADER_LEN as u64
    }
}

// Returns `Size` of the header at the start of `rest`.
fn short_size(rest: &[u8]) -> u32
    requires least { 4 ≤ length rest.now }
    ensures { result ≡ le_at 0 3 rest.now }
{
    LittleEndian::read_u24(field(rest, SIZE_OFFSET, 3))
}

// Returns whether the header at the start of `rest` is extended: its `Size` is 0xFFFFFF.
fn has_extended_size(rest: &[u8]) -> bool
    requires least { 4 ≤ length rest.now }
    ensures { result ≡ has_extended_size rest.now }
{
    short_size(rest) == EXTENDED
}

// Returns the length of the header at the start of `rest`, in bytes.
fn head_len(rest: &[u8]) -> usize
    requires least { 4 ≤ length rest.now }
    ensures { result ≡ section_header_len_at rest.now }
{
    section_header_len(has_extended_size(rest)) as usize
}

// Returns the size of the section at the start of `rest`, including its header: `Size` or
// `ExtendedSize`.
fn size_of(rest: &[u8]) -> usize
    requires least { 4 ≤ length rest.now }
    requires header { section_header_len_at rest.now ≤ length rest.now }
    ensures { result ≡ section_size_at rest.now }
{
    if has_extended_size(rest) {
        u32_at(rest, EXTENDED_SIZE_OFFSET) as usize
    } else {
        short_size(rest) as usize
    }
}

// Returns whether `rest` holds a complete header, and the size that it states is at least the
// length of the header and at most the length of `rest`.
fn has_section_size(rest: &[u8]) -> bool
    requires least { 4 ≤ length rest.now }
    ensures { result ≡ has_section_size rest.now }
{
    let header = head_len(rest);
    if rest.len() < header {
        return false;
    }
    let size = size_of(rest);
    header <= size && size <= rest.len()
}

// Returns the frame at the start of `rest`. `at` is the offset of `rest` in the stream.
pub(crate) fn frame_in(rest: &[u8], at: u64) -> Frame<'_>
    requires least { 4 ≤ length rest.now }
    requires header { section_header_len_at rest.now ≤ section_size_at rest.now }
    requires within { section_size_at rest.now ≤ length rest.now }
    ensures { frame_form result ≡ frame_in at rest.now }
{
    Frame {
        offset: at,
        kind: rest[TYPE_OFFSET],
        extended: has_extended_size(rest),
        body: &rest[head_len(rest)..size_of(rest)],
    }
}

// Returns the bytes that are left after a frame of `size` bytes at the start of `rest`. If `rest`
// goes past the first multiple of 4 at or after the end of the frame, these bytes begin at that
// multiple. Otherwise they begin directly after the frame.
fn after_frame(rest: &[u8], size: usize) -> &[u8]
    requires within { size ≤ length rest.now }
    ensures { result.now ≡ after_size size rest.now }
{
    let next = (size + 3) / 4 * 4;
    if next < rest.len() {
        &rest[next..]
    } else {
        &rest[size..]
    }
}

/// Returns the frame at the start of `rest`, with the offset 0, and the bytes that are left after
/// it. If `rest` goes past the first multiple of 4 at or after the end of the frame, these bytes
/// begin at that multiple. Otherwise they begin directly after the frame, and are the tail. `rest`
/// must begin with a frame, because the header is not checked. Allocates no memory. (PI
/// specification, volume 3, section 3.2.4.)
pub fn split_frame(rest: &[u8]) -> (Frame<'_>, &[u8])
    requires least { 4 ≤ length rest.now }
    requires frame { HasFrameAt (frame_in 0 rest.now) 0 rest.now }
    ensures frame { frame_form result.0 ≡ frame_in 0 rest.now }
    ensures after { result.1.now ≡ after_first rest.now }
{
    let short = short_size(rest);
    let extended = short == EXTENDED;
    let (header, size) = if extended {
        (
            EXTENDED_HEADER_LEN,
            u32_at(rest, EXTENDED_SIZE_OFFSET) as usize,
        )
    } else {
        (HEADER_LEN, short as usize)
    };
    let kind = rest[TYPE_OFFSET];
    let frame = Frame {
        offset: 0,
        kind,
        extended,
        body: &rest[header..size],
    };
    (frame, after_frame(rest, size))
}

// Returns the frame at the start of `rest`, or the first fault there.
fn checked_frame(rest: &[u8], at: u64) -> Result<Frame<'_>, Fault>
    ensures found { IfOk result (λ f. frame_verdict at rest.now ≡ Ok (frame_form f)) }
    ensures rejected { IfErr result (λ e. frame_verdict at rest.now ≡ Err e) }
    ensures place { IfErr result (λ e. e.place.offset ≡ at) }
{
    check(rest.len() >= HEADER_LEN, FaultKind::SectionTail, at)?;
    check(has_section_size(rest), FaultKind::SectionSize, at)?;
    Ok(frame_in(rest, at))
}

/// Returns the frame whose header is at the offset `at`, in bytes from the stream's start, or None
/// if `at` is at or past the stream's end. The frames of a stream begin at multiples of 4, but `at`
/// may be any offset. Allocates no memory. (PI specification, volume 3, section 3.2.4.)
///
/// # Errors
///
/// SectionTail at `at` if only 1 to 3 bytes are left there. SectionSize at `at` if the section's
/// size is below the length of its header, if the section would end past the stream's end, or if
/// fewer than 8 bytes are left for an extended header.
pub fn next_frame(stream: &[u8], at: u64) -> Result<Option<Frame<'_>>, Fault>
    // If a frame is returned, the stream has this frame at `at`.
    ensures found { IfOk result (λ o. IfSome o (λ f. HasFrameAt (frame_form f) at stream.now)) }

    // It has no other frame there.
    ensures only { IfOk result
        (λ o. IfSome o (λ f. (g : FrameForm) → HasFrameAt g at stream.now → g ≡ frame_form f)) }

    // None is returned only if `at` is at or past the stream's end.
    ensures past { IfOk result (λ o. IfNone o (length stream.now ≤ at)) }

    // If an error is returned, the stream has no frame at `at`.
    ensures none { IfErr result (λ _. (g : FrameForm) → HasFrameAt g at stream.now → ⊥) }

    // The error names the first check that fails.
    ensures first { IfErr result (IsFirstFault (frame_checks at (drop at stream.now))) }

    // The offset of the error is `at`, which is within the stream.
    ensures place { IfErr result (λ e. (e.place.offset ≡ at) × (at < length stream.now)) }
{
    if at >= stream.len() as u64 {
        return Ok(None);
    }
    let frame = checked_frame(&stream[at as usize..], at)?;
    Ok(Some(frame))
}
