//! The parts of a volume before its body, and the findings of its header.

ghost use Rattle.std.specs.Prelude.{◌≡◌, ◌≤◌, length};
ghost use Rattle.fv_base.specs.Words.{field, le_at};
ghost use Rattle.fv_head.specs.Words.{pairs_of, makes_up, has_signature, is_volume_len, has_ext};
ghost use Rattle.fv_survey.specs.Systems.{is_allowed};
ghost use Rattle.fv_survey.specs.VolumeRules.{extent_len, header_end, polarity_by, ext_by, body_start, has_zero_sum, has_blocks};
ghost use Rattle.fv_survey.specs.VolumeRules.{has_strict_len, is_whole, header_findings, parts_by};
ghost use Rattle.fv_survey.specs.inner.Bounds.{PartsLie};

use crate::findings::Findings;
use crate::header::{FIELDS_LEN, extent_len, first_pair, has_signature, header_end};
use crate::systems::{Files, files_of, is_allowed};
use fv_base::field::{field, u16_at, u32_at, u64_at, up_to_8};
use fv_base::limits::{EXT_LIMIT, HEADER_LIMIT, VOLUME_LIMIT};
use fv_base::{FaultKind, Guid, Polarity, guid_at, sum16};

// The parts of a volume before its body: the header ends at `header`, the extended header lies from
// `ext` to `ext_end`, and the body begins at `first`.
#[derive(Clone, Copy)]
pub(crate) struct Parts {
    pub(crate) header: usize,
    pub(crate) ext: usize,
    pub(crate) ext_end: usize,
    pub(crate) first: usize,
    pub(crate) files: Files,
    pub(crate) polarity: Polarity,
    // Whether FvLength exceeds the bytes that are there.
    pub(crate) is_cut: bool,
    pub(crate) findings: Findings,
    pub(crate) name: Guid,
}

// Returns the polarity.
fn polarity_at(bytes: &[u8]) -> Polarity
    requires { 56 ≤ length bytes.now }
    ensures { result ≡ polarity_by bytes.now }
{
    if u32_at(bytes, 44) / 0x800 % 2 == 1 {
        Polarity::Ones
    } else {
        Polarity::Zeros
    }
}

// Returns whether there is no extended header, or it lies after the header and within the volume.
fn has_ext(bytes: &[u8]) -> bool
    requires { 56 ≤ length bytes.now }
    ensures { result ≡ has_ext (header_end bytes.now) (extent_len bytes.now) bytes.now }
{
    let at = usize::from(u16_at(bytes, 52));
    let end = extent_len(bytes);
    if at == 0 {
        return true;
    }
    if at < header_end(bytes) || at + 20 > end {
        return false;
    }
    let size = u32_at(bytes, at + 16);
    20 <= size && size <= EXT_LIMIT && at + size as usize <= end
}

// Returns where the extended header begins and ends: twice the end of the header if there is none.
fn ext_at(bytes: &[u8]) -> (usize, usize)
    requires { 56 ≤ length bytes.now }
    ensures is { result ≡ ext_by bytes.now }
    ensures within { result.1 ≤ length bytes.now }
{
    let at = usize::from(u16_at(bytes, 52));
    if at == 0 || !has_ext(bytes) {
        let header = header_end(bytes);
        return (header, header);
    }
    (at, at + u32_at(bytes, at + 16) as usize)
}

// Returns whether no pair of a block map is a pair of zeros, and the blocks of all pairs together
// have `total` bytes.
fn makes_up(blocks: &[u8], total: u64) -> bool
    ensures { result ≡ makes_up (pairs_of blocks.now) total }
{
    let mut rest = blocks;
    let mut left = total;
    while let Some(((count, size), after)) = first_pair(rest) {
        let bytes = u64::from(count) * u64::from(size);
        if count == 0 && size == 0 || left < bytes {
            return false;
        }
        left -= bytes;
        rest = after;
    }
    left == 0
}

// Returns whether the block map ends at the end of the header, and makes up FvLength.
fn has_blocks(bytes: &[u8], header: usize) -> bool
    requires { header ≤ length bytes.now }
    ensures { result ≡ has_blocks header bytes.now }
{
    if header % 8 != 0 || header < 64 {
        return false;
    }
    let blocks = field(bytes, FIELDS_LEN, header - 64);
    makes_up(blocks, u64_at(bytes, 32))
        && u32_at(bytes, header - 8) == 0
        && u32_at(bytes, header - 4) == 0
}

// Returns whether the words of the header sum to zero.
fn has_zero_sum(bytes: &[u8], header: usize) -> bool
    requires { header ≤ length bytes.now }
    ensures { result ≡ has_zero_sum header bytes.now }
{
    header % 2 == 0 && sum16(&bytes[..header]) == 0
}

// Returns whether HeaderLength is a length that a header may have, and lies within the bytes.
fn has_strict_len(bytes: &[u8]) -> bool
    requires { 56 ≤ length bytes.now }
    ensures { result ≡ has_strict_len bytes.now }
{
    let len = usize::from(u16_at(bytes, 48));
    len % 8 == 0 && 64 <= len && len <= HEADER_LIMIT && len <= bytes.len()
}

// Returns whether all HeaderLength bytes and all FvLength bytes are there.
fn is_whole(bytes: &[u8]) -> bool
    requires { 56 ≤ length bytes.now }
    ensures { result ≡ is_whole bytes.now }
{
    usize::from(u16_at(bytes, 48)) <= bytes.len() && u64_at(bytes, 32) <= bytes.len() as u64
}

// Returns whether a volume whose header has `header` bytes may have FvLength bytes.
fn has_volume_len(bytes: &[u8], header: usize) -> bool
    requires { 56 ≤ length bytes.now }
    ensures { result ≡ is_volume_len header (le_at 32 8 bytes.now) }
{
    let len = u64_at(bytes, 32);
    len % 8 == 0 && header as u64 <= len && len <= VOLUME_LIMIT
}

// Returns the findings of the header: the kinds of all rules that it breaks.
#[tactic(auto, unfolding(crate::specs::VolumeRules::header_findings))]
fn header_findings(bytes: &[u8]) -> Findings
    requires { 56 ≤ length bytes.now }
    ensures { result ≡ header_findings bytes.now }
{
    let header = header_end(bytes);
    Findings::NONE
        .with_if(!is_whole(bytes), FaultKind::Truncated)
        .with_if(!has_signature(bytes), FaultKind::Signature)
        .with_if(!is_allowed(field(bytes, 16, 16)), FaultKind::FileSystem)
        .with_if(bytes[55] != 2, FaultKind::Revision)
        .with_if(!has_strict_len(bytes), FaultKind::HeaderLength)
        .with_if(!has_zero_sum(bytes, header), FaultKind::HeaderSum)
        .with_if(!has_blocks(bytes, header), FaultKind::BlockMap)
        .with_if(!has_volume_len(bytes, header), FaultKind::Length)
        .with_if(!has_ext(bytes), FaultKind::ExtHeader)
}

// Returns the parts of the volume that is these bytes.
pub(crate) fn parts_of(bytes: &[u8]) -> Parts
    requires { 56 ≤ length bytes.now }
    ensures is { result ≡ parts_by bytes.now }
    ensures lies { PartsLie (length bytes.now) result }
{
    let (ext, ext_end) = ext_at(bytes);
    Parts {
        header: header_end(bytes),
        ext,
        ext_end,
        first: (up_to_8(ext_end as u64) as usize).min(bytes.len()),
        files: files_of(field(bytes, 16, 16)),
        polarity: polarity_at(bytes),
        is_cut: u64_at(bytes, 32) > bytes.len() as u64,
        findings: header_findings(bytes),
        name: guid_at(bytes, 16),
    }
}
