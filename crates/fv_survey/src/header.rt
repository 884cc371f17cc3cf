//! Where volumes begin and end, by headers that may be damaged.

ghost use Rattle.std.specs.Prelude.{◌≡◌, ◌+◌, ◌-◌, ◌≤◌, ◌<◌, [], ◌∷◌, ℕ, false, length, drop, IfSome, IfNone, IsTrue};
ghost use Rattle.fv_head.specs.Words.{has_signature, pairs_of};
ghost use Rattle.fv_survey.specs.Starts.{has_header_len, has_right_header, may_begin, first_start};
ghost use Rattle.fv_survey.specs.VolumeRules.{mapped_end, header_end, extent_len, is_strict, ends_after, cut_before};
ghost use Rattle.fv_survey.specs.VolumeRules.{volume_end};

use crate::systems::files_of;
use fv_base::field::{bytes_from, field, u16_at, u32_at, u64_at};
use fv_base::limits::HEADER_LIMIT;
use fv_base::sum16;
use fv_head::{SIGNATURE, verify_fv};
use memchr::memmem;

// The least number of bytes that a header takes: its fields before the block map.
pub(crate) const FIELDS_LEN: usize = 56;

// The offset of the signature.
const SIGNATURE_OFFSET: usize = 40;

// Returns the first pair of a block map, and the bytes after it, or None if there are fewer than 8
// bytes.
pub(crate) fn first_pair(bytes: &[u8]) -> Option<((u32, u32), &[u8])>
    ensures some { IfSome result
        (λ e. (pairs_of bytes.now ≡ e.0 ∷ pairs_of e.1.now) × (length bytes.now ≡ 8 + length e.1.now)) }
    ensures none { IfNone result (pairs_of bytes.now ≡ []) }
{
    if bytes.len() < 8 {
        return None;
    }
    Some(((u32_at(bytes, 0), u32_at(bytes, 4)), bytes_from(bytes, 8)))
}

// Returns the end of the header by its block map: the end of the first pair of zeros in the first
// bytes, which are at most `HEADER_LIMIT`, or else the length of the fields.
fn mapped_end(bytes: &[u8]) -> usize
    requires { 56 ≤ length bytes.now }
    ensures is { result ≡ mapped_end bytes.now }
    ensures lies { (56 ≤ result) × (result ≤ length bytes.now) }
{
    let end = bytes.len().min(HEADER_LIMIT);
    let mut rest = field(bytes, FIELDS_LEN, end - FIELDS_LEN);
    let mut at = FIELDS_LEN;
    while let Some(((count, size), after)) = first_pair(rest) {
        at += 8;
        if count == 0 && size == 0 {
            return at;
        }
        rest = after;
    }
    FIELDS_LEN
}

// Returns whether HeaderLength is possible: at least 56, at most the limit, and within the bytes.
fn has_header_len(bytes: &[u8]) -> bool
    requires { 56 ≤ length bytes.now }
    ensures { result ≡ has_header_len bytes.now }
{
    let len = usize::from(u16_at(bytes, 48));
    FIELDS_LEN <= len && len <= HEADER_LIMIT && len <= bytes.len()
}

// Returns whether HeaderLength is possible and even, and the words of the header sum to zero.
fn has_right_header(bytes: &[u8]) -> bool
    requires { 56 ≤ length bytes.now }
    ensures { result ≡ has_right_header bytes.now }
{
    let len = usize::from(u16_at(bytes, 48));
    has_header_len(bytes) && len % 2 == 0 && sum16(&bytes[..len]) == 0
}

// Returns where the header ends: HeaderLength if it is possible, and otherwise by the block map.
pub(crate) fn header_end(bytes: &[u8]) -> usize
    requires { 56 ≤ length bytes.now }
    ensures is { result ≡ header_end bytes.now }
    ensures lies { (56 ≤ result) × (result ≤ length bytes.now) }
{
    if has_header_len(bytes) {
        usize::from(u16_at(bytes, 48))
    } else {
        mapped_end(bytes)
    }
}

// Returns the length of the volume by its header: FvLength if it is at least the length of the
// header and at most the number of bytes, and otherwise the number of bytes.
pub(crate) fn extent_len(bytes: &[u8]) -> usize
    requires { 56 ≤ length bytes.now }
    ensures is { result ≡ extent_len bytes.now }
    ensures lies { (56 ≤ result) × (result ≤ length bytes.now) }
{
    let len = u64_at(bytes, 32);
    if header_end(bytes) as u64 <= len && len <= bytes.len() as u64 {
        len as usize
    } else {
        bytes.len()
    }
}

// Returns whether the strict reader accepts the header.
fn is_strict(bytes: &[u8]) -> bool
    ensures is { result ≡ is_strict bytes.now }
    ensures long { IsTrue result → 56 ≤ length bytes.now }
{
    verify_fv(bytes).is_ok()
}

// Returns how many bytes lie before the first place that has a signature after 40 bytes, or the
// number of all bytes.
fn next_signature(bytes: &[u8]) -> usize
    ensures within { result ≤ length bytes.now }
    ensures none { (k : ℕ) → k < result → has_signature (drop k bytes.now) ≡ false }
{
    if bytes.len() < SIGNATURE_OFFSET {
        return bytes.len();
    }
    match memmem::find(bytes_from(bytes, SIGNATURE_OFFSET), &SIGNATURE) {
        Some(before) => before,
        None => bytes.len(),
    }
}

// Returns whether the bytes begin with a volume whose header is strict, and which ends after the
// first `len` bytes.
fn ends_after(bytes: &[u8], len: usize) -> bool
    ensures { result ≡ ends_after len bytes.now }
{
    is_strict(bytes) && (len as u64) < u64_at(bytes, 32)
}

// Returns how many bytes lie before the first volume among the first `len` bytes whose header is
// strict and which ends after them, or `len` if there is no such volume.
fn cut_before(bytes: &[u8], len: usize) -> usize
    requires { len ≤ length bytes.now }
    ensures is { result ≡ cut_before len bytes.now }
    ensures within { result ≤ len }
{
    let mut at = next_signature(bytes);
    while at < len {
        if ends_after(bytes_from(bytes, at), len - at) {
            return at;
        }
        at += 1;
        at += next_signature(bytes_from(bytes, at));
    }
    len
}

// Returns the end of the volume that the bytes begin with. A volume whose header is not strict ends
// before a volume in it whose header is strict and which ends after it: so a wrong or invented
// header hides no other volume.
pub(crate) fn volume_end(bytes: &[u8]) -> usize
    requires { 56 ≤ length bytes.now }
    ensures is { result ≡ volume_end bytes.now }
    ensures lies { (56 ≤ result) × (result ≤ length bytes.now) }
{
    let len = extent_len(bytes);
    if is_strict(bytes) {
        return len;
    }
    FIELDS_LEN + cut_before(bytes_from(bytes, FIELDS_LEN), len - FIELDS_LEN)
}

// Returns whether the signature is at its offset.
pub(crate) fn has_signature(bytes: &[u8]) -> bool
    requires { 56 ≤ length bytes.now }
    ensures { result ≡ has_signature bytes.now }
{
    bytes[SIGNATURE_OFFSET..SIGNATURE_OFFSET + 4] == SIGNATURE[..]
}

// Returns whether a volume may begin with the bytes: there are 56 bytes, with the signature, and the
// file system is known, or HeaderLength and the header's sum are right.
fn may_begin(bytes: &[u8]) -> bool
    ensures { result ≡ may_begin bytes.now }
{
    bytes.len() >= FIELDS_LEN
        && has_signature(bytes)
        && (files_of(field(bytes, 16, 16)).is_known() || has_right_header(bytes))
}

// Returns how many bytes lie before the first place at which a volume may begin, or the number of
// all bytes.
pub(crate) fn first_start(bytes: &[u8]) -> usize
    ensures is { result ≡ first_start bytes.now }
    ensures within { result ≤ length bytes.now }
{
    let mut at = next_signature(bytes);
    while at < bytes.len() && !may_begin(bytes_from(bytes, at)) {
        at += 1;
        at += next_signature(bytes_from(bytes, at));
    }
    at
}
