//! The header of a file, and the checks of a file.

ghost use Rattle.std.specs.Prelude.{◌≡◌, ◌==◌, ◌≤◌, ◌<◌, ◌^◌, ◌||◌, not, nat_le, length, None, Some, IfOk, IfErr, OnOk};
ghost use Rattle.fv_base.specs.Words.{le_at};
ghost use Rattle.fv_base.specs.inner.Verdicts.{first_fault};
ghost use Rattle.fv_file.specs.FileAttributes.{attribute_bits, is_fixed, is_large};
ghost use Rattle.fv_file.specs.FileChecks.{file_header_len_at, file_size_at, file_checks, may_be_large, has_header_sum};
ghost use Rattle.fv_file.specs.FileChecks.{has_file_size, has_file_sum, skips_data};
ghost use Rattle.fv_file.specs.FileHeaders.{head_in, header_sum_of, attributes_at, file_header_len};
ghost use Rattle.fv_file.specs.States.{is_alive};
ghost use Rattle.fv_file.specs.inner.CellVerdicts.{file_verdict};

use crate::attributes::FileAttributes;
use crate::file_type::FFS_PAD;
use crate::offsets::{
    ATTRIBUTES_OFFSET, EXTENDED_SIZE_OFFSET, FILE_SUM_OFFSET, HEADER_LEN, HEADER_SUM_OFFSET,
    LARGE_HEADER_LEN, NAME_OFFSET, SIZE_OFFSET, STATE_OFFSET, TYPE_OFFSET,
};
use crate::state::FileState;
use bitflags::Flags;
use byteorder::{ByteOrder, LittleEndian};
use fv_base::field::{bytes_from, field, u64_at};
use fv_base::{Fault, FaultKind, FileSystem, Guid, check, guid_at, sum8};

/// `IntegrityCheck.Checksum.File` of a file without the checksum attribute: `FFS_FIXED_CHECKSUM`.
/// (PI specification, volume 3, section 3.2.3.1.)
pub const FIXED_CHECKSUM: u8 = 0xaa;

/// The header of a file, with the values that were read. (PI specification, volume 3, section
/// 3.2.3.1, `EFI_FFS_FILE_HEADER` and `EFI_FFS_FILE_HEADER2`.)
#[derive(Clone, Copy, Debug, PartialEq, Eq)]
pub struct FileHead {
    /// The size of the file in bytes, including its header: `Size`, or `ExtendedSize` of a large
    /// header.
    pub size: u64,
    /// The length of the header in bytes, 24 or 32.
    pub header_len: u64,
    /// The name, `Name`.
    pub name: Guid,
    /// The type, `Type`. A pad has the type 0xF0, `EFI_FV_FILETYPE_FFS_PAD`.
    pub kind: u8,
    /// The attribute bits, `Attributes`.
    pub attributes: FileAttributes,
    /// The header checksum, `IntegrityCheck.Checksum.Header`: the byte that makes the header sum to
    /// zero modulo 256, with the file checksum and `State` taken as zero.
    pub header_sum: u8,
    /// The file checksum, `IntegrityCheck.Checksum.File`. In a valid file that is not a pad, it is
    /// the byte that makes the data sum to zero modulo 256 if the file has the checksum attribute,
    /// and otherwise 0xAA. In any other file it may have any value.
    pub file_sum: u8,
    /// The state of the file, which `State` shows.
    pub state: FileState,
}

// Returns the attribute bits of the header that the bytes begin with.
fn attributes_at(rest: &[u8]) -> FileAttributes
    requires { 24 ≤ length rest.now }
    ensures { attribute_bits result ≡ attributes_at rest.now }
{
    FileAttributes::from_bits_retain(rest[ATTRIBUTES_OFFSET])
}

// Returns the length in bytes of a large or a short header.
pub(crate) fn header_len(large: bool) -> usize
    ensures { result ≡ file_header_len large }
{
    if large { LARGE_HEADER_LEN } else { HEADER_LEN }
}

// Returns the length of the header that the bytes begin with.
pub(crate) fn header_len_at(rest: &[u8]) -> usize
    requires { 24 ≤ length rest.now }
    ensures { result ≡ file_header_len_at rest.now }
{
    header_len(attributes_at(rest).is_large())
}

// Returns `Size` of the header that the bytes begin with.
fn short_size(rest: &[u8]) -> u64
    requires { 24 ≤ length rest.now }
    ensures { result ≡ le_at 20 3 rest.now }
{
    u64::from(LittleEndian::read_u24(field(rest, SIZE_OFFSET, 3)))
}

// Returns the size of the file, including its header: `ExtendedSize` of a large header, and
// otherwise `Size`.
pub(crate) fn size_at(rest: &[u8]) -> u64
    requires least { 24 ≤ length rest.now }
    requires header { file_header_len_at rest.now ≤ length rest.now }
    ensures { result ≡ file_size_at rest.now }
{
    if attributes_at(rest).is_large() {
        u64_at(rest, EXTENDED_SIZE_OFFSET)
    } else {
        short_size(rest)
    }
}

// Returns the fields of the header at the start of `rest`. The state is not read, but passed in.
pub(crate) fn head_in(rest: &[u8], state: FileState) -> FileHead
    requires least { 24 ≤ length rest.now }
    requires header { file_header_len_at rest.now ≤ length rest.now }
    ensures { result ≡ head_in state rest.now }
{
    FileHead {
        name: guid_at(rest, NAME_OFFSET),
        kind: rest[TYPE_OFFSET],
        attributes: attributes_at(rest),
        size: size_at(rest),
        header_len: header_len_at(rest) as u64,
        header_sum: rest[HEADER_SUM_OFFSET],
        file_sum: rest[FILE_SUM_OFFSET],
        state,
    }
}

// Returns whether the header is short, or the file system allows large headers.
fn may_be_large(rest: &[u8], system: FileSystem) -> bool
    requires { 24 ≤ length rest.now }
    ensures { result ≡ may_be_large system rest.now }
{
    !attributes_at(rest).is_large() || system == FileSystem::Ffs3
}

// Returns the sum of a header's bytes modulo 256, with the file checksum and State taken as zero.
fn header_sum(header: &[u8]) -> u8
    requires { 24 ≤ length header.now }
    ensures { result ≡ header_sum_of header.now }
{
    let between = field(header, TYPE_OFFSET, STATE_OFFSET - TYPE_OFFSET);
    sum8(&header[..FILE_SUM_OFFSET])
        .wrapping_add(sum8(between))
        .wrapping_add(sum8(bytes_from(header, HEADER_LEN)))
}

// Returns whether all bytes of the header are there.
fn has_header(rest: &[u8]) -> bool
    requires { 24 ≤ length rest.now }
    ensures { result ≡ nat_le (file_header_len_at rest.now) (length rest.now) }
{
    header_len_at(rest) <= rest.len()
}

// Returns whether the header sums to zero, so that its header checksum is right.
fn has_header_sum(rest: &[u8]) -> bool
    requires least { 24 ≤ length rest.now }
    requires header { file_header_len_at rest.now ≤ length rest.now }
    ensures { result ≡ has_header_sum rest.now }
{
    header_sum(&rest[..header_len_at(rest)]) == 0
}

// Returns whether `Size` is zero, as it must be in a large header. Returns true for a short header.
fn has_unused_size(rest: &[u8]) -> bool
    requires { 24 ≤ length rest.now }
    ensures { result ≡ (not (is_large (attributes_at rest.now)) || (le_at 20 3 rest.now == 0)) }
{
    !attributes_at(rest).is_large() || short_size(rest) == 0
}

// Returns whether the file's size is at least the header's length and at most the length of `rest`,
// and whether `Size` of a large header is zero.
fn has_file_size(rest: &[u8]) -> bool
    requires least { 24 ≤ length rest.now }
    requires header { file_header_len_at rest.now ≤ length rest.now }
    ensures { result ≡ has_file_size rest.now }
{
    let size = size_at(rest);
    if size < header_len_at(rest) as u64 || size > rest.len() as u64 {
        return false;
    }
    has_unused_size(rest)
}

// Returns whether the file checksum is right: with the checksum attribute, the data and the file
// checksum sum to zero modulo 256; otherwise the file checksum is 0xAA.
pub(crate) fn has_file_sum(rest: &[u8]) -> bool
    requires least { 24 ≤ length rest.now }
    requires header { file_header_len_at rest.now ≤ file_size_at rest.now }
    requires size { file_size_at rest.now ≤ length rest.now }
    ensures { result ≡ has_file_sum rest.now }
{
    let payload = &rest[header_len_at(rest)..size_at(rest) as usize];
    let file_sum = rest[FILE_SUM_OFFSET];
    if attributes_at(rest).is_summed() {
        sum8(payload).wrapping_add(file_sum) == 0
    } else {
        file_sum == FIXED_CHECKSUM
    }
}

// Returns whether the fixed bit and the file checksum are not checked: the file is not valid in
// this state, or it is a pad.
fn skips_data(rest: &[u8], state: FileState) -> bool
    requires { 24 ≤ length rest.now }
    ensures { result ≡ skips_data (is_alive state) rest.now }
{
    !state.is_alive() || rest[TYPE_OFFSET] == FFS_PAD
}

// Returns whether the file is not fixed, or its fixed bit is not checked.
pub(crate) fn may_move(rest: &[u8], state: FileState) -> bool
    requires { 24 ≤ length rest.now }
    ensures { result ≡ (skips_data (is_alive state) rest.now || not (is_fixed (attributes_at rest.now))) }
{
    skips_data(rest, state) || !attributes_at(rest).is_fixed()
}

// Returns whether the file checksum is right or is not checked.
fn has_sound_data(rest: &[u8], state: FileState) -> bool
    requires least { 24 ≤ length rest.now }
    requires header { file_header_len_at rest.now ≤ file_size_at rest.now }
    requires size { file_size_at rest.now ≤ length rest.now }
    ensures { result ≡ (skips_data (is_alive state) rest.now || has_file_sum rest.now) }
{
    skips_data(rest, state) || has_file_sum(rest)
}

// Makes the checks of the file at the start of `rest`, which is at the offset `at` of the volume.
// Returns the first fault, if there is one.
#[inline(always)]
fn check_file(rest: &[u8], at: u64, system: FileSystem, state: FileState) -> Result<(), Fault>
    requires least { 24 ≤ length rest.now }
    requires place { at < 2 ^ 63 }
    ensures ok { OnOk result (first_fault (file_checks system (is_alive state) at rest.now) ≡ None) }
    ensures within { OnOk result
        ((file_header_len_at rest.now ≤ file_size_at rest.now) × (file_size_at rest.now ≤ length rest.now)) }
    ensures err { IfErr result (λ f. first_fault (file_checks system (is_alive state) at rest.now) ≡ Some f) }
{
    let attributes = at + ATTRIBUTES_OFFSET as u64;
    let size = at + SIZE_OFFSET as u64;
    let file_sum = at + FILE_SUM_OFFSET as u64;
    check(may_be_large(rest, system), FaultKind::LargeFile, attributes)?;
    check(has_header(rest), FaultKind::FileSize, size)?;
    check(has_header_sum(rest), FaultKind::FileHeaderSum, at)?;
    check(has_file_size(rest), FaultKind::FileSize, size)?;
    check(may_move(rest, state), FaultKind::Fixed, attributes)?;
    check(has_sound_data(rest, state), FaultKind::FileSum, file_sum)
}

// Checks the file at the start of `rest`, which is at the offset `at` of the volume. Returns the
// file's header, or its first fault.
#[inline(always)]
pub(crate) fn file_at(
    rest: &[u8],
    at: u64,
    system: FileSystem,
    state: FileState,
) -> Result<FileHead, Fault>
    requires least { 24 ≤ length rest.now }
    requires place { at < 2 ^ 63 }
    ensures is { result ≡ file_verdict system state at rest.now }
    ensures state { IfOk result (λ h. h.state ≡ state) }
    ensures size { IfOk result (λ h. (h.header_len ≡ file_header_len_at rest.now) × (h.size ≡ file_size_at rest.now)) }
    ensures within { IfOk result (λ h. (h.header_len ≤ h.size) × (h.size ≤ length rest.now)) }
{
    check_file(rest, at, system, state)?;
    Ok(head_in(rest, state))
}
