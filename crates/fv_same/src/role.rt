//! Which rows of a survey have a meaning.

ghost use Rattle.std.specs.Prelude.{◌≡◌, ◌≤◌, true, slice_get, IfOk, IfErr, length};
ghost use Rattle.fv_base.specs.Words.{out_of_memory};
ghost use Rattle.fv_same.specs.Meant.{can_be_aside, is_aside};
ghost use Rattle.fv_same.specs.Meant.{around_after, around_at, around_in, around_volume, bytes_of_row, file_role, file_size, filler_role};
ghost use Rattle.fv_same.specs.Meant.{found_role, gap_role, is_erased, is_in_stream, is_outside, state_by, file_counts, role_as, role_of, section_role};

use crate::bytes::cut;
use crate::meant::{Around, Role};
use fv_base::field::{field, u32_at, u64_at};
use fv_base::{Fault, Polarity, all_are};
use fv_file::file_type::FFS_PAD;
use fv_file::offsets::{HEADER_LEN, LARGE_HEADER_LEN, STATE_OFFSET};
use fv_file::{FileState, file_state};
use fv_survey::{Row, RowKind};

const COMPRESSION: u8 = 0x01;

const GUID_DEFINED: u8 = 0x02;

// EFI_SYSTEM_NV_DATA_FV_GUID, the GUID of a variable store.
const VARIABLES: [u8; 16] = [
    0x8d, 0x2b, 0xf1, 0xff, 0x96, 0x76, 0x8b, 0x4c, 0xa9, 0x85, 0x27, 0x47, 0x07, 0x5b, 0x4f, 0x50,
];

// The least number of bytes of a volume.
const LEAST_VOLUME: usize = 56;

/// Returns the bytes of a row of these bytes.
pub(crate) fn bytes_of_row<'a>(bytes: &'a [u8], row: &Row) -> &'a [u8]
    ensures { result.now ≡ bytes_of_row bytes.now row.now }
{
    cut(bytes, row.offset as usize, row.length as usize)
}

/// Returns the row directly around a row with this depth.
pub(crate) fn around_at(around: &[Around], depth: u16) -> Option<Around>
    ensures { result ≡ around_at around.now depth }
{
    let outer = depth.checked_sub(1)?;
    around.get(usize::from(outer)).copied()
}

// Returns whether the rows in a row do not count.
fn is_outside(around: Option<Around>) -> bool
    ensures { result ≡ is_outside around }
{
    matches!(around, Some(Around::Outside | Around::Covered))
}

// Returns what a volume at this offset is for the rows in it.
fn around_volume(offset: u64, bytes: &[u8]) -> Around
    ensures { result ≡ around_volume offset bytes.now }
{
    if bytes.len() < LEAST_VOLUME {
        return Around::Outside;
    }
    if field(bytes, 16, 16) == &VARIABLES[..] {
        return Around::Store;
    }
    if u32_at(bytes, 44) / 2048 % 2 == 1 {
        Around::Volume(offset, Polarity::Ones)
    } else {
        Around::Volume(offset, Polarity::Zeros)
    }
}

// Returns what a volume means that was found in bytes without a structure.
fn found_role(parent: Option<Around>, offset: u64, bytes: &[u8]) -> Role
    ensures { result ≡ found_role parent offset bytes.now }
{
    match parent {
        None | Some(Around::Lost) => Role::Through(around_volume(offset, bytes)),
        Some(Around::Volume(_, _) | Around::Outside | Around::Covered) => Role::Out,
        Some(Around::Store | Around::File(_, _) | Around::Section) => Role::Whole,
    }
}

/// Returns the state of a file, by its State without the bits 0x40 and 0x80.
#[tactic(auto, unfolding(fv_survey::specs::Words::counted_state))]
pub(crate) fn state_by(polarity: Polarity, bytes: &[u8]) -> Option<FileState>
    requires { 24 ≤ length bytes.now }
    ensures { result ≡ state_by polarity bytes.now }
{
    let bits = match polarity {
        Polarity::Ones => !bytes[STATE_OFFSET],
        Polarity::Zeros => bytes[STATE_OFFSET],
    };
    file_state(bits % 64, Polarity::Zeros)
}

/// Returns whether a file of this type counts.
pub(crate) fn file_counts(polarity: Polarity, code: u8, bytes: &[u8]) -> bool
    ensures counts { result ≡ file_counts polarity code bytes.now }
    ensures long { result ≡ true → 24 ≤ length bytes.now }
{
    bytes.len() >= HEADER_LEN
        && matches!(
            state_by(polarity, bytes),
            Some(FileState::DataValid | FileState::Marked)
        )
        && code != FFS_PAD
}

// Returns the size of a file.
fn file_size(bytes: &[u8]) -> u64
    requires { 24 ≤ length bytes.now }
    ensures { result ≡ file_size bytes.now }
{
    let size = field(bytes, 20, 3);
    let short = u32::from_le_bytes([size[0], size[1], size[2], 0]);
    if short != 0 {
        u64::from(short)
    } else if bytes.len() < LARGE_HEADER_LEN {
        0
    } else {
        u64_at(bytes, 24)
    }
}

// Returns the role of a file, a pad or a deleted file.
fn file_role(parent: Option<Around>, row: &Row, bytes: &[u8]) -> Role
    ensures { result ≡ file_role parent row.now.code row.now.offset bytes.now }
{
    match parent {
        Some(Around::Volume(_, polarity)) if file_counts(polarity, row.code, bytes) => {
            Role::Through(Around::File(row.offset, file_size(bytes)))
        }
        _ => Role::Out,
    }
}

// Returns the role of a section.
fn section_role(code: u8) -> Role
    ensures { result ≡ section_role code }
{
    if code == COMPRESSION || code == GUID_DEFINED {
        Role::Packed
    } else {
        Role::Through(Around::Section)
    }
}

// Returns whether all bytes are erased.
fn is_erased(bytes: &[u8]) -> bool
    ensures { result ≡ is_erased bytes.now }
{
    all_are(bytes, 255) || all_are(bytes, 0)
}

// Returns the role of bytes outside of volumes.
fn gap_role(bytes: &[u8]) -> Role
    ensures { result ≡ gap_role bytes.now }
{
    if is_erased(bytes) {
        Role::Out
    } else {
        Role::Whole
    }
}

// Returns whether a filler is a part of a stream of sections.
fn is_in_stream(parent: Option<Around>, offset: u64) -> bool
    ensures { result ≡ is_in_stream parent offset }
{
    match parent {
        None | Some(Around::Section) => true,
        Some(Around::File(start, size)) => offset.saturating_sub(start) < size,
        Some(_) => false,
    }
}

// Returns the role of a filler.
fn filler_role(parent: Option<Around>, before: Option<Around>, offset: u64) -> Role
    ensures { result ≡ filler_role parent before offset }
{
    if is_in_stream(parent, offset) && !is_outside(before) {
        Role::Whole
    } else {
        Role::Out
    }
}

// Returns the role of a row that is not outside.
fn role_as(parent: Option<Around>, before: Option<Around>, row: &Row, bytes: &[u8]) -> Role
    ensures { result ≡ role_as row.now.kind parent before row.now bytes.now }
{
    match row.kind {
        RowKind::Volume if row.found => found_role(parent, row.offset, bytes),
        RowKind::Volume => Role::Through(around_volume(row.offset, bytes)),
        RowKind::File => file_role(parent, row, bytes),
        RowKind::Section => section_role(row.code),
        RowKind::Lost => Role::Through(Around::Lost),
        RowKind::Gap => gap_role(bytes),
        RowKind::Filler => filler_role(parent, before, row.offset),
        RowKind::Pad
        | RowKind::PadData
        | RowKind::Dead
        | RowKind::Stub
        | RowKind::Free
        | RowKind::Between => Role::Out,
        _ => Role::Whole,
    }
}

/// Returns the role of a row of these bytes, after the rows that `around` is about, if the row is not a
/// superseded file.
pub(crate) fn role_of(around: &[Around], bytes: &[u8], row: &Row) -> Role
    ensures { result ≡ role_of around.now bytes.now row.now }
{
    let parent = around_at(around, row.depth);
    if is_outside(parent) {
        return Role::Out;
    }
    let before = around.get(usize::from(row.depth)).copied();
    role_as(parent, before, row, bytes_of_row(bytes, row))
}

// Returns what a row with this role is for the rows in it.
fn around_in(role: Role) -> Around
    ensures { result ≡ around_in role }
{
    match role {
        Role::Through(around) => around,
        Role::Out => Around::Outside,
        Role::Whole | Role::Packed => Around::Covered,
    }
}

/// Makes `around` what it is for the row after this one.
pub(crate) fn go_into(around: &mut Vec<Around>, row: &Row, role: Role) -> Result<(), Fault>
    ensures after { IfOk result (λ _. around.new.items ≡ around_after around.old.items row.now role) }
    ensures err { IfErr result (λ f. f ≡ out_of_memory) }
{
    if !row.kind.is_leaf() {
        around.truncate(usize::from(row.depth));
        around.push(around_in(role))?;
    }
    Ok(())
}

// Returns whether rows of this kind can hold bytes outside of the meaning.
fn can_be_aside(kind: RowKind) -> bool
    ensures { result ≡ can_be_aside kind }
{
    matches!(
        kind,
        RowKind::PadData
            | RowKind::Dead
            | RowKind::Stub
            | RowKind::Filler
            | RowKind::Between
            | RowKind::Data
            | RowKind::Body
            | RowKind::Store
            | RowKind::Unread
            | RowKind::Packed
    )
}

/// Returns whether a row that does not count, after the rows that `around` is about, has bytes outside
/// of the meaning that are not all erased.
pub(crate) fn is_aside(around: &[Around], bytes: &[u8], row: &Row) -> bool
    ensures { result ≡ is_aside around.now bytes.now row.now }
{
    can_be_aside(row.kind)
        && !matches!(around_at(around, row.depth), Some(Around::Covered))
        && !is_erased(bytes_of_row(bytes, row))
}
