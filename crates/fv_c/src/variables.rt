//! Accounts of EDK II's variable stores, and of signature lists: a row for each part, which account
//! for every byte.

ghost use Rattle.std.specs.Prelude.{◌≡◌, ◌≢◌, ◌<◌, ◌≤◌, ◌++◌, length, drop, map, take, set};
ghost use Rattle.fv_c.specs.ReportedVariables.{authenticated_row, bare_row, format_number, list_row, optional_finding_number};
ghost use Rattle.fv_c.specs.ReportedVariables.{part_number, reported_signatures, reported_variable_row, reported_variables};
ghost use Rattle.fv_c.specs.ReportedVariables.{signature_row, status_number, store_row, variable_row};
ghost use Rattle.fv_c.specs.Reports.{no_fault};
ghost use Rattle.fv_c.specs.inner.ListedRows.{BeginsWith};

use crate::reports::{BUFFER_TOO_SMALL, FvFault, NO_FAULT};
use fv_base::Guid;
use fv_variables::{
    Authentication, Finding, ListHeader, Part, Row, RowWalk, StoreFormat, StoreHeader, Variable,
    VariableStatus,
};

/// A row of an account of variable stores or of signature lists. A field that the part of the row
/// does not have is 0. (VariableFormat.h of EDK II, and UEFI specification, section 32.4.1.)
#[repr(C)]
#[derive(Clone, Copy)]
pub struct FvVariableRow {
    /// The row's offset in bytes from the first byte of the input.
    pub offset: u64,
    /// The row's length in bytes.
    pub length: u64,
    /// MonotonicCount of an authenticated variable.
    pub monotonic_count: u64,
    /// What the row is about: a number from 1 to 9, in the order of `Part`.
    pub part: u32,
    /// The number of the `Finding` of the row, or 0 if the row has none.
    pub finding: u32,
    /// The format of the variables of a store: 1 if they are plain, 2 if they are authenticated.
    pub format: u32,
    /// Size of a store, or SignatureListSize of a list: its length in bytes, including the header.
    pub size: u32,
    /// State of a variable, as it is stored, or State of a store.
    pub state: u32,
    /// What State of a variable says: a number from 1 to 5, in the order of `VariableStatus`.
    pub status: u32,
    /// Attributes of a variable.
    pub attributes: u32,
    /// The length of the header of a variable in bytes: 32 or 60. The name follows it, and then the
    /// data.
    pub header_length: u32,
    /// NameSize of a variable: the length of the name in bytes, including its final zeros.
    pub name_size: u32,
    /// DataSize of a variable: the length of the data in bytes. For a list, SignatureSize: the length
    /// of each signature in bytes.
    pub data_size: u32,
    /// PubKeyIndex of an authenticated variable.
    pub public_key: u32,
    /// Format of a store.
    pub formatted: u32,
    /// VendorGuid of a variable, SignatureType of a list, or SignatureOwner of a signature, as its 16
    /// bytes in the input.
    pub guid: [u8; 16],
    /// TimeStamp of an authenticated variable, as its 16 bytes in the input.
    pub time_stamp: [u8; 16],
}

// Returns the number of what a row is about, from 1 to 9.
fn part_number(part: Part) -> u32
    ensures { result ≡ part_number part }
{
    match part {
        Part::StoreHeader(_) => 1,
        Part::Variable(_) => 2,
        Part::Unfinished => 3,
        Part::Filler => 4,
        Part::Free => 5,
        Part::WorkingBlock => 6,
        Part::ListHeader(_) => 7,
        Part::Signature(_) => 8,
        Part::Unread => 9,
    }
}

// Returns the number of a finding, or 0 if there is none.
fn optional_finding_number(finding: Option<Finding>) -> u32
    ensures { result ≡ optional_finding_number finding }
{
    match finding {
        None => 0,
        Some(it) => u32::from(it.number()),
    }
}

// Returns the number of the format of the variables of a store, 1 or 2.
fn format_number(format: StoreFormat) -> u32
    ensures { result ≡ format_number format }
{
    match format {
        StoreFormat::Plain => 1,
        StoreFormat::Authenticated => 2,
    }
}

// Returns the number of what State of a variable says, from 1 to 5.
fn status_number(status: VariableStatus) -> u32
    ensures { result ≡ status_number status }
{
    match status {
        VariableStatus::Added => 1,
        VariableStatus::Replaced => 2,
        VariableStatus::Deleted => 3,
        VariableStatus::HeaderOnly => 4,
        VariableStatus::Other => 5,
    }
}

// Returns the report for C of a row without the fields of its header.
fn bare_row(row: &Row) -> FvVariableRow
    ensures { result ≡ bare_row row.now }
{
    FvVariableRow {
        offset: row.offset,
        length: row.length,
        monotonic_count: 0,
        part: part_number(row.part),
        finding: optional_finding_number(row.finding),
        format: 0,
        size: 0,
        state: 0,
        status: 0,
        attributes: 0,
        header_length: 0,
        name_size: 0,
        data_size: 0,
        public_key: 0,
        formatted: 0,
        guid: [0; 16],
        time_stamp: [0; 16],
    }
}

// Returns this report with the fields of the header of a store.
fn store_row(header: StoreHeader, bare: FvVariableRow) -> FvVariableRow
    ensures { result ≡ store_row header bare }
{
    FvVariableRow {
        format: format_number(header.format),
        size: header.size,
        state: u32::from(header.state),
        formatted: u32::from(header.formatted),
        ..bare
    }
}

// Returns this report with the fields that only an authenticated variable has.
fn authenticated_row(authentication: Option<Authentication>, bare: FvVariableRow) -> FvVariableRow
    ensures { result ≡ authenticated_row authentication bare }
{
    match authentication {
        None => bare,
        Some(it) => {
            let time_stamp = it.time_stamp;
            FvVariableRow {
                monotonic_count: it.monotonic_count,
                public_key: it.public_key,
                time_stamp,
                ..bare
            }
        }
    }
}

// Returns this report with the fields of the header of a variable.
fn variable_row(variable: Variable, bare: FvVariableRow) -> FvVariableRow
    ensures { result ≡ variable_row variable bare }
{
    FvVariableRow {
        state: u32::from(variable.state),
        status: status_number(variable.status()),
        attributes: variable.attributes,
        header_length: variable.header_len() as u32,
        name_size: variable.name_size,
        data_size: variable.data_size,
        guid: variable.vendor.to_bytes(),
        ..authenticated_row(variable.authentication, bare)
    }
}

// Returns this report with the fields of the header of a signature list.
fn list_row(list: ListHeader, bare: FvVariableRow) -> FvVariableRow
    ensures { result ≡ list_row list bare }
{
    FvVariableRow {
        size: list.list_size,
        data_size: list.signature_size,
        guid: list.signature_type.to_bytes(),
        ..bare
    }
}

// Returns this report with the owner of a signature.
fn signature_row(owner: Guid, bare: FvVariableRow) -> FvVariableRow
    ensures { result ≡ signature_row owner bare }
{
    FvVariableRow {
        guid: owner.to_bytes(),
        ..bare
    }
}

// Returns the report for C of a row.
fn reported_row(row: &Row) -> FvVariableRow
    ensures { result ≡ reported_variable_row row.now }
{
    let bare = bare_row(row);
    match row.part {
        Part::StoreHeader(header) => store_row(header, bare),
        Part::Variable(variable) => variable_row(variable, bare),
        Part::ListHeader(list) => list_row(list, bare),
        Part::Signature(owner) => signature_row(owner, bare),
        _ => bare,
    }
}

// Writes the report of a row to this place of the buffer, if the buffer has the place.
fn put_row(row: &Row, place: usize, rows: &mut [FvVariableRow])
    ensures fits { place < length rows.old → rows.new ≡ set rows.old place (reported_variable_row row.now) }
    ensures full { length rows.old ≤ place → rows.new ≡ rows.old }
{
    if place < rows.len() {
        rows[place] = reported_row(row);
    }
}

// Writes the rows of a walk to the buffer, as many as it has room for, and returns the number of all
// rows. The rest of the buffer is unchanged.
fn put_rows(mut walk: RowWalk<'_>, rows: &mut [FvVariableRow]) -> usize
    requires { length walk < 18446744073709551616 }
    ensures all { result ≡ length (map reported_variable_row walk.entry) }
    ensures written { BeginsWith result (map reported_variable_row walk.entry) rows.old rows.new }
{
    let mut count = 0;
    while let Some(row) = walk.next_row() {
        put_row(&row, count, rows);
        count += 1;
    }
    count
}

// Reports the number of all rows, and returns 0, or 256 if the buffer has room for fewer.
fn report_count(all: usize, room: usize, count: &mut u64, fault: &mut FvFault) -> u32
    ensures fits { all ≤ room → result ≡ 0 }
    ensures small { room < all → result ≡ 256 }
    ensures reported { (count.new ≡ all) × (fault.new ≡ no_fault) }
{
    *fault = NO_FAULT;
    *count = all as u64;
    if room < all { BUFFER_TOO_SMALL } else { 0 }
}

/// Writes the rows of some bytes that may contain EDK II's variable stores, such as the body of a
/// volume whose file system is the variable store, at the start of the buffer `rows`, in the order of
/// their offsets. `count` is their number. Returns 0. Every byte is in exactly one row. Any bytes can
/// be read, and no memory is allocated. (VariableFormat.h of EDK II.)
///
/// # Errors
///
/// 256 if the buffer has fewer elements than `count`; the buffer contains the first rows then.
#[unsafe(no_mangle)]
pub extern "C" fn fvp_variables_read(
    bytes: &[u8],
    rows: &mut [FvVariableRow],
    count: &mut u64,
    fault: &mut FvFault,
) -> u32
    // The buffer begins with the rows, and is unchanged after them.
    ensures ok { result ≡ 0 → (count.new ≡ length (reported_variables bytes.now))
        × (rows.new ≡ reported_variables bytes.now ++ drop (length (reported_variables bytes.now)) rows.old)
        × (fault.new ≡ no_fault) }

    // The buffer is too small for the rows, and contains as many of the first rows as it has room
    // for. There is no other result.
    ensures small { result ≢ 0 → (result ≡ 256) × (count.new ≡ length (reported_variables bytes.now))
        × (length rows.old < length (reported_variables bytes.now))
        × (rows.new ≡ take (length rows.old) (reported_variables bytes.now)) × (fault.new ≡ no_fault) }
{
    let walk = RowWalk::of_stores(bytes);
    let all = put_rows(walk, rows);
    report_count(all, rows.len(), count, fault)
}

/// Writes the rows of some bytes that should be signature lists, such as the data of the variables
/// PK, KEK, db and dbx, at the start of the buffer `rows`, in the order of their offsets. `count` is
/// their number. Returns 0. Every byte is in exactly one row. Any bytes can be read, and no memory is
/// allocated. (UEFI specification, section 32.4.1.)
///
/// # Errors
///
/// 256 if the buffer has fewer elements than `count`; the buffer contains the first rows then.
#[unsafe(no_mangle)]
pub extern "C" fn fvp_signatures_read(
    bytes: &[u8],
    rows: &mut [FvVariableRow],
    count: &mut u64,
    fault: &mut FvFault,
) -> u32
    // The buffer begins with the rows, and is unchanged after them.
    ensures ok { result ≡ 0 → (count.new ≡ length (reported_signatures bytes.now))
        × (rows.new ≡ reported_signatures bytes.now ++ drop (length (reported_signatures bytes.now)) rows.old)
        × (fault.new ≡ no_fault) }

    // The buffer is too small for the rows, and contains as many of the first rows as it has room
    // for. There is no other result.
    ensures small { result ≢ 0 → (result ≡ 256) × (count.new ≡ length (reported_signatures bytes.now))
        × (length rows.old < length (reported_signatures bytes.now))
        × (rows.new ≡ take (length rows.old) (reported_signatures bytes.now)) × (fault.new ≡ no_fault) }
{
    let walk = RowWalk::of_signatures(bytes);
    let all = put_rows(walk, rows);
    report_count(all, rows.len(), count, fault)
}
