//! The survey of any bytes: a row for each part, which account for every byte.

ghost use Rattle.std.specs.Prelude.{◌≡◌, ◌≢◌, ◌<◌, ◌≤◌, ◌++◌, ℕ, length, drop, map, take, set, IfOk, IfErr, OnErr};
ghost use Rattle.fv_base.specs.Words.{fault_number, out_of_memory};
ghost use Rattle.fv_c.specs.ReportedSurvey.{found_number, kind_number, reported_row};
ghost use Rattle.fv_c.specs.ReportedSurvey.{reported_sections_survey, reported_survey};
ghost use Rattle.fv_c.specs.Reports.{no_fault, reported_fault};
ghost use Rattle.fv_c.specs.inner.ListedRows.{BeginsWith};

use crate::reports::{BUFFER_TOO_SMALL, FvFault, NO_FAULT, set_fault};
use fv_base::Fault;
use fv_survey::further_laws::sections_keep_the_laws;
use fv_survey::{Row, RowKind, SurveyWalk};
use std::alloc::Global;

/// A row of a survey. (PI specification, volume 3, section 3.2.)
#[repr(C)]
#[derive(Clone, Copy)]
pub struct FvSurveyRow {
    /// The row's offset in bytes from the start of the image.
    pub offset: u64,
    /// The row's length in bytes.
    pub length: u64,
    /// What the row is about: a number from 1 to 21, in the order of `RowKind`.
    pub kind: u32,
    /// The number of rows around this row.
    pub depth: u32,
    /// `Type` of a file or a section, otherwise 0.
    pub efi_type: u32,
    /// 1 if the row is a volume that was found by its signature rather than by the structure around
    /// it, else 0.
    pub found: u32,
    /// The rules of the strict reader that the bytes break: bit N is set if they have the fault with
    /// the number N.
    pub findings: u32,
    /// `Name` of a file, or the GUID of the file system of a volume, as its 16 bytes in the image;
    /// otherwise zeros.
    pub name: [u8; 16],
    /// Always 0.
    pub reserved: u32,
}

// Returns the number of a kind of rows, from 1 to 21.
fn kind_number(kind: RowKind) -> u32
    ensures { result ≡ kind_number kind }
{
    match kind {
        RowKind::Volume => 1,
        RowKind::File => 2,
        RowKind::Section => 3,
        RowKind::Lost => 4,
        RowKind::VolumeHeader => 5,
        RowKind::ExtHeader => 6,
        RowKind::FileHeader => 7,
        RowKind::SectionHeader => 8,
        RowKind::Data => 9,
        RowKind::Body => 10,
        RowKind::Packed => 11,
        RowKind::Pad => 12,
        RowKind::PadData => 13,
        RowKind::Dead => 14,
        RowKind::Stub => 15,
        RowKind::Free => 16,
        RowKind::Filler => 17,
        RowKind::Between => 18,
        RowKind::Gap => 19,
        RowKind::Store => 20,
        RowKind::Unread => 21,
    }
}

// Returns 1 for a volume that was found by its signature, and 0 for any other row.
fn found_number(found: bool) -> u32
    ensures { result ≡ found_number found }
{
    if found { 1 } else { 0 }
}

// Returns the report for C of a row.
fn reported_row(row: &Row) -> FvSurveyRow
    ensures { result ≡ reported_row row.now }
{
    FvSurveyRow {
        offset: row.offset,
        length: row.length,
        kind: kind_number(row.kind),
        depth: u32::from(row.depth),
        efi_type: u32::from(row.code),
        found: found_number(row.found),
        findings: row.findings.bits(),
        name: row.name.to_bytes(),
        reserved: 0,
    }
}

// Writes the report of a row to this place of the buffer, if the buffer has the place.
fn put_row(row: &Row, place: usize, rows: &mut [FvSurveyRow])
    ensures fits { place < length rows.old → rows.new ≡ set rows.old place (reported_row row.now) }
    ensures full { length rows.old ≤ place → rows.new ≡ rows.old }
{
    if place < rows.len() {
        rows[place] = reported_row(row);
    }
}

// Writes the rows of a walk to the buffer, as many as it has room for, and returns the number of all
// rows. The rest of the buffer is unchanged. Memory may run out after some rows have been written.
fn put_rows_of(
    alloc: Global,
    mut walk: SurveyWalk<'_>,
    rows: &mut [FvSurveyRow],
) -> Result<usize, Fault>
    requires { length walk < 18446744073709551616 }
    ensures ok { IfOk result (λ n. (n ≡ length (map reported_row walk.entry))
        × BeginsWith n (map reported_row walk.entry) rows.old rows.new) }
    ensures err { IfErr result (λ f. f ≡ out_of_memory) }
    ensures front { OnErr result ((n : ℕ) × BeginsWith n (map reported_row walk.entry) rows.old rows.new) }
{
    let mut count = 0;
    while let Some(row) = walk.next_row(alloc)? {
        put_row(&row, count, rows);
        count += 1;
    }
    Ok(count)
}

// Does the same for the rows of the survey of an image.
fn put_survey(alloc: Global, image: &[u8], rows: &mut [FvSurveyRow]) -> Result<usize, Fault>
    ensures ok { IfOk result (λ n. (n ≡ length (reported_survey image.now))
        × BeginsWith n (reported_survey image.now) rows.old rows.new) }
    ensures err { IfErr result (λ f. f ≡ out_of_memory) }
    ensures front { OnErr result ((n : ℕ) × BeginsWith n (reported_survey image.now) rows.old rows.new) }
{
    let walk = SurveyWalk::of(alloc, image)?;
    put_rows_of(alloc, walk, rows)
}

// Does the same for the rows of the survey of a stream of sections.
fn put_sections_survey(
    alloc: Global,
    sections: &[u8],
    rows: &mut [FvSurveyRow],
) -> Result<usize, Fault>
    ensures ok { IfOk result (λ n. (n ≡ length (reported_sections_survey sections.now))
        × BeginsWith n (reported_sections_survey sections.now) rows.old rows.new) }
    ensures err { IfErr result (λ f. f ≡ out_of_memory) }
    ensures front { OnErr result ((n : ℕ) × BeginsWith n (reported_sections_survey sections.now) rows.old rows.new) }
{
    // There are at most two rows for each byte.
    sections_keep_the_laws();
    let walk = SurveyWalk::of_sections(alloc, sections)?;
    put_rows_of(alloc, walk, rows)
}

// Reports the number of rows, and returns 0, or 256 if a buffer has room for fewer. Reports the fault
// if there is one, and returns its number.
fn report_rows(
    found: Result<usize, Fault>,
    room: usize,
    count: &mut u64,
    fault: &mut FvFault,
) -> u32
    ensures ok { IfOk found (λ n. (count.new ≡ n) × (fault.new ≡ no_fault)) }
    ensures fits { IfOk found (λ n. n ≤ room → result ≡ 0) }
    ensures small { IfOk found (λ n. room < n → result ≡ 256) }
    ensures err { IfErr found (λ f. (result ≡ fault_number f.kind) × (0 < result) × (result < 256)
        × (f ≡ out_of_memory → result ≡ 24) × (fault.new ≡ reported_fault f) × (count.new ≡ count.old)) }
{
    match found {
        Ok(all) => {
            *fault = NO_FAULT;
            *count = all as u64;
            if room < all { BUFFER_TOO_SMALL } else { 0 }
        }
        Err(f) => set_fault(f, fault),
    }
}

/// Writes the rows of the survey of an image, in preorder, at the start of the buffer `rows`.
/// `count` is their number. Returns 0. The survey accounts for every byte: the leaf rows lie one
/// after another from the first byte of the image to its end. Any bytes can be surveyed, and no
/// rows are kept in memory. (PI specification, volume 3, section 3.2.)
///
/// # Errors
///
/// 256 if the buffer has fewer elements than `count`; the buffer contains the first rows then, and
/// `fault` is zeros. 24 if memory runs out; it is then in `fault`, `count` is unchanged, and some of
/// the first rows may have been written.
#[unsafe(no_mangle)]
pub extern "C" fn fvp_image_survey(
    alloc: Global,
    image: &[u8],
    rows: &mut [FvSurveyRow],
    count: &mut u64,
    fault: &mut FvFault,
) -> u32
    // The buffer begins with the rows, and is unchanged after them.
    ensures ok { result ≡ 0 → (count.new ≡ length (reported_survey image.now))
        × (rows.new ≡ reported_survey image.now ++ drop (length (reported_survey image.now)) rows.old)
        × (fault.new ≡ no_fault) }

    // The buffer is too small for the rows, and contains as many of the first rows as it has room
    // for.
    ensures small { result ≡ 256 → (count.new ≡ length (reported_survey image.now))
        × (length rows.old < length (reported_survey image.now))
        × (rows.new ≡ take (length rows.old) (reported_survey image.now)) × (fault.new ≡ no_fault) }

    // Any other result is out of memory. The buffer begins with some of the first rows, maybe none,
    // and is unchanged after them.
    ensures memory { result ≢ 0 → result ≢ 256 → (result ≡ 24) × (fault.new ≡ reported_fault out_of_memory)
        × (count.new ≡ count.old)
        × ((n : ℕ) × (n ≤ length rows.old) × (rows.new ≡ take n (reported_survey image.now) ++ drop n rows.old)) }
{
    let found = put_survey(alloc, image, rows);
    report_rows(found, rows.len(), count, fault)
}

/// Writes the rows of the survey of a stream of sections, such as the contents of a packed section,
/// in preorder, at the start of the buffer `rows`. `count` is their number. Returns 0. The leaf rows
/// lie one after another from the first byte to the end. Any bytes can be surveyed, and no rows are
/// kept in memory. (PI specification, volume 3, section 3.2.4.)
///
/// # Errors
///
/// 256 if the buffer has fewer elements than `count`; the buffer contains the first rows then, and
/// `fault` is zeros. 24 if memory runs out; it is then in `fault`, `count` is unchanged, and some of
/// the first rows may have been written.
#[unsafe(no_mangle)]
pub extern "C" fn fvp_sections_survey(
    alloc: Global,
    sections: &[u8],
    rows: &mut [FvSurveyRow],
    count: &mut u64,
    fault: &mut FvFault,
) -> u32
    // The buffer begins with the rows, and is unchanged after them.
    ensures ok { result ≡ 0 → (count.new ≡ length (reported_sections_survey sections.now))
        × (rows.new ≡ reported_sections_survey sections.now ++ drop (length (reported_sections_survey sections.now)) rows.old)
        × (fault.new ≡ no_fault) }

    // The buffer is too small for the rows, and contains as many of the first rows as it has room
    // for.
    ensures small { result ≡ 256 → (count.new ≡ length (reported_sections_survey sections.now))
        × (length rows.old < length (reported_sections_survey sections.now))
        × (rows.new ≡ take (length rows.old) (reported_sections_survey sections.now)) × (fault.new ≡ no_fault) }

    // Any other result is out of memory. The buffer begins with some of the first rows, maybe none,
    // and is unchanged after them.
    ensures memory { result ≢ 0 → result ≢ 256 → (result ≡ 24) × (fault.new ≡ reported_fault out_of_memory)
        × (count.new ≡ count.old)
        × ((n : ℕ) × (n ≤ length rows.old) × (rows.new ≡ take n (reported_sections_survey sections.now) ++ drop n rows.old)) }
{
    let found = put_sections_survey(alloc, sections, rows);
    report_rows(found, rows.len(), count, fault)
}
