//! An image at every level: its packed sections, the packed sections in their contents, and so on.

ghost use Rattle.std.specs.Prelude.{◌≡◌, ◌≢◌, ◌⊎◌, ◌<◌, ◌≤◌, ◌++◌, ◌+◌, length, drop, map, take};
ghost use Rattle.std.specs.Prelude.{IfOk, IfErr, IfSome, OnOk, OnErr};
ghost use Rattle.fv_base.specs.Words.{out_of_memory};
ghost use Rattle.fv_levels.specs.Words.{source_form};
ghost use Rattle.fv_c.specs.ReportedLevels.{all_contents, budget_within, closed_row, depth_number, levels_within};
ghost use Rattle.fv_c.specs.ReportedLevels.{opened_row, opened_rows, reason_fault, reason_number};
ghost use Rattle.fv_c.specs.ReportedLevels.{reported_levels, reported_sections, source_contents, source_row};
ghost use Rattle.fv_c.specs.Reports.{no_fault, reported_fault};
ghost use Rattle.fv_c.specs.inner.Levels.{AreReported};

use crate::buffer::put_first;
use crate::contents::{set_open_fault, way_number};
use crate::reports::{BUFFER_TOO_SMALL, FvFault, NO_FAULT, set_result};
use fv_base::{Fault, FaultKind};
use fv_budget::Budget;
use fv_levels::{Closed, Levels, Origin, Reason, Source, open_all};
use std::alloc::Global;

/// A packed section of an image, at some level. (PI specification, volume 3, sections 3.2.5.2 and
/// 3.2.5.7.)
#[repr(C)]
#[derive(Clone, Copy)]
pub struct FvPacked {
    /// The number of the source that the section is in. The image is source 0.
    pub source: u64,
    /// The offset of the section in bytes from the first byte of the source.
    pub offset: u64,
    /// The length of the section in bytes, with its header.
    pub length: u64,
    /// The length of its contents in bytes, or 0 if it is not opened.
    pub contents_length: u64,
    /// The fault of the section, if this is why it is not opened; otherwise zeros.
    pub fault: FvFault,
    /// The number of opened sections around it, at most 8.
    pub depth: u32,
    /// The number of the way that gave the contents, or 0 if it is not opened.
    pub way: u32,
    /// Why it is not opened: 1 for a fault, 2 if 8 opened sections are around it, 3 if nothing is
    /// left of the limit; or 0 if it is opened.
    pub reason: u32,
    /// Always 0.
    pub reserved: u32,
}

/// How much there is at all levels of an image.
#[repr(C)]
#[derive(Clone, Copy)]
pub struct FvLevels {
    /// The number of packed sections that are opened.
    pub opened: u64,
    /// The number of packed sections that are not opened.
    pub closed: u64,
    /// The length of all contents together, in bytes.
    pub length: u64,
}

// Returns the budget of a call that may open this many bytes.
pub(crate) fn budget_within(limit: u64) -> Budget
    ensures { result ≡ budget_within limit }
{
    let full = Budget::full();
    Budget {
        left: full.left.min(limit as usize),
        ran_out: false,
    }
}

// Returns the number of a reason.
fn reason_number(reason: Reason) -> u32
    ensures { result ≡ reason_number reason }
{
    match reason {
        Reason::Fault(_) => 1,
        Reason::TooDeep => 2,
        Reason::Spent => 3,
    }
}

// Returns the report of the fault of a section, if it has one.
fn reason_fault(reason: Reason) -> FvFault
    ensures { result ≡ reason_fault reason }
{
    let mut fault = NO_FAULT;
    if let Reason::Fault(found) = reason {
        set_open_fault(found, &mut fault);
    }
    fault
}

// Returns a depth as a number of 32 bits.
fn depth_number(depth: usize) -> u32
    ensures { result ≡ depth_number depth }
{
    depth.min(u32::MAX as usize) as u32
}

// Returns the row of a section whose contents have this length.
fn opened_row(origin: Origin, length: usize) -> FvPacked
    ensures { result ≡ opened_row origin length }
{
    FvPacked {
        source: origin.place.source as u64,
        offset: origin.place.offset,
        length: origin.place.length,
        contents_length: length as u64,
        fault: NO_FAULT,
        depth: depth_number(origin.place.depth),
        way: way_number(origin.way),
        reason: 0,
        reserved: 0,
    }
}

// Returns the row of a section that is not opened.
fn closed_row(section: &Closed) -> FvPacked
    ensures { result ≡ closed_row section.now }
{
    FvPacked {
        source: section.place.source as u64,
        offset: section.place.offset,
        length: section.place.length,
        contents_length: 0,
        fault: reason_fault(section.reason),
        depth: depth_number(section.place.depth),
        way: 0,
        reason: reason_number(section.reason),
        reserved: 0,
    }
}

// Adds the row of the section that a source is the contents of, if it is the contents of a section.
fn add_source(source: &Source<'_>, rows: &mut Vec<FvPacked>) -> Result<(), Fault>
    ensures ok { OnOk result (rows.new.items ≡ rows.old.items ++ source_row (source_form source.now)) }
    ensures err { IfErr result (λ f. f ≡ out_of_memory) }
{
    if let Some(origin) = source.origin {
        rows.push(opened_row(origin, source.bytes.len()))?;
    }
    Ok(())
}

// Adds the rows of the sections that are not opened.
fn add_closed(closed: &[Closed], rows: &mut Vec<FvPacked>) -> Result<(), Fault>
    ensures ok { OnOk result (rows.new.items ≡ rows.old.items ++ map closed_row closed.now) }
    ensures err { IfErr result (λ f. f ≡ out_of_memory) }
{
    for section in closed {
        rows.push(closed_row(section))?;
    }
    Ok(())
}

// Returns the rows of the sections that are opened.
fn opened_rows(alloc: Global, levels: &Levels<'_>) -> Result<Vec<FvPacked>, Fault>
    ensures rows { IfOk result (λ v. v.items ≡ opened_rows levels.now.sources) }
    ensures err { IfErr result (λ f. f ≡ out_of_memory) }
{
    let mut rows = Vec::new(alloc);
    for number in 0..levels.count() {
        if let Some(source) = levels.source(number) {
            add_source(&source, &mut rows)?;
        }
    }
    Ok(rows)
}

// Returns the contents of a section, if the source is the contents of one, and otherwise no bytes.
fn source_contents<'a>(source: &Source<'a>) -> &'a [u8]
    ensures { result.now ≡ source_contents (source_form source.now) }
{
    match source.origin {
        Some(_) => source.bytes,
        None => &[],
    }
}

// Returns the length of all contents together. (They are all in memory, so this is always a number
// of 64 bits.)
fn contents_length(levels: &Levels<'_>) -> Option<usize>
    ensures { IfSome result (λ n. n ≡ length (all_contents levels.now.sources)) }
{
    let mut total: usize = 0;
    for number in 0..levels.count() {
        if let Some(source) = levels.source(number) {
            total = total.checked_add(source_contents(&source).len())?;
        }
    }
    Some(total)
}

// Writes bytes to a place of the buffer, and returns the place after them.
fn put_at(bytes: &[u8], place: usize, buffer: &mut [u8]) -> usize
    requires { place + length bytes.now ≤ length buffer.old }
    ensures place { result ≡ place + length bytes.now }
    ensures bytes { buffer.new ≡ take place buffer.old ++ (bytes.now ++ drop (place + length bytes.now) buffer.old) }
{
    let end = place + bytes.len();
    buffer[place..end].copy_from_slice(bytes);
    end
}

// Writes all contents, one after another, to the start of the buffer. The rest of the buffer is
// unchanged.
fn put_contents(levels: &Levels<'_>, buffer: &mut [u8])
    requires { length (all_contents levels.now.sources) ≤ length buffer.old }
    ensures { buffer.new ≡ all_contents levels.now.sources ++ drop (length (all_contents levels.now.sources)) buffer.old }
{
    let mut place = 0;
    for number in 0..levels.count() {
        if let Some(source) = levels.source(number) {
            place = put_at(source_contents(&source), place, buffer);
        }
    }
}

// Writes the rows and the contents to the buffers and returns 0. If a buffer is too small, returns
// 256 and leaves both unchanged. Sets `found` in both cases.
fn put_levels(
    alloc: Global,
    levels: &Levels<'_>,
    rows: &mut [FvPacked],
    bytes: &mut [u8],
    found: &mut FvLevels,
) -> Result<u32, Fault>
    ensures ok { IfOk result (AreReported levels.now rows.old rows.new bytes.old bytes.new found.new) }
    ensures err { IfErr result (λ f. f ≡ out_of_memory) }
    ensures kept { OnErr result ((rows.new ≡ rows.old) × (bytes.new ≡ bytes.old) × (found.new ≡ found.old)) }
{
    let mut list = opened_rows(alloc, levels)?;
    let opened = list.len();
    add_closed(levels.closed(), &mut list)?;
    let Some(total) = contents_length(levels) else {
        return Err(Fault::outer(FaultKind::OutOfMemory, 0));
    };
    *found = FvLevels {
        opened: opened as u64,
        closed: levels.closed().len() as u64,
        length: total as u64,
    };
    if rows.len() < list.len() || bytes.len() < total {
        return Ok(BUFFER_TOO_SMALL);
    }
    put_first(list.as_slice(), rows);
    put_contents(levels, bytes);
    Ok(0)
}

// Opens an image within a limit, and writes its rows and contents.
fn put_image(
    alloc: Global,
    image: &[u8],
    limit: u64,
    rows: &mut [FvPacked],
    bytes: &mut [u8],
    found: &mut FvLevels,
) -> Result<u32, Fault>
    ensures ok { IfOk result (AreReported (levels_within limit image.now) rows.old rows.new bytes.old bytes.new found.new) }
    ensures err { IfErr result (λ f. f ≡ out_of_memory) }
    ensures kept { OnErr result ((rows.new ≡ rows.old) × (bytes.new ≡ bytes.old) × (found.new ≡ found.old)) }
{
    let levels = open_all(alloc, image, budget_within(limit))?;
    put_levels(alloc, &levels, rows, bytes, found)
}

/// Opens the packed sections of an image, the packed sections in their contents, and so on, as
/// `open_all` does, within a budget of at most `limit` bytes. Writes a row for each packed section to
/// the start of `rows`: first the sections that are opened, in the order of the sources, so that row
/// `n` is the section whose contents are source `n + 1`; then the sections that are not opened.
/// Writes the contents of the sections that are opened, one after another in the same order, to the
/// start of `bytes`. `found` has the numbers of the rows, and the length of all contents. Returns 0.
/// (PI specification, volume 3, sections 3.2.4, 3.2.5.2 and 3.2.5.7.)
///
/// # Errors
///
/// 256 if `rows` or `bytes` is too small for what `found` says; `fault` is zeros then. 24 if memory
/// runs out; it is then in `fault`, and `found` is unchanged. `rows` and `bytes` are unchanged in both
/// cases.
#[unsafe(no_mangle)]
pub extern "C" fn fvp_image_open(
    alloc: Global,
    image: &[u8],
    limit: u64,
    rows: &mut [FvPacked],
    bytes: &mut [u8],
    found: &mut FvLevels,
    fault: &mut FvFault,
) -> u32
    // Each buffer begins with the rows or the contents, and is unchanged after them.
    ensures ok { result ≡ 0 → (found.new ≡ reported_levels (levels_within limit image.now))
        × (rows.new ≡ reported_sections (levels_within limit image.now)
        ++ drop (length (reported_sections (levels_within limit image.now))) rows.old)
        × (bytes.new ≡ all_contents (levels_within limit image.now).sources
        ++ drop (length (all_contents (levels_within limit image.now).sources)) bytes.old)
        × (fault.new ≡ no_fault) }

    ensures kept { result ≢ 0 → (rows.new ≡ rows.old) × (bytes.new ≡ bytes.old) }

    // 256 is returned only if one of the buffers is too small.
    ensures small { result ≡ 256 → (found.new ≡ reported_levels (levels_within limit image.now))
        × ((length rows.old < length (reported_sections (levels_within limit image.now)))
        ⊎ (length bytes.old < length (all_contents (levels_within limit image.now).sources)))
        × (fault.new ≡ no_fault) }

    // Any other result is out of memory.
    ensures memory { result ≢ 0 → result ≢ 256 → (result ≡ 24) × (fault.new ≡ reported_fault out_of_memory)
        × (found.new ≡ found.old) }
{
    let result = put_image(alloc, image, limit, rows, bytes, found);
    set_result(result, fault)
}
