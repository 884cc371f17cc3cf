//! Extracting a part from the first volume that has its file, through packed sections.

ghost use Rattle.std.specs.Prelude.{◌≡◌, ℕ, List, IfOk, IfErr};
ghost use Rattle.fv_rows.specs.Words.{part_node};
ghost use Rattle.fv_section.specs.Words.{frame_form};
ghost use Rattle.fv_tree.specs.Words.{file_named, files_of};
ghost use Rattle.fv_extract.specs.OpenedParts.{ContentsOver, OpenedPartText, PackedSearch, StopsOpenedPart};
ghost use Rattle.fv_extract.specs.OpenedParts.{PartSearch, RowsSearch, end_in, search_of};
ghost use Rattle.fv_extract.specs.inner.SearchSteps.{PutsStep, SearchesTo};

use crate::extracting::extract;
use crate::outcome::{Outcome, put_extraction};
use crate::progress::Progress;
use fv_base::{Fault, Sink};
use fv_budget::{NESTING_LIMIT, packed_frame};
use fv_open::open_frame;
use fv_plan::Part;
use fv_rows::{Row, TreeWalk};
use fv_section::Frame;
use fv_tree::{VolumeView, file_by_name, whole_stream};
use std::alloc::Global;

/// The result of looking for a part in a volume and in its packed sections.
#[derive(Clone, Copy, Debug, PartialEq, Eq)]
pub struct Search {
    /// The outcome for the first volume that has a file with the part's name, or None if no such
    /// file was found.
    pub outcome: Option<Outcome>,
    /// The number of packed sections before that volume that were not opened, or whose contents were
    /// not read. If no file was found, it is the number of all such sections. The number
    /// 18,446,744,073,709,551,615 also means more sections.
    pub unread: u64,
    /// Whether memory ran out while one of these sections was opened, or while its contents were
    /// read.
    pub ran_out: bool,
}

// The part that is searched for, and whether its bytes are put as hexadecimal text.
#[derive(Clone, Copy)]
struct Request {
    part: Part,
    hex: bool,
}

// A step of the search.
enum Step {
    // The file was found, and the search ends.
    Ended(Search),
    // The file was not found, and the search goes on.
    Going(Progress),
}

// Returns the result of a search with this outcome and this progress.
fn search_of(outcome: Option<Outcome>, progress: Progress) -> Search
    ensures { result ≡ search_of outcome progress }
{
    Search {
        outcome,
        unread: progress.unread,
        ran_out: progress.budget.ran_out,
    }
}

// Searches the files of a volume. If the file is found, puts the part.
fn put_in_volume<S: Sink>(
    alloc: Global,
    request: Request,
    volume: &VolumeView<'_>,
    progress: Progress,
    out: &mut S,
) -> Result<Step, Fault>
    ensures { PutsStep S.takes request (end_in (file_named request.part.name (files_of volume.now)) volume.now progress)
        out.old out.new result }
{
    if file_by_name(volume, &request.part.name).is_none() {
        return Ok(Step::Going(progress));
    }
    let extraction = extract(alloc, volume, &request.part)?;
    let outcome = put_extraction(out, request.hex, &extraction);
    Ok(Step::Ended(search_of(Some(outcome), progress)))
}

// Searches the contents of a packed section. If the file is found, puts the part.
#[cycle(search)]
fn put_in_contents<S: Sink>(
    alloc: Global,
    request: Request,
    bytes: &[u8],
    deeper: usize,
    progress: Progress,
    out: &mut S,
) -> Result<Step, Fault>
    ensures { SearchesTo S.takes request (ContentsOver request.part.name (PackedSearch request.part.name deeper) progress bytes.now)
        out.old out.new result }
{
    match whole_stream(alloc, bytes) {
        Ok(stream) => {
            let rows = TreeWalk::of_stream(&stream);
            put_in_rows(alloc, request, rows, deeper, progress, out)
        }
        Err(fault) => Ok(Step::Going(progress.after_reading(fault))),
    }
}

// Searches the contents of a packed section, if it can be opened. If the file is found, puts the
// part. Packed sections may nest `deeper` deep, including the section itself.
#[cycle(search)]
fn put_in_packed<S: Sink>(
    alloc: Global,
    request: Request,
    frame: &Frame<'_>,
    deeper: usize,
    progress: Progress,
    out: &mut S,
) -> Result<Step, Fault>
    ensures { SearchesTo S.takes request (PackedSearch request.part.name deeper progress (frame_form frame.now)) out.old out.new result }
{
    if deeper == 0 {
        return Ok(Step::Going(progress.skip()));
    }
    let Some(limit) = progress.budget.limit() else {
        return Ok(Step::Going(progress.skip()));
    };
    match open_frame(alloc, frame, limit) {
        Ok(opened) => {
            let bytes = opened.contents.as_slice();
            let after = progress.after_opening(bytes.len());
            put_in_contents(alloc, request, bytes, deeper - 1, after, out)
        }
        Err(fault) => Ok(Step::Going(progress.after_fault(fault))),
    }
}

// Searches a part, without the parts in it that have rows of their own. If the file is found, puts
// the part that is requested.
#[cycle(search)]
fn put_in_part<S: Sink>(
    alloc: Global,
    request: Request,
    part: &fv_rows::Part<'_, '_>,
    deeper: usize,
    progress: Progress,
    out: &mut S,
) -> Result<Step, Fault>
    ensures { SearchesTo S.takes request
        (PartSearch request.part.name (PackedSearch request.part.name deeper) progress (part_node part.now)) out.old out.new result }
{
    match part {
        fv_rows::Part::Volume(volume) => put_in_volume(alloc, request, volume, progress, out),
        fv_rows::Part::File(_) => Ok(Step::Going(progress)),
        fv_rows::Part::Section(section) => match packed_frame(section) {
            Some(frame) => put_in_packed(alloc, request, &frame, deeper, progress, out),
            None => Ok(Step::Going(progress)),
        },
    }
}

// Searches some rows, and the packed sections among them. If the file is found, puts the part.
#[cycle(search)]
fn put_in_rows<S: Sink>(
    alloc: Global,
    request: Request,
    rows: TreeWalk<'_, '_>,
    deeper: usize,
    progress: Progress,
    out: &mut S,
) -> Result<Step, Fault>
    ensures { SearchesTo S.takes request (RowsSearch request.part.name (PackedSearch request.part.name deeper) progress rows.entry)
        out.old out.new result }
{
    let mut so_far = progress;
    for row in rows {
        match put_in_part(alloc, request, &row.part, deeper, so_far, out)? {
            Step::Ended(search) => return Ok(Step::Ended(search)),
            Step::Going(next) => so_far = next,
        }
    }
    Ok(Step::Going(so_far))
}

/// Extracts a part from the first volume that has a file with the part's name, and puts its bytes: as
/// hexadecimal text if `hex` is true, otherwise as they are. `extract` gives the same bytes for that
/// volume. Volumes are searched in the order of the rows of `list --open`: the volume itself, and
/// then, as the rows follow each other, the volumes that sections contain, and the volumes in the
/// contents of packed sections, which are compression sections and GUID-defined sections.
///
/// The contents of a packed section have at most 268,435,456 bytes, and the contents of all packed
/// sections together at most 1,073,741,824 bytes. Packed sections nest at most 8 deep. A section that
/// exceeds these limits, that is damaged, that has no known way, or whose contents are not sections,
/// is counted, and the search goes on after it. It also goes on if memory runs out while a section is
/// opened or its contents are read. The contents of a section are in memory while they are searched.
/// (PI specification, volume 3, sections 3.2.3, 3.2.4, 3.2.5.2 and 3.2.5.7.)
///
/// # Errors
///
/// The faults of `extract` for the volume that has the file: the fault of the first volume in the
/// part whose own files cannot be placed, and OutOfMemory. Nothing has been put in that case.
pub fn put_opened_part<S: Sink>(
    alloc: Global,
    volume: &VolumeView<'_>,
    part: &Part,
    hex: bool,
    out: &mut S,
) -> Result<Search, Fault>
    ensures ok { IfOk result (λ search. (text : List ℕ) × OpenedPartText volume.now part.now hex search text
        × S.takes out.old text out.new) }
    ensures err { IfErr result (λ f. StopsOpenedPart volume.now part.now f × (out.new ≡ out.old)) }
{
    let request = Request { part: *part, hex };
    let rows = TreeWalk::of(volume);
    match put_in_rows(alloc, request, rows, NESTING_LIMIT, Progress::start(), out)? {
        Step::Ended(search) => Ok(search),
        Step::Going(end) => Ok(search_of(None, end)),
    }
}
