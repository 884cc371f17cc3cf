//! Opening the packed sections of an image, level by level.

ghost use Rattle.std.specs.Prelude.{◌≡◌, List, [], ◌∷◌, drop, slice_get, Some, IfOk, IfErr};
ghost use Rattle.fv_base.specs.Words.{out_of_memory};
ghost use Rattle.fv_levels.specs.AllLevels.{AreLevels, levels_of};
ghost use Rattle.fv_levels.specs.Attempts.{Attempt};
ghost use Rattle.fv_levels.specs.Sources.{SourceForm, packed_in, packed_of, section_in};
ghost use Rattle.fv_levels.specs.inner.Opening.{GoesOver};

use crate::attempt::{Progress, attempt};
use crate::levels::Levels;
use crate::packed::{packed_rows, row_bytes};
use crate::place::PackedPlace;
use fv_base::Fault;
use fv_budget::{Budget, NESTING_LIMIT};
use fv_survey::Row;
use std::alloc::Global;

/// The number of levels: the image, and 8 levels of contents.
const LEVELS: usize = NESTING_LIMIT + 1;

// Opens the packed section of a row of a source, and keeps the outcome, unless the section lies in
// contents that are stored as they are. Returns the progress after it.
fn open_section(
    alloc: Global,
    levels: &mut Levels<'_>,
    number: usize,
    row: &Row,
    progress: Progress,
) -> Result<Progress, Fault>
    ensures over { IfOk result (λ next. (s : SourceForm) → slice_get levels.old.sources number ≡ Some s
        → GoesOver levels.old progress (section_in number s row.now ∷ []) levels.new next) }
    ensures err { IfErr result (λ f. f ≡ out_of_memory) }
{
    let Some(source) = levels.source(number) else {
        return Ok(progress);
    };
    let place = PackedPlace {
        source: number,
        depth: source.depth,
        offset: row.offset,
        length: row.length,
    };
    if progress.covers(&place) {
        return Ok(progress);
    }
    let outcome = attempt(
        alloc,
        row_bytes(source.bytes, row),
        source.depth,
        progress.left,
    )?;
    let next = progress.after(place, &outcome);
    levels.keep(place, outcome)?;
    Ok(next)
}

// Opens the packed sections of a source, and keeps the outcomes. Returns the progress after them.
fn open_source(
    alloc: Global,
    levels: &mut Levels<'_>,
    number: usize,
    progress: Progress,
) -> Result<Progress, Fault>
    ensures over { IfOk result (λ next. (s : SourceForm) → slice_get levels.old.sources number ≡ Some s
        → GoesOver levels.old progress (packed_in number s) levels.new next) }
    ensures err { IfErr result (λ f. f ≡ out_of_memory) }
{
    let Some(source) = levels.source(number) else {
        return Ok(progress);
    };
    let rows = packed_rows(alloc, &source)?;
    let mut next = progress;
    for row in &rows {
        next = open_section(alloc, levels, number, row, next)?;
    }
    Ok(next)
}

// Opens the packed sections of the sources from the number `from` on, and keeps the outcomes. Returns
// the progress after them.
fn open_level(
    alloc: Global,
    levels: &mut Levels<'_>,
    from: usize,
    progress: Progress,
) -> Result<Progress, Fault>
    ensures over { IfOk result (λ next. GoesOver levels.old progress (packed_of from (drop from levels.old.sources)) levels.new next) }
    ensures err { IfErr result (λ f. f ≡ out_of_memory) }
{
    let mut next = progress;
    for number in from..levels.count() {
        next = open_source(alloc, levels, number, next)?;
    }
    Ok(next)
}

/// Opens the packed sections of an image, and the packed sections of their contents, and so on. A
/// packed section is a compression section or a GUID-defined section that the survey of a source has
/// a row for. The image is source 0. Each further source is the contents of a packed section of an
/// earlier source, and is surveyed as a stream of sections. First come the contents of the sections of
/// source 0, in the order of its rows, then the contents of the sections of source 1, and so on. The
/// rows of a source are not kept.
///
/// Contents that are stored as they are can hold a volume that the survey of the source finds in them.
/// If the section with these contents is opened, the packed sections in that volume are not opened a
/// second time: they are opened in the contents.
///
/// A section is not opened if 8 opened sections are around it, if nothing is left of the budget, or
/// if it has a fault: then it is kept with the reason. `budget` is what may still be opened at the
/// first section, mostly `Budget::full()`. The contents are in memory as long as the result. (PI
/// specification, volume 3, sections 3.2.4, 3.2.5.2 and 3.2.5.7.)
///
/// # Errors
///
/// OutOfMemory at offset 0, also if memory runs out while a section is decoded.
pub fn open_all(alloc: Global, image: &[u8], budget: Budget) -> Result<Levels<'_>, Fault>
    // The result has the sources of the image, and the sections that are not opened, within the
    // budget.
    ensures levels { IfOk result (λ levels. levels ≡ levels_of image.now budget) }

    // The packed sections of all sources are tried, source after source, within the budget, except for sections in
    // contents that are stored. The sources are the image and the contents of the sections that are opened, and the
    // others are closed, with the reasons.
    ensures attempts { IfOk result (λ levels. (attempts : List Attempt) × AreLevels image.now budget levels attempts) }

    // The only error is OutOfMemory.
    ensures err { IfErr result (λ f. f ≡ out_of_memory) }
{
    let mut levels = Levels::of(alloc, image);
    let mut progress = Progress::first(budget);
    let mut from = 0;
    for level in 0..LEVELS {
        let next = levels.count();
        progress = open_level(alloc, &mut levels, from, progress)?;
        from = next;
    }
    Ok(levels)
}
