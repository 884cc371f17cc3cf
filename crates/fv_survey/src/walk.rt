//! The walk over an image that lends its rows one after another, and the survey that keeps them.

ghost use Rattle.std.specs.Prelude.{◌≡◌, ◌+◌, ◌*◌, ◌≤◌, ◌<◌, ◌^◌, [], ◌∷◌, length, IfOk, IfErr, IfSome, IfNone};
ghost use Rattle.fv_base.specs.Words.{out_of_memory};
ghost use Rattle.fv_survey.specs.Forests.{Forest, IsForest};
ghost use Rattle.fv_survey.specs.Fitting.{Fits};
ghost use Rattle.fv_survey.specs.Honesty.{IsHonest};
ghost use Rattle.fv_survey.specs.Portions.{ahead, portion_form, stack};
ghost use Rattle.fv_survey.specs.Reading.{after_first, first_row, inside_first, rows_left, survey_of, survey_of_sections, whole_portion};
ghost use Rattle.fv_survey.specs.Runs.{PassesNothing};
ghost use Rattle.fv_survey.specs.Tiling.{Tile, TileEach};

use crate::file_step::cells_step;
use crate::findings::Findings;
use crate::portion::{Nesting, Opening, Portion, Reading, put};
use crate::row::{Row, RowKind};
use crate::section_step::sections_step;
use crate::volume_step::{enter_lost, run_step, volume_step};
use fv_base::Fault;
use fv_base::limits::DEPTH_LIMIT;
use std::alloc::Global;
use std::marker::Model;

// How often volumes that were found by their signatures may nest.
const FOUND_LIMIT: u8 = 8;

// Takes the step over the first row of a portion, and returns this row.
fn step<'a>(
    alloc: Global,
    portions: &mut Vec<Portion<'a>>,
    portion: Portion<'a>,
) -> Result<Row, Fault>
    requires fits { Fits (portion_form portion) }
    ensures row { IfOk result (λ r. r ≡ first_row (portion_form portion.entry)) }
    ensures inside { IfOk result (λ _. stack portions.new.items
        ≡ inside_first (portion_form portion.entry) (after_first (portion_form portion.entry) (stack portions.old.items))) }
    ensures err { IfErr result (λ f. f ≡ out_of_memory) }
{
    let size = portion.bytes.len();
    match portion.reading {
        Reading::Leaf(kind, findings) => Ok(portion.row(Opening::plain(kind, findings), size)),
        Reading::Run(kind) => run_step(alloc, portions, portion, kind),
        Reading::Lost(findings) => {
            enter_lost(portions, portion, size)?;
            Ok(portion.row(Opening::plain(RowKind::Lost, findings), size))
        }
        Reading::Volume => volume_step(alloc, portions, portion, false),
        Reading::Cells(layout) => cells_step(portions, portion, layout),
        Reading::Sections(odd) => sections_step(portions, portion, odd),
    }
}

/// A walk over the rows of a survey, which are made one after another and not kept. The walk keeps
/// a portion of the image for each level and what is left on it. Contracts see the list of the rows
/// that are left.
#[derive(Drop)]
pub struct SurveyWalk<'a> {
    // The portions that are still to be surveyed. The last is the first to be surveyed.
    portions: Vec<Portion<'a>>,
}

impl<'a> Model for SurveyWalk<'a> {
    ghost use Rattle.std.specs.Prelude.{List};
    ghost use Rattle.std.specs.List.{AllByRecursion};
    ghost use Rattle.fv_survey.specs.declared.row.Row.{Row};
    ghost use Rattle.fv_survey.specs.Fitting.{Fits};
    ghost use Rattle.fv_survey.specs.Portions.{stack};
    ghost use Rattle.fv_survey.specs.Reading.{rows_left};

    ghost Value = { List Row };

    ghost view = { λ w. rows_left (stack w.portions.items) };

    ghost invariant = { λ w. AllByRecursion Fits (stack w.portions.items) };
}

// Returns the portion of bytes that lie in no row, and are read in this way.
fn whole<'a>(reading: Reading, bytes: &'a [u8]) -> Portion<'a>
    ensures { portion_form result ≡ whole_portion reading bytes.now }
{
    let nest = Nesting {
        depth: 0,
        levels: DEPTH_LIMIT,
        found: FOUND_LIMIT,
    };
    Portion {
        reading,
        nest,
        at: 0,
        bytes,
    }
}

// Starts a walk over the rows of a portion.
fn start<'a>(alloc: Global, portion: Portion<'a>) -> Result<SurveyWalk<'a>, Fault>
    requires fits { 0 < length portion.bytes.now → Fits (portion_form portion) }
    ensures rows { IfOk result (λ w. w ≡ rows_left (ahead (portion_form portion.entry) [])) }
    ensures err { IfErr result (λ f. f ≡ out_of_memory) }
{
    let mut portions = Vec::new(alloc);
    put(&mut portions, portion)?;
    Ok(SurveyWalk { portions })
}

impl<'a> SurveyWalk<'a> {
    /// Starts a walk over the rows of the survey of an image.
    ///
    /// # Errors
    ///
    /// OutOfMemory at offset 0.
    pub fn of(alloc: Global, image: &'a [u8]) -> Result<SurveyWalk<'a>, Fault>
        ensures rows { IfOk result (λ w. w ≡ survey_of image.now) }
        ensures err { IfErr result (λ f. f ≡ out_of_memory) }
    {
        start(alloc, whole(Reading::Run(RowKind::Gap), image))
    }

    /// Starts a walk over the rows of the survey of a stream of sections, such as the contents of a
    /// packed section. It is read like the data of a file that holds sections: the rows that lie in
    /// no other row are sections, fillers between them, and lost bytes. (PI specification, volume 3,
    /// section 3.2.4.)
    ///
    /// # Errors
    ///
    /// OutOfMemory at offset 0.
    pub fn of_sections(alloc: Global, sections: &'a [u8]) -> Result<SurveyWalk<'a>, Fault>
        ensures rows { IfOk result (λ w. w ≡ survey_of_sections sections.now) }
        ensures err { IfErr result (λ f. f ≡ out_of_memory) }
    {
        start(alloc, whole(Reading::Sections(Findings::NONE), sections))
    }

    /// Returns the next row, or None after the last one.
    ///
    /// # Errors
    ///
    /// OutOfMemory at offset 0. The walk has no rows then.
    pub fn next_row(&mut self, alloc: Global) -> Result<Option<Row>, Fault>
        // The returned row is the first of the rows that are left, and the others are still left.
        ensures some { IfOk result (λ o. IfSome o (λ r. self.old ≡ r ∷ self.new)) }

        // None is returned only if no rows are left.
        ensures none { IfOk result (λ o. IfNone o ((self.old ≡ []) × (self.new ≡ []))) }

        // The only error is OutOfMemory.
        ensures err { IfErr result (λ f. f ≡ out_of_memory) }
    {
        let Some(portion) = self.portions.pop() else {
            return Ok(None);
        };
        match step(alloc, &mut self.portions, portion) {
            Ok(row) => Ok(Some(row)),
            Err(fault) => {
                self.portions.clear();
                Err(fault)
            }
        }
    }
}

/// The rows of a survey in preorder. Contracts see the list of the rows.
#[derive(Drop)]
pub struct SurveyRows {
    rows: Vec<Row>,
}

impl Model for SurveyRows {
    ghost use Rattle.std.specs.Prelude.{List};
    ghost use Rattle.fv_survey.specs.declared.row.Row.{Row};

    ghost Value = { List Row };

    ghost view = { λ s. s.rows.items };
}

impl SurveyRows {
    /// Returns the rows in preorder.
    pub fn as_slice(&self) -> &[Row]
        ensures { result.now ≡ self.now }
    {
        self.rows.as_slice()
    }
}

/// Returns the account of every byte of an image. Any bytes can be surveyed. The time is linear in
/// their number, apart from the comparison of the names of files. (PI specification, volume 3,
/// section 3.2.)
///
/// # Errors
///
/// OutOfMemory at offset 0.
pub fn survey(alloc: Global, image: &[u8]) -> Result<SurveyRows, Fault>
    // The rows are the rows of the survey of the image, by the rules of the tolerant reading.
    ensures rows { IfOk result (λ rows. rows ≡ survey_of image.now) }

    // Every byte of the image is in exactly one leaf row.
    ensures tiling { IfOk result (λ rows. Tile (length image.now) rows) }

    // The rows in a row are the deeper rows after it, up to the first row that is not deeper. Their leaf rows tile it.
    ensures inside { IfOk result (λ rows. TileEach rows) }

    // The rows in a row lie one after another from its first byte to its end, and are one deeper than it.
    ensures nesting { IfOk result (λ rows. (f : Forest) × IsForest (length image.now) rows f) }

    // In each run of bytes that no structure explains further, each place where a volume may begin is in a volume row
    // that was found there or earlier, or in bytes that were left unread because volumes nest too deep.
    ensures passes { IfOk result (λ rows. (f : Forest) × IsForest (length image.now) rows f × PassesNothing image.now 0 f) }

    // Each finding of a row says what is so in the bytes of the image at this row. Bytes are lost or unread only for a
    // reason that a finding gives.
    ensures honest { IfOk result (λ rows. (f : Forest) × IsForest (length image.now) rows f × IsHonest image.now [] [] f) }

    // There are at most two rows for each byte.
    ensures few { IfOk result (λ rows. length rows ≤ 2 * length image.now) }

    // The only error is OutOfMemory.
    ensures err { IfErr result (λ f. f ≡ out_of_memory) }
{
    let mut walk = SurveyWalk::of(alloc, image)?;
    let mut rows = Vec::new(alloc);
    while let Some(row) = walk.next_row(alloc)? {
        rows.push(row)?;
    }
    Ok(SurveyRows { rows })
}
