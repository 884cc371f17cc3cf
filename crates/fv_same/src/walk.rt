//! The walk over the rows of a source.

ghost use Rattle.std.specs.Prelude.{◌≡◌, ◌+◌, IfOk, IfErr};
ghost use Rattle.fv_base.specs.Words.{out_of_memory};
ghost use Rattle.fv_same.specs.Parts.{items_in, read_if};
ghost use Rattle.fv_same.specs.inner.Walks.{walk_items};

use crate::reader::{Reader, count_before};
use crate::superseded::updates_of;
use fv_base::Fault;
use fv_levels::Levels;
use fv_survey::SurveyWalk;
use std::alloc::Global;

/// A source whose rows are read, and the rows that are left.
#[derive(Drop)]
pub(crate) struct SourceWalk<'a> {
    pub(crate) reader: Reader<'a>,
    // How deep opened sections may nest in the source.
    pub(crate) room: usize,
    pub(crate) rows: SurveyWalk<'a>,
}

/// Starts the walk over the rows of the source with this number, if there is one. Sections may nest
/// `room` deep in it.
pub(crate) fn walk_of<'a>(
    alloc: Global,
    levels: &'a Levels<'_>,
    number: usize,
    room: usize,
) -> Result<Option<SourceWalk<'a>>, Fault>
    ensures items { IfOk result (λ w. walk_items levels.now.sources w ≡ items_in (room + 1) levels.now.sources number) }
    ensures err { IfErr result (λ f. f ≡ out_of_memory) }
{
    let Some(source) = levels.source(number) else {
        return Ok(None);
    };
    let updates = updates_of(alloc, &source)?;
    let reader = Reader {
        number,
        level: source.depth,
        bytes: source.bytes,
        next: count_before(levels, number),
        around: Vec::new(alloc),
        updates,
    };
    let rows = source.walk(alloc)?;
    Ok(Some(SourceWalk { reader, room, rows }))
}

/// Starts the walk over the rows of the source with this number, if there is a number and a source,
/// and sections may nest in the source that it is the contents of a section of.
#[tactic(auto, using(crate::proofs::WalkLemmas::items_none))]
pub(crate) fn walk_in<'a>(
    alloc: Global,
    levels: &'a Levels<'_>,
    number: Option<usize>,
    room: usize,
) -> Result<Option<SourceWalk<'a>>, Fault>
    ensures items { IfOk result (λ w. walk_items levels.now.sources w ≡ read_if (items_in room levels.now.sources) number) }
    ensures err { IfErr result (λ f. f ≡ out_of_memory) }
{
    let Some(number) = number else {
        return Ok(None);
    };
    if room == 0 {
        return Ok(None);
    }
    walk_of(alloc, levels, number, room - 1)
}
