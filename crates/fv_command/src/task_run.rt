//! The tasks: commands over one input.

ghost use Rattle.std.specs.Prelude.{◌≡◌, ◌⊎◌, ℕ, Bool, List, IfOk, IfErr};
ghost use Rattle.fv_text.specs.Words.{change, view_of};
ghost use Rattle.fv_tree.specs.Words.{MemoryRanOut};
ghost use Rattle.fv_command.specs.PartLines.{opened_status};
ghost use Rattle.fv_command.specs.RunInputs.{BeginsNone, BeginsWith, GivesAt, InputStops};
ghost use Rattle.fv_command.specs.Tasks.{TaskRefusal, TaskText};
ghost use Rattle.fv_command.specs.inner.RunSteps.{Performs, Puts};

use crate::check_run::put_check;
use crate::extract_run::{put_extracted, put_extracted_opened};
use crate::image_check_run::put_image_check;
use crate::inputs::{read_bytes, taken_at};
use crate::shown_image::put_shown_image;
use crate::status::Status;
use crate::survey_run::{put_surveyed, put_surveyed_opened};
use crate::unfix_run::put_unfixed;
use fv_base::{Fault, Port, Sink};
use fv_canon::{ImageDigests, lay_out_image, lay_out_volume, layout};
use fv_lines::{put_cells, put_list, put_list_with, put_volumes};
use fv_opened::put_opened_list;
use fv_plan::Task;
use fv_tree::{VolumeView, read_volume};
use std::alloc::Global;
use std::io::Read;

/// Reads the volume at the start of the input. Memory runs out only if the input begins with a volume
/// header.
pub(crate) fn volume_at_start(alloc: Global, input: &[u8]) -> Result<VolumeView<'_>, Fault>
    ensures ok { IfOk result (λ view. BeginsWith input.now view) }
    ensures err { IfErr result (λ f. MemoryRanOut input.now f ⊎ BeginsNone input.now f) }
{
    let (volume, _length) = read_volume(alloc, input)?;
    Ok(volume)
}

// Puts the lines of `list` for the volume at the start of the input.
fn list<S: Sink>(alloc: Global, input: &[u8], out: &mut S) -> Result<Status, Fault>
    ensures { (hex : Bool) → Performs S.takes Task.List hex input.now out.old out.new result }
{
    let volume = volume_at_start(alloc, input)?;
    put_list(&volume, out);
    Ok(Status::Done)
}

// Puts the lines of `list --sums` for the volume at the start of the input. Nothing is put before
// the volume is laid out, and nothing fails after that.
fn list_sums<S: Sink>(alloc: Global, input: &[u8], out: &mut S) -> Result<Status, Fault>
    ensures { (hex : Bool) → Performs S.takes Task.ListSums hex input.now out.old out.new result }
{
    let volume = volume_at_start(alloc, input)?;
    let places = layout(alloc, &volume)?;
    put_list_with(&volume, ImageDigests::new(places.starts()), out);
    Ok(Status::Done)
}

/// Returns the status of a run through packed sections: Incomplete if memory ran out there, otherwise
/// this status.
pub(crate) fn opened_status(ran_out: bool, status: Status) -> Status
    ensures { result ≡ opened_status ran_out status }
{
    if ran_out { Status::Incomplete } else { status }
}

// Puts the lines of `list --open` for the volume at the start of the input.
fn list_opened<S: Sink>(alloc: Global, input: &[u8], out: &mut S) -> Result<Status, Fault>
    ensures { (hex : Bool) → Performs S.takes Task.ListOpened hex input.now out.old out.new result }
{
    let volume = volume_at_start(alloc, input)?;
    let ran_out = put_opened_list(alloc, &volume, out);
    Ok(opened_status(ran_out, Status::Done))
}

// Puts the lines of `cells` for the volume at the start of the input.
fn cells<S: Sink>(alloc: Global, input: &[u8], out: &mut S) -> Result<Status, Fault>
    ensures { (hex : Bool) → Performs S.takes Task.Cells hex input.now out.old out.new result }
{
    put_cells(alloc, input, out)?;
    Ok(Status::Done)
}

// Puts the lines of `scan`: the places and the lengths of the volumes in the input.
fn scan<S: Sink>(alloc: Global, input: &[u8], out: &mut S) -> Result<Status, Fault>
    ensures { (hex : Bool) → Performs S.takes Task.Scan hex input.now out.old out.new result }
{
    let volumes = fv_tree::volumes(alloc, input)?;
    put_volumes(out, volumes.as_slice());
    Ok(Status::Done)
}

// Puts the result of the task for the input. If the input is rejected, or if memory runs out,
// nothing has been put.
fn perform<S: Sink>(
    alloc: Global,
    task: &Task,
    hex: bool,
    input: &[u8],
    out: &mut S,
) -> Result<Status, Fault>
    ensures { Performs S.takes task.now hex input.now out.old out.new result }
{
    match task {
        Task::Normalise => {
            put_shown_image(out, hex, &lay_out_volume(alloc, input)?);
            Ok(Status::Done)
        }
        Task::NormaliseAll => {
            put_shown_image(out, hex, &lay_out_image(alloc, input)?);
            Ok(Status::Done)
        }
        Task::List => list(alloc, input, out),
        Task::ListSums => list_sums(alloc, input, out),
        Task::ListOpened => list_opened(alloc, input, out),
        Task::Extract(part) => put_extracted(alloc, hex, input, part, out),
        Task::ExtractOpened(part) => put_extracted_opened(alloc, hex, input, part, out),
        Task::Check => put_check(alloc, input, out),
        Task::CheckAll => put_image_check(alloc, input, out),
        Task::Cells => cells(alloc, input, out),
        Task::Unfix => put_unfixed(alloc, hex, input, out),
        Task::Scan => scan(alloc, input, out),
        Task::Survey => Ok(put_surveyed(alloc, input, out)),
        Task::SurveyOpened => Ok(put_surveyed_opened(alloc, input, out)),
    }
}

/// Reads an input to its end, and puts the result of the task for it. If `at` is a number, the task
/// works on the volume at this byte of the input.
///
/// # Errors
///
/// The faults of reading, and the faults of the task. Nothing has been put in that case.
pub fn put_task<R: Read, S: Sink>(
    alloc: Global,
    task: &Task,
    hex: bool,
    at: Option<u64>,
    reader: &mut Port<R>,
    out: &mut S,
) -> Result<Status, Fault>
    ensures { Puts S.takes
        (λ status text. (bytes : List ℕ)
        × GivesAt hex at (view_of R.remaining reader.old) (view_of R.remaining reader.new) bytes
        × TaskText task.now hex bytes status text)
        (InputStops (TaskRefusal task.now) hex at (change R.remaining reader.old reader.new)) out.old out.new result }
{
    let input = read_bytes(alloc, hex, reader)?;
    perform(alloc, task, hex, taken_at(&input, at), out)
}
