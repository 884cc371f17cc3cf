//! The command `compare`.

ghost use Rattle.std.specs.Prelude.{◌≡◌, ℕ, List, IfErr, IfOk, Option};
ghost use Rattle.fv_compare.specs.Words.{VolumeStops};
ghost use Rattle.fv_tree.specs.Words.{Accepted};
ghost use Rattle.fv_command.specs.RunInputs.{Gives, GivingStops};
ghost use Rattle.fv_text.specs.Words.{Change, change, view_of};
ghost use Rattle.fv_command.specs.PairRuns.{GivesVolume};
ghost use Rattle.fv_command.specs.inner.RunSteps.{ComparesInputs, verdict_of};

use crate::inputs::{read_bytes, taken_at};
use crate::status::Status;
use fv_base::{Fault, Port, Sink};
use fv_canon::whole_volume;
use fv_compare::{Side, put_comparison};
use fv_tree::VolumeView;
use std::alloc::Global;
use std::io::Read;

/// Reads the input of a side. A fault is returned with the side.
pub(crate) fn read_side<R: Read>(
    alloc: Global,
    hex: bool,
    side: Side,
    reader: &mut Port<R>,
) -> Result<Vec<u8>, (Side, Fault)>
    ensures ok { IfOk result (λ v. Gives hex (view_of R.remaining reader.old) (view_of R.remaining reader.new) v.items) }
    ensures err { IfErr result (λ e. (e.0 ≡ side) × GivingStops hex (view_of R.remaining reader.old)
        (view_of R.remaining reader.new) e.1) }
{
    match read_bytes(alloc, hex, reader) {
        Ok(bytes) => Ok(bytes),
        Err(fault) => Err((side, fault)),
    }
}

// Reads the bytes of a side as a volume with no bytes after it. A fault is returned with the side.
fn accept_side(alloc: Global, side: Side, bytes: &[u8]) -> Result<VolumeView<'_>, (Side, Fault)>
    ensures ok { IfOk result (λ view. Accepted bytes.now view) }
    ensures err { IfErr result (λ e. (e.0 ≡ side) × VolumeStops bytes.now e.1) }
{
    match whole_volume(alloc, bytes) {
        Ok(volume) => Ok(volume),
        Err(fault) => Err((side, fault)),
    }
}

/// Returns the status of a comparison: Done if the inputs are the same, otherwise Different.
pub(crate) fn verdict(is_same: bool) -> Status
    ensures { result ≡ verdict_of is_same }
{
    if is_same {
        Status::Done
    } else {
        Status::Different
    }
}

// Compares the first volume with the volume that the reader gives: puts whether they have the same
// meaning and, if not, where they first differ. A fault is returned with the side that stopped the
// run, or with First if memory runs out in `put_comparison`. Nothing has been put in that case.
fn compare_with<Second: Read, S: Sink>(
    alloc: Global,
    hex: bool,
    at: Option<u64>,
    volume: &VolumeView<'_>,
    reader: &mut Port<Second>,
    out: &mut S,
) -> Result<Status, (Side, Fault)>
    // This holds for every input that gives the first volume.
    ensures { (place : Option ℕ) (input : Change) → GivesVolume hex place input volume.now
        → ComparesInputs S.takes hex place at input (change Second.remaining reader.old reader.new) out.old out.new result }
{
    let bytes = read_side(alloc, hex, Side::Second, reader)?;
    let other = accept_side(alloc, Side::Second, taken_at(&bytes, at))?;
    match put_comparison(alloc, volume, &other, out) {
        Ok(is_same) => Ok(verdict(is_same)),
        Err(fault) => Err((Side::First, fault)),
    }
}

/// Puts whether two volumes have the same meaning and, if not, where they first differ. If `at` is
/// a number, the first volume begins at this byte of the first input; `other_at` does the same for
/// the second volume. The second input is read only if the first is a volume.
///
/// # Errors
///
/// The faults of reading, of `whole_volume` and of `put_comparison`, with the side that stopped the
/// run. If memory runs out in `put_comparison`, the side is First. Nothing has been put in that
/// case.
pub fn put_compared<First: Read, Second: Read, S: Sink>(
    alloc: Global,
    hex: bool,
    at: Option<u64>,
    other_at: Option<u64>,
    first: &mut Port<First>,
    second: &mut Port<Second>,
    out: &mut S,
) -> Result<Status, (Side, Fault)>
    ensures { ComparesInputs S.takes hex at other_at (change First.remaining first.old first.new)
        (change Second.remaining second.old second.new) out.old out.new result }
{
    let bytes = read_side(alloc, hex, Side::First, first)?;
    let volume = accept_side(alloc, Side::First, taken_at(&bytes, at))?;
    compare_with(alloc, hex, other_at, &volume, second, out)
}
