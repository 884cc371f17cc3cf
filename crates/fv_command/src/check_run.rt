//! The command `check`: reports whether a volume is its own canonical image, and its parts that
//! deserve a note.

ghost use Rattle.std.specs.Prelude.{◌≡◌, ◌⊎◌, ℕ, Bool, List, IfErr, IfOk, OnErr};
ghost use Rattle.fv_base.specs.Words.{out_of_memory};
ghost use Rattle.fv_command.specs.Tasks.{CheckText};
ghost use Rattle.fv_command.specs.inner.RunSteps.{Performs};
ghost use Rattle.fv_tree.specs.Words.{Accepted};

use crate::pads::put_pads;
use crate::status::Status;
use fv_base::{Fault, Sink};
use fv_canon::{is_canonical_image, whole_volume};
use fv_lines::{put_depex_notes, put_verdict};
use fv_plan::Task;
use fv_tree::VolumeView;
use std::alloc::Global;

// Puts the lines of `check` for the input, which is a volume. Returns whether it is its own
// canonical image.
fn put_volume_check<S: Sink>(
    alloc: Global,
    input: &[u8],
    view: &VolumeView<'_>,
    out: &mut S,
) -> Result<bool, Fault>
    requires { Accepted input.now view.now }
    ensures ok { IfOk result (λ same. (text : List ℕ) × CheckText input.now same text × S.takes out.old text out.new) }
    ensures err { IfErr result (λ f. f ≡ out_of_memory) }
    ensures untouched { OnErr result (out.new ≡ out.old) }
{
    let is_same = is_canonical_image(alloc, view, input)?;
    put_pads(out, input, is_same);
    put_depex_notes(out, view);
    put_verdict(out, is_same);
    Ok(is_same)
}

/// Puts the lines of `check`: one for each pad of the input's volume whose data bytes are not all
/// erased, one for each rejected dependency expression in its files, and last whether the input is
/// its own canonical image. Returns Done if it is, otherwise Different.
///
/// # Errors
///
/// As for `whole_volume`. OutOfMemory. Nothing has been put in that case.
pub fn put_check<S: Sink>(alloc: Global, input: &[u8], out: &mut S) -> Result<Status, Fault>
    ensures { (hex : Bool) → Performs S.takes Task.Check hex input.now out.old out.new result }
{
    let view = whole_volume(alloc, input)?;
    if put_volume_check(alloc, input, &view, out)? {
        Ok(Status::Done)
    } else {
        Ok(Status::Different)
    }
}
