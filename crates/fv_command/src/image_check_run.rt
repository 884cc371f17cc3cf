//! The command `check --all`: reports for each volume of an image whether it is its own canonical
//! image, or the fault with which it is rejected.

ghost use Rattle.std.specs.Prelude.{◌≡◌, ◌++◌, Bool, codes};
ghost use Rattle.std.specs.List.{flat_map, list_any};
ghost use Rattle.fv_command.specs.ImageChecks.{checked_line, checks_status, is_not_canonical, is_rejected, outcome_line};
ghost use Rattle.fv_command.specs.inner.RunSteps.{Performs};

use crate::fault_text::put_fault;
use crate::status::Status;
use fv_base::{Fault, Sink};
use fv_canon::{VolumeCheck, VolumeOutcome, check_image};
use fv_lines::{put_verdict, put_volume_place};
use fv_plan::Task;
use std::alloc::Global;

// Puts the outcome of a volume's check, which ends the volume's line.
fn put_outcome<S: Sink>(out: &mut S, outcome: VolumeOutcome)
    ensures { S.takes out.old (outcome_line outcome) out.new }
{
    match outcome {
        VolumeOutcome::Canonical => put_verdict(out, true),
        VolumeOutcome::NotCanonical => put_verdict(out, false),
        VolumeOutcome::Rejected(fault) => put_fault(
            out,
            b"",
            fault.kind.number(),
            fault.place.offset,
        ),
    }
}

// Puts the line of a volume.
fn put_checked_volume<S: Sink>(out: &mut S, check: &VolumeCheck)
    ensures { S.takes out.old (checked_line check.now) out.new }
{
    put_volume_place(out, check.offset, check.length);
    out.put(b" ");
    put_outcome(out, check.outcome);
}

// Puts the lines of some volumes, in order.
fn put_checked_volumes<S: Sink>(out: &mut S, checks: &[VolumeCheck])
    ensures { S.takes out.old (flat_map checked_line checks.now) out.new }
{
    for check in checks {
        put_checked_volume(out, check);
    }
}

// Returns whether the volume is rejected.
fn is_rejected(check: &VolumeCheck) -> bool
    ensures { result ≡ is_rejected check.now.outcome }
{
    matches!(check.outcome, VolumeOutcome::Rejected(_))
}

// Returns whether the volume is accepted but is not its own canonical image.
fn is_not_canonical(check: &VolumeCheck) -> bool
    ensures { result ≡ is_not_canonical check.now.outcome }
{
    matches!(check.outcome, VolumeOutcome::NotCanonical)
}

// Returns whether any of the volumes is rejected.
fn has_rejected(checks: &[VolumeCheck]) -> bool
    ensures { result ≡ list_any (λ c. is_rejected c.outcome) checks.now }
{
    checks.iter().any(is_rejected)
}

// Returns whether any of the volumes is accepted but is not its own canonical image.
fn has_not_canonical(checks: &[VolumeCheck]) -> bool
    ensures { result ≡ list_any (λ c. is_not_canonical c.outcome) checks.now }
{
    checks.iter().any(is_not_canonical)
}

// Returns the status of some checks: the worst check determines it.
fn status_of(checks: &[VolumeCheck]) -> Status
    ensures { result ≡ checks_status checks.now }
{
    if has_rejected(checks) {
        Status::Faulty
    } else if has_not_canonical(checks) {
        Status::Different
    } else {
        Status::Done
    }
}

/// Puts a line for each volume of the image, in order: its place, and whether it is its own
/// canonical image or the fault with which it is rejected. The fault's offset counts from the first
/// byte of the image. Returns Faulty if a volume is rejected, otherwise Different if a volume is
/// not its own canonical image, otherwise Done.
///
/// # Errors
///
/// As for `check_image`. Nothing has been put in that case.
pub fn put_image_check<S: Sink>(alloc: Global, input: &[u8], out: &mut S) -> Result<Status, Fault>
    ensures { (hex : Bool) → Performs S.takes Task.CheckAll hex input.now out.old out.new result }
{
    let checks = check_image(alloc, input)?;
    put_checked_volumes(out, &checks);
    Ok(status_of(&checks))
}
