//! The end of a run.

ghost use Rattle.std.specs.Prelude.{◌≡◌, ◌≢◌, ◌⊎◌, ℕ, List, true, false};
ghost use Rattle.fv_base.specs.Words.{has_erred, is_flushed, is_writing};
ghost use Rattle.fv_command.specs.Endings.{Ends};
ghost use Rattle.fv_command.specs.inner.RunSteps.{Written};
ghost use Rattle.fv_text.specs.Words.{PortView, StopsIn, view_of};

use crate::status::Status;
use fv_base::{Port, WriteSink};
use std::io::Write;

/// Returns whether everything that a sink took was written.
pub fn wrote_all<W: Write>(out: &WriteSink<'_, W>) -> bool
    ensures { result ≡ is_writing out.now }
{
    match out.outcome() {
        Ok(()) => true,
        Err(_) => false,
    }
}

/// Ends a run: flushes the writer, if all of the text was written. Returns the status, or Refused
/// if a write or the flush failed.
pub fn finish<W: Write>(writer: &mut Port<W>, is_written: bool, status: Status) -> Status
    // This holds for every text, and for whatever the writer held before it.
    ensures ends { (text : List ℕ) (before : PortView) → Written is_written text before (view_of W.contents writer.old)
        → Ends status text (record { old = before; new = view_of W.contents writer.new }) result }
    ensures flushed { result ≢ Status.Refused → is_flushed writer.new ≡ true }

    // Whatever the status is, the last call to the writer was a flush unless a write of the text
    // failed.
    ensures last { (text : List ℕ) (before : PortView) → Written is_written text before (view_of W.contents writer.old)
        → StopsIn before (view_of W.contents writer.new) text ⊎ (is_flushed writer.new ≡ true) }

    // If no call to the writer has failed, the last call to the writer was a flush.
    ensures fine { (text : List ℕ) (before : PortView) → Written is_written text before (view_of W.contents writer.old)
        → has_erred writer.new ≡ false → is_flushed writer.new ≡ true }
{
    if !is_written || writer.flush().is_err() {
        return Status::Refused;
    }
    status
}
