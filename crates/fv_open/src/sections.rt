//! The section at the start of bytes, and whether bytes are a stream of sections.

ghost use Rattle.std.specs.Prelude.{◌≡◌, ◌≤◌, length, true, false, IfOk, IfErr};
ghost use Rattle.fv_section.specs.Words.{frame_form, frame_in, frame_len};
ghost use Rattle.fv_open.specs.OpenFaults.{open_fault};
ghost use Rattle.fv_open.specs.SectionStreams.{begins_section, is_stream};
ghost use Rattle.fv_open.specs.declared.fault.OpenFaultKind.TheVariants as kinds;

use crate::fault::{OpenFault, OpenFaultKind};
use fv_section::{Frame, FrameWalk, next_frame};

/// Returns the section at the start of the bytes.
///
/// # Errors
///
/// Short at 0 if the bytes do not begin with a whole section.
pub(crate) fn first_section(bytes: &[u8]) -> Result<Frame<'_>, OpenFault>
    ensures begins { IfOk result (λ _. begins_section bytes.now ≡ true) }
    ensures frame { IfOk result (λ f. frame_form f ≡ frame_in 0 bytes.now) }
    ensures within { IfOk result (λ f. frame_len (frame_form f) ≤ length bytes.now) }
    ensures none { IfErr result (λ _. begins_section bytes.now ≡ false) }
    ensures fault { IfErr result (λ e. e ≡ open_fault kinds.Short 0) }
{
    match next_frame(bytes, 0) {
        Ok(Some(frame)) => Ok(frame),
        Ok(None) => Err(OpenFault::at(OpenFaultKind::Short, 0)),
        Err(_) => Err(OpenFault::at(OpenFaultKind::Short, 0)),
    }
}

/// Returns whether the bytes are a stream of sections.
pub(crate) fn is_stream(bytes: &[u8]) -> bool
    ensures { result ≡ is_stream bytes.now }
{
    match FrameWalk::of(bytes) {
        Ok(_) => true,
        Err(_) => false,
    }
}
