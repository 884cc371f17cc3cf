//! Opening a section whose header is already read.

ghost use Rattle.std.specs.Prelude.{◌≡◌, ◌≤◌, ◌⊎◌, Ok, Err, true, IfOk, IfErr, IsOkAnd};
ghost use Rattle.fv_section.specs.Words.{frame_form, frame_len};
ghost use Rattle.fv_open.specs.Contents.{opened_form};
ghost use Rattle.fv_open.specs.Headers.{head_in};
ghost use Rattle.fv_open.specs.Ways.{is_decoded};
ghost use Rattle.fv_open.specs.OpenFaults.{open_out_of_memory};
ghost use Rattle.fv_open.specs.OpenedFrames.{opened_frame};

use crate::encapsulation::head_in;
use crate::fault::OpenFault;
use crate::opened::Opened;
use crate::opening::contents;
use fv_section::Frame;
use std::alloc::Global;

/// Returns the contents of a section whose header is already read, and the way that gave them: what
/// `open` returns for the bytes of this section. The contents have at most `limit` bytes, and are
/// borrowed from the section if they are not decoded. (PI specification, volume 3, sections 3.2.5.2
/// and 3.2.5.7.)
///
/// # Errors
///
/// As `open`, with offsets in bytes from the first byte of the section's header.
pub fn open_frame<'a>(
    alloc: Global,
    section: &Frame<'a>,
    limit: usize,
) -> Result<Opened<'a>, OpenFault>
    // The result is what the section contains, and the way.
    ensures found { IfOk result (λ o. opened_frame limit (frame_form section.now) ≡ Ok (opened_form o)) }

    // The error is the first fault of the section, or memory ran out.
    ensures none { IfErr result (λ f. (f ≡ open_out_of_memory)
        ⊎ (opened_frame limit (frame_form section.now) ≡ Err f)) }

    // Memory runs out only if the contents have to be decoded.
    ensures memory { IfErr result (λ f. f ≡ open_out_of_memory
        → IsOkAnd (head_in (frame_form section.now)) (λ e. is_decoded e.way ≡ true)) }

    // The place of a fault is within the section.
    ensures bound { IfErr result (λ f. f.offset ≤ frame_len (frame_form section.now)) }
{
    let head = head_in(section)?;
    contents(alloc, section, head, limit)
}
