//! The command `open`: the contents of a packed section.

ghost use Rattle.std.specs.Prelude.{◌≡◌, ℕ, List, None, Some, IfOk, IfErr};
ghost use Rattle.fv_base.specs.Words.{volume_limit};
ghost use Rattle.fv_open.specs.Words.{opened, way_of};
ghost use Rattle.fv_text.specs.Words.{change, view_of};
ghost use Rattle.fv_command.specs.OpenRuns.{OpeningStops, OpenStops, OpenText, PackedStops, PackedText, ShowsContents, from_byte};
ghost use Rattle.fv_command.specs.inner.RunSteps.{Puts};

use crate::ending::Refusal;
use crate::inputs::{read_bytes, taken_at};
use crate::packed::{Packed, packed_at};
use crate::status::Status;
use crate::task_run::volume_at_start;
use fv_base::limits::VOLUME_LIMIT;
use fv_base::{Port, Sink};
use fv_open::{OpenFault, open, open_frame};
use fv_text::put_shown;
use std::alloc::Global;
use std::io::Read;

/// The maximum length of the contents in bytes.
const LIMIT: usize = VOLUME_LIMIT as usize;

// Returns the bytes of an input from the byte `at` on, or all of them. No byte is left if `at` is
// past the end of the input.
fn from_byte(input: &[u8], at: Option<u64>) -> &[u8]
    ensures { result.now ≡ from_byte at input.now }
{
    match at {
        Some(at) => &input[at.min(input.len() as u64) as usize..],
        None => input,
    }
}

// Puts the contents of the section at the start of the bytes. If it is not opened, nothing has been
// put.
fn put_section<S: Sink>(
    alloc: Global,
    hex: bool,
    bytes: &[u8],
    out: &mut S,
) -> Result<Status, OpenFault>
    ensures { Puts S.takes
        (λ status text. (status ≡ Status.Done) × ShowsContents hex (opened volume_limit bytes.now) text)
        (OpeningStops (way_of bytes.now) (opened volume_limit bytes.now)) out.old out.new result }
{
    let opened = open(alloc, bytes, LIMIT)?;
    put_shown(out, hex, opened.contents.as_slice());
    Ok(Status::Done)
}

// Puts the contents of a packed section that was looked for, or a line which says that there is no
// such section. If the section is not opened, nothing has been put.
fn put_packed<S: Sink>(
    alloc: Global,
    hex: bool,
    packed: &Packed<'_>,
    out: &mut S,
) -> Result<Status, OpenFault>
    ensures { Puts S.takes (PackedText hex packed.now) (PackedStops packed.now) out.old out.new result }
{
    match packed {
        Packed::Section(frame) => {
            let opened = open_frame(alloc, frame, LIMIT)?;
            put_shown(out, hex, opened.contents.as_slice());
            Ok(Status::Done)
        }
        Packed::NotFound => {
            out.put(b"not found\n");
            Ok(Status::Different)
        }
        Packed::NotPacked => {
            out.put(b"not packed\n");
            Ok(Status::Different)
        }
    }
}

/// Reads an input to its end, and puts the contents of the section that begins at the byte `at` of
/// it. Bytes after the section are ignored. The contents have at most 268,435,456 bytes.
///
/// # Errors
///
/// The faults of reading, and the faults of `fv_open::open`. Nothing has been put in that case.
pub fn put_first_section<R: Read, S: Sink>(
    alloc: Global,
    hex: bool,
    at: Option<u64>,
    reader: &mut Port<R>,
    out: &mut S,
) -> Result<Status, Refusal>
    ensures { Puts S.takes (OpenText None hex at (change R.remaining reader.old reader.new))
        (OpenStops None hex at (change R.remaining reader.old reader.new)) out.old out.new result }
{
    let input = match read_bytes(alloc, hex, reader) {
        Ok(input) => input,
        Err(fault) => return Err(Refusal::Input(fault)),
    };
    match put_section(alloc, hex, from_byte(&input, at), out) {
        Ok(status) => Ok(status),
        Err(fault) => Err(Refusal::Section(fault)),
    }
}

/// Reads an input to its end, and puts the contents of the section at the end of a path in the
/// volume that begins the input, or begins at the byte `at` of it. Puts `not found` if the path does
/// not lead to a section, and `not packed` if the section is neither a compression section nor a
/// GUID-defined section. The contents have at most 268,435,456 bytes.
///
/// # Errors
///
/// The faults of reading, of `fv_tree::read_volume` and of `fv_open::open_frame`. Nothing has been put
/// in that case.
pub fn put_section_at<R: Read, S: Sink>(
    alloc: Global,
    hex: bool,
    path: &Vec<u64>,
    at: Option<u64>,
    reader: &mut Port<R>,
    out: &mut S,
) -> Result<Status, Refusal>
    ensures { Puts S.takes (OpenText (Some path.now) hex at (change R.remaining reader.old reader.new))
        (OpenStops (Some path.now) hex at (change R.remaining reader.old reader.new)) out.old out.new result }
{
    let input = match read_bytes(alloc, hex, reader) {
        Ok(input) => input,
        Err(fault) => return Err(Refusal::Input(fault)),
    };
    let volume = match volume_at_start(alloc, taken_at(&input, at)) {
        Ok(volume) => volume,
        Err(fault) => return Err(Refusal::Input(fault)),
    };
    match put_packed(alloc, hex, &packed_at(&volume, path.as_slice()), out) {
        Ok(status) => Ok(status),
        Err(fault) => Err(Refusal::Section(fault)),
    }
}
