//! The command `extract`: the data of a file, or the body of one of its sections.

ghost use Rattle.std.specs.Prelude.{◌≡◌, IfOk, IfErr};
ghost use Rattle.fv_extract.specs.Words.{IsPart};
ghost use Rattle.fv_tree.specs.Words.{file_named, Meaning, files_of};
ghost use Rattle.fv_command.specs.PartLines.{absent_line, found_line, found_status, part_line, part_status};
ghost use Rattle.fv_command.specs.RunInputs.{BeginsWith};
ghost use Rattle.fv_command.specs.Tasks.{TaskRefusal};
ghost use Rattle.fv_command.specs.inner.RunSteps.{Performs};

use crate::status::Status;
use crate::task_run::{opened_status, volume_at_start};
use fv_base::{Fault, Sink};
use fv_extract::{Extraction, Outcome, extract, put_extraction, put_opened_part};
use fv_plan::{Part, Task};
use fv_text::put_decimal;
use std::alloc::Global;

// Puts the line of an extraction, if it has not put the bytes of the part. Returns the status.
fn put_part_line<S: Sink>(out: &mut S, outcome: Outcome) -> Status
    ensures status { result ≡ part_status outcome }
    ensures line { S.takes out.old (part_line outcome) out.new }
{
    match outcome {
        Outcome::Put => Status::Done,
        Outcome::NotFound => {
            out.put(b"not found\n");
            Status::Different
        }
        Outcome::NotSectioned => {
            out.put(b"not sectioned\n");
            Status::Different
        }
    }
}

// Puts the line for a file that was not found. The contents of `unread` packed sections were not
// searched.
fn put_absent_line<S: Sink>(out: &mut S, unread: u64)
    ensures { S.takes out.old (absent_line unread) out.new }
{
    if unread == 0 {
        out.put(b"not found\n");
        return;
    }
    out.put(b"not found, ");
    put_decimal(out, unread);
    out.put(b" sections not searched\n");
}

// Puts the line of an extraction through packed sections. Returns the status, as far as memory did
// not run out.
fn put_found_line<S: Sink>(out: &mut S, outcome: Option<Outcome>, unread: u64) -> Status
    ensures status { result ≡ found_status outcome }
    ensures line { S.takes out.old (found_line outcome unread) out.new }
{
    match outcome {
        Some(outcome) => put_part_line(out, outcome),
        None => {
            put_absent_line(out, unread);
            Status::Different
        }
    }
}

// Extracts a part of the volume at the start of the input.
fn part_at_start<'a>(alloc: Global, input: &'a [u8], part: &Part) -> Result<Extraction<'a>, Fault>
    ensures ok { IfOk result (λ x. (m : Meaning) × BeginsWith input.now m
        × IsPart (file_named part.now.name (files_of m)) part.now.section part.now.instance x) }
    ensures err { IfErr result (TaskRefusal (Task.Extract part.now) input.now) }
{
    let volume = volume_at_start(alloc, input)?;
    extract(alloc, &volume, part)
}

/// Extracts a part of the volume at the start of the input, and puts its bytes, or a line which says
/// that the part does not exist. Returns Done or Different.
///
/// # Errors
///
/// As for `fv_tree::read_volume` and `fv_extract::extract`. Nothing has been put in that case.
pub fn put_extracted<S: Sink>(
    alloc: Global,
    hex: bool,
    input: &[u8],
    part: &Part,
    out: &mut S,
) -> Result<Status, Fault>
    ensures { Performs S.takes (Task.Extract part.now) hex input.now out.old out.new result }
{
    let extraction = part_at_start(alloc, input, part)?;
    let outcome = put_extraction(out, hex, &extraction);
    Ok(put_part_line(out, outcome))
}

/// Extracts a part of the first volume that has its file, among the volume at the start of the input
/// and the volumes in it and in its packed sections, and puts the bytes of the part, or a line which
/// says that the part does not exist, or that no volume has the file. This line has the number of
/// packed sections whose contents were not searched. Returns Done or Different, or Incomplete if
/// memory ran out in a packed section before the file was found.
///
/// # Errors
///
/// As for `fv_tree::read_volume` and `fv_extract::put_opened_part`. Nothing has been put in that
/// case.
pub fn put_extracted_opened<S: Sink>(
    alloc: Global,
    hex: bool,
    input: &[u8],
    part: &Part,
    out: &mut S,
) -> Result<Status, Fault>
    ensures { Performs S.takes (Task.ExtractOpened part.now) hex input.now out.old out.new result }
{
    let volume = volume_at_start(alloc, input)?;
    let search = put_opened_part(alloc, &volume, part, hex, out)?;
    let status = put_found_line(out, search.outcome, search.unread);
    Ok(opened_status(search.ran_out, status))
}
