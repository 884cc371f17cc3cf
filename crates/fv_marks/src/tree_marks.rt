//! Taking the marks of fixed files away at every depth.

ghost use Rattle.std.specs.Prelude.{◌≡◌, ◌≤◌, ◌+◌, ℕ, List, length, map, take, OnOk, IfErr};
ghost use Rattle.std.specs.List.{AllByRecursion};
ghost use Rattle.fv_base.specs.Words.{depth_limit, out_of_memory};
ghost use Rattle.fv_marks.specs.LostMarks.{BodyLoses, ChangesPart, DataLose, EachFileLoses, OnlyMarksChange, StreamLoses, VolumeLoses};
ghost use Rattle.fv_marks.specs.LostMarks.{StreamLosesMarks, VolumeLosesMarks};
ghost use Rattle.fv_tree.specs.Words.{Denotes, Meaning, SectionMeaning, Stream, bare_form, data_place, file_form, holds_sections};

use crate::own_marks::take_own_marks;
use crate::section::section_at;
use fv_base::limits::DEPTH_LIMIT;
use fv_base::{Fault, FaultKind};
use fv_tree::{LocatedFile, Shape, holds_sections, located_files};
use std::alloc::Global;

// Takes the marks away in the body of a section. Groups and opened volumes in the body, including
// the body itself, may nest `left` deep. A body that is nested deeper stays as it is.
#[cycle(marks)]
fn take_in_body(alloc: Global, body: &mut [u8], shape: Shape, left: u8) -> Result<(), Fault>
    ensures lost { OnOk result (BodyLoses left shape body.old body.new) }
    ensures only { OnlyMarksChange body.old body.new }
    ensures memory { IfErr result (λ f. f ≡ out_of_memory) }
{
    if left == 0 {
        return Ok(());
    }
    match shape {
        Shape::Leaf => Ok(()),
        Shape::Group => take_in_stream(alloc, body, left - 1),
        Shape::Volume => take_in_volume(alloc, body, left - 1),
    }
}

// Takes the marks away in the sections of a stream, as far as sections begin where they should.
#[cycle(marks)]
fn take_in_stream(alloc: Global, stream: &mut [u8], left: u8) -> Result<(), Fault>
    ensures lost { OnOk result (StreamLoses (BodyLoses left) stream.old stream.new) }
    ensures only { OnlyMarksChange stream.old stream.new }
    ensures memory { IfErr result (λ f. f ≡ out_of_memory) }
{
    let mut at = 0;
    while let Some(section) = section_at(stream, at) {
        let body = &mut stream[section.start..section.end];
        take_in_body(alloc, body, section.shape, left)?;
        at = section.next;
    }
    Ok(())
}

// Takes the marks away in the data of the file, if its type holds sections. `bytes` begin with the
// volume of this file.
#[cycle(marks)]
fn take_in_data(alloc: Global, bytes: &mut [u8], file: &LocatedFile, left: u8) -> Result<(), Fault>
    requires within { data_place (bare_form file.now) + length (file_form bytes.old file.now).payload ≤ length bytes.old }
    ensures lost { OnOk result (ChangesPart (DataLose (StreamLoses (BodyLoses left)) (holds_sections file.now.kind))
        (data_place (bare_form file.now)) (length (file_form bytes.old file.now).payload) bytes.old bytes.new) }
    ensures only { OnlyMarksChange bytes.old bytes.new }
    ensures memory { IfErr result (λ f. f ≡ out_of_memory) }
{
    if !holds_sections(file.kind) {
        return Ok(());
    }
    let start = file.offset as usize + file.header_len() as usize;
    let end = start + file.payload(bytes).len();
    take_in_stream(alloc, &mut bytes[start..end], left)
}

// Takes the marks away in the data of each of the files. `bytes` begin with the volume of these
// files.
#[cycle(marks)]
fn take_in_files(
    alloc: Global,
    bytes: &mut [u8],
    files: &[LocatedFile],
    left: u8,
) -> Result<(), Fault>
    requires within { AllByRecursion (λ f. data_place f + length f.payload ≤ length bytes.old)
        (map (file_form bytes.old) files.now) }
    ensures lost { OnOk result
        (EachFileLoses (StreamLoses (BodyLoses left)) (map (file_form bytes.old) files.now) bytes.old bytes.new) }
    ensures only { OnlyMarksChange bytes.old bytes.new }
    ensures memory { IfErr result (λ f. f ≡ out_of_memory) }
{
    for file in files {
        take_in_data(alloc, bytes, file, left)?;
    }
    Ok(())
}

// Takes the marks away from the files of the volume at the start of the bytes, and in their data.
#[cycle(marks)]
fn take_in_volume(alloc: Global, bytes: &mut [u8], left: u8) -> Result<(), Fault>
    ensures lost { OnOk result (VolumeLoses (StreamLoses (BodyLoses left)) bytes.old bytes.new) }
    ensures only { OnlyMarksChange bytes.old bytes.new }
    ensures memory { IfErr result (λ f. f ≡ out_of_memory) }
{
    take_own_marks(bytes);
    match located_files(alloc, bytes) {
        Ok(files) => take_in_files(alloc, bytes, files.as_slice(), left),
        Err(fault) => {
            if fault.kind == FaultKind::OutOfMemory {
                return Err(Fault::outer(FaultKind::OutOfMemory, 0));
            }
            Ok(())
        }
    }
}

/// Takes the marks of fixed files away from the volume at the start of the bytes, at every depth at
/// which `read_volume` (fv_tree) reads: from the files of this volume, and from the files of volumes
/// in sections of its files. For each such file, bit 0x04 of its attributes is cleared and 4 is
/// added to its header checksum (modulo 256), so no checksum becomes wrong, also not the checksums
/// of the files around it. Pads, dead cells, superseded files' data, and the contents of sections
/// that must be decoded stay as they are. A volume whose cells have another fault loses the marks
/// before this fault, and the data of its files stay as they are, because `read_volume` then
/// reports this fault. If the bytes do not begin with a volume header, they stay as they are. After
/// Ok, `read_volume` does not report the fault Fixed (`no_file_stays_fixed`). (PI specification,
/// volume 3, section 3.2.3.1, `FFS_ATTRIB_FIXED`.)
///
/// # Errors
///
/// OutOfMemory at 0. Some marks may have been taken away in this case.
pub fn take_marks(alloc: Global, bytes: &mut [u8]) -> Result<(), Fault>
    // After Ok, the volume has lost the marks of fixed files at every depth.
    ensures lost { OnOk result (VolumeLosesMarks bytes.old bytes.new) }

    // Only marks were taken away: of each file, bit 0x04 of its attributes and the header checksum
    // have changed. All other bytes are the same, and so is their number.
    ensures only { OnlyMarksChange bytes.old bytes.new }

    // A volume that is accepted stays as it is.
    ensures same { OnOk result ((n : ℕ) (m : Meaning) → n ≤ length bytes.old → Denotes depth_limit (take n bytes.old) m
        → bytes.new ≡ bytes.old) }

    // The only error is OutOfMemory.
    ensures memory { IfErr result (λ f. f ≡ out_of_memory) }
{
    take_in_volume(alloc, bytes, DEPTH_LIMIT)
}

/// Takes the marks of fixed files away from the volumes in a stream of sections, at every depth at
/// which `whole_stream` (fv_tree) reads, as `take_marks` does for a volume. If a section does not
/// begin where it should, it and the bytes after it stay as they are, because `whole_stream` then
/// reports this fault. After Ok, `whole_stream` does not report the fault Fixed
/// (`no_file_stays_fixed`). (PI specification, volume 3, sections 3.2.3.1 and 3.2.4.)
///
/// # Errors
///
/// OutOfMemory at 0. Some marks may have been taken away in this case.
pub fn take_marks_of_sections(alloc: Global, bytes: &mut [u8]) -> Result<(), Fault>
    // After Ok, the stream has lost the marks of fixed files at every depth.
    ensures lost { OnOk result (StreamLosesMarks bytes.old bytes.new) }

    // Only marks were taken away: of each file, bit 0x04 of its attributes and the header checksum
    // have changed. All other bytes are the same, and so is their number.
    ensures only { OnlyMarksChange bytes.old bytes.new }

    // A stream that is accepted stays as it is.
    ensures same { OnOk result ((sections : List SectionMeaning) (tail : ℕ) → Stream depth_limit sections tail bytes.old
        → bytes.new ≡ bytes.old) }

    // The only error is OutOfMemory.
    ensures memory { IfErr result (λ f. f ≡ out_of_memory) }
{
    take_in_stream(alloc, bytes, DEPTH_LIMIT)
}
