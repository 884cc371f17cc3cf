//! Reading a volume at the start of some bytes, its cells, and a volume that is a whole input.

ghost use Rattle.std.specs.Prelude.{◌≡◌, ◌≢◌, ◌≤◌, ◌<◌, ◌+◌, ◌^◌, ℕ, length, take, map, IfOk, IfErr};
ghost use Rattle.fv_base.specs.Words.{First, outer_fault, out_of_memory, depth_limit, volume_limit, OrMemory};
ghost use Rattle.fv_base.specs.declared.fault.Fault.{Fault};
ghost use Rattle.fv_file.specs.Words.{CellsWithin};
ghost use Rattle.fv_head.specs.Words.{BeginsWithHeader};
ghost use Rattle.fv_section.specs.Words.{frame_len};
ghost use Rattle.fv_tree.specs.Meaning.{Meaning, length_of};
ghost use Rattle.fv_tree.specs.Denotes.{Pairwise, MeansFile, Stream, Denotes, Accepted};
ghost use Rattle.fv_tree.specs.ReadParts.{IsStoredFrame};
ghost use Rattle.fv_tree.specs.FirstFault.{moved_fault, InSection, InStream, InVolume, OneOf, FileFault};
ghost use Rattle.fv_tree.specs.FirstFault.{IsFirstOfVolume, FaultHolds, body_place, data_place};
ghost use Rattle.fv_tree.specs.inner.ReadingParts.{ReadsOrFails, AllStored, IsReadyFile};
ghost use Rattle.fv_tree.specs.inner.SectionReads.{ContentRead, SectionRead, StreamRead};
ghost use Rattle.fv_tree.specs.LocatedFiles.{BeginWithFiles, BeginsTiled, HasDataIn, NotTiled, bare_form, file_form, with_data};
ghost use Rattle.std.specs.List.{AllByRecursion};
ghost use Rattle.fv_tree.specs.InputFaults.{FaultHoldsInInput, NotRead};
ghost use Rattle.fv_tree.specs.StreamInputs.{HasFrame};
ghost use Rattle.fv_section.specs.Words as framed;

use crate::fault_place::fault_within;
use crate::shape::{Shape, holds_sections, shape_of};
use crate::stored_files::files_in_body;
use crate::view::{FileView, VolumeView};
use crate::volume_files::LocatedFile;
use fv_base::limits::DEPTH_LIMIT;
use fv_base::{Fault, FaultKind, Place, check};
use fv_file::{Cells, cells};
use fv_head::{Extent, read_head, verify_fv};
use fv_section::{Frame, FrameWalk, section_header_len};
use std::alloc::Global;

// The place of some bytes in the bytes that were passed to the call, and the number of levels that
// may still nest in them.
#[derive(Clone, Copy)]
pub(crate) struct Level {
    place: Place,
    left: u8,
}

// The level of the bytes that were passed to the call.
pub(crate) const OUTERMOST: Level = Level {
    place: Place {
        offset: 0,
        depth: 0,
    },
    left: DEPTH_LIMIT,
};

// Returns the level of a frame's body, or the fault Depth if no level is left.
fn deeper(frame: &Frame, at: Level) -> Result<Level, Fault>
    requires place { at.place.offset + frame.now.offset + frame_len (framed.frame_form frame.now) < 2 ^ 63 }
    requires depth { at.place.depth + at.left ≤ depth_limit }
    ensures ok { IfOk result
        (λ r. (at.left ≡ r.left + 1) × (r.place.offset ≡ at.place.offset + body_place (framed.frame_form frame.now))
        × (r.place.depth ≡ at.place.depth + 1)) }
    ensures err { IfErr result
        (λ f. (at.left ≡ 0)
        × (f ≡ moved_fault at.place.offset at.place.depth (outer_fault FaultKind.Depth frame.now.offset))) }
{
    let Level { place, left } = at;
    if left == 0 {
        return Err(Fault {
            kind: FaultKind::Depth,
            place: Place {
                offset: place.offset + frame.offset,
                depth: place.depth,
            },
        });
    }
    let inside = Place {
        offset: place.offset + frame.offset + section_header_len(frame.extended),
        depth: place.depth + 1,
    };
    Ok(Level {
        place: inside,
        left: left - 1,
    })
}

// Reads one section. If the section is opened as a volume, adds this volume to `volumes`. If the
// section is a group, adds the volumes in the group.
#[cycle(read)]
fn read_section<'a>(
    alloc: Global,
    frame: &Frame<'a>,
    at: Level,
    volumes: &mut Vec<VolumeView<'a>>,
) -> Result<(), Fault>
    requires place { at.place.offset + frame.now.offset + frame_len (framed.frame_form frame.now) < 2 ^ 63 }
    requires depth { at.place.depth + at.left ≤ depth_limit }
    requires stored { IsStoredFrame (framed.frame_form frame.now) }
    ensures { ReadsOrFails (λ _. SectionRead at.left (framed.frame_form frame.now) volumes.old.items volumes.new.items)
        (λ f. InSection First at.left f (framed.frame_form frame.now) at.place) result }
{
    match shape_of(frame) {
        Shape::Leaf => Ok(()),
        Shape::Group => {
            let inside = deeper(frame, at)?;
            read_stream(alloc, frame.body, inside, volumes)
        }
        Shape::Volume => {
            let inside = deeper(frame, at)?;
            let (volume, _) = read_at(alloc, frame.body, inside)?;
            volumes.push(volume)?;
            Ok(())
        }
    }
}

// Reads the sections of a stream. Adds the volumes in them to `volumes`: each volume that is the
// body of one of these sections, or of a section in a group among them, in the order of the
// sections.
#[cycle(read)]
pub(crate) fn read_stream<'a>(
    alloc: Global,
    bytes: &'a [u8],
    at: Level,
    volumes: &mut Vec<VolumeView<'a>>,
) -> Result<(), Fault>
    requires place { at.place.offset + length bytes.now < 2 ^ 63 }
    requires depth { at.place.depth + at.left ≤ depth_limit }
    requires small { length bytes.now ≤ volume_limit }
    ensures read { ReadsOrFails (λ _. StreamRead at.left bytes.now volumes.old.items volumes.new.items)
        (λ f. InStream First at.left f bytes.now at.place) result }
    ensures memory { IfErr result (λ f. f ≡ out_of_memory → HasFrame bytes.now) }
{
    let mut walk = match FrameWalk::of(bytes) {
        Ok(walk) => walk,
        Err(fault) => return Err(fault_within(fault, at.place)),
    };
    while let Some(frame) = walk.next_frame() {
        read_section(alloc, &frame, at, volumes)?;
    }
    Ok(())
}

// Reads the data of a file, if its type holds sections. Returns the volumes that are the bodies of
// sections in the data, including sections in groups, in the order of the sections.
#[cycle(read)]
fn read_data<'a>(
    alloc: Global,
    file: &LocatedFile,
    payload: &'a [u8],
    at: Level,
) -> Result<Vec<VolumeView<'a>>, Fault>
    requires place { at.place.offset + data_place (bare_form file.now) + length payload.now < 2 ^ 63 }
    requires depth { at.place.depth + at.left ≤ depth_limit }
    requires small { length payload.now ≤ volume_limit }
    ensures { ReadsOrFails (λ vs. ContentRead at.left file.now.kind payload.now vs.items)
        (λ f. FileFault (InStream First at.left) f (with_data payload.now (bare_form file.now)) at.place) result }
{
    let mut volumes = Vec::new(alloc);
    if !holds_sections(file.kind) {
        return Ok(volumes);
    }
    let place = Place {
        offset: at.place.offset + u64::from(file.offset) + file.header_len(),
        depth: at.place.depth,
    };
    let inside = Level {
        place,
        left: at.left,
    };
    read_stream(alloc, payload, inside, &mut volumes)?;
    Ok(volumes)
}

// Reads one file, and returns its view.
#[cycle(read)]
fn read_file<'a>(
    alloc: Global,
    volume: &'a [u8],
    file: &LocatedFile,
    at: Level,
) -> Result<FileView<'a>, Fault>
    requires depth { at.place.depth + at.left ≤ depth_limit }
    requires ready { IsReadyFile at.place.offset (file_form volume.now file.now) }
    ensures { ReadsOrFails (MeansFile (Stream at.left) (file_form volume.now file.now))
        (λ f. FileFault (InStream First at.left) f (file_form volume.now file.now) at.place) result }
{
    let payload = file.payload(volume);
    let volumes = read_data(alloc, file, payload, at)?;
    FileView::new(alloc, file, payload, volumes, at.left)
}

// Reads the files in order, and returns their views.
#[cycle(read)]
fn read_files<'a>(
    alloc: Global,
    volume: &'a [u8],
    files: &[LocatedFile],
    at: Level,
) -> Result<Vec<FileView<'a>>, Fault>
    requires depth { at.place.depth + at.left ≤ depth_limit }
    requires stored { AllStored at.place.offset (map (file_form volume.now) files.now) }
    ensures { ReadsOrFails (λ ms. Pairwise (MeansFile (Stream at.left)) (map (file_form volume.now) files.now) ms.items)
        (λ e. OneOf First (MeansFile (Stream at.left)) (λ f. FileFault (InStream First at.left) e f at.place)
        (map (file_form volume.now) files.now)) result }
{
    let mut views = Vec::with_capacity(alloc, files.len())?;
    for file in files {
        let view = read_file(alloc, volume, file, at)?;
        views.push(view)?;
    }
    Ok(views)
}

// Reads the volume at the start of the bytes. Returns its view, its length in bytes, and its files
// as they are stored.
#[cycle(read)]
fn read_with_files(
    alloc: Global,
    bytes: &[u8],
    at: Level,
) -> Result<(VolumeView<'_>, u64, Vec<LocatedFile>), Fault>
    requires place { at.place.offset + length bytes.now < 2 ^ 63 }
    requires depth { at.place.depth + at.left ≤ depth_limit }
    ensures read { ReadsOrFails (λ r. Denotes at.left (take r.1 bytes.now) r.0)
        (λ f. InVolume First at.left f bytes.now at.place) result }
    ensures length { IfOk result (λ r. (r.1 ≡ length_of r.0) × (r.1 ≤ length bytes.now)) }
    ensures files { IfOk result (λ r. BeginWithFiles bytes.now (map (file_form bytes.now) r.2.items)) }
    ensures memory { IfErr result (λ f. f ≡ out_of_memory → BeginsWithHeader bytes.now) }
{
    let (head, extent) = match read_head(alloc, bytes) {
        Ok(read) => read,
        Err(fault) => return Err(fault_within(fault, at.place)),
    };
    let volume = &bytes[..extent.length as usize];
    let (files, order) = files_in_body(alloc, volume, extent, at.place)?;
    let views = read_files(alloc, volume, files.as_slice(), at)?;
    Ok((VolumeView::new(head, views, order), extent.length, files))
}

// Reads the volume at the start of the bytes. Returns its view and its length in bytes.
#[cycle(read)]
fn read_at(alloc: Global, bytes: &[u8], at: Level) -> Result<(VolumeView<'_>, u64), Fault>
    requires place { at.place.offset + length bytes.now < 2 ^ 63 }
    requires depth { at.place.depth + at.left ≤ depth_limit }
    ensures read { ReadsOrFails (λ r. Denotes at.left (take r.1 bytes.now) r.0)
        (λ f. InVolume First at.left f bytes.now at.place) result }
    ensures length { IfOk result (λ r. (r.1 ≡ length_of r.0) × (r.1 ≤ length bytes.now)) }
    ensures memory { IfErr result (λ f. f ≡ out_of_memory → BeginsWithHeader bytes.now) }
{
    match read_with_files(alloc, bytes, at) {
        Ok((view, length, _)) => Ok((view, length)),
        Err(fault) => Err(fault),
    }
}

/// Returns the meaning of the volume at the start of the bytes, as a view of them, and the number
/// of bytes that the volume takes, FvLength. Does not read the bytes after the volume. (PI
/// specification, volume 3, section 3.2.)
///
/// # Errors
///
/// The first fault, in this order: faults of the header, as for `verify_fv`; faults of the body, as
/// for `cells`; DuplicateName at the first valid file that has the name and the state of an earlier
/// valid file (pads and deleted files are not compared); TopFile at a volume top file that is not
/// at the end. After these come the faults of each file in turn: faults of its sections, as for
/// `frames`; Depth at a group or an opened volume that is nested too deep; and faults in the
/// content of a group or an opened volume. The offset is in bytes from the start of `bytes`, and
/// the depth is the number of groups and opened volumes around the fault. OutOfMemory at 0, only if
/// the bytes begin with a volume header.
pub fn read_volume(alloc: Global, bytes: &[u8]) -> Result<(VolumeView<'_>, u64), Fault>
    // The returned number is FvLength, and this many of the first bytes are a volume with this
    // meaning.
    ensures found { IfOk result (λ r. Accepted (take r.1 bytes.now) r.0) }
    ensures length { IfOk result (λ r. (r.1 ≡ length_of r.0) × (r.1 ≤ length bytes.now)) }

    // The bytes do not begin with any other volume.
    ensures only { IfOk result
        (λ r. (n : ℕ) (m : Meaning) → n ≤ length bytes.now → Denotes depth_limit (take n bytes.now) m
        → (m ≡ r.0) × (n ≡ r.1)) }

    // If an error other than OutOfMemory is returned, the bytes do not begin with a volume.
    ensures none { IfErr result (λ f. f ≢ out_of_memory → (n : ℕ) (m : Meaning) → n ≤ length bytes.now
        → Denotes depth_limit (take n bytes.now) m → ⊥) }

    // An error other than OutOfMemory is the first fault, and its condition holds in the bytes at
    // its offset. If the bytes have a first fault, either that fault or OutOfMemory is returned.
    ensures first { IfErr result (λ f. f ≢ out_of_memory → IsFirstOfVolume bytes.now f) }
    ensures one { (f : Fault) → IsFirstOfVolume bytes.now f
        → IfOk result (λ r. ⊥) × IfErr result (λ g. g ≢ out_of_memory → g ≡ f) }
    ensures holds { IfErr result (λ f. f ≢ out_of_memory → FaultHolds bytes.now f) }

    // If the condition of any fault holds, no volume is returned.
    ensures sound { (f : Fault) → FaultHolds bytes.now f → IfOk result (λ r. ⊥) }

    // The place of an error is within the bytes or at their end, and at most `depth_limit` deep.
    ensures bound { IfErr result
        (λ f. (f.place.offset ≤ length bytes.now) × (f.place.depth ≤ depth_limit)) }

    // Memory runs out only if the bytes begin with a volume header.
    ensures memory { IfErr result (λ f. f ≡ out_of_memory → BeginsWithHeader bytes.now) }
{
    read_at(alloc, bytes, OUTERMOST)
}

/// Returns the extent of the volume at the start of the bytes, and the cells of its body. Does not
/// check sections, duplicate names or the volume top file. (PI specification, volume 3, sections
/// 3.2.1 to 3.2.3.)
///
/// # Errors
///
/// The first fault. Faults of the header come first, as for `verify_fv`, then faults of the body,
/// as for `cells`. OutOfMemory at 0, only if the bytes begin with a volume header.
pub fn volume_cells(alloc: Global, bytes: &[u8]) -> Result<(Extent, Cells<'_>), Fault>
    // The bytes begin with a volume of this extent, and these cells tile its body.
    ensures found { IfOk result (λ r. BeginsTiled r.0 r.1 bytes.now) }

    // Every cell lies within the volume.
    ensures lies { IfOk result (λ r. CellsWithin (length (take r.0.length bytes.now)) r.1) }

    // If an error other than OutOfMemory is returned, the bytes do not begin with a volume whose
    // body is tiled by cells, and the error is the first fault.
    ensures err { IfErr result (λ f. f ≢ out_of_memory → NotTiled bytes.now f) }

    // Memory runs out only if the bytes begin with a volume header.
    ensures memory { IfErr result (λ f. f ≡ out_of_memory → BeginsWithHeader bytes.now) }
{
    let extent = verify_fv(bytes)?;
    let volume = &bytes[..extent.length as usize];
    let list = cells(
        alloc,
        volume,
        extent.first,
        extent.file_system,
        extent.polarity,
    )?;
    Ok((extent, list))
}

/// Returns the volume that is the whole input, and its files as they are stored in it: each with
/// its name, its type and its attributes, the offset of its header and the length of its data.
/// `LocatedFile::payload` returns the data. The files are in the order of `VolumeView::files`. (PI
/// specification, volume 3, sections 3.2.2 and 3.2.3.)
///
/// # Errors
///
/// The errors of `whole_volume`.
pub fn whole_volume_with_files(
    alloc: Global,
    input: &[u8],
) -> Result<(VolumeView<'_>, Vec<LocatedFile>), Fault>
    // The input is a volume with this meaning, and with no other.
    ensures found { IfOk result (λ r. Accepted input.now r.0) }
    ensures only { IfOk result (λ r. (m : Meaning) → Accepted input.now m → m ≡ r.0) }

    // These are the files of the volume, and the input contains each file's data, at the data's
    // offset.
    ensures files { IfOk result (λ r. BeginWithFiles input.now (map (file_form input.now) r.1.items)) }
    ensures data { IfOk result (λ r. AllByRecursion (HasDataIn input.now) (map (file_form input.now) r.1.items)) }

    // An error other than OutOfMemory means that the input is not a volume, and is its first fault.
    ensures rejected { IfErr result (OrMemory (NotRead input.now)) }

    // The condition of such an error holds in the input at its offset.
    ensures holds { IfErr result (λ f. f ≢ out_of_memory → FaultHoldsInInput input.now f) }

    // Memory runs out only if the input begins with a volume header.
    ensures memory { IfErr result (λ f. f ≡ out_of_memory → BeginsWithHeader input.now) }

    // ReadFault and WriteFault are never returned.
    ensures kind { IfErr result (λ f. (f.kind ≢ FaultKind.ReadFault) × (f.kind ≢ FaultKind.WriteFault)) }
{
    let (view, length, files) = read_with_files(alloc, input, OUTERMOST)?;
    check(length == input.len() as u64, FaultKind::Length, length)?;
    Ok((view, files))
}

/// Returns the volume that is the whole input. (PI specification, volume 3, section 3.2.)
///
/// # Errors
///
/// The errors of `read_volume`, OutOfMemory included; then Length at FvLength if bytes follow the
/// volume.
pub fn whole_volume(alloc: Global, input: &[u8]) -> Result<VolumeView<'_>, Fault>
    // The input is a volume with this meaning, and with no other.
    ensures found { IfOk result (λ view. Accepted input.now view) }
    ensures only { IfOk result (λ view. (m : Meaning) → Accepted input.now m → m ≡ view) }

    // An error other than OutOfMemory means that the input is not a volume, and is its first fault.
    ensures rejected { IfErr result (OrMemory (NotRead input.now)) }

    // The condition of such an error holds in the input at its offset.
    ensures holds { IfErr result (λ f. f ≢ out_of_memory → FaultHoldsInInput input.now f) }

    // Memory runs out only if the input begins with a volume header.
    ensures memory { IfErr result (λ f. f ≡ out_of_memory → BeginsWithHeader input.now) }

    // ReadFault and WriteFault are never returned.
    ensures kind { IfErr result (λ f. (f.kind ≢ FaultKind.ReadFault) × (f.kind ≢ FaultKind.WriteFault)) }
{
    match whole_volume_with_files(alloc, input) {
        Ok((view, _)) => Ok(view),
        Err(first) => Err(first),
    }
}
