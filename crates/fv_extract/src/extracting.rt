//! Extracting the data of a file, or the body of one of its sections.

ghost use Rattle.std.specs.Prelude.{◌≡◌, ◌⊎◌, Some, IfOk, IfErr};
ghost use Rattle.fv_base.specs.Words.{out_of_memory};
ghost use Rattle.fv_extract.specs.Extractions.{IsLaidOut, IsPart, StopsPart};
ghost use Rattle.fv_tree.specs.Words.{files_of, file_named};

use fv_base::{ByteList, Fault};
use fv_canon::{body_bytes, file_bytes};
use fv_plan::Part;
use fv_tree::{FileView, Item, Lookup, VolumeView, file_by_name, section_by_type};
use std::alloc::Global;

/// The result of an extraction.
#[derive(Drop)]
pub enum Extraction<'a> {
    /// The bytes of the part, as they are in the canonical image of the volume.
    Made(ByteList),
    /// The body of a frame in the data of a security core, as it is stored.
    Stored(&'a [u8]),
    /// The volume has no file with this name, or the file has no section of this type and instance.
    NotFound,
    /// A section is requested, but the data of the file are not sections.
    NotSectioned,
}

// Returns the part of the file: its data, or the body of one of its sections.
fn file_part<'a>(alloc: Global, file: &FileView<'a>, part: &Part) -> Result<Extraction<'a>, Fault>
    ensures ok { IfOk result (IsPart (Some file.now) part.now.section part.now.instance) }
    ensures err { IfErr result (λ f. (f ≡ out_of_memory)
        ⊎ StopsPart (Some file.now) part.now.section part.now.instance f) }
    ensures memory { IfErr result (λ f. f ≡ out_of_memory → IsLaidOut (Some file.now) part.now.section part.now.instance) }
{
    let Some(kind) = part.section else {
        return Ok(Extraction::Made(file_bytes(alloc, file)?));
    };
    match section_by_type(file, kind, part.instance) {
        Lookup::Found(Item::Section(section)) => Ok(Extraction::Made(body_bytes(alloc, &section)?)),
        Lookup::Found(Item::Frame(frame)) => Ok(Extraction::Stored(frame.body)),
        Lookup::Absent => Ok(Extraction::NotFound),
        Lookup::NotSectioned => Ok(Extraction::NotSectioned),
    }
}

/// Extracts a part of the volume: the data of the file that `part` names or, if `part` gives a
/// type, the body of one of the file's sections.
///
/// # Errors
///
/// The fault of the first volume in the part whose own files cannot be placed, at offset 0 and with
/// the depth of that volume in the part. OutOfMemory, only if the bytes of the part are laid out: if
/// the volume has the file, and it has the section.
pub fn extract<'a>(
    alloc: Global,
    volume: &VolumeView<'a>,
    part: &Part,
) -> Result<Extraction<'a>, Fault>
    ensures ok { IfOk result (IsPart (file_named part.now.name (files_of volume.now)) part.now.section part.now.instance) }
    ensures err { IfErr result (λ f. (f ≡ out_of_memory)
        ⊎ StopsPart (file_named part.now.name (files_of volume.now)) part.now.section part.now.instance f) }

    // Memory runs out only if the bytes of the part are laid out.
    ensures memory { IfErr result (λ f. f ≡ out_of_memory
        → IsLaidOut (file_named part.now.name (files_of volume.now)) part.now.section part.now.instance) }
{
    match file_by_name(volume, &part.name) {
        Some(file) => file_part(alloc, file, part),
        None => Ok(Extraction::NotFound),
    }
}
