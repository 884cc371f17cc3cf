//! The files of a volume, as they are stored in it.

ghost use Rattle.std.specs.Prelude.{◌≡◌, ◌≢◌, ◌≤◌, ◌<◌, ◌+◌, ◌%◌, ◌^◌, List, length, map, IfOk, IfErr};
ghost use Rattle.std.specs.List.{AllByRecursion};
ghost use Rattle.fv_base.specs.Words.{First, out_of_memory, volume_limit};
ghost use Rattle.fv_head.specs.Words.{BeginsWithHeader};
ghost use Rattle.fv_names.specs.Words.{names_in, IsNameOrder, numbers_of};
ghost use Rattle.fv_tree.specs.FirstFault.{Moved, StoredFault};
ghost use Rattle.fv_tree.specs.LocatedFiles.{AreFilesOf, file_form, BeginWithFiles, HasDataIn, IsFirstOfFiles};
ghost use Rattle.fv_tree.specs.VolumeFiles.{FileForm};
ghost use Rattle.fv_tree.specs.inner.NameForms.{named_file};
ghost use Rattle.fv_tree.specs.inner.ReadingParts.{ReadsOrFails, AllStored};

use crate::fault_place::fault_within;
use crate::volume_files::{LocatedFile, current_files, files_in};
use fv_base::{Fault, Place};
use fv_head::{Extent, verify_fv};
use fv_names::NameOrder;
use std::alloc::Global;

// Returns the files of a volume of this extent, as they are stored in it, and the order of their
// names.
pub(crate) fn files_in_body(
    alloc: Global,
    volume: &[u8],
    extent: Extent,
    place: Place,
) -> Result<(Vec<LocatedFile>, NameOrder), Fault>
    requires place { place.offset + length volume.now < 2 ^ 63 }
    requires small { length volume.now ≤ volume_limit }
    requires multiple { length volume.now % 8 ≡ 0 }
    requires first_multiple { extent.first % 8 ≡ 0 }
    requires first_within { extent.first ≤ length volume.now }
    requires length_is { extent.length ≡ length volume.now }
    ensures read { ReadsOrFails (λ r. AreFilesOf extent volume.now (map (file_form volume.now) r.0.items))
        (Moved place (StoredFault First extent volume.now)) result }
    ensures stored { IfOk result (λ r. AllStored place.offset (map (file_form volume.now) r.0.items)) }
    ensures order { IfOk result (λ r. IsNameOrder (names_in (map named_file r.0.items)) (numbers_of r.1)) }
{
    let files = match files_in(alloc, volume, &extent) {
        Ok(files) => files,
        Err(fault) => return Err(fault_within(fault, place)),
    };
    let (files, index) = match current_files(alloc, files, extent.length) {
        Ok(read) => read,
        Err(fault) => return Err(fault_within(fault, place)),
    };
    let order = NameOrder::of(alloc, &index)?;
    Ok((files, order))
}

/// Returns the files of the volume at the start of the bytes, as they are stored in it: each with
/// its name, its type and its attributes, the offset of its header and the length of its data.
/// `LocatedFile::payload` returns the data. The files are in the order of `VolumeView::files`. The
/// file checksums are checked, but the data are not split into sections. (PI specification, volume
/// 3, sections 3.2.2 and 3.2.3.)
///
/// # Errors
///
/// The first fault, in this order: faults of the header, as for `verify_fv`; faults of the body, as
/// for `cells`; DuplicateName at the first valid file that has the name and the state of an earlier
/// valid file (pads and deleted files are not compared); TopFile at a volume top file that is not
/// at the end. The offset is in bytes from the start of `bytes`, and the depth is 0. OutOfMemory at
/// 0, only if the bytes begin with a volume header.
pub fn located_files(alloc: Global, bytes: &[u8]) -> Result<Vec<LocatedFile>, Fault>
    // The bytes begin with a volume, and these are its files.
    ensures found { IfOk result (λ fs. BeginWithFiles bytes.now (map (file_form bytes.now) fs.items)) }

    // The bytes contain each file's data, at the data's offset.
    ensures data { IfOk result (λ fs. AllByRecursion (HasDataIn bytes.now) (map (file_form bytes.now) fs.items)) }

    // The volume has no other files.
    ensures only { IfOk result
        (λ fs. (gs : List FileForm) → BeginWithFiles bytes.now gs → gs ≡ map (file_form bytes.now) fs.items) }

    // If an error other than OutOfMemory is returned, no list of files is the list of files of a
    // volume at the start of the bytes.
    ensures none { IfErr result
        (λ f. f ≢ out_of_memory → (gs : List FileForm) → BeginWithFiles bytes.now gs → ⊥) }

    // An error other than OutOfMemory is the first fault.
    ensures first { IfErr result (λ f. f ≢ out_of_memory → IsFirstOfFiles bytes.now f) }

    // Memory runs out only if the bytes begin with a volume header.
    ensures memory { IfErr result (λ f. f ≡ out_of_memory → BeginsWithHeader bytes.now) }
{
    let extent = verify_fv(bytes)?;
    let volume = &bytes[..extent.length as usize];
    let place = Place {
        offset: 0,
        depth: 0,
    };
    let (files, _) = files_in_body(alloc, volume, extent, place)?;
    Ok(files)
}
