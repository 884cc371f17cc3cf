//! An archive that keeps volumes in canonical form.

ghost use Rattle.std.specs.Prelude.{◌≡◌, ◌⊎◌, length, IfOk, IfErr};
ghost use Rattle.fv_caller.specs.declared.fault.CallerFault.TheVariants.{Volume};
ghost use Rattle.fv_base.specs.declared.fault.Fault.{Fault};
ghost use Rattle.fv_canon.specs.Words.{IsImage, Rejects};
ghost use Rattle.fv_tree.specs.Words.{Accepted, Meaning, MemoryRanOut, files_of};

use crate::fault::CallerFault;
use fv_base::ByteList;
use fv_canon::{canonical, whole_volume};
use std::alloc::Global;

/// A volume in the archive.
#[derive(Drop)]
pub struct Archived {
    /// The canonical image of the volume.
    pub image: ByteList,
    /// The number of files of the volume.
    pub files: u32,
}

/// Reads the input as a volume with no bytes after it, and returns its canonical image and the
/// number of its files. (PI specification, volume 3, section 3.2.)
///
/// # Errors
///
/// `CallerFault::Volume`, with the fault for which `normalise` rejects the input, or with
/// OutOfMemory, only if the input begins with a volume header.
pub fn archive_volume(alloc: Global, input: &[u8]) -> Result<Archived, CallerFault>
    // The input is a volume, `image` is its canonical image, and `files` counts its files.
    ensures ok { IfOk result
        (λ a. (m : Meaning) × Accepted input.now m × IsImage m a.image × (a.files ≡ length (files_of m))) }

    // Memory ran out and the input begins with a volume header, or the input has no canonical image.
    ensures err { IfErr result
        (λ e. (f : Fault) × (e ≡ Volume f) × (MemoryRanOut input.now f ⊎ Rejects input.now f)) }
{
    let volume = whole_volume(alloc, input)?;
    let image = canonical(alloc, &volume)?;
    Ok(Archived {
        image,
        files: volume.file_count(),
    })
}
