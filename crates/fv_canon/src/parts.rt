//! The parts of a volume: where the volumes inside them place their files, and the bytes of these
//! parts in the canonical image.
//!
//! To put all parts of a volume into a sink, a caller first lays out the volume. Then it walks the
//! volume in preorder: each volume, then its files in order, with the volumes inside each file. The
//! caller keeps the starts that it has not used yet. They begin with the starts of the files of the
//! next volume of the walk.

ghost use Rattle.std.specs.Prelude.{◌≡◌, ◌≢◌, ◌⊎◌, ◌++◌, ℕ, List, [], Any, length, drop, IfOk, IfErr};
ghost use Rattle.fv_base.specs.Words.{OrMemory, out_of_memory};
ghost use Rattle.fv_canon.specs.Image.{IsBodyImage, IsData, IsImage};
ghost use Rattle.fv_canon.specs.LayoutFaults.{AllFit, FirstUnplaced};
ghost use Rattle.fv_canon.specs.LayoutForms.{BeginsWithStarts, StartsOfEach};
ghost use Rattle.fv_canon.specs.Layouts.{AreStarts};
ghost use Rattle.fv_tree.specs.Words.{body_len, body_of, content_of, data_len_of, files_of, Inside, volumes_in};
ghost use Rattle.fv_tree.specs.Words.{volumes_in_body, volumes_in_content};

use crate::data_body::data_body;
use crate::image_walk::{put_body_image, put_image};
use crate::layout_walk::starts_of;
use fv_base::{ByteList, Fault, ListSink, Sink};
use fv_rows::{Part, TreeWalk};
use fv_tree::{FileView, SectionView, VolumeView};
use std::alloc::Global;

/// Returns the starts of the files of the volumes in the data of a file, which `put_laid_data`
/// needs to put the data. (PI specification, volume 3, section 3.2.3.1.)
///
/// # Errors
///
/// The fault of the first volume in the data whose own files cannot be placed, at offset 0 and with
/// the depth of that volume, which is 1 if the volume is the body of one of the file's own
/// sections. OutOfMemory, only if a volume in the data has a file.
pub fn lay_out_data(alloc: Global, file: &FileView<'_>) -> Result<Vec<u64>, Fault>
    // The result is exactly these starts, with none after them.
    ensures ok { IfOk result
        (λ starts. StartsOfEach AreStarts (volumes_in_content (content_of file.now)) starts.items) }

    // The data in the canonical image are as long as the data that were read.
    ensures long { IfOk result
        (λ _. (bytes : List ℕ) × IsData (content_of file.now) bytes × (length bytes ≡ data_len_of file.now)) }

    // Any error other than OutOfMemory is the fault of the first volume whose own files cannot be
    // placed.
    ensures err { IfErr result (OrMemory (FirstUnplaced (volumes_in_content (content_of file.now)) 0)) }

    // Memory runs out only if a volume in the data has a file.
    ensures memory { IfErr result (λ f. f ≡ out_of_memory
        → Any (λ v. files_of v.volume ≢ []) (volumes_in_content (content_of file.now))) }
{
    // The file was read (`known`), so the walk with these starts puts as many data bytes as were
    // read.
    file.known();
    starts_of(alloc, TreeWalk::inside(&Part::File(file)))
}

/// Returns the starts of the files of the volumes in the body of a section, which `put_laid_body`
/// needs to put the body. (PI specification, volume 3, section 3.2.3.1.)
///
/// # Errors
///
/// The fault of the first volume in the body whose own files cannot be placed, at offset 0 and with
/// the depth of that volume, which is 0 if the volume is the body itself. OutOfMemory, only if a
/// volume in the body has a file.
pub fn lay_out_body(alloc: Global, section: &SectionView<'_, '_>) -> Result<Vec<u64>, Fault>
    ensures ok { IfOk result
        (λ starts. StartsOfEach AreStarts (volumes_in_body (body_of section.now)) starts.items) }

    // The body in the canonical image is as long as the body that was read.
    ensures long { IfOk result (λ _. (bytes : List ℕ) × IsBodyImage (body_of section.now) bytes
        × (length bytes ≡ body_len (body_of section.now))) }

    // Any error other than OutOfMemory is the fault of the first volume whose own files cannot be
    // placed.
    ensures err { IfErr result (OrMemory (FirstUnplaced (volumes_in_body (body_of section.now)) 0)) }

    // Memory runs out only if a volume in the body has a file.
    ensures memory { IfErr result (λ f. f ≡ out_of_memory
        → Any (λ v. files_of v.volume ≢ []) (volumes_in_body (body_of section.now))) }
{
    // The section was read (`known`), so the walk with these starts puts a body as long as the body
    // that was read.
    section.known();
    starts_of(alloc, TreeWalk::inside(&Part::Section(section.copied())))
}

/// Puts the canonical image of a volume into a sink, in one walk that takes no memory. `starts`
/// must begin with the starts of the files of this volume and of the volumes inside it. (PI
/// specification, volume 3, section 3.2.)
pub fn put_laid_volume<S: Sink>(volume: &VolumeView<'_>, starts: &[u64], out: &mut S)
    requires { BeginsWithStarts (volumes_in volume.now) starts.now }
    ensures { (image : List ℕ) × IsImage volume.now image × S.takes out.old image out.new }
{
    // The volume was read (`known`), so the bytes that the walk puts are its canonical image.
    volume.known();
    put_image(out, volume, starts);
}

/// Puts the data of a file into a sink, as they are in the canonical image of the file's volume, in
/// one walk that takes no memory. `starts` must begin with the starts of the files of the volumes
/// in the data. (PI specification, volume 3, section 3.2.3.)
pub fn put_laid_data<S: Sink>(file: &FileView<'_>, starts: &[u64], out: &mut S)
    requires { BeginsWithStarts (volumes_in_content (content_of file.now)) starts.now }
    ensures { (bytes : List ℕ) × IsData (content_of file.now) bytes × S.takes out.old bytes out.new }
{
    // The file was read (`known`), so the bytes that the walk puts are its data in the canonical
    // image.
    file.known();
    put_body_image(out, data_body(file), starts);
}

/// Puts the body of a section into a sink, as it is in the canonical image of the section's volume,
/// in one walk that takes no memory. `starts` must be the starts of the files of the volumes in the
/// body. (PI specification, volume 3, section 3.2.4.)
pub fn put_laid_body<S: Sink>(section: &SectionView<'_, '_>, starts: &[u64], out: &mut S)
    requires { StartsOfEach AreStarts (volumes_in_body (body_of section.now)) starts.now }
    ensures { (bytes : List ℕ) × IsBodyImage (body_of section.now) bytes × S.takes out.old bytes out.new }
{
    // The section was read (`known`), so the bytes that the walk puts are its body in the canonical
    // image.
    section.known();
    put_body_image(out, section.body(), starts);
}

// Returns the starts after the starts of the volume's own files. `starts` must begin with the
// starts of the files of this volume and of the volumes inside it, so the result begins with the
// starts of the files of the volumes inside it. (PI specification, volume 3, section 3.2.3.1.)
pub(crate) fn starts_inside<'s>(volume: &VolumeView<'_>, starts: &'s [u64]) -> &'s [u64]
    requires { BeginsWithStarts (volumes_in volume.now) starts.now }

    // If the starts of the files of more volumes follow in `starts`, they follow in the result too.
    ensures { (more : List Inside) → BeginsWithStarts (volumes_in volume.now ++ more) starts.now
        → BeginsWithStarts (drop 1 (volumes_in volume.now) ++ more) result.now }
{
    let (_own, inner) = starts.split_at(volume.files().len());
    inner
}

/// Returns the data of a file, as they are in the canonical image of the file's volume. Memory for
/// the full length is reserved once. (PI specification, volume 3, section 3.2.3.)
///
/// # Errors
///
/// The fault of the first volume in the data whose own files cannot be placed, at offset 0 and with
/// the depth of that volume, which is 1 if the volume is the body of one of the file's own
/// sections. OutOfMemory.
pub fn file_bytes(alloc: Global, file: &FileView<'_>) -> Result<ByteList, Fault>
    ensures data { IfOk result (λ o. IsData (content_of file.now) o) }

    // The result is unique.
    ensures only { (other : List ℕ) → IsData (content_of file.now) other → IfOk result (λ o. o ≡ other) }

    // Any error other than OutOfMemory is the fault of the first volume whose own files cannot be
    // placed.
    ensures err { IfErr result (OrMemory (FirstUnplaced (volumes_in_content (content_of file.now)) 0)) }

    // If all volumes in the data fit, the only error is OutOfMemory.
    ensures fits { AllFit (volumes_in_content (content_of file.now)) → IfErr result (λ f. f ≡ out_of_memory) }
{
    let starts = lay_out_data(alloc, file)?;
    let mut out = ListSink::with_room(alloc, file.data_len() as usize)?;
    put_laid_data(file, starts.as_slice(), &mut out);
    out.finish()
}

/// Returns the body of a section, as it is in the canonical image of the section's volume. Memory
/// for the full length is reserved once. (PI specification, volume 3, section 3.2.4.)
///
/// # Errors
///
/// The fault of the first volume in the body whose own files cannot be placed, at offset 0 and with
/// the depth of that volume, which is 0 if the volume is the body itself. OutOfMemory.
pub fn body_bytes(alloc: Global, section: &SectionView<'_, '_>) -> Result<ByteList, Fault>
    ensures body { IfOk result (λ o. IsBodyImage (body_of section.now) o) }

    // The result is unique.
    ensures only { (other : List ℕ) → IsBodyImage (body_of section.now) other → IfOk result (λ o. o ≡ other) }

    // Any error other than OutOfMemory is the fault of the first volume whose own files cannot be
    // placed.
    ensures err { IfErr result (OrMemory (FirstUnplaced (volumes_in_body (body_of section.now)) 0)) }

    // If all volumes in the body fit, the only error is OutOfMemory.
    ensures fits { AllFit (volumes_in_body (body_of section.now)) → IfErr result (λ f. f ≡ out_of_memory) }
{
    let starts = lay_out_body(alloc, section)?;
    let mut out = ListSink::with_room(alloc, section.body_len() as usize)?;
    put_laid_body(section, starts.as_slice(), &mut out);
    out.finish()
}
