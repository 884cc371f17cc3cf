//! The SHA-256 digests of the parts of a volume or of a stream of sections. A digest is computed from
//! the bytes as the walk over the part puts them: no bytes are kept in memory.

ghost use Rattle.std.specs.Prelude.{◌≡◌, ◌≢◌, ◌<◌, ◌++◌, ℕ, List, length, drop, IfOk, IfErr, false};
ghost use Rattle.fv_base.specs.Words.{OrMemory, fault_number, out_of_memory};
ghost use Rattle.fv_base.specs.declared.fault.Fault.{Fault};
ghost use Rattle.fv_canon.specs.Words.{AllFit, AreAllStarts, AreStarts, BeginsWithStarts, NormalisesTo, Rejects};
ghost use Rattle.fv_canon.specs.Words.{StartsOfEach};
ghost use Rattle.fv_c.specs.ReadInputs.{Reads};
ghost use Rattle.fv_c.specs.Reports.{BeginsWithHeader, reported_fault, no_fault};
ghost use Rattle.fv_tree.specs.Words.{AcceptedStream, HasFrame, SectionMeaning, sections_from, volumes_in_sections};
ghost use Rattle.fv_rows.specs.Words.{rows_of_sections, tree_rows};
ghost use Rattle.fv_rows.specs.inner.RowVolumes.{Followed, volumes_of};
ghost use Rattle.fv_c.specs.ReportedDigests.{AreDigests, HasDigests};
ghost use Rattle.fv_c.specs.ReportedSections.{RejectsSections};
ghost use Rattle.fv_c.specs.declared.input.Form.TheVariants.{Volume, Stream};

use crate::buffer::put_result;
use crate::canonical::FvSha256;
use crate::input::{Form, bytes_read};
use crate::reports::FvFault;
use crate::streams::is_empty;
use fv_base::Fault;
use fv_canon::{ImageDigests, lay_out_stream, lay_out_volume};
use fv_rows::{Digests, TreeWalk};
use fv_tree::{StreamView, VolumeView, whole_stream};
use std::alloc::{AllocError, Global};

// Returns the digests of some rows, each followed by the rows of its contents. `starts` begin with
// the starts of the files of the volumes among these rows, volume after volume.
fn walk_digests(
    alloc: Global,
    rows: TreeWalk<'_, '_>,
    starts: &[u64],
) -> Result<Vec<FvSha256>, AllocError>
    requires { Followed rows × BeginsWithStarts (volumes_of rows) starts.now }
    ensures { IfOk result (λ v. AreDigests v.items rows.entry) }
{
    let mut found = Vec::new(alloc);
    let mut digests = ImageDigests::new(starts);
    for row in rows {
        let digest = digests.next_digest(&row);
        found.push(FvSha256 {
            bytes: digest.unwrap_or([0; 32]),
        })?;
    }
    Ok(found)
}

// Returns the digests of the rows of a volume. `starts` are the starts of the volume's files, and
// of the files of the volumes inside it, in its layout.
fn volume_digests(
    alloc: Global,
    volume: &VolumeView<'_>,
    starts: &[u64],
) -> Result<Vec<FvSha256>, AllocError>
    requires { AreAllStarts volume.now starts.now }
    ensures { IfOk result (λ v. AreDigests v.items (tree_rows volume.now)) }
{
    walk_digests(alloc, TreeWalk::of(volume), starts)
}

// Returns the digests of the rows of a stream of sections. `starts` are the starts of the files of
// the volumes in the stream.
fn stream_digests(
    alloc: Global,
    stream: &StreamView<'_>,
    starts: &[u64],
) -> Result<Vec<FvSha256>, AllocError>
    requires { StartsOfEach AreStarts (volumes_in_sections (sections_from stream.now.0)) starts.now }
    ensures { IfOk result (λ v. AreDigests v.items (rows_of_sections 0 0 0 (sections_from stream.now.0))) }
{
    walk_digests(alloc, TreeWalk::of_stream(stream), starts)
}

// Reads the input as a volume, lays it out, and returns the digests of its rows.
fn digests_of_volume(
    alloc: Global,
    input: &[u8],
    without_marks: bool,
) -> Result<Vec<FvSha256>, Fault>
    ensures ok { IfOk result (λ v. Reads Volume without_marks input.now (λ b. HasDigests Volume b v.items)) }
    ensures err { IfErr result (OrMemory (λ f. Reads Volume without_marks input.now (λ b. Rejects b f))) }
    ensures fits { IfErr result (OrMemory (λ _. Reads Volume without_marks input.now
        (λ b. (image : List ℕ) → NormalisesTo b image → ⊥))) }
    ensures memory { IfErr result (λ f. f ≡ out_of_memory → without_marks ≡ false → BeginsWithHeader input.now) }
{
    let bytes = bytes_read(alloc, Form::Volume, input, without_marks)?;
    let laid = lay_out_volume(alloc, &bytes)?;
    let digests = volume_digests(alloc, laid.volume(), laid.layout().starts())?;
    Ok(digests)
}

// Reads the input as a stream of sections, lays out the volumes in it, and returns the digests of
// its rows.
fn digests_of_stream(
    alloc: Global,
    input: &[u8],
    without_marks: bool,
) -> Result<Vec<FvSha256>, Fault>
    ensures ok { IfOk result (λ v. Reads Stream without_marks input.now (λ b. HasDigests Stream b v.items)) }
    ensures err { IfErr result (OrMemory (λ f. Reads Stream without_marks input.now (λ b. RejectsSections b f))) }
    ensures fits { IfErr result (OrMemory (λ _. Reads Stream without_marks input.now (λ b. (ss : List SectionMeaning) (tail : ℕ)
        → AcceptedStream ss tail b → AllFit (volumes_in_sections (sections_from ss)) → ⊥))) }
    ensures memory { IfErr result (λ f. f ≡ out_of_memory → without_marks ≡ false → HasFrame input.now) }
{
    let bytes = bytes_read(alloc, Form::Stream, input, without_marks)?;
    let stream = whole_stream(alloc, &bytes)?;
    if is_empty(&stream) {
        return Ok(Vec::new(alloc));
    }
    let starts = lay_out_stream(alloc, &stream)?;
    let digests = stream_digests(alloc, &stream, starts.as_slice())?;
    Ok(digests)
}

/// Writes the SHA-256 digests of the parts of a volume, which is the whole input, to the start of
/// `rows`: one for each row of `fvp_volume_tree`, in the same order. A volume's digest covers its
/// canonical image, a file's digest its data as the canonical image holds them, and a section's
/// digest its body. A section that holds sections or a volume has 32 zero bytes instead. `count` is
/// the number of digests. If `without_marks` is true, the volume is read as if no file at any level
/// were marked as fixed, for which the call makes a copy of the input. Returns 0. The volume is read
/// and laid out once, and no image is kept in memory. (PI specification, volume 3, sections 3.2.1,
/// 3.2.3, 3.2.3.1 and 3.2.4.)
///
/// # Errors
///
/// 256 if `rows` has fewer elements than `count`. The number of the first fault, which is in
/// `fault`: a fault of `normalise`; 24 if memory runs out. `count` is unchanged then. `rows` is
/// unchanged in both cases.
#[unsafe(no_mangle)]
pub extern "C" fn fvp_volume_tree_digests(
    alloc: Global,
    volume: &[u8],
    without_marks: bool,
    rows: &mut [FvSha256],
    count: &mut u64,
    fault: &mut FvFault,
) -> u32
    // The buffer begins with the digests, and is unchanged after them.
    ensures ok { result ≡ 0 → (digests : List FvSha256) × Reads Volume without_marks volume.now (λ b. HasDigests Volume b digests)
        × (count.new ≡ length digests)
        × (rows.new ≡ digests ++ drop (length digests) rows.old) × (fault.new ≡ no_fault) }

    ensures kept { result ≢ 0 → rows.new ≡ rows.old }
    ensures small { result ≡ 256 → (digests : List FvSha256)
        × Reads Volume without_marks volume.now (λ b. HasDigests Volume b digests) × (count.new ≡ length digests)
        × (length rows.old < length digests) × (fault.new ≡ no_fault) }

    // Any other result is the first fault of the bytes that are read, or out of memory. Memory can
    // run out only if the marks of fixed files are taken away, or if the input begins with the header
    // of a volume.
    ensures err { result ≢ 0 → result ≢ 256 → (f : Fault) × OrMemory (λ f. Reads Volume without_marks volume.now (λ b. Rejects b f)) f
        × (f ≡ out_of_memory → without_marks ≡ false → BeginsWithHeader volume.now)
        × (result ≡ fault_number f.kind) × (fault.new ≡ reported_fault f) × (count.new ≡ count.old) }

    // If the bytes that are read have an image, only memory or the buffer can be too small.
    ensures fits { result ≢ 0 → result ≢ 256 → result ≢ 24 → Reads Volume without_marks volume.now
        (λ b. (image : List ℕ) → NormalisesTo b image → ⊥) }
{
    put_result(
        digests_of_volume(alloc, volume, without_marks),
        rows,
        count,
        fault,
    )
}

/// Writes the SHA-256 digests of the parts of a stream of sections, which is the whole input, to the
/// start of `rows`: one for each row of `fvp_sections_tree`, in the same order. A volume's digest
/// covers its canonical image, a file's digest its data as the canonical image of its volume holds
/// them, and a section's digest its body. A section that holds sections or a volume has 32 zero
/// bytes instead. `count` is the number of digests. If `without_marks` is true, the stream is read as
/// if no file at any level were marked as fixed, for which the call makes a copy of the input.
/// Returns 0. No image is kept in memory. (PI specification, volume 3, sections 3.2.1, 3.2.3, 3.2.3.1
/// and 3.2.4.)
///
/// # Errors
///
/// 256 if `rows` has fewer elements than `count`. The number of the first fault, which is in
/// `fault`: a fault of `whole_stream`; then the fault of the first volume in the stream that does
/// not fit; 24 if memory runs out. `count` is unchanged then. `rows` is unchanged in both cases.
#[unsafe(no_mangle)]
pub extern "C" fn fvp_sections_tree_digests(
    alloc: Global,
    sections: &[u8],
    without_marks: bool,
    rows: &mut [FvSha256],
    count: &mut u64,
    fault: &mut FvFault,
) -> u32
    // The buffer begins with the digests, and is unchanged after them.
    ensures ok { result ≡ 0 → (digests : List FvSha256) × Reads Stream without_marks sections.now (λ b. HasDigests Stream b digests)
        × (count.new ≡ length digests)
        × (rows.new ≡ digests ++ drop (length digests) rows.old) × (fault.new ≡ no_fault) }

    ensures kept { result ≢ 0 → rows.new ≡ rows.old }
    ensures small { result ≡ 256 → (digests : List FvSha256)
        × Reads Stream without_marks sections.now (λ b. HasDigests Stream b digests) × (count.new ≡ length digests)
        × (length rows.old < length digests) × (fault.new ≡ no_fault) }

    // Any other result is the first fault of the bytes that are read, or out of memory. Memory can
    // run out only if the marks of fixed files are taken away, or if the headers of all sections are
    // right, and there is a section.
    ensures err { result ≢ 0 → result ≢ 256 → (f : Fault)
        × OrMemory (λ f. Reads Stream without_marks sections.now (λ b. RejectsSections b f)) f
        × (f ≡ out_of_memory → without_marks ≡ false → HasFrame sections.now)
        × (result ≡ fault_number f.kind) × (fault.new ≡ reported_fault f) × (count.new ≡ count.old) }

    // If all volumes in the stream fit, only memory or the buffer can be too small.
    ensures fits { result ≢ 0 → result ≢ 256 → result ≢ 24 → Reads Stream without_marks sections.now
        (λ b. (ss : List SectionMeaning) (tail : ℕ) → AcceptedStream ss tail b → AllFit (volumes_in_sections (sections_from ss)) → ⊥) }
{
    put_result(
        digests_of_stream(alloc, sections, without_marks),
        rows,
        count,
        fault,
    )
}
