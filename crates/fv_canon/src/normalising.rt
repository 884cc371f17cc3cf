//! Reads bytes as a volume, and makes its canonical image.

ghost use Rattle.std.specs.Prelude.{◌≡◌, ◌≢◌, ◌⊎◌, ℕ, List, length, IfOk, IfErr, OnOk, true, false};
ghost use Rattle.fv_base.specs.Words.{OrMemory, out_of_memory, inner_of, has_erred};
ghost use Rattle.fv_head.specs.Words.{BeginsWithHeader};
ghost use Rattle.fv_canon.specs.Headline.{MeanSame, NormalisesTo};
ghost use Rattle.fv_canon.specs.InputRejections.{IsNotVolume, IsOfLayout, IsUnfit, NotPlaced, Rejects};
ghost use Rattle.fv_canon.specs.NormaliseRuns.{RunWrites, RunStops};

use crate::canonical_image::{canonical, write_canonical};
use crate::laid_volume::lay_out_volume;
use fv_base::{ByteList, Fault, FaultKind, Port, read_input};
use fv_tree::whole_volume;
use std::alloc::Global;
use std::io::{Read, Write};

/// Reads the input as a volume with no bytes after it, and returns its canonical image. (PI
/// specification, volume 3, section 3.2.)
///
/// # Errors
///
/// The first fault in this order: the faults of `read_volume`, Length at FvLength if bytes follow
/// the volume, and the faults of `layout`. OutOfMemory.
pub fn normalise(alloc: Global, input: &[u8]) -> Result<ByteList, Fault>
    ensures ok { IfOk result (λ bytes. NormalisesTo input.now bytes) }

    // The image is a volume with the same meaning, and is its own image.
    ensures again { IfOk result (λ bytes. MeanSame input.now bytes × NormalisesTo bytes bytes) }

    // The image is as long as the input.
    ensures length { IfOk result (λ bytes. length bytes ≡ length input.now) }

    // Any error other than OutOfMemory is the first fault of an input that is not a volume, or the
    // fault of the first volume in the input whose own files cannot be placed.
    ensures err { IfErr result (OrMemory (Rejects input.now)) }

    // NoRoom or TopAlignment is returned only if the input is a volume that does not fit, and is
    // the fault of the first volume in it whose own files cannot be placed. Any other error except
    // OutOfMemory is returned only if the input is not a volume.
    ensures unfit { IfErr result (λ f. IsOfLayout f.kind → NotPlaced input.now f) }
    ensures unread { IfErr result (λ f. f ≢ out_of_memory → (IsOfLayout f.kind → ⊥) → IsNotVolume input.now) }

    // A volume that does not fit is always rejected: as NoRoom or TopAlignment, unless memory runs
    // out.
    ensures rejected { IsUnfit input.now → IfOk result (λ _. ⊥)
        × IfErr result (λ f. (f ≡ out_of_memory) ⊎ IsOfLayout f.kind) }

    // If the input has an image, the only error is OutOfMemory.
    ensures fits { (image : List ℕ) → NormalisesTo input.now image → IfErr result (λ f. f ≡ out_of_memory) }

    // Memory runs out only if the input begins with the header of a volume.
    ensures memory { IfErr result (λ f. f ≡ out_of_memory → BeginsWithHeader input.now) }
{
    let view = whole_volume(alloc, input)?;
    canonical(alloc, &view)
}

/// Reads an input to its end, as a volume with no bytes after it, and then writes its canonical
/// image. The input and its view are kept in memory; the image is not. (PI specification, volume 3,
/// section 3.2.)
///
/// # Errors
///
/// ReadFault at the number of bytes read so far, Length at the limit if more bytes come, or an
/// error of `normalise`, with nothing written. Reading takes memory, so OutOfMemory may be returned
/// whatever the input is. WriteFault at the number of bytes written; exactly that many bytes of the
/// image were written.
pub fn run_normalise<R: Read, W: Write>(
    alloc: Global,
    reader: &mut Port<R>,
    writer: &mut Port<W>,
) -> Result<(), Fault>
    // An input was read to its end, and its image was written.
    ensures ok { OnOk result (RunWrites (R.remaining (inner_of reader.old)) (R.remaining (inner_of reader.new))
        (W.contents (inner_of writer.old)) (W.contents (inner_of writer.new))) }

    // Either reading stopped or the input is rejected, and nothing was written. Or the fault is
    // WriteFault, and the first bytes of the image were written, as many as its offset says.
    ensures err { IfErr result (RunStops (R.remaining (inner_of reader.old)) (R.remaining (inner_of reader.new))
        (W.contents (inner_of writer.old)) (W.contents (inner_of writer.new))) }

    // If ReadFault is returned, the error flag of the reader's port is set, provided that it was
    // clear before the call. If WriteFault is returned, the error flag of the writer's port is set.
    ensures reader_erred { has_erred reader.old ≡ false
        → IfErr result (λ f. f.kind ≡ FaultKind.ReadFault → has_erred reader.new ≡ true) }
    ensures writer_erred { IfErr result (λ f. f.kind ≡ FaultKind.WriteFault → has_erred writer.new ≡ true) }
{
    let input = read_input(alloc, reader)?;
    let laid = lay_out_volume(alloc, &input)?;
    write_canonical(laid.volume(), laid.layout(), writer)
}
