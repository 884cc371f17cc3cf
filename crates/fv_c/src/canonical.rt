//! The canonical image of a volume and its digest, the check whether a volume is its own canonical
//! image, and flash images with each volume replaced. The walk over a volume puts the bytes of the
//! image straight into the caller's buffer or into the digest, so no image is kept in memory.

ghost use Rattle.std.specs.Prelude.{◌≡◌, ◌≢◌, ◌⊎◌, ◌↔◌, ◌<◌, ◌≤◌, ◌++◌, ℕ, List, length, drop, IfOk, IfErr};
ghost use Rattle.sha2.specs.Sha256.{sha256};
ghost use Rattle.fv_base.specs.Words.{OrMemory, fault_number, out_of_memory, volume_limit};
ghost use Rattle.fv_base.specs.declared.fault.Fault.{Fault};
ghost use Rattle.fv_canon.specs.Words.{NormalisesAll, RejectsAll, NormalisesTo, IsImage, Rejects};
ghost use Rattle.fv_flash.specs.Words.{IsPlace};
ghost use Rattle.fv_tree.specs.Words.{NotRead, Accepted, Meaning};
ghost use Rattle.fv_c.specs.Reports.{BeginsWithHeader, reported_fault, no_fault};

use crate::reports::{BUFFER_TOO_SMALL, FvFault, NO_FAULT, flag, set_fault};
use fv_base::Fault;
use fv_canon::{is_canonical, lay_out_image, lay_out_volume, put_canonical, put_laid_image};
use fv_sinks::{BufferSink, DigestSink};
use std::alloc::Global;

/// Checks whether the input is a volume that is its own canonical image. Returns 0 for every
/// volume, and sets `canonical` to 1 if the volume is its own canonical image and to 0 if not. No
/// image is made. (PI specification, volume 3, section 3.2.)
///
/// # Errors
///
/// The number of the first fault, which is in `fault`: a fault of `whole_volume`; 24 if memory runs
/// out. `canonical` is unchanged then.
#[unsafe(no_mangle)]
pub extern "C" fn fvp_volume_is_canonical(
    alloc: Global,
    volume: &[u8],
    canonical: &mut u32,
    fault: &mut FvFault,
) -> u32
    // The input has one meaning, and the flag says whether the input is the canonical image of this
    // meaning.
    ensures ok { result ≡ 0 → (m : Meaning) × Accepted volume.now m × ((canonical.new ≡ 1) ↔ IsImage m volume.now)
        × (canonical.new ≤ 1) × (fault.new ≡ no_fault) }

    ensures kept { result ≢ 0 → canonical.new ≡ canonical.old }

    // A fault is the first fault of the input, or out of memory. Memory can run out only if the
    // input begins with the header of a volume.
    ensures err { result ≢ 0 → (f : Fault) × OrMemory (NotRead volume.now) f
        × (f ≡ out_of_memory → BeginsWithHeader volume.now)
        × (result ≡ fault_number f.kind) × (fault.new ≡ reported_fault f) }
{
    match is_canonical(alloc, volume) {
        Ok(is_own) => {
            *canonical = flag(is_own);
            *fault = NO_FAULT;
            0
        }
        Err(f) => set_fault(f, fault),
    }
}

/// A SHA-256 digest.
#[repr(C)]
#[derive(Clone, Copy)]
pub struct FvSha256 {
    /// The 32 bytes of the digest.
    pub bytes: [u8; 32],
}

// Returns the SHA-256 digest of the input's canonical image, or the fault for which `normalise`
// rejects the input.
fn digest_of(alloc: Global, volume: &[u8]) -> Result<FvSha256, Fault>
    ensures ok { IfOk result (λ d. (image : List ℕ) × NormalisesTo volume.now image × (d.bytes ≡ sha256 image)) }
    ensures err { IfErr result (OrMemory (Rejects volume.now)) }
    ensures fits { (image : List ℕ) → NormalisesTo volume.now image → IfErr result (λ f. f ≡ out_of_memory) }
    ensures memory { IfErr result (λ f. f ≡ out_of_memory → BeginsWithHeader volume.now) }
{
    let laid = lay_out_volume(alloc, volume)?;
    let mut digest = DigestSink::new();
    put_canonical(laid.volume(), laid.layout(), &mut digest);
    Ok(FvSha256 {
        bytes: digest.finish(),
    })
}

/// Computes the SHA-256 digest of the canonical image of a volume, which is the whole input.
/// Returns 0 if the volume has an image, and `digest` is then the image's digest. (PI
/// specification, volume 3, section 3.2.)
///
/// # Errors
///
/// The number of the first fault, which is in `fault`: a fault of `normalise`; 24 if memory runs
/// out. `digest` is unchanged then.
#[unsafe(no_mangle)]
pub extern "C" fn fvp_volume_digest(
    alloc: Global,
    volume: &[u8],
    digest: &mut FvSha256,
    fault: &mut FvFault,
) -> u32
    // The digest is the SHA-256 digest of the canonical image.
    ensures ok { result ≡ 0 → (image : List ℕ) × NormalisesTo volume.now image
        × (digest.new.bytes ≡ sha256 image) × (fault.new ≡ no_fault) }

    ensures kept { result ≢ 0 → digest.new ≡ digest.old }

    // A fault is the first fault of the input, or out of memory. Memory can run out only if the
    // input begins with the header of a volume.
    ensures err { result ≢ 0 → (f : Fault) × OrMemory (Rejects volume.now) f
        × (f ≡ out_of_memory → BeginsWithHeader volume.now)
        × (result ≡ fault_number f.kind) × (fault.new ≡ reported_fault f) }

    // If the input has an image, only memory can run out.
    ensures fits { (image : List ℕ) → NormalisesTo volume.now image → result ≢ 0 → result ≡ 24 }
{
    match digest_of(alloc, volume) {
        Ok(d) => {
            *digest = d;
            *fault = NO_FAULT;
            0
        }
        Err(f) => set_fault(f, fault),
    }
}

/// Writes the canonical image of a volume, which is the whole input, to the start of the buffer.
/// The image is as long as the input. Returns 0. (PI specification, volume 3, section 3.2.)
///
/// # Errors
///
/// The number of the first fault, which is in `fault`: a fault of `normalise`; 24 if memory runs
/// out. If there is none, 256 if the buffer is shorter than the input. The buffer is unchanged in
/// all cases.
#[unsafe(no_mangle)]
pub extern "C" fn fvp_volume_normalise(
    alloc: Global,
    volume: &[u8],
    buffer: &mut [u8],
    fault: &mut FvFault,
) -> u32
    // The buffer begins with the image, and is unchanged after that.
    ensures ok { result ≡ 0 → (image : List ℕ) × NormalisesTo volume.now image × (length image ≡ length volume.now)
        × (buffer.new ≡ image ++ drop (length image) buffer.old) × (fault.new ≡ no_fault) }

    ensures kept { result ≢ 0 → buffer.new ≡ buffer.old }

    // 256 is returned only if the input has an image and the buffer is shorter than this image.
    ensures small { result ≡ 256 → (image : List ℕ) × NormalisesTo volume.now image × (length image ≡ length volume.now)
        × (length buffer.old < length image) × (fault.new ≡ no_fault) }
    ensures room { length buffer.old < length volume.now → result ≢ 0 }

    // Any other result is the first fault of the input, or out of memory. Memory can run out only
    // if the input begins with the header of a volume.
    ensures err { result ≢ 0 → result ≢ 256 → (f : Fault) × OrMemory (Rejects volume.now) f
        × (f ≡ out_of_memory → BeginsWithHeader volume.now)
        × (result ≡ fault_number f.kind) × (fault.new ≡ reported_fault f) }

    // If the input has an image, only memory or the buffer can be too small.
    ensures fits { (image : List ℕ) → NormalisesTo volume.now image → result ≢ 0 → result ≢ 256 → result ≡ 24 }
{
    let laid = match lay_out_volume(alloc, volume) {
        Ok(laid) => laid,
        Err(f) => return set_fault(f, fault),
    };
    *fault = NO_FAULT;
    if buffer.len() < volume.len() {
        return BUFFER_TOO_SMALL;
    }
    let mut out = BufferSink::new(buffer);
    put_canonical(laid.volume(), laid.layout(), &mut out);
    0
}

/// Writes a flash image with each volume that `fvp_image_scan` finds replaced by its canonical
/// image. The result is as long as the image, and is at the start of the buffer. Returns 0. (PI
/// specification, volume 3, section 3.2.)
///
/// # Errors
///
/// The number of the first fault, which is in `fault`, at its offset in the image: a fault of
/// `normalise_image`; 24 if memory runs out. If there is none, 256 if the buffer is shorter than
/// the image. The buffer is unchanged in all cases.
#[unsafe(no_mangle)]
pub extern "C" fn fvp_image_normalise(
    alloc: Global,
    image: &[u8],
    buffer: &mut [u8],
    fault: &mut FvFault,
) -> u32
    // The buffer begins with the image, and is unchanged after that.
    ensures ok { result ≡ 0 → (bytes : List ℕ) × NormalisesAll image.now bytes × (length bytes ≡ length image.now)
        × (buffer.new ≡ bytes ++ drop (length bytes) buffer.old) × (fault.new ≡ no_fault) }

    ensures kept { result ≢ 0 → buffer.new ≡ buffer.old }

    // 256 is returned only if each volume has an image and the buffer is shorter than the result.
    ensures small { result ≡ 256 → (bytes : List ℕ) × NormalisesAll image.now bytes × (length bytes ≡ length image.now)
        × (length buffer.old < length bytes) × (fault.new ≡ no_fault) }
    ensures room { length buffer.old < length image.now → result ≢ 0 }

    // Any other result is Length, if the image has more than `VOLUME_LIMIT` bytes (256 MiB), or the
    // fault of the first volume that has no image, or out of memory. Memory can run out only if the
    // image is within this limit and a volume begins in it.
    ensures err { result ≢ 0 → result ≢ 256 → (f : Fault) × OrMemory (RejectsAll image.now) f
        × (f ≡ out_of_memory → (length image.now ≤ volume_limit) × ((place : ℕ) × IsPlace image.now place))
        × (result ≡ fault_number f.kind) × (fault.new ≡ reported_fault f) }

    // If each volume has an image, only memory or the buffer can be too small.
    ensures fits { (bytes : List ℕ) → NormalisesAll image.now bytes → result ≢ 0 → result ≢ 256 → result ≡ 24 }
{
    let laid = match lay_out_image(alloc, image) {
        Ok(laid) => laid,
        Err(f) => return set_fault(f, fault),
    };
    *fault = NO_FAULT;
    if buffer.len() < image.len() {
        return BUFFER_TOO_SMALL;
    }
    let mut out = BufferSink::new(buffer);
    put_laid_image(&laid, &mut out);
    0
}
