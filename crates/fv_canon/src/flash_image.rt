//! Replaces each volume of a flash image by its canonical image.

ghost use Rattle.std.specs.Prelude.{◌≡◌, ◌≢◌, ◌⊎◌, ◌-◌, ◌≤◌, ℕ, List, length, IfOk, IfErr};
ghost use Rattle.fv_base.specs.Words.{OrMemory, out_of_memory, volume_limit, field};
ghost use Rattle.fv_canon.specs.FlashImages.{FirstRejected, NormalisesAll, RejectedAt, RejectsAll, AreLaid, IsLaid, IsLaidOut};
ghost use Rattle.fv_flash.specs.Words.{AreFound, IsPlace, VolumeAt, offsets_of};

use crate::canonical_image::put_canonical;
use crate::laid_volume::{LaidVolume, lay_out_volume};
use fv_base::field::bytes_from;
use fv_base::limits::VOLUME_LIMIT;
use fv_base::{ByteList, Fault, FaultKind, ListSink, Place, Sink, check};
use fv_tree::{FoundVolume, fault_within, volumes};
use std::alloc::Global;
use std::marker::Model;

// Returns the bytes from the offset `from` up to the offset `to`.
fn between(image: &[u8], from: usize, to: usize) -> &[u8]
    requires { (from ≤ to) × (to ≤ length image.now) }
    ensures { result.now ≡ field from (to - from) image.now }
{
    &image[from..to]
}

// A volume of an image, and the offset at which it begins.
#[derive(Drop)]
struct LocatedVolume<'a> {
    start: u64,
    laid: LaidVolume<'a>,
}

// Reads a volume of the image, and lays it out.
fn laid_at(alloc: Global, image: &[u8], volume: FoundVolume) -> Result<LocatedVolume<'_>, Fault>
    requires { VolumeAt image.now volume.offset volume.length }
    ensures start { IfOk result (λ v. v.start ≡ volume.offset) }
    ensures ok { IfOk result (IsLaid image.now) }
    ensures err { IfErr result (OrMemory (RejectedAt image.now volume.offset)) }
    ensures kind { IfErr result (λ f. (f.kind ≢ FaultKind.ReadFault) × (f.kind ≢ FaultKind.WriteFault)) }
{
    match lay_out_volume(alloc, volume.bytes(image)) {
        Ok(laid) => Ok(LocatedVolume {
            start: volume.offset,
            laid,
        }),
        Err(fault) => {
            let place = Place {
                offset: volume.offset,
                depth: fault.place.depth,
            };
            Err(fault_within(fault, place))
        }
    }
}

// Reads and lays out each volume of the image.
fn laid_at_each<'a>(
    alloc: Global,
    image: &'a [u8],
    found: &[FoundVolume],
) -> Result<Vec<LocatedVolume<'a>>, Fault>
    requires { AreFound image.now found.now }
    ensures ok { IfOk result (λ volumes. AreLaid image.now (offsets_of found.now) volumes.items) }
    ensures err { IfErr result (OrMemory (FirstRejected image.now (offsets_of found.now))) }

    // The call fails only if there is a volume.
    ensures some { IfErr result (λ _. (place : ℕ) × IsPlace image.now place) }
    ensures kind { IfErr result (λ f. (f.kind ≢ FaultKind.ReadFault) × (f.kind ≢ FaultKind.WriteFault)) }
{
    let mut volumes = Vec::with_capacity(alloc, found.len())?;
    for volume in found {
        volumes.push(laid_at(alloc, image, *volume)?)?;
    }
    Ok(volumes)
}

// Puts the image with each of its volumes replaced by its canonical image. `volumes` are all
// volumes of the image.
fn put_normalised<S: Sink>(image: &[u8], volumes: &[LocatedVolume<'_>], out: &mut S)
    requires { IsLaidOut image.now volumes.now }
    ensures { (bytes : List ℕ) × NormalisesAll image.now bytes × S.takes out.old bytes out.new }
{
    let mut from = 0;
    for volume in volumes {
        let start = volume.start as usize;
        out.put(between(image, from, start));
        let view = volume.laid.volume();
        put_canonical(view, volume.laid.layout(), out);
        from = start + view.head().length() as usize;
    }
    out.put(bytes_from(image, from));
}

/// A flash image in which every volume is accepted and laid out. It refers to the bytes that were
/// passed in. Contracts see these bytes, and know that each volume that is found in them has a
/// canonical image. (PI specification, volume 3, section 3.2.)
#[derive(Drop)]
pub struct LaidImage<'a> {
    image: &'a [u8],
    volumes: Vec<LocatedVolume<'a>>,
}

impl<'a> Model for LaidImage<'a> {
    ghost use Rattle.std.specs.Prelude.{ℕ, List};
    ghost use Rattle.fv_canon.specs.FlashImages.{IsLaidOut};

    ghost Value = { List ℕ };

    ghost view = { λ l. l.image.now };

    ghost invariant = { λ l. IsLaidOut l.image.now l.volumes.items };
}

/// Reads and lays out each volume that `volumes` finds in the image. (PI specification, volume 3,
/// section 3.2.)
///
/// # Errors
///
/// Length at the limit of 268,435,456 bytes, if the image is longer. Otherwise the fault of the
/// first volume that `normalise` rejects, with its offset counted from the start of the image;
/// NoRoom and TopAlignment are at the volume's start. OutOfMemory, only if a volume begins in the
/// image.
pub fn lay_out_image(alloc: Global, image: &[u8]) -> Result<LaidImage<'_>, Fault>
    // The result is the image, in which each volume has a meaning and a layout.
    ensures ok { IfOk result (λ laid. laid ≡ image.now) }

    // Any error other than OutOfMemory is Length at the limit, or the fault of the first volume
    // that is rejected.
    ensures err { IfErr result (OrMemory (RejectsAll image.now)) }

    // If each volume has a canonical image, the only error is OutOfMemory.
    ensures fits { (other : List ℕ) → NormalisesAll image.now other → IfErr result (λ f. f ≡ out_of_memory) }

    // Memory runs out only if the image is within the limit and a volume begins in it.
    ensures memory { IfErr result (λ f. f ≡ out_of_memory
        → (length image.now ≤ volume_limit) × ((place : ℕ) × IsPlace image.now place)) }

    // ReadFault and WriteFault are never returned.
    ensures kind { IfErr result (λ f. (f.kind ≢ FaultKind.ReadFault) × (f.kind ≢ FaultKind.WriteFault)) }
{
    let total = image.len() as u64;
    check(total <= VOLUME_LIMIT, FaultKind::Length, VOLUME_LIMIT)?;
    let found = volumes(alloc, image)?;
    let volumes = laid_at_each(alloc, image, found.as_slice())?;
    Ok(LaidImage { image, volumes })
}

/// Puts the image into a sink, with each volume that `volumes` finds in it replaced by its
/// canonical image. Every other byte is kept. The walk takes no memory. (PI specification, volume
/// 3, section 3.2.)
pub fn put_laid_image<S: Sink>(laid: &LaidImage<'_>, out: &mut S)
    ensures { (bytes : List ℕ) × NormalisesAll laid.now bytes × S.takes out.old bytes out.new }
{
    put_normalised(laid.image, laid.volumes.as_slice(), out);
}

/// Returns the image with each volume that `volumes` finds in it replaced by its canonical image.
/// Every other byte is kept. Memory for the full length is reserved once. (PI specification, volume
/// 3, section 3.2.)
///
/// # Errors
///
/// Length at the limit of 268,435,456 bytes, if the image is longer. Otherwise the fault of the
/// first volume that `normalise` rejects, with its offset counted from the start of the image;
/// NoRoom and TopAlignment are at the volume's start. OutOfMemory.
pub fn normalise_image(alloc: Global, image: &[u8]) -> Result<ByteList, Fault>
    ensures ok { IfOk result (λ bytes. NormalisesAll image.now bytes) }

    // The result is unique.
    ensures only { (other : List ℕ) → NormalisesAll image.now other → IfOk result (λ bytes. bytes ≡ other) }

    // Any error other than OutOfMemory is Length at the limit, or the fault of the first volume
    // that is rejected.
    ensures err { IfErr result (OrMemory (RejectsAll image.now)) }

    // If each volume has a canonical image, the only error is OutOfMemory.
    ensures fits { (other : List ℕ) → NormalisesAll image.now other → IfErr result (λ f. f ≡ out_of_memory) }

    // Memory runs out only if the image is within the limit.
    ensures memory { IfErr result (λ f. f ≡ out_of_memory → length image.now ≤ volume_limit) }
{
    let laid = lay_out_image(alloc, image)?;
    let mut out = ListSink::with_room(alloc, image.len())?;
    put_laid_image(&laid, &mut out);
    out.finish()
}
