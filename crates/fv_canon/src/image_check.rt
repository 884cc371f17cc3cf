//! Checks each volume of a flash image: whether it is its own canonical image, or with which fault
//! it is rejected.

ghost use Rattle.std.specs.Prelude.{◌≡◌, ◌⊎◌, ◌+◌, ◌<◌, ◌≤◌, ◌^◌, ℕ, List, length, IfOk, IfErr};
ghost use Rattle.fv_base.specs.Words.{OrMemory, out_of_memory, volume_limit};
ghost use Rattle.fv_canon.specs.ImageChecks.{ChecksImage, HasOutcome, IsAboveLimit, IsChecked};
ghost use Rattle.fv_flash.specs.Words.{IsPlace, VolumeAt};

use crate::canonical_input::is_canonical;
use fv_base::limits::VOLUME_LIMIT;
use fv_base::{Fault, FaultKind, Place, check};
use fv_tree::{FoundVolume, fault_within, volumes};
use std::alloc::Global;

/// The result of checking a volume of a flash image.
#[derive(Clone, Copy, Debug, PartialEq, Eq)]
pub enum VolumeOutcome {
    /// The volume is its own canonical image.
    Canonical,
    /// The volume is accepted, but is not its own canonical image. If it does not fit, it has no
    /// canonical image.
    NotCanonical,
    /// The volume is rejected, and this is its first fault. The offset counts bytes from the first
    /// byte of the image. The depth is the number of groups and opened volumes around the place of
    /// the fault, within the volume.
    Rejected(Fault),
}

/// A volume of a flash image, and the result of checking it.
#[derive(Clone, Copy, Debug, PartialEq, Eq)]
pub struct VolumeCheck {
    /// The offset in the image at which the volume begins, in bytes.
    pub offset: u64,
    /// The length of the volume in bytes, its FvLength.
    pub length: u64,
    /// The result of the check.
    pub outcome: VolumeOutcome,
}

// Checks bytes that begin at the offset `start` of an image, and that should be a volume.
fn outcome_of(alloc: Global, start: u64, volume: &[u8]) -> Result<VolumeOutcome, Fault>
    requires { start + length volume.now < 2 ^ 64 }
    ensures ok { IfOk result (HasOutcome start volume.now) }
    ensures err { IfErr result (λ f. f ≡ out_of_memory) }
{
    match is_canonical(alloc, volume) {
        Ok(true) => Ok(VolumeOutcome::Canonical),
        Ok(false) => Ok(VolumeOutcome::NotCanonical),
        Err(fault) => {
            if fault.kind == FaultKind::OutOfMemory {
                return Err(fault);
            }
            let place = Place {
                offset: start,
                depth: fault.place.depth,
            };
            Ok(VolumeOutcome::Rejected(fault_within(fault, place)))
        }
    }
}

// Checks a volume of the image.
fn check_at(alloc: Global, image: &[u8], volume: FoundVolume) -> Result<VolumeCheck, Fault>
    requires { VolumeAt image.now volume.offset volume.length }
    ensures start { IfOk result (λ c. c.offset ≡ volume.offset) }
    ensures ok { IfOk result (IsChecked image.now) }
    ensures err { IfErr result (λ f. f ≡ out_of_memory) }
{
    Ok(VolumeCheck {
        offset: volume.offset,
        length: volume.length,
        outcome: outcome_of(alloc, volume.offset, volume.bytes(image))?,
    })
}

/// Checks each volume that `volumes` finds in the image, and returns the results in the order of
/// the volumes. A volume that is rejected does not stop the check of the other volumes. `volumes`
/// walks the image once, and each volume is read once. (PI specification, volume 3, section 3.2.)
///
/// # Errors
///
/// Length at the limit of 268,435,456 bytes, if the image is longer. OutOfMemory at 0, only if a
/// volume begins in the image.
pub fn check_image(alloc: Global, image: &[u8]) -> Result<Vec<VolumeCheck>, Fault>
    // There is one check for each volume that `volumes` finds in the image. Canonical: the volume
    // is accepted, and is its own canonical image. NotCanonical: the volume is accepted, but is not
    // its own canonical image, and may have none. Rejected: the volume is rejected, and the fault
    // is its first fault. The offset of the fault counts from the first byte of the image.
    ensures found { IfOk result (λ checks. ChecksImage image.now checks.items) }

    // The result is unique.
    ensures only { IfOk result
        (λ checks. (other : List VolumeCheck) → ChecksImage image.now other → other ≡ checks.items) }

    // Any error other than OutOfMemory is Length at the limit, because the image is longer.
    ensures err { IfErr result (OrMemory (IsAboveLimit image.now)) }

    // Memory runs out only if the image is within the limit and a volume begins in it.
    ensures memory { IfErr result (λ f. f ≡ out_of_memory
        → (length image.now ≤ volume_limit) × ((place : ℕ) × IsPlace image.now place)) }
{
    let total = image.len() as u64;
    check(total <= VOLUME_LIMIT, FaultKind::Length, VOLUME_LIMIT)?;
    let found = volumes(alloc, image)?;
    let mut checks = Vec::new(alloc);
    for volume in found.as_slice() {
        checks.push(check_at(alloc, image, *volume)?)?;
    }
    Ok(checks)
}
