//! Checks each volume of a flash image and reports the outcome to C.

ghost use Rattle.std.specs.Prelude.{◌≡◌, ◌≢◌, ◌⊎◌, ◌<◌, ◌≤◌, ◌++◌, ℕ, List, length, drop, map};
ghost use Rattle.fv_base.specs.Words.{OrMemory, fault_number, out_of_memory, volume_limit};
ghost use Rattle.fv_base.specs.declared.fault.Fault.{Fault};
ghost use Rattle.fv_canon.specs.Words.{ChecksImage, IsAboveLimit};
ghost use Rattle.fv_canon.specs.declared.image_check.VolumeCheck.{VolumeCheck};
ghost use Rattle.fv_flash.specs.Words.{IsPlace};
ghost use Rattle.fv_c.specs.ReportedChecks.{reported_check, reported_outcome};
ghost use Rattle.fv_c.specs.Reports.{no_fault, reported_fault};

use crate::buffer::put_translated;
use crate::reports::{FvFault, NO_FAULT, reported_fault, set_fault};
use crate::translate::Translate;
use fv_canon::{VolumeCheck, VolumeOutcome, check_image};
use std::alloc::Global;

/// A volume of a flash image, and the result of its check. (PI specification, volume 3, section
/// 3.2.)
#[repr(C)]
#[derive(Clone, Copy)]
pub struct FvVolumeCheck {
    /// The volume's offset in bytes from the first byte of the image.
    pub offset: u64,
    /// The length of the volume in bytes, `FvLength`.
    pub length: u64,
    /// The fault with which the volume is rejected, at its offset in the image. All fields are 0 if
    /// the volume is not rejected.
    pub fault: FvFault,
    /// 1 if the volume is its own canonical image, else 0.
    pub canonical: u32,
    /// Always 0.
    pub reserved: u32,
}

// Returns 1 if a volume is its own canonical image, and otherwise 0.
fn canonical_flag(outcome: VolumeOutcome) -> u32
    ensures { result ≡ (reported_outcome outcome).1 }
{
    match outcome {
        VolumeOutcome::Canonical => 1,
        _ => 0,
    }
}

// Returns the report for C of the fault with which a volume is rejected, or zeros if it is not
// rejected.
fn fault_in(outcome: VolumeOutcome) -> FvFault
    ensures { result ≡ (reported_outcome outcome).0 }
{
    match outcome {
        VolumeOutcome::Rejected(fault) => reported_fault(fault),
        _ => NO_FAULT,
    }
}

impl Translate for VolumeCheck {
    type Target = FvVolumeCheck;

    ghost translated = { reported_check };

    fn translate(&self) -> FvVolumeCheck {
        FvVolumeCheck {
            offset: self.offset,
            length: self.length,
            fault: fault_in(self.outcome),
            canonical: canonical_flag(self.outcome),
            reserved: 0,
        }
    }
}

/// Writes a report on each volume that `fvp_image_scan` finds in a flash image, in order, at the
/// start of the buffer `rows`. `count` is their number. Returns 0, also if a volume is rejected:
/// the volume's row then contains the fault. (PI specification, volume 3, section 3.2.)
///
/// # Errors
///
/// 256 if the buffer has fewer elements than `count`. The number of a fault, which is in `fault`: 8
/// (Length) if the image has more than `VOLUME_LIMIT` bytes (256 MiB); 24 if memory runs out.
/// `count` is unchanged then. The buffer is unchanged in both cases.
#[unsafe(no_mangle)]
pub extern "C" fn fvp_image_check(
    alloc: Global,
    image: &[u8],
    rows: &mut [FvVolumeCheck],
    count: &mut u64,
    fault: &mut FvFault,
) -> u32
    // The buffer begins with the rows of the volumes, and is unchanged after them.
    ensures ok { result ≡ 0 → (checks : List VolumeCheck) × ChecksImage image.now checks
        × (count.new ≡ length checks) × (rows.new ≡ map reported_check checks ++ drop (length checks) rows.old)
        × (fault.new ≡ no_fault) }

    ensures kept { result ≢ 0 → rows.new ≡ rows.old }
    ensures small { result ≡ 256 → (checks : List VolumeCheck) × ChecksImage image.now checks
        × (count.new ≡ length checks) × (length rows.old < length checks) × (fault.new ≡ no_fault) }

    // Any other result is Length, if the image has more than `VOLUME_LIMIT` bytes, or out of
    // memory. Memory can run out only if the image is within this limit and a volume begins in it.
    ensures err { result ≢ 0 → result ≢ 256 → (f : Fault) × OrMemory (IsAboveLimit image.now) f
        × (f ≡ out_of_memory → (length image.now ≤ volume_limit) × ((place : ℕ) × IsPlace image.now place))
        × (result ≡ fault_number f.kind) × (fault.new ≡ reported_fault f) × (count.new ≡ count.old) }
{
    match check_image(alloc, image) {
        Ok(checks) => put_translated(checks.as_slice(), rows, count, fault),
        Err(f) => set_fault(f, fault),
    }
}
