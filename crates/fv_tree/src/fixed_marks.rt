//! Taking the marks of fixed files away from a volume.

ghost use Rattle.std.specs.Prelude.{◌≡◌, ℕ, List, IfErr, OnOk};
ghost use Rattle.fv_file.specs.Words.{CellForm};
ghost use Rattle.fv_head.specs.declared.extent.Extent.{Extent};
ghost use Rattle.fv_tree.specs.LocatedFiles.{BeginsTiled};
ghost use Rattle.fv_tree.specs.Unfixing.{IsUnfixed, UnfixStops};
ghost use Rattle.fv_tree.specs.UnfixedInputs.{NotUnfixed, UnfixesTo};

use fv_base::{Fault, FaultKind, check};
use fv_file::{unmark_files, verify_unmarked};
use fv_head::verify_fv;

/// Takes the marks away from all fixed files of the volume at the start of the bytes. For each such
/// file, bit 0x04 of its attributes is cleared and 4 is added to its header checksum (modulo 256).
/// All other bytes stay as they are, also the bytes of volumes inside this volume and the bytes
/// that follow it. Takes no memory. (PI specification, volume 3, section 3.2.3.1,
/// `FFS_ATTRIB_FIXED`.)
///
/// # Errors
///
/// The first fault of the header, as for `verify_fv`; then the first fault of a cell, as for
/// `cells`, except Fixed. Nothing was changed in these cases.
pub fn unfix(bytes: &mut [u8]) -> Result<(), Fault>
    // The marks of all fixed files of the volume were taken away, and nothing else was changed.
    ensures done { OnOk result (IsUnfixed bytes.old bytes.new) }

    // No other bytes are the given bytes without these marks.
    ensures only { OnOk result ((o : List ℕ) → IsUnfixed bytes.old o → o ≡ bytes.new) }

    // After an error, nothing was changed, and no bytes are the given bytes without these marks.
    ensures kept { IfErr result (λ _. bytes.new ≡ bytes.old) }
    ensures none { IfErr result (λ _. (o : List ℕ) → IsUnfixed bytes.old o → ⊥) }

    // The fault is the first fault of the header; or it is not Fixed, and is the first fault of a
    // copy of the body from which all marks before the fault were taken away.
    ensures stops { IfErr result (UnfixStops bytes.old) }

    // If cells tiled the body of the volume before, none of its files was fixed, and nothing was
    // changed.
    ensures same { (e : Extent) (cells : List CellForm) → BeginsTiled e cells bytes.old → bytes.new ≡ bytes.old }
{
    let extent = verify_fv(bytes)?;
    let body = &mut bytes[extent.first as usize..extent.length as usize];
    unmark_files(body, extent.first, extent.file_system, extent.polarity)
}

/// Checks whether the input is a volume, and whether `unfix` can take the marks away from its fixed
/// files. Changes nothing, and takes no memory. (PI specification, volume 3, section 3.2.3.1,
/// `FFS_ATTRIB_FIXED`.)
///
/// # Errors
///
/// The first fault: of the header, as for `verify_fv`; then of a cell, as for `cells`, except
/// Fixed; then Length at FvLength if bytes follow the volume.
pub fn verify_unfixed(input: &[u8]) -> Result<(), Fault>
    // The input is a volume that no bytes follow, and the marks of its fixed files can be taken
    // away.
    ensures ok { OnOk result ((o : List ℕ) × UnfixesTo input.now o) }

    // The input is not such a volume, or its marks cannot be taken away, and this is the first
    // fault.
    ensures err { IfErr result (NotUnfixed input.now) }
{
    let extent = verify_fv(input)?;
    let body = &input[extent.first as usize..extent.length as usize];
    verify_unmarked(body, extent.first, extent.file_system, extent.polarity)?;
    check(
        extent.length == input.len() as u64,
        FaultKind::Length,
        extent.length,
    )?;
    Ok(())
}
