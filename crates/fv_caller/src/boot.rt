//! A check of the inputs that a boot reads.

ghost use Rattle.std.specs.Prelude.{IfErr, OnOk};
ghost use Rattle.fv_caller.specs.Boots.{IsBoot, IsOutOfMemory, StopsBoot};

use crate::fault::CallerFault;
use fv_canon::whole_volume;
use fv_depex::{Phase, read_depex};
use fv_hob::read_hobs;
use std::alloc::Global;

/// Checks that a boot can read its three inputs: a volume with nothing after it, the body of a DXE
/// dependency section, and a hand-off list, after which anything may follow. (PI specification,
/// volume 2, section 10.7, and volume 3, sections 3.2 and 5.)
///
/// # Errors
///
/// The fault of the first input that is rejected or for which memory runs out.
pub fn check_boot(
    alloc: Global,
    volume: &[u8],
    expression: &[u8],
    hand_off: &[u8],
) -> Result<(), CallerFault>
    // The boot can read all three inputs.
    ensures ok { OnOk result (IsBoot volume.now expression.now hand_off.now) }

    // If the error is not out of memory, the boot cannot read all three inputs.
    ensures none { IfErr result
        (λ e. (IsOutOfMemory e → ⊥) → IsBoot volume.now expression.now hand_off.now → ⊥) }

    // The error is the fault of the first input that cannot be read.
    ensures first { IfErr result (StopsBoot volume.now expression.now hand_off.now) }
{
    whole_volume(alloc, volume)?;
    read_depex(alloc, expression, Phase::Dxe)?;
    read_hobs(alloc, hand_off)?;
    Ok(())
}
