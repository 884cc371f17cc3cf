//! Taking the marks of fixed files away from a volume's body.

ghost use Rattle.std.specs.Prelude.{◌≡◌, ◌≢◌, ℕ, ◌+◌, ◌<◌, ◌≤◌, ◌%◌, ◌^◌, if◌then◌else◌, List, length, drop};
ghost use Rattle.std.specs.Prelude.{IfErr, OnOk};
ghost use Rattle.fv_base.specs.declared.fault.Fault.{Fault};
ghost use Rattle.fv_file.specs.Cells.{CellForm, Tiles};
ghost use Rattle.fv_file.specs.FileChecks.{IsFirstCellFault};
ghost use Rattle.fv_file.specs.Unmarking.{unmarked, Unmarks};
ghost use Rattle.fv_file.specs.inner.CellVerdicts.{is_held};

use crate::cell_walk::{is_free, stride_at};
use crate::head::may_move;
use crate::offsets::{ATTRIBUTES_OFFSET, HEADER_SUM_OFFSET, STATE_OFFSET};
use crate::state::file_state;
use crate::unmark_check::verify_unmarked;
use fv_base::field::bytes_from;
use fv_base::{Fault, FaultKind, FileSystem, Polarity};

// The bit of a file's attributes that marks the file as fixed: `FFS_ATTRIB_FIXED`.
const FIXED: u8 = 0x04;

// Returns whether State, Type and Attributes of the header at the start of `rest` show a valid file
// that is not a pad and is fixed. Checks nothing.
fn is_held(rest: &[u8], polarity: Polarity) -> bool
    requires { 24 ≤ length rest.now }
    ensures { result ≡ is_held polarity rest.now }
{
    file_state(rest[STATE_OFFSET], polarity).is_some_and(|state| !may_move(rest, state))
}

// Takes the mark away from the file at the offset `at` of the body if the file is held. Header
// checksum and attributes have the same sum afterwards, so the header's checksum stays right.
fn unmark_at(body: &mut [u8], at: usize, polarity: Polarity)
    requires { at + 24 ≤ length body.old }
    ensures { body.new ≡ (if is_held polarity (drop at body.old) then unmarked at body.old else body.old) }
{
    if !is_held(bytes_from(body, at), polarity) {
        return;
    }
    let sum = body[at + HEADER_SUM_OFFSET].wrapping_add(FIXED);
    let attributes = body[at + ATTRIBUTES_OFFSET] - FIXED;
    body[at + HEADER_SUM_OFFSET] = sum;
    body[at + ATTRIBUTES_OFFSET] = attributes;
}

/// Takes the marks away from all fixed files of a volume's body, which begins at the offset `first`
/// of the volume, in bytes. For each such file, bit 0x04 of its attributes is cleared and 4 is
/// added to its header checksum (modulo 256), so no checksum becomes wrong. The fixed files include
/// files that are marked for update, whether or not they are superseded. Pads, dead cells (deleted
/// files, and files whose data are not valid), stubs, and files of volumes inside the body stay as
/// they are. Takes no memory. (PI specification, volume 3, section 3.2.3.1, `FFS_ATTRIB_FIXED`.)
///
/// # Errors
///
/// The fault of `verify_unmarked`. Nothing was changed in that case.
pub fn unmark_files(
    body: &mut [u8],
    first: u64,
    system: FileSystem,
    polarity: Polarity,
) -> Result<(), Fault>
    requires multiple { length body.old % 8 ≡ 0 }
    requires place { first + length body.old < 2 ^ 63 }

    // After Ok, the marks were taken away from some fixed files of the body, and nothing else was
    // changed. Cells tile the body, so none of its files is fixed.
    ensures tiled { OnOk result ((places : List ℕ) × Unmarks system polarity first places body.old body.new
        × ((cells : List CellForm) × Tiles system polarity first cells body.new)) }

    // After an error, nothing was changed. The fault is the first fault of a copy of the body from
    // which the marks of some fixed files were taken away. It is not Fixed.
    ensures kept { IfErr result (λ _. body.new ≡ body.old) }
    ensures first { IfErr result (λ f. (places : List ℕ) × (o : List ℕ) × Unmarks system polarity first places body.old o
        × IsFirstCellFault system polarity first o f × (f.kind ≢ FaultKind.Fixed)) }
{
    verify_unmarked(body, first, system, polarity)?;
    let mut at = 0;
    while !is_free(bytes_from(body, at), polarity) {
        unmark_at(body, at, polarity);
        at += stride_at(bytes_from(body, at), polarity);
    }
    Ok(())
}
