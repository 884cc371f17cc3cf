//! Taking the marks away from the fixed files of one volume.

ghost use Rattle.std.specs.Prelude.{◌≡◌, ◌+◌, ◌<◌, ◌≤◌, ◌%◌, ◌^◌, [], length, drop, slice_index, IfOk, IfErr, IfSome, IfNone};
ghost use Rattle.fv_file.specs.Words.{unmarked};
ghost use Rattle.fv_marks.specs.LostMarks.{LosesOwn};
ghost use Rattle.fv_marks.specs.inner.MarkSteps.{BodyUnmarked, CellOf, MarkLost, NextFaultAt, WalkEnds};

use fv_base::{Fault, FaultKind, FileSystem, Polarity};
use fv_file::{CellWalk, span_of};
use fv_head::verify_fv;

// The bit of a file's attributes that marks the file as fixed: `FFS_ATTRIB_FIXED`.
const FIXED: u8 = 0x04;

// The offsets of `IntegrityCheck.Checksum.Header` and of `Attributes` in a file's header.
const HEADER_SUM_OFFSET: usize = 16;

const ATTRIBUTES_OFFSET: usize = 19;

// Returns the length of the cell at the offset `at`, including its filler, None at the end of the
// volume, or the fault of this cell. `volume` is exactly the bytes of a volume.
fn span_at(
    volume: &[u8],
    at: u64,
    system: FileSystem,
    polarity: Polarity,
) -> Result<Option<u64>, Fault>
    requires multiple { length volume.now % 8 ≡ 0 }
    requires at_multiple { at % 8 ≡ 0 }
    requires within { at ≤ length volume.now }
    ensures some { IfOk result (λ o. IfSome o (λ n. CellOf system polarity at n volume.now × (n % 8 ≡ 0))) }
    ensures none { IfOk result (λ o. IfNone o (drop at volume.now ≡ [])) }
    ensures fault { IfErr result (NextFaultAt system polarity at volume.now) }
{
    let mut walk = CellWalk::of(volume, at, system, polarity);
    match walk.next_cell() {
        Ok(Some(cell)) => Ok(Some(span_of(&cell))),
        Ok(None) => Ok(None),
        Err(fault) => Err(fault),
    }
}

// Takes the mark away from the fixed file at the offset `at`. Header checksum and attributes have
// the same sum afterwards.
fn unmark_at(volume: &mut [u8], at: usize)
    requires within { at + 24 ≤ length volume.old }
    requires fixed { 4 ≤ slice_index volume.old (at + 19) }
    ensures { volume.new ≡ unmarked at volume.old }
{
    let sum = volume[at + HEADER_SUM_OFFSET].wrapping_add(FIXED);
    let attributes = volume[at + ATTRIBUTES_OFFSET] - FIXED;
    volume[at + HEADER_SUM_OFFSET] = sum;
    volume[at + ATTRIBUTES_OFFSET] = attributes;
}

// Takes the mark away from the file at the offset `at` if it is fixed. Then returns the length of
// the cell there, including its filler, or None if the volume ends or the cell has a fault.
fn span_unmarked(volume: &mut [u8], at: u64, system: FileSystem, polarity: Polarity) -> Option<u64>
    requires multiple { length volume.old % 8 ≡ 0 }
    requires at_multiple { at % 8 ≡ 0 }
    requires within { at ≤ length volume.old }
    ensures mark { MarkLost system polarity at volume.old volume.new }
    ensures some { IfSome result (λ n. CellOf system polarity at n volume.new × (n % 8 ≡ 0)) }
    ensures none { IfNone result (WalkEnds system polarity at volume.new) }
{
    match span_at(volume, at, system, polarity) {
        Ok(span) => span,
        Err(fault) => {
            if fault.kind == FaultKind::Fixed {
                unmark_at(volume, at as usize);
                return match span_at(volume, at, system, polarity) {
                    Ok(span) => span,
                    Err(_) => None,
                };
            }
            None
        }
    }
}

// Takes the marks away from the fixed files in the body of a volume, in order, up to the first cell
// with another fault. `volume` is exactly the bytes of the volume, and its body begins at the
// offset `first`.
fn unmark_body(volume: &mut [u8], first: u64, system: FileSystem, polarity: Polarity)
    requires multiple { length volume.old % 8 ≡ 0 }
    requires first_multiple { first % 8 ≡ 0 }
    requires within { first ≤ length volume.old }
    ensures { BodyUnmarked system polarity first volume.old volume.new }
{
    let mut at = first;
    while let Some(span) = span_unmarked(volume, at, system, polarity) {
        at += span;
    }
}

// Takes the marks away from the fixed files of the volume at the start of the bytes, in order, up
// to the first cell with another fault. The bytes inside the files stay as they are. If the bytes
// do not begin with the header of a volume, they stay as they are.
pub(crate) fn take_own_marks(bytes: &mut [u8])
    ensures { LosesOwn bytes.old bytes.new }
{
    if let Ok(extent) = verify_fv(bytes) {
        let volume = &mut bytes[..extent.length as usize];
        unmark_body(volume, extent.first, extent.file_system, extent.polarity);
    }
}
