//! Checking whether the marks of fixed files can be taken away from a body, which stays as it is.

ghost use Rattle.std.specs.Prelude.{◌≡◌, ◌≢◌, ◌⊎◌, ◌+◌, ◌<◌, ◌≤◌, ◌%◌, ◌^◌, true, false, List, ℕ, length};
ghost use Rattle.std.specs.Prelude.{Ok, Err, IfOk, IfErr, OnOk};
ghost use Rattle.fv_base.specs.Words.{outer_fault};
ghost use Rattle.fv_file.specs.Cells.{CellForm, Tiles};
ghost use Rattle.fv_file.specs.CellForms.{cell_len};
ghost use Rattle.fv_file.specs.FileChecks.{IsFirstCellFault, file_header_len_at, file_size_at, has_file_sum};
ghost use Rattle.fv_file.specs.Unmarking.{Unmarks};
ghost use Rattle.fv_file.specs.inner.CellVerdicts.{cell_verdict};
ghost use Rattle.fv_file.specs.inner.MarkSteps.{OneMarkLess};

use crate::cell_walk::{cell_at, is_free, span_of};
use crate::head::{has_file_sum, size_at};
use crate::offsets::FILE_SUM_OFFSET;
use fv_base::field::{bytes_from, up_to_8};
use fv_base::{Fault, FaultKind, FileSystem, Polarity, check};

// Returns the size of the file at the start of `rest`, or FileSum if its file checksum is wrong.
// `rest` is at the offset `at` of the volume.
fn sound_size(rest: &[u8], at: u64) -> Result<u64, Fault>
    requires least { 24 ≤ length rest.now }
    requires header { file_header_len_at rest.now ≤ file_size_at rest.now }
    requires size { file_size_at rest.now ≤ length rest.now }
    requires place { at + length rest.now < 2 ^ 63 }
    ensures right { IfOk result (λ n. (n ≡ file_size_at rest.now) × (has_file_sum rest.now ≡ true)) }
    ensures wrong { IfErr result (λ f. (f ≡ outer_fault FaultKind.FileSum (at + 17)) × (has_file_sum rest.now ≡ false)) }
{
    let file_sum = at + FILE_SUM_OFFSET as u64;
    check(has_file_sum(rest), FaultKind::FileSum, file_sum)?;
    Ok(size_at(rest))
}

// Returns the length in bytes of the cell at the start of `rest`, including its filler, or the
// first fault there. `rest` is at the offset `at` of the volume, and does not begin with a free
// cell. A fixed file is read as if its mark had been taken away.
fn span_unmarked(rest: &[u8], at: u64, system: FileSystem, polarity: Polarity) -> Result<u64, Fault>
    requires place { at + length rest.now < 2 ^ 63 }
    requires multiple { length rest.now % 8 ≡ 0 }
    ensures found { IfOk result (λ n. (b : List ℕ) × OneMarkLess system polarity at rest.now b
        × ((c : CellForm) × (cell_verdict system polarity at b ≡ Ok c) × (n ≡ cell_len c)) × ((b ≡ rest.now) ⊎ (19 < n))) }
    ensures rejected { IfErr result (λ f. (b : List ℕ) × OneMarkLess system polarity at rest.now b
        × (cell_verdict system polarity at b ≡ Err f) × (f.kind ≢ FaultKind.Fixed)) }
{
    match cell_at(rest, at, system, polarity) {
        Ok(cell) => Ok(span_of(&cell)),
        Err(fault) => {
            if fault.kind == FaultKind::Fixed {
                let size = sound_size(rest, at)?;
                return Ok(up_to_8(size));
            }
            Err(fault)
        }
    }
}

/// Checks whether `unmark_files` can take the marks away from all fixed files of a volume's body,
/// which begins at the offset `first` of the volume, in bytes. Changes nothing. Takes no memory.
/// (PI specification, volume 3, section 3.2.3.1, `FFS_ATTRIB_FIXED`.)
///
/// # Errors
///
/// The first fault of a cell, as for `cells`, except Fixed.
pub fn verify_unmarked(
    body: &[u8],
    first: u64,
    system: FileSystem,
    polarity: Polarity,
) -> Result<(), Fault>
    requires multiple { length body.now % 8 ≡ 0 }
    requires place { first + length body.now < 2 ^ 63 }

    // Cells tile a copy of the body from which the marks of some fixed files were taken away.
    ensures tiled { OnOk result ((places : List ℕ) × (o : List ℕ) × Unmarks system polarity first places body.now o
        × ((cells : List CellForm) × Tiles system polarity first cells o)) }

    // The fault is the first fault of a copy of the body from which the marks of some fixed files
    // were taken away. It is not Fixed.
    ensures first { IfErr result (λ f. (places : List ℕ) × (o : List ℕ) × Unmarks system polarity first places body.now o
        × IsFirstCellFault system polarity first o f × (f.kind ≢ FaultKind.Fixed)) }
{
    let mut at = 0;
    while !is_free(bytes_from(body, at), polarity) {
        let rest = bytes_from(body, at);
        let span = span_unmarked(rest, first + at as u64, system, polarity)?;
        at += span as usize;
    }
    Ok(())
}
