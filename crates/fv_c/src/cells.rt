//! The cells of a volume's body, with their offsets: its valid files, pads, deleted files, unfinished
//! files and headers, and free bytes.

ghost use Rattle.std.specs.Prelude.{◌≡◌, ◌≢◌, ◌<◌, ◌≤◌, ◌%◌, ◌++◌, ℕ, List, length, drop, map, IfErr, IfOk};
ghost use Rattle.fv_base.specs.Words.{fault_number, out_of_memory};
ghost use Rattle.fv_base.specs.declared.fault.Fault.{Fault};
ghost use Rattle.fv_file.specs.Words.{attribute_bits, cell_form, CellForm, Dead, file_header_len, is_large};
ghost use Rattle.fv_file.specs.Words.{IsFirstCellFault, Tiles};
ghost use Rattle.fv_head.specs.declared.extent.Extent.{Extent};
ghost use Rattle.fv_tree.specs.Words.{BeginsTiled, NotTiled};
ghost use Rattle.fv_c.specs.ReportedCells.{of_bytes, of_file, reported_cell};
ghost use Rattle.fv_c.specs.Reports.{BeginsWithHeader, reported_fault, no_fault};

use crate::buffer::put_result;
use crate::reports::FvFault;
use crate::translate::Translate;
use fv_base::Fault;
use fv_file::offsets::{HEADER_LEN, LARGE_HEADER_LEN};
use fv_file::{Cell, CellWalk, FileAttributes, FileHead, FileState};
use fv_head::{Extent, verify_fv};
use std::alloc::Global;

/// A cell of a volume's body. The fields from `header_length` on are 0 in any cell that is neither
/// a valid file nor a pad. (PI specification, volume 3, sections 3.2.2 and 3.2.3.)
#[repr(C)]
#[derive(Clone, Copy)]
pub struct FvCell {
    /// The cell's offset in bytes from the volume's start.
    pub offset: u64,
    /// The cell's length in bytes. It includes the filler after a deleted or unfinished file, but
    /// not the filler after a valid file or a pad.
    pub length: u64,
    /// 1: a valid file; 2: a pad; 3: a file that was deleted; 4: a file whose data or header were
    /// never finished; 5: free bytes.
    pub kind: u32,
    /// The number of bytes of the header of a valid file or a pad, 24 or 32. The data follow it.
    pub header_length: u32,
    /// `Type` of a valid file or a pad.
    pub efi_type: u32,
    /// `Attributes` of a valid file or a pad.
    pub attributes: u32,
    /// `Name` of a valid file or a pad, as its 16 bytes in the volume.
    pub name: [u8; 16],
    /// Always 0.
    pub reserved: u64,
}

// Returns the length in bytes of the header of a file with these attributes.
fn header_length(attributes: FileAttributes) -> u32
    ensures { result ≡ file_header_len (is_large (attribute_bits attributes)) }
{
    if attributes.is_large() {
        LARGE_HEADER_LEN as u32
    } else {
        HEADER_LEN as u32
    }
}

// Returns the report for C of a valid file or a pad.
fn of_file(offset: u64, kind: u32, head: FileHead) -> FvCell
    ensures { result ≡ of_file offset kind head }
{
    FvCell {
        offset,
        length: head.size,
        kind,
        header_length: header_length(head.attributes),
        efi_type: u32::from(head.kind),
        attributes: u32::from(head.attributes.byte()),
        name: head.name.to_bytes(),
        reserved: 0,
    }
}

// Returns the report for C of a cell that is not a valid file or a pad.
fn of_bytes(offset: u64, kind: u32, length: u64) -> FvCell
    ensures { result ≡ of_bytes offset kind length }
{
    FvCell {
        offset,
        length,
        kind,
        header_length: 0,
        efi_type: 0,
        attributes: 0,
        name: [0; 16],
        reserved: 0,
    }
}

// Returns the number for a dead file, which depends on its state.
fn dead_number(state: FileState) -> u32
    ensures { (at len : ℕ) → reported_cell (Dead at len state) ≡ of_bytes at result len }
{
    match state {
        FileState::Deleted => 3,
        _ => 4,
    }
}

impl<'a> Translate for Cell<'a> {
    type Target = FvCell;

    ghost translated = { λ c. reported_cell (cell_form c) };

    fn translate(&self) -> FvCell {
        match *self {
            Cell::Valid { offset, head, .. } => of_file(offset, 1, head),
            Cell::Pad { offset, head, .. } => of_file(offset, 2, head),
            Cell::Dead { offset, len, state } => of_bytes(offset, dead_number(state), len),
            Cell::Stub { offset, len } => of_bytes(offset, 4, len),
            Cell::Free { offset, len } => of_bytes(offset, 5, len),
        }
    }
}

// Returns the reports for C of the cells in the body of a volume of this extent, in order.
fn rows_in_body(alloc: Global, volume: &[u8], extent: &Extent) -> Result<Vec<FvCell>, Fault>
    requires multiple { length volume.now % 8 ≡ 0 }
    requires first_multiple { extent.now.first % 8 ≡ 0 }
    requires within { extent.now.first ≤ length volume.now }
    ensures found { IfOk result (λ rows. (cs : List CellForm)
        × Tiles extent.now.file_system extent.now.polarity extent.now.first cs (drop extent.now.first volume.now)
        × (rows.items ≡ map reported_cell cs)) }
    ensures first { IfErr result (λ f. f ≢ out_of_memory → IsFirstCellFault extent.now.file_system
        extent.now.polarity extent.now.first (drop extent.now.first volume.now) f) }
{
    let mut walk = CellWalk::of(volume, extent.first, extent.file_system, extent.polarity);
    let mut rows = Vec::with_capacity(alloc, walk.cell_count())?;
    while let Some(cell) = walk.next_cell()? {
        rows.push(cell.translate())?;
    }
    Ok(rows)
}

// Returns the reports for C of the cells of the volume with which the bytes begin.
#[tactic(auto, using(fv_tree::proofs::Laws::bad_header))]
fn cell_rows(alloc: Global, bytes: &[u8]) -> Result<Vec<FvCell>, Fault>
    ensures ok { IfOk result (λ rows. (e : Extent) × (cs : List CellForm) × BeginsTiled e cs bytes.now
        × (rows.items ≡ map reported_cell cs)) }
    ensures err { IfErr result (λ f. f ≢ out_of_memory → NotTiled bytes.now f) }
    ensures memory { IfErr result (λ f. f ≡ out_of_memory → BeginsWithHeader bytes.now) }
{
    let extent = verify_fv(bytes)?;
    let volume = &bytes[..extent.length as usize];
    let rows = rows_in_body(alloc, volume, &extent)?;
    Ok(rows)
}

/// Writes the cells of the volume with which the bytes begin, in order, at the start of the buffer
/// `rows`. `count` is their number. Returns 0. Sections, duplicate names and the volume top file
/// are not checked. (PI specification, volume 3, sections 3.2.2 and 3.2.3.)
///
/// # Errors
///
/// 256 if the buffer has fewer elements than `count`. The number of the first fault, which is in
/// `fault`: a fault of `verify_fv`, then a fault of `cells`; 24 if memory runs out. `count` is
/// unchanged then. The buffer is unchanged in both cases.
#[unsafe(no_mangle)]
pub extern "C" fn fvp_volume_cells(
    alloc: Global,
    volume: &[u8],
    rows: &mut [FvCell],
    count: &mut u64,
    fault: &mut FvFault,
) -> u32
    // The buffer begins with the cells, and is unchanged after them.
    ensures ok { result ≡ 0 → (e : Extent) × (cs : List CellForm) × BeginsTiled e cs volume.now
        × (count.new ≡ length cs) × (rows.new ≡ map reported_cell cs ++ drop (length cs) rows.old)
        × (fault.new ≡ no_fault) }

    ensures kept { result ≢ 0 → rows.new ≡ rows.old }
    ensures small { result ≡ 256 → (e : Extent) × (cs : List CellForm) × BeginsTiled e cs volume.now
        × (count.new ≡ length cs) × (length rows.old < length cs) × (fault.new ≡ no_fault) }

    // Any other result is the first fault of the header or of the cells, or out of memory. Memory
    // can run out only if the bytes begin with the header of a volume.
    ensures err { result ≢ 0 → result ≢ 256 → (f : Fault) × (f ≢ out_of_memory → NotTiled volume.now f)
        × (f ≡ out_of_memory → BeginsWithHeader volume.now)
        × (result ≡ fault_number f.kind) × (fault.new ≡ reported_fault f) × (count.new ≡ count.old) }
{
    put_result(cell_rows(alloc, volume), rows, count, fault)
}
