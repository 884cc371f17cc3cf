//! The command `cells`: a line for the header of a volume, a line for each cell, and a last line
//! with the sums of the cells' lengths.

ghost use Rattle.std.specs.Prelude.{◌≡◌, ◌≤◌, ◌+◌, ◌-◌, ◌<◌, ◌^◌, ◌++◌, length, map, ℕ, List, codes, IfErr, OnErr, OnOk};
ghost use Rattle.std.specs.List.{flat_map, sum_by};
ghost use Rattle.fv_base.specs.Words.{up_to_8, OrMemory, out_of_memory};
ghost use Rattle.fv_file.specs.Words.{Dead, Valid, cell_form, cell_len};
ghost use Rattle.fv_head.specs.Words.{BeginsWithHeader};
ghost use Rattle.fv_lines.specs.CellTexts.{CellsText, cell_line, span_line, span_text, sums_line, sums_of};
ghost use Rattle.fv_lines.specs.inner.LineRuns.{CellFits, FitTogether, counted, sums_with};
ghost use Rattle.fv_tree.specs.Words.{NotTiled};

use fv_base::field::up_to_8;
use fv_base::{Fault, Sink};
use fv_file::{Cell, FileHead, FileState};
use fv_text::{put_decimal, put_two_digits};
use fv_tree::volume_cells;
use std::alloc::Global;

/// The number of bytes in the cells of a volume, by kind.
#[derive(Clone, Copy)]
pub struct LengthSums {
    /// Bytes of valid files, without their fillers.
    pub files: u64,
    /// Bytes of pads, without their fillers.
    pub pads: u64,
    /// Bytes of files that were deleted or never finished, with their fillers.
    pub deleted: u64,
    /// Bytes of the fillers after files and pads.
    pub filler: u64,
    /// Bytes of the free space at the end.
    pub free: u64,
}

// Puts the name of a part and where it lies: its offset and its length in bytes.
fn put_span<S: Sink>(out: &mut S, name: &[u8], offset: u64, length: u64)
    ensures { S.takes out.old (span_text name.now offset length) out.new }
{
    out.put(name);
    out.put(b" at ");
    put_decimal(out, offset);
    out.put(b" length ");
    put_decimal(out, length);
}

// Puts a line with only the name of a part and where it lies.
fn put_span_line<S: Sink>(out: &mut S, name: &[u8], offset: u64, length: u64)
    ensures { S.takes out.old (span_line name.now offset length) out.new }
{
    put_span(out, name, offset, length);
    out.put(b"\n");
}

// Puts the line of a valid file. The length of the file in this line includes its filler.
fn put_file<S: Sink>(out: &mut S, offset: u64, head: &FileHead, payload: &[u8])
    requires within { offset + up_to_8 head.now.size < 2 ^ 63 }
    requires header { head.now.header_len ≤ head.now.size }
    ensures { S.takes out.old (cell_line (Valid offset head.now payload.now)) out.new }
{
    put_span(out, b"file", offset, up_to_8(head.size));
    out.put(b" ");
    out.put(&head.name.text());
    out.put(b" type ");
    put_two_digits(out, head.kind);
    out.put(b" attributes ");
    put_two_digits(out, head.attributes.byte());
    put_span(
        out,
        b" data",
        offset + head.header_len,
        payload.len() as u64,
    );
    out.put(b"\n");
}

// Returns the word for a file that is not valid, by its state.
fn dead_name(state: FileState) -> &'static [u8]
    ensures { (at n : ℕ) → cell_line (Dead at n state) ≡ span_line result.now at n }
{
    match state {
        FileState::Deleted => b"deleted",
        _ => b"unfinished",
    }
}

// Puts the line of a cell.
fn put_cell<S: Sink>(out: &mut S, cell: &Cell<'_>)
    requires { CellFits (cell_form cell.now) }
    ensures { S.takes out.old (cell_line (cell_form cell.now)) out.new }
{
    match *cell {
        Cell::Valid {
            offset,
            head,
            payload,
        } => put_file(out, offset, &head, payload),
        Cell::Pad { offset, head, .. } => put_span_line(out, b"pad", offset, up_to_8(head.size)),
        Cell::Dead { offset, len, state } => put_span_line(out, dead_name(state), offset, len),
        Cell::Stub { offset, len } => put_span_line(out, b"unfinished", offset, len),
        Cell::Free { offset, len } => put_span_line(out, b"free", offset, len),
    }
}

// Puts the lines of the cells, in order.
fn put_list<S: Sink>(out: &mut S, list: &[Cell<'_>])
    requires { FitTogether (map cell_form list.now) }
    ensures { S.takes out.old (flat_map cell_line (map cell_form list.now)) out.new }
{
    for cell in list {
        put_cell(out, cell);
    }
}

// Returns the number of filler bytes after a file or pad of this size: up to the next multiple of
// 8.
fn filler_of(size: u64) -> u64
    requires { size + 7 < 2 ^ 64 }
    ensures { result ≡ up_to_8 size - size }
{
    up_to_8(size) - size
}

// Returns the sums after one more cell has been added.
fn with_cell(sums: LengthSums, cell: &Cell<'_>) -> LengthSums
    requires { counted sums + cell_len (cell_form cell.now) < 2 ^ 63 }
    ensures { result ≡ sums_with sums (cell_form cell.now) }
{
    let mut more = sums;
    match *cell {
        Cell::Valid { head, .. } => {
            more.files += head.size;
            more.filler += filler_of(head.size);
        }
        Cell::Pad { head, .. } => {
            more.pads += head.size;
            more.filler += filler_of(head.size);
        }
        Cell::Dead { len, .. } | Cell::Stub { len, .. } => more.deleted += len,
        Cell::Free { len, .. } => more.free += len,
    }
    more
}

// Returns the sums over all cells.
fn sums_of(list: &[Cell<'_>]) -> LengthSums
    requires { sum_by cell_len (map cell_form list.now) < 2 ^ 63 }
    ensures { result ≡ sums_of (map cell_form list.now) }
{
    let mut sums = LengthSums {
        files: 0,
        pads: 0,
        deleted: 0,
        filler: 0,
        free: 0,
    };
    for cell in list {
        sums = with_cell(sums, cell);
    }
    sums
}

// Puts the last line, which shows the sums.
fn put_sums<S: Sink>(out: &mut S, sums: LengthSums)
    ensures { S.takes out.old (sums_line sums) out.new }
{
    out.put(b"sums files ");
    put_decimal(out, sums.files);
    out.put(b" pads ");
    put_decimal(out, sums.pads);
    out.put(b" deleted ");
    put_decimal(out, sums.deleted);
    out.put(b" filler ");
    put_decimal(out, sums.filler);
    out.put(b" free ");
    put_decimal(out, sums.free);
    out.put(b"\n");
}

// Puts a line for the header of a volume, a line for each cell, and a line with the sums of the
// cells' lengths. The line for the header covers all bytes before the body, up to the offset
// `first`, so also an extended header. The cells must fit into a volume.
fn put_cell_lines<S: Sink>(out: &mut S, first: u64, list: &[Cell<'_>])
    requires { FitTogether (map cell_form list.now) }
    ensures { S.takes out.old (span_line (codes "header") 0 first ++ (flat_map cell_line (map cell_form list.now)
        ++ sums_line (sums_of (map cell_form list.now)))) out.new }
{
    put_span_line(out, b"header", 0, first);
    put_list(out, list);
    put_sums(out, sums_of(list));
}

/// Puts where each part of the volume at the start of the input lies: a line for its header, a line
/// for each cell, and a last line with the sums of the cells' lengths. Nothing is put before all
/// cells have been read.
///
/// # Errors
///
/// As for `fv_tree::volume_cells`. Nothing has been put in that case.
pub fn put_cells<S: Sink>(alloc: Global, input: &[u8], out: &mut S) -> Result<(), Fault>
    // The sink has taken the text of `cells` for this input.
    ensures ok { OnOk result ((text : List ℕ) × CellsText input.now text × S.takes out.old text out.new) }

    // Any error except OutOfMemory is the first fault of the header or of a cell.
    ensures err { IfErr result (OrMemory (NotTiled input.now)) }

    // Memory runs out only if the input begins with a volume header.
    ensures memory { IfErr result (λ f. f ≡ out_of_memory → BeginsWithHeader input.now) }

    // After an error the sink is unchanged.
    ensures untouched { OnErr result (out.new ≡ out.old) }
{
    let (extent, list) = volume_cells(alloc, input)?;
    put_cell_lines(out, extent.first, list.as_slice());
    Ok(())
}
