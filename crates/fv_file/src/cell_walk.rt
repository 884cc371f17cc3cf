//! Splits the body of a volume into cells.

ghost use Rattle.std.specs.Prelude.{◌≡◌, ◌≢◌, ℕ, ◌+◌, ◌*◌, ◌<◌, ◌≤◌, ◌%◌, ◌^◌, if◌then◌else◌, false, List, [], ◌∷◌, ◌++◌, length, drop};
ghost use Rattle.std.specs.Prelude.{Ok, Err, IfOk, IfErr, IfSome, IfNone};
ghost use Rattle.fv_base.specs.Words.{all_are, outer_fault, out_of_memory, erased_byte};
ghost use Rattle.fv_file.specs.Cells.{CellForm, IsCell, Tiles, is_free};
ghost use Rattle.fv_file.specs.CellForms.{CellsWithin, cell_len, cell_form};
ghost use Rattle.fv_file.specs.CellWalks.{IsNextFault, TileLeft, Walked, left_at};
ghost use Rattle.fv_file.specs.FileChecks.{IsFirstCellFault, leading_count};
ghost use Rattle.fv_file.specs.States.{is_alive};
ghost use Rattle.fv_file.specs.inner.CellVerdicts.{cell_of, cell_verdict, is_unfinished};
ghost use Rattle.fv_file.specs.inner.CellVerdicts as sorts;

use crate::cell::Cell;
use crate::cell_list::Cells;
use crate::file_type::FFS_PAD;
use crate::head::{FileHead, file_at, header_len_at, size_at};
use crate::leading::leading_count;
use crate::offsets::{HEADER_LEN, SIZE_OFFSET, STATE_OFFSET};
use crate::state::{FileState, file_state};
use fv_base::field::{bytes_from, up_to_8};
use fv_base::{Fault, FaultKind, FileSystem, Polarity, all_are, check};
use std::alloc::Global;
use std::marker::Model;

// Returns whether all bytes of `rest`, the part of the body that is left, are erased. They are not
// if there are 24 bytes and State is not erased, so `all_are` is not called then. Wherever it is
// called, the walk ends: `rest` is a free cell or no bytes, or `cell_at` rejects the body. So a walk
// calls `all_are` at most once.
pub(crate) fn is_free(rest: &[u8], polarity: Polarity) -> bool
    ensures { result ≡ all_are (erased_byte polarity) rest.now }
{
    let erased = polarity.erased();
    (rest.len() < HEADER_LEN || rest[STATE_OFFSET] == erased) && all_are(rest, erased)
}

// Returns the fault of bytes that do not begin with a cell and are not all erased: FreeSpace at the
// first byte that is not erased.
fn stray(rest: &[u8], at: u64, polarity: Polarity) -> Fault
    requires { at + length rest.now < 2 ^ 63 }
    ensures { result ≡ outer_fault FaultKind.FreeSpace (at + leading_count (erased_byte polarity) rest.now) }
{
    Fault::outer(
        FaultKind::FreeSpace,
        at + leading_count(rest, polarity.erased()) as u64,
    )
}

// Returns the cell of a file: a dead cell if the file is not valid, otherwise a pad or a valid
// file.
fn file_cell(offset: u64, head: FileHead, payload: &[u8]) -> Cell<'_>
    requires { head.size + 7 < 2 ^ 64 }
    ensures { cell_form result ≡ cell_of (if is_alive head.state then sorts.Valid else sorts.Dead) offset head payload.now }
{
    if !head.state.is_alive() {
        Cell::Dead {
            offset,
            len: up_to_8(head.size),
            state: head.state,
        }
    } else if head.kind == FFS_PAD {
        Cell::Pad {
            offset,
            head,
            payload,
        }
    } else {
        Cell::Valid {
            offset,
            head,
            payload,
        }
    }
}

// Returns the cell at the start of `rest`, or its first fault. `rest` is at the offset `at` of the
// volume, and is not a free cell.
#[inline(always)]
pub(crate) fn cell_at<'a>(
    rest: &'a [u8],
    at: u64,
    system: FileSystem,
    polarity: Polarity,
) -> Result<Cell<'a>, Fault>
    requires place { at + length rest.now < 2 ^ 63 }
    ensures found { IfOk result (λ c. cell_verdict system polarity at rest.now ≡ Ok (cell_form c)) }
    ensures rejected { IfErr result (λ f. cell_verdict system polarity at rest.now ≡ Err f) }
{
    if rest.len() < HEADER_LEN {
        return Err(stray(rest, at, polarity));
    }
    let Some(state) = file_state(rest[STATE_OFFSET], polarity) else {
        return Err(Fault::outer(FaultKind::FileState, at + STATE_OFFSET as u64));
    };
    match state {
        FileState::Free => Err(stray(rest, at, polarity)),
        FileState::Construction | FileState::HeaderInvalid => {
            let len = header_len_at(rest);
            let size = at + SIZE_OFFSET as u64;
            check(len <= rest.len(), FaultKind::FileSize, size)?;
            Ok(Cell::Stub {
                offset: at,
                len: len as u64,
            })
        }
        FileState::HeaderValid | FileState::DataValid | FileState::Marked | FileState::Deleted => {
            let head = file_at(rest, at, system, state)?;
            let payload = &rest[head.header_len as usize..head.size as usize];
            Ok(file_cell(at, head, payload))
        }
    }
}

/// Returns the length of a cell in bytes, including its filler. (PI specification, volume 3, section
/// 3.2.3.)
pub fn span_of(cell: &Cell) -> u64
    requires { cell_len (cell_form cell.now) < 2 ^ 64 }
    ensures { result ≡ cell_len (cell_form cell.now) }
{
    match cell {
        Cell::Valid { head, .. } | Cell::Pad { head, .. } => up_to_8(head.size),
        Cell::Dead { len, .. } | Cell::Stub { len, .. } | Cell::Free { len, .. } => *len,
    }
}

// Returns whether this is the state of a stub: of a header under construction, or of an invalid
// header. Returns false if there is no state.
fn is_unfinished(state: Option<FileState>) -> bool
    ensures { result ≡ is_unfinished state }
{
    matches!(
        state,
        Some(FileState::Construction | FileState::HeaderInvalid)
    )
}

// Returns the number of bytes from the start of `rest`, where a header begins, to the next cell.
// Checks nothing. If a cell that is not free begins there, the result is its length.
pub(crate) fn stride_at(rest: &[u8], polarity: Polarity) -> usize
    requires { 24 ≤ length rest.now }
    ensures least { 24 ≤ result }
    ensures within { result ≤ length rest.now }

    // If a cell that is not free begins at the start of `rest`, the result is its length.
    ensures cell { (system : FileSystem) (c : CellForm) (x after : List ℕ) → rest.now ≡ x ++ after → IsCell system polarity c x
        → is_free c ≡ false → result ≡ length x }
{
    let header = header_len_at(rest);
    if rest.len() < header {
        return rest.len();
    }
    if is_unfinished(file_state(rest[STATE_OFFSET], polarity)) {
        return header;
    }
    let size = size_at(rest).min(rest.len() as u64);
    (up_to_8(size) as usize).clamp(header, rest.len())
}

// Returns how many cells a body has, so that room for all of them is allocated at once.
fn cell_count(body: &[u8], polarity: Polarity) -> usize
    // If cells tile the body, the result is the number of these cells.
    ensures cells { (system : FileSystem) (first : ℕ) (cs : List CellForm) → Tiles system polarity first cs body.now
        → result ≡ length cs }

    // In any case the result is at most the length of the body divided by 24, rounded up.
    ensures most { 24 * result ≤ length body.now + 23 }
{
    let mut rest = body;
    let mut count = 0;
    while rest.len() >= HEADER_LEN && rest[STATE_OFFSET] != polarity.erased() {
        rest = bytes_from(rest, stride_at(rest, polarity));
        count += 1;
    }
    count + usize::from(!rest.is_empty())
}

// Returns the cell at the start of `rest`, or its first fault. `rest` is at the offset `at` of the
// volume, and is not empty.
#[inline(always)]
fn first_cell<'a>(
    rest: &'a [u8],
    at: u64,
    system: FileSystem,
    polarity: Polarity,
) -> Result<Cell<'a>, Fault>
    requires place { at + length rest.now < 2 ^ 63 }
    requires multiple { length rest.now % 8 ≡ 0 }
    requires some { 0 < length rest.now }
    ensures found { IfOk result (λ c. Walked (left_at system polarity at rest.now) (cell_form c ∷ [])
        (left_at system polarity (at + cell_len (cell_form c)) (drop (cell_len (cell_form c)) rest.now))) }
    ensures multiple { IfOk result (λ c. cell_len (cell_form c) % 8 ≡ 0) }
    ensures first { IfErr result (IsNextFault (left_at system polarity at rest.now)) }
{
    if is_free(rest, polarity) {
        return Ok(Cell::Free {
            offset: at,
            len: rest.len() as u64,
        });
    }
    cell_at(rest, at, system, polarity)
}

/// A walk over the cells of a volume's body, which reads one cell after another. Contracts see it as
/// the part of the body that it has not passed. (PI specification, volume 3, sections 3.2.2 and
/// 3.2.3.)
#[derive(Drop)]
pub struct CellWalk<'a> {
    rest: &'a [u8],
    at: u64,
    system: FileSystem,
    polarity: Polarity,
}

impl<'a> Model for CellWalk<'a> {
    ghost use Rattle.std.specs.Prelude.{◌≡◌, ◌+◌, ◌%◌, ◌<◌, ◌^◌, length};
    ghost use Rattle.fv_file.specs.CellWalks.{CellsLeft, left_at};

    ghost Value = { CellsLeft };

    ghost view = { λ w. left_at w.system w.polarity w.at w.rest.now };

    ghost invariant = { λ w. (length w.rest.now % 8 ≡ 0) × (w.at + length w.rest.now < 2 ^ 63) };
}

impl<'a> CellWalk<'a> {
    /// Starts a walk over the cells of the body of a volume. `volume` is exactly the bytes of the
    /// volume. The body begins at the offset `first`, which is at most the volume's length. Both
    /// `first` and that length are multiples of 8. Takes no memory. (PI specification, volume 3,
    /// sections 3.2.2 and 3.2.3.)
    pub fn of(volume: &'a [u8], first: u64, system: FileSystem, polarity: Polarity) -> CellWalk<'a>
        requires multiple { length volume.now % 8 ≡ 0 }
        requires first_multiple { first % 8 ≡ 0 }
        requires within { first ≤ length volume.now }
        ensures { result ≡ left_at system polarity first (drop first volume.now) }
    {
        CellWalk {
            rest: bytes_from(volume, first as usize),
            at: first,
            system,
            polarity,
        }
    }

    /// Returns how many cells are left, so that room for all of them is allocated at once. Checks
    /// no cell, so the number is exact only if none of them has a fault. Takes no memory.
    pub fn cell_count(&self) -> usize
        // If cells tile the part that is left, the result is the number of these cells.
        ensures cells { (cs : List CellForm) → TileLeft cs self.now → result ≡ length cs }

        // In any case the result is at most the length of the part that is left, divided by 24 and
        // rounded up.
        ensures most { 24 * result ≤ length self.now.rest + 23 }
    {
        cell_count(self.rest, self.polarity)
    }

    /// Returns the next cell, or None after the last one. All offsets are in bytes from the
    /// volume's start. A file's payload is the bytes of the file after its header, in place in the
    /// volume. Takes no memory. (PI specification, volume 3, sections 3.2.2 and 3.2.3.)
    ///
    /// # Errors
    ///
    /// The fault of the next cell, which is checked in the order of `cells`. The walk stays before
    /// this cell.
    #[inline(always)]
    pub fn next_cell(&mut self) -> Result<Option<Cell<'a>>, Fault>
        // The walk passes the returned cell, and no other bytes.
        ensures some { IfOk result (λ o. IfSome o (λ c. Walked self.old (cell_form c ∷ []) self.new)) }

        // None is returned only if no bytes were left.
        ensures none { IfOk result (λ o. IfNone o ((self.old.rest ≡ []) × (self.new ≡ self.old))) }

        // An error is the fault of the first check of the next cell that does not hold.
        ensures first { IfErr result (λ f. IsNextFault self.old f × (self.new ≡ self.old)) }
    {
        if self.rest.is_empty() {
            return Ok(None);
        }
        let cell = first_cell(self.rest, self.at, self.system, self.polarity)?;
        let len = span_of(&cell);
        self.rest = bytes_from(self.rest, len as usize);
        self.at += len;
        Ok(Some(cell))
    }
}

// Returns the cells that a walk has not passed.
fn cells_in<'a>(alloc: Global, walk: CellWalk<'a>) -> Result<Cells<'a>, Fault>
    ensures found { IfOk result (λ cs. TileLeft cs walk.entry) }
    ensures first { IfErr result (λ f. f ≢ out_of_memory
        → IsFirstCellFault walk.entry.system walk.entry.polarity walk.entry.at walk.entry.rest f) }
    ensures bound { IfErr result (λ f. f.place.offset ≤ walk.entry.at + length walk.entry.rest) }
    ensures some { IfErr result (λ _. 0 < length walk.entry.rest) }
{
    let mut walk = walk;
    let mut list = Vec::with_capacity(alloc, walk.cell_count())?;
    while let Some(cell) = walk.next_cell()? {
        list.push(cell)?;
    }
    Ok(Cells::from_vec(list))
}

/// Returns the cells of the body of a volume. `volume` is exactly the bytes of the volume. The body
/// begins at the offset `first`, which is at most the volume's length. Both `first` and that length
/// are multiples of 8. At most one list of cells tiles a body. All offsets are in bytes from the
/// volume's start. A file's payload is the bytes of the file after its header, in place in
/// `volume`. (PI specification, volume 3, sections 3.2.2 and 3.2.3.)
///
/// # Errors
///
/// The fault of the first cell that has a fault. A cell is checked in this order: FreeSpace,
/// FileState; then for a stub FileSize, and for any other cell LargeFile, FileSize if a large
/// header is cut short, FileHeaderSum, FileSize; and last, for a valid file that is not a pad,
/// Fixed, FileSum. OutOfMemory at offset 0.
pub fn cells(
    alloc: Global,
    volume: &[u8],
    first: u64,
    system: FileSystem,
    polarity: Polarity,
) -> Result<Cells<'_>, Fault>
    requires multiple { length volume.now % 8 ≡ 0 }
    requires first_multiple { first % 8 ≡ 0 }
    requires within { first ≤ length volume.now }

    // The returned cells tile the body.
    ensures found { IfOk result (λ cs. Tiles system polarity first cs (drop first volume.now)) }

    // No other list of cells tiles the body.
    ensures only { IfOk result
        (λ cs. (ds : List CellForm) → Tiles system polarity first ds (drop first volume.now) → ds ≡ cs) }

    // If the error is not OutOfMemory, no list of cells tiles the body.
    ensures none { IfErr result
        (λ f. f ≢ out_of_memory → (ds : List CellForm) → Tiles system polarity first ds (drop first volume.now) → ⊥) }

    // An error other than OutOfMemory is the fault of the first check that does not hold at the
    // first offset where no cell begins.
    ensures first { IfErr result
        (λ f. f ≢ out_of_memory → IsFirstCellFault system polarity first (drop first volume.now) f) }

    // Each cell lies within the volume. The offset of an error lies within it or at its end.
    ensures lies { IfOk result (CellsWithin (length volume.now)) }
    ensures bound { IfErr result (λ f. f.place.offset ≤ length volume.now) }

    // An empty body is never rejected, not even because memory runs out.
    ensures some { IfErr result (λ _. first < length volume.now) }
{
    cells_in(alloc, CellWalk::of(volume, first, system, polarity))
}
