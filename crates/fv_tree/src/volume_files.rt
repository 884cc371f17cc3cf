//! The files of a volume: which of the valid files in its body are part of it.

ghost use Rattle.std.specs.Prelude.{◌≡◌, ◌≢◌, ◌≤◌, ◌<◌, ◌%◌, ◌^◌, ◌==◌, ◌&&◌, ◌||◌, ℕ, not, List, [], ◌∷◌, drop, map};
ghost use Rattle.std.specs.Prelude.{length as length_of, IfOk, IfErr, OnOk, IfSome, IfNone};
ghost use Rattle.fv_base.specs.Words.{First, outer_fault, out_of_memory, volume_limit};
ghost use Rattle.fv_tree.specs.FirstFault.{HasTwin, TopElsewhere, NamesFault};
ghost use Rattle.fv_tree.specs.VolumeFiles.{FileForm, TopAtEnd, AreCurrent, files_in, current_in, is_top, end_of};
ghost use Rattle.fv_tree.specs.inner.NameForms.{named_file};
ghost use Rattle.fv_names.specs.Words.{NoTwins, is_twin, names_in, IsIndex, entries_of};
ghost use Rattle.fv_tree.specs.LocatedFiles.{bare_form, file_form};
ghost use Rattle.fv_tree.specs.inner.ReadingParts.{IsSmallCell, bare};
ghost use Rattle.fv_file.specs.Words as cellular;
ghost use Rattle.fv_file.specs.Words.{CellForm, Tiles, IsFirstCellFault};

use fv_base::{Fault, FaultKind, Guid, check};
use fv_file::offsets::{HEADER_LEN, LARGE_HEADER_LEN};
use fv_file::{Cell, CellWalk, FileAttributes, FileState};
use fv_head::Extent;
use fv_names::{NameIndex, Named};
use std::alloc::Global;
use std::mem::size_of;

/// The bytes of the name of the volume top file, `EFI_FFS_VOLUME_TOP_FILE_GUID`,
/// 1ba0062e-c779-4582-8566-336ae8f78f09. (PI specification, volume 3, section 3.2.1.3.)
pub const VOLUME_TOP_FILE: [u8; 16] = [
    0x2e, 0x06, 0xa0, 0x1b, 0x79, 0xc7, 0x82, 0x45, 0x85, 0x66, 0x33, 0x6a, 0xe8, 0xf7, 0x8f, 0x09,
];

/// A valid file as it is stored in its volume. A volume can consist of little more than headers of
/// files, so a value of this type is small: the data, the length of the header, the size and the
/// file checksum are not kept. The data are in the volume, and the others follow from the
/// attributes and the data. (PI specification, volume 3, section 3.2.3.)
#[derive(Clone, Copy)]
pub struct LocatedFile {
    /// The name of the file, `Name`.
    pub name: Guid,
    /// The offset of the header, in bytes from the volume's start.
    pub offset: u32,
    /// The number of bytes of the data, which follow the header.
    pub len: u32,
    /// The type of the file, `Type`.
    pub kind: u8,
    /// The attribute bits of the file, `Attributes`.
    pub attributes: FileAttributes,
    /// The header checksum. No call reads it, but clauses mention it.
    pub(crate) header_sum: u8,
    /// The state of the file, which says whether the file is marked for update.
    pub(crate) state: FileState,
}

impl LocatedFile {
    /// Returns the length of the file's header in bytes, 24 or 32. (PI specification, volume 3,
    /// section 3.2.3.1.)
    pub fn header_len(&self) -> u64
        ensures is { result ≡ (bare_form self.now).head.header_len }
        ensures most { result ≤ 32 }
    {
        if self.attributes.is_large() {
            LARGE_HEADER_LEN as u64
        } else {
            HEADER_LEN as u64
        }
    }

    /// Returns the bytes of `volume` at the place of the file's data. They are the file's data if
    /// `volume` begins with the volume that the file was read from. If `volume` ends too early,
    /// fewer bytes are returned, or none.
    pub fn payload<'a>(&self, volume: &'a [u8]) -> &'a [u8]
        ensures { result.now ≡ (file_form volume.now self.now).payload }
    {
        let start = self.offset as usize + self.header_len() as usize;
        let start = start.min(volume.len());
        let len = (self.len as usize).min(volume.len() - start);
        &volume[start..start + len]
    }
}

// A file takes at least 24 bytes of a volume, and a value of this type takes 28. So a list of the
// files takes at most 7/6 of the length of the volume.
const _: () = prove!(size_of::<LocatedFile>() == 28);

// Returns whether a file is a volume top file, by its name.
fn is_top(file: &LocatedFile) -> bool
    ensures { result ≡ is_top (bare_form file.now) }
{
    file.name.to_bytes()[..] == VOLUME_TOP_FILE[..]
}

// Returns the file of a `Valid` cell, or None for any other cell: pads and dead files are not files
// of a volume.
fn file_of(cell: &Cell) -> Option<LocatedFile>
    requires { IsSmallCell (cellular.cell_form cell.now) }
    ensures some { IfSome result (λ s. map bare (files_in (cellular.cell_form cell.now ∷ [])) ≡ bare_form s ∷ []) }
    ensures none { IfNone result (files_in (cellular.cell_form cell.now ∷ []) ≡ []) }
{
    match *cell {
        Cell::Valid {
            offset,
            head,
            payload,
        } => Some(LocatedFile {
            name: head.name,
            offset: offset as u32,
            len: payload.len() as u32,
            kind: head.kind,
            attributes: head.attributes,
            header_sum: head.header_sum,
            state: head.state,
        }),
        _ => None,
    }
}

// Returns the valid files in the body of a volume of this extent, in order.
pub(crate) fn files_in(
    alloc: Global,
    volume: &[u8],
    extent: &Extent,
) -> Result<Vec<LocatedFile>, Fault>
    requires small { length_of volume.now ≤ volume_limit }
    requires multiple { length_of volume.now % 8 ≡ 0 }
    requires first_multiple { extent.now.first % 8 ≡ 0 }
    requires within { extent.now.first ≤ length_of volume.now }
    ensures found { IfOk result (λ fs. (cs : List CellForm)
        × Tiles extent.now.file_system extent.now.polarity extent.now.first cs (drop extent.now.first volume.now)
        × (map (file_form volume.now) fs.items ≡ files_in cs)) }
    ensures first { IfErr result (λ f. f ≢ out_of_memory → IsFirstCellFault extent.now.file_system
        extent.now.polarity extent.now.first (drop extent.now.first volume.now) f) }
{
    let mut walk = CellWalk::of(volume, extent.first, extent.file_system, extent.polarity);
    let mut files = Vec::with_capacity(alloc, walk.cell_count())?;
    while let Some(cell) = walk.next_cell()? {
        let Some(file) = file_of(&cell) else {
            continue;
        };
        files.push(file)?;
    }
    Ok(files)
}

// Checks that no two of the files are twins. Twins have the same name, and both or neither of them
// is marked for update. The fault is DuplicateName at the first file that has an earlier twin.
fn check_twins(files: &[LocatedFile], index: &NameIndex) -> Result<(), Fault>
    requires { IsIndex (names_in (map named_file files.now)) (entries_of index.now) }
    ensures found { OnOk result (NoTwins is_twin (map named_file files.now)) }
    ensures first { IfErr result (λ e. (b : List ℕ) → (f : FileForm) × HasTwin First f (map (file_form b) files.now)
        × (e ≡ outer_fault FaultKind.DuplicateName f.offset)) }
{
    let first = index.first_twin(files);
    if first < files.len() {
        let offset = u64::from(files[first].offset);
        return Err(Fault::outer(FaultKind::DuplicateName, offset));
    }
    Ok(())
}

// Keeps only the files that no other file replaces.
fn keep_current(files: &mut Vec<LocatedFile>, index: &NameIndex)
    requires index { IsIndex (names_in (map named_file files.old.items)) (entries_of index.now) }
    requires no_twins { NoTwins is_twin (map named_file files.old.items) }
    ensures { (b : List ℕ) → map (file_form b) files.new.items ≡ current_in (map (file_form b) files.old.items) }
{
    files.retain(|file| !index.is_replaced(file));
}

// Returns whether a file ends at this offset.
fn ends_at(file: &LocatedFile, place: u64) -> bool
    ensures { result ≡ (end_of (bare_form file.now) == place) }
{
    let start = u64::from(file.offset) + file.header_len();
    start <= place && u64::from(file.len) == place - start
}

// Returns whether a file is where it may be. A volume top file must be the last file, and must end
// where the volume ends. Any other file may be anywhere.
fn is_placed(file: &LocatedFile, last: bool, length: u64) -> bool
    ensures { result ≡ (not (is_top (bare_form file.now)) || (last && (end_of (bare_form file.now) == length))) }
{
    !is_top(file) || (last && ends_at(file, length))
}

// Checks that a volume top file, if there is one, is the last file and ends where the volume ends.
// Otherwise the fault is TopFile, at the first volume top file that is not the last file or ends
// elsewhere.
fn check_top(files: &[LocatedFile], length: u64) -> Result<(), Fault>
    ensures found { OnOk result ((b : List ℕ) → TopAtEnd length (map (file_form b) files.now)) }
    ensures first { IfErr result (λ e. (b : List ℕ) → (f : FileForm) × TopElsewhere length f (map (file_form b) files.now)
        × (e ≡ outer_fault FaultKind.TopFile f.offset)) }
{
    let mut left = files.len();
    for file in files {
        left -= 1;
        check(
            is_placed(file, left == 0, length),
            FaultKind::TopFile,
            u64::from(file.offset),
        )?;
    }
    Ok(())
}

// Does the work of `current_files` for files of which some may share a name. `index` is the index
// of the files' names.
fn files_sharing_names(
    files: Vec<LocatedFile>,
    index: NameIndex,
    length: u64,
) -> Result<(Vec<LocatedFile>, NameIndex), Fault>
    requires few { length_of files.items < 2 ^ 32 }
    requires index { IsIndex (names_in (map named_file files.items)) (entries_of index) }
    ensures found { IfOk result (λ r. (b : List ℕ)
        → AreCurrent length (map (file_form b) files.items) (map (file_form b) r.0.items)) }
    ensures index { IfOk result (λ r. IsIndex (names_in (map named_file r.0.items)) (entries_of r.1)) }
    ensures first { IfErr result (λ f. f ≢ out_of_memory → (b : List ℕ)
        → NamesFault First length (map (file_form b) files.items) f) }
{
    check_twins(files.as_slice(), &index)?;
    let mut current = files;
    keep_current(&mut current, &index);
    check_top(current.as_slice(), length)?;
    // Fills the same index again. A second index would be made while the first still takes memory,
    // and the allocator may keep that memory after the first is dropped.
    let mut index = index;
    index.refill(current.as_slice())?;
    Ok((current, index))
}

// Returns the files that are part of a volume of this length, out of the valid files in it, with
// the index of their names; or the first fault.
pub(crate) fn current_files(
    alloc: Global,
    files: Vec<LocatedFile>,
    length: u64,
) -> Result<(Vec<LocatedFile>, NameIndex), Fault>
    requires few { length_of files.items < 2 ^ 32 }
    ensures found { IfOk result (λ r. (b : List ℕ)
        → AreCurrent length (map (file_form b) files.items) (map (file_form b) r.0.items)) }
    ensures index { IfOk result (λ r. IsIndex (names_in (map named_file r.0.items)) (entries_of r.1)) }
    ensures first { IfErr result (λ f. f ≢ out_of_memory → (b : List ℕ)
        → NamesFault First length (map (file_form b) files.items) f) }
{
    let index = NameIndex::of(alloc, files.as_slice())?;
    if !index.are_distinct() {
        return files_sharing_names(files, index, length);
    }
    // Twins and updates share a name with another file. So if all names differ, there are no twins,
    // no file is dropped, and the index of all files is the index of the files that are kept.
    check_top(files.as_slice(), length)?;
    Ok((files, index))
}

/// Gives `NameIndex` the file's name, and whether the file is marked for update.
impl Named for LocatedFile {
    ghost named = { named_file };

    fn name(&self) -> Guid {
        self.name
    }

    fn is_marked(&self) -> bool {
        matches!(self.state, FileState::Marked)
    }
}
