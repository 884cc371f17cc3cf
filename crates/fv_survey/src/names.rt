//! The names of the files of a volume: duplicate names, and a misplaced volume top file.

ghost use Rattle.std.specs.Prelude.{◌≡◌, ◌+◌, ◌≤◌, ◌<◌, ◌^◌, ◌%◌, ◌++◌, map, length, IfOk, IfErr};
ghost use Rattle.std.specs.List.{list_any};
ghost use Rattle.fv_base.specs.Words.{out_of_memory};
ghost use Rattle.fv_survey.specs.Bodies.{cells_by};
ghost use Rattle.fv_survey.specs.NameRules.{body_files, current_files, file_if, has_top_elsewhere, has_twins, is_top, name_findings, named_file};
ghost use Rattle.fv_survey.specs.inner.Bounds.{PartsLie};
ghost use Rattle.fv_survey.specs.inner.LastFiles.{EndIsLast, is_early_top, is_unmarked_top};

use crate::findings::Findings;
use crate::parts::Parts;
use crate::pieces::{Layout, Piece, Sort, piece_at};
use crate::systems::Files;
use fv_base::{Fault, FaultKind, Guid};
use fv_names::{NameIndex, Named};
use fv_tree::VOLUME_TOP_FILE;
use std::alloc::Global;
use std::mem::size_of;

// A file in the body of a volume.
#[derive(Clone, Copy)]
pub(crate) struct BodyFile {
    pub(crate) name: Guid,
    pub(crate) is_marked: bool,
    // Whether the last byte of the file is the last byte of the volume.
    pub(crate) is_at_end: bool,
}

// A file takes at least 24 bytes of a volume. A vector of files takes at most twice 18 bytes for
// each file, and the index of names takes 24.
const _: () = prove!(size_of::<BodyFile>() == 18);

// Gives `NameIndex` the file's name, and whether the file is marked for update.
impl Named for BodyFile {
    ghost named = { named_file };

    fn name(&self) -> Guid {
        self.name
    }

    fn is_marked(&self) -> bool {
        self.is_marked
    }
}

// Returns whether a file is a volume top file, by its name.
fn is_top(file: &BodyFile) -> bool
    ensures { result ≡ is_top file.now }
{
    file.name.to_bytes()[..] == VOLUME_TOP_FILE[..]
}

// Returns the bytes of the cells of a volume. A variable store and a volume with an unknown file
// system have none.
fn cells_of(bytes: &[u8], parts: Parts) -> &[u8]
    requires { parts.first ≤ length bytes.now }
    ensures cells { result.now ≡ cells_by parts.files parts.first bytes.now }
    ensures multiple { length result.now % 8 ≡ 0 }
    ensures within { parts.first + length result.now ≤ length bytes.now }
{
    match parts.files {
        Files::Store | Files::Unknown => &[],
        Files::Ffs1 | Files::Ffs2 | Files::Ffs3 => {
            let end = parts.first + (bytes.len() - parts.first) / 8 * 8;
            &bytes[parts.first..end]
        }
    }
}

// Appends the file that a piece is, if its sort is File. The piece lies at the offset `at` of a
// volume of `len` bytes.
fn push_file(files: &mut Vec<BodyFile>, piece: &Piece, at: usize, len: usize) -> Result<(), Fault>
    requires { at + piece.now.size < 2 ^ 64 }
    ensures pushed { IfOk result (λ _. files.new.items ≡ files.old.items ++ file_if piece.now.sort len at piece.now) }
    ensures err { IfErr result (λ f. f ≡ out_of_memory) }
{
    if piece.sort == Sort::File {
        files.push(BodyFile {
            name: piece.name,
            is_marked: piece.is_marked,
            is_at_end: at + piece.size == len,
        })?;
    }
    Ok(())
}

// Returns the files of a volume, in order. A volume without files takes no memory.
fn files_of(alloc: Global, bytes: &[u8], parts: Parts) -> Result<Vec<BodyFile>, Fault>
    requires { PartsLie (length bytes.now) parts }
    ensures files { IfOk result (λ fs. fs.items ≡ body_files parts bytes.now) }
    ensures err { IfErr result (λ f. f ≡ out_of_memory) }
{
    let layout = Layout {
        files: parts.files,
        polarity: parts.polarity,
        is_cut: parts.is_cut,
    };
    let mut files = Vec::new(alloc);
    let mut rest = cells_of(bytes, parts);
    let mut at = parts.first;
    while !rest.is_empty() {
        let piece = piece_at(rest, layout);
        push_file(&mut files, &piece, at, bytes.len())?;
        at += piece.span;
        rest = &rest[piece.span..];
    }
    Ok(files)
}

// Returns whether two of the files are twins. An index of 2 ^ 32 names would take 96 GiB: for so
// many files the fault is OutOfMemory.
fn has_twins(alloc: Global, files: &[BodyFile]) -> Result<bool, Fault>
    ensures twins { IfOk result (λ t. t ≡ has_twins (map named_file files.now)) }
    ensures err { IfErr result (λ f. f ≡ out_of_memory) }
{
    if files.len() < 2 {
        return Ok(false);
    }
    if files.len() > u32::MAX as usize {
        return Err(Fault::outer(FaultKind::OutOfMemory, 0));
    }
    let index = NameIndex::of(alloc, files)?;
    Ok(index.first_twin(files) < files.len())
}

// Returns whether one of the files is a volume top file that is not marked for update.
fn has_unmarked_top(files: &[BodyFile]) -> bool
    ensures { result ≡ list_any is_unmarked_top files.now }
{
    files.iter().any(|file| is_top(file) && !file.is_marked)
}

// Returns whether one of the files is a volume top file that does not end where the volume ends.
// If there is an update, marked files do not count.
fn has_early_top(files: &[BodyFile], has_update: bool) -> bool
    ensures { result ≡ list_any (is_early_top has_update) files.now }
{
    files.iter().any(|file| is_top(file) && !file.is_at_end && !(file.is_marked && has_update))
}

// Returns whether, among the files that are not superseded, a volume top file is not at the end. A
// file that ends where the volume ends is the last of all files. A marked volume top file is
// superseded exactly if another volume top file is not marked.
fn has_top_elsewhere(files: &[BodyFile]) -> bool
    requires { EndIsLast files.now }
    ensures { result ≡ has_top_elsewhere (current_files files.now) }
{
    let has_update = has_unmarked_top(files);
    has_early_top(files, has_update)
}

// Returns the findings of the names of a volume: duplicate names, and a misplaced volume top file.
pub(crate) fn name_findings(alloc: Global, bytes: &[u8], parts: Parts) -> Result<Findings, Fault>
    requires { PartsLie (length bytes.now) parts }
    ensures findings { IfOk result (λ f. f ≡ name_findings parts bytes.now) }
    ensures err { IfErr result (λ f. f ≡ out_of_memory) }
{
    let files = files_of(alloc, bytes, parts)?;
    let has_twins = has_twins(alloc, files.as_slice())?;
    let has_top_elsewhere = has_top_elsewhere(files.as_slice());
    Ok(
        Findings::NONE
            .with_if(has_twins, FaultKind::DuplicateName)
            .with_if(has_top_elsewhere, FaultKind::TopFile),
    )
}
