//! The notes of `check` on dependency expressions: one line for each rejected expression.

ghost use Rattle.std.specs.Prelude.{◌≡◌, List, Some};
ghost use Rattle.fv_tree.specs.Words.{files_of};
ghost use Rattle.fv_lines.specs.Notes.{AreNotes, depex_line, depex_lines, depexes_in, file_depexes, phase_of, read_by};
ghost use Rattle.fv_lines.specs.Notes.{section_depex};
ghost use Rattle.fv_lines.specs.inner.LineRuns.{PutsNotes};
ghost use Rattle.fv_lines.specs.declared.depex_notes.DepexNote.{DepexNote};

use fv_base::{Guid, Sink};
use fv_depex::{Phase, depex_fault};
use fv_section::section_type::{DXE_DEPEX, MM_DEPEX, PEI_DEPEX};
use fv_text::put_decimal;
use fv_tree::{Content, FileView, SectionView, SectionWalk, VolumeView};

/// The note on a rejected dependency expression.
#[derive(Clone, Copy, Debug, PartialEq, Eq)]
pub struct DepexNote {
    /// The name of the file that contains the expression.
    pub name: Guid,
    /// The number of the expression's first fault.
    pub number: u8,
    /// The offset of that fault, in bytes from the start of the expression.
    pub offset: u64,
}

// Returns the phase whose rules apply to a section of this type, or None if the section is not a
// dependency expression. The rules of DXE apply to an expression of the MM phase.
fn phase_of(kind: u8) -> Option<Phase>
    ensures { result ≡ phase_of kind }
{
    if kind == PEI_DEPEX {
        return Some(Phase::Pei);
    }
    if kind == DXE_DEPEX || kind == MM_DEPEX {
        return Some(Phase::Dxe);
    }
    None
}

// Puts the line of a note.
fn put_note<S: Sink>(out: &mut S, note: &DepexNote)
    ensures { S.takes out.old (depex_line note.now) out.new }
{
    out.put(b"note depex in ");
    out.put(&note.name.text());
    out.put(b" fault ");
    put_decimal(out, u64::from(note.number));
    out.put(b" at ");
    put_decimal(out, note.offset);
    out.put(b"\n");
}

// Puts the note on an expression, if it is rejected.
fn put_depex<S: Sink>(out: &mut S, name: Guid, bytes: &[u8], phase: Phase)
    ensures { PutsNotes S.takes (read_by name bytes.now (Some phase)) out.old out.new }
{
    let fault = match depex_fault(bytes, phase) {
        Some(fault) => fault,
        None => return,
    };
    let note = DepexNote {
        name,
        number: fault.number(),
        offset: fault.offset,
    };
    put_note(out, &note);
}

// Puts the note on the body of a leaf, if the section's type is a type of dependency expressions
// and the expression is rejected.
fn put_leaf<S: Sink>(out: &mut S, name: Guid, kind: u8, bytes: &[u8])
    ensures { PutsNotes S.takes (read_by name bytes.now (phase_of kind)) out.old out.new }
{
    if let Some(phase) = phase_of(kind) {
        put_depex(out, name, bytes, phase);
    }
}

// Puts the note on a section, if it is a dependency expression that is rejected.
fn put_section<S: Sink>(out: &mut S, name: Guid, section: &SectionView<'_, '_>)
    ensures { PutsNotes S.takes (section_depex name section.now) out.old out.new }
{
    if let Some(bytes) = section.leaf() {
        put_leaf(out, name, section.kind(), bytes);
    }
}

// Puts the notes on the expressions of a file.
fn put_file<S: Sink>(out: &mut S, file: &FileView<'_>)
    ensures { PutsNotes S.takes (file_depexes file.now) out.old out.new }
{
    if let Content::Plain(_) = file.content() {
        return;
    }
    let name = file.name();
    for section in SectionWalk::of(file) {
        put_section(out, name, &section);
    }
}

/// Puts a line for each rejected dependency expression in the files of a volume. The sections of a
/// file are taken in preorder: groups are searched, nested volumes are not. Allocates no memory.
/// (PI specification, volume 1, section 5.7, and volume 2, section 10.7.)
pub fn put_depex_notes<S: Sink>(out: &mut S, volume: &VolumeView<'_>)
    ensures { (notes : List DepexNote) × AreNotes (depexes_in (files_of volume.now)) notes
        × S.takes out.old (depex_lines notes) out.new }
{
    let files = volume.files();
    for file in files {
        put_file(out, file);
    }
}
