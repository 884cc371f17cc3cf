//! Where the meanings of two volumes first differ.

ghost use Rattle.std.specs.Prelude.{◌≡◌, ◌≢◌, ◌==◌, true, Some, IfOk, IfErr, IfSome, IfNone};
ghost use Rattle.std.specs.Option.{option_or};
ghost use Rattle.fv_base.specs.Words.{out_of_memory};
ghost use Rattle.fv_tree.specs.Difference.{has_steps, differ_in, differ_unless, under};
ghost use Rattle.fv_tree.specs.inner.FoundDifferences.{reversed_steps, ReturnsDifference};
ghost use Rattle.fv_tree.specs.Difference.{difference, files_differ, file_differs, content_differs};
ghost use Rattle.fv_tree.specs.Difference.{sections_differ, section_differs, body_differs};
ghost use Rattle.fv_tree.specs.declared.difference.DifferenceKind.TheVariants as kinds;
ghost use Rattle.fv_tree.specs.MeaningParts.{files_from, sections_from};
ghost use Rattle.fv_tree.specs.Views.{content_view, body_view};

use crate::head_difference::head_difference_kind;
use crate::view::{Body, Content, FileView, SectionView, Sections, VolumeView};
use fv_base::Fault;
use std::alloc::Global;
use std::marker::Model;

/// A step from a volume to one of its files, or from a stream to one of its sections.
#[derive(Clone, Copy, Debug, PartialEq, Eq)]
pub enum Step {
    /// File number n of its volume, counted from 0 in the order of the files.
    File(u64),
    /// Section number n of its stream, counted from 0.
    Section(u64),
}

/// The kind of the difference between two volumes at the place to which the steps lead. (PI
/// specification, volume 3, section 3.2.)
#[derive(Clone, Copy, Debug, PartialEq, Eq)]
pub enum DifferenceKind {
    /// The zero vectors of the volumes' headers (section 3.2.1).
    ZeroVector,
    /// The file systems of the volumes (section 3.2.1).
    FileSystem,
    /// The lengths of the volumes (section 3.2.1).
    Length,
    /// The attributes of the volumes (section 3.2.1).
    VolumeAttributes,
    /// The reserved bytes of the volumes' headers (section 3.2.1).
    Reserved,
    /// The block maps of the volumes (section 3.2.1).
    BlockMap,
    /// The extended headers of the volumes: their names, their entries, or the bytes after the
    /// entries (section 3.2.1.2).
    ExtendedHeader,
    /// The numbers of files. As far as both volumes have files, the files with the same number are
    /// equal.
    FileCount,
    /// The names of the files (section 3.2.3).
    Name,
    /// The types of the files (section 3.2.3) or of the sections (section 3.2.4).
    Type,
    /// The attributes of the files (section 3.2.3).
    Attributes,
    /// The data of the files, unless both hold sections.
    Data,
    /// The numbers of sections. As far as both streams have sections, the sections with the same
    /// number are equal.
    SectionCount,
    /// The numbers of bytes after the last section.
    Tail,
    /// The forms of the sections' headers: one is extended, the other is not (section 3.2.4).
    Form,
    /// The kinds of the sections' bodies: one section is a leaf, a group or a volume, and the other
    /// is something else (section 3.2.5).
    Shape,
    /// The bytes of the sections, if both are leaves.
    Body,
}

/// Where two volumes first differ, and the kind of the difference. Contracts see the steps and the
/// kind.
#[derive(Drop)]
pub struct Difference {
    steps: Vec<Step>,
    word: DifferenceKind,
}

impl Model for Difference {
    ghost use Rattle.std.specs.Prelude.{List};
    ghost use Rattle.fv_tree.specs.declared.difference.Step.{Step};
    ghost use Rattle.fv_tree.specs.declared.difference.DifferenceKind.{DifferenceKind};

    ghost Value = { List Step × DifferenceKind };

    ghost view = { λ d. (d.steps.items, d.word) };
}

impl Difference {
    /// Returns the steps from the outer volumes down to the values that differ.
    pub fn steps(&self) -> &[Step]
        ensures { result.now ≡ self.now.0 }
    {
        self.steps.as_slice()
    }

    /// Returns the kind of the difference.
    pub fn word(&self) -> DifferenceKind
        ensures { result ≡ self.now.1 }
    {
        self.word
    }
}

// Returns a difference of this kind, without steps.
fn differ_in(alloc: Global, word: DifferenceKind) -> Difference
    ensures { reversed_steps (Some result) ≡ differ_in word }
{
    Difference {
        steps: Vec::new(alloc),
        word,
    }
}

// Adds a step to a difference, which is then the difference as seen from one level further out.
// During the search, the steps are kept from the innermost out.
fn under(step: Step, found: Difference) -> Result<Difference, Fault>
    ensures ok { IfOk result (λ d. reversed_steps (Some d) ≡ under step (reversed_steps (Some found))) }
    ensures err { IfErr result (λ f. f ≡ out_of_memory) }
{
    let mut found = found;
    found.steps.push(step)?;
    Ok(found)
}

// The result of a search for a difference.
type Found = Result<Option<Difference>, Fault>;

// Returns a difference of this kind, without steps, unless the condition holds.
macro_rules! return_unless {
    ($alloc:expr, $holds:expr, $word:expr) => {
        if !$holds {
            return Ok(Some(differ_in($alloc, $word)));
        }
    };
}

// Returns where two streams first differ, with the steps from the innermost out.
#[cycle(differ)]
fn stream_difference(alloc: Global, sections: Sections, others: Sections) -> Found
    ensures { ReturnsDifference result (option_or (sections_differ 0 (sections_from sections.entry.0)
        (sections_from others.entry.0)) (differ_unless (sections.entry.1 == others.entry.1) kinds.Tail)) }
{
    let mut left = sections;
    left.known();
    let mut right = others;
    let mut number = 0;
    while let Some(section) = left.next_section() {
        let Some(other) = right.next_section() else {
            return Ok(Some(differ_in(alloc, DifferenceKind::SectionCount)));
        };
        if let Some(found) = section_difference(alloc, &section, &other)? {
            return Ok(Some(under(Step::Section(number), found)?));
        }
        number += 1;
    }
    return_unless!(
        alloc,
        right.next_section().is_none(),
        DifferenceKind::SectionCount
    );
    return_unless!(alloc, left.tail() == right.tail(), DifferenceKind::Tail);
    Ok(None)
}

// Returns where two sections first differ, with the steps from the innermost out.
#[cycle(differ)]
fn section_difference(alloc: Global, section: &SectionView, other: &SectionView) -> Found
    ensures { ReturnsDifference result (section_differs section.now other.now) }
{
    return_unless!(alloc, section.kind() == other.kind(), DifferenceKind::Type);
    return_unless!(
        alloc,
        section.extended() == other.extended(),
        DifferenceKind::Form
    );
    body_difference(alloc, section.body(), other.body())
}

// Returns where the bodies of two sections first differ, with the steps from the innermost out.
#[cycle(differ)]
fn body_difference(alloc: Global, body: Body, other: Body) -> Found
    ensures { ReturnsDifference result (body_differs (body_view body.entry) (body_view other.entry)) }
{
    match (body, other) {
        (Body::Leaf(x), Body::Leaf(y)) => {
            return_unless!(alloc, x == y, DifferenceKind::Body);
            Ok(None)
        }
        (Body::Group(x), Body::Group(y)) => stream_difference(alloc, x, y),
        (Body::Nested(x), Body::Nested(y)) => volume_difference(alloc, x, y),
        _ => Ok(Some(differ_in(alloc, DifferenceKind::Shape))),
    }
}

// Returns where the contents of two files first differ, with the steps from the innermost out.
#[cycle(differ)]
fn content_difference(alloc: Global, content: Content, other: Content) -> Found
    ensures { ReturnsDifference result (content_differs (content_view content.entry) (content_view other.entry)) }
{
    match (content, other) {
        (Content::Plain(x), Content::Plain(y)) => {
            return_unless!(alloc, x == y, DifferenceKind::Data);
            Ok(None)
        }
        (Content::Stream(x), Content::Stream(y)) => stream_difference(alloc, x, y),
        _ => Ok(Some(differ_in(alloc, DifferenceKind::Data))),
    }
}

// Returns where two files first differ, with the steps from the innermost out.
#[cycle(differ)]
fn file_difference(alloc: Global, file: &FileView, other: &FileView) -> Found
    ensures { ReturnsDifference result (file_differs file.now other.now) }
{
    return_unless!(alloc, file.name() == other.name(), DifferenceKind::Name);
    return_unless!(alloc, file.kind() == other.kind(), DifferenceKind::Type);
    return_unless!(
        alloc,
        file.attributes() == other.attributes(),
        DifferenceKind::Attributes
    );
    content_difference(alloc, file.content(), other.content())
}

// Returns where the files of two volumes first differ, with the steps from the innermost out.
#[cycle(differ)]
fn files_difference(alloc: Global, files: &[FileView], others: &[FileView]) -> Found
    ensures { ReturnsDifference result (files_differ 0 (files_from files.now) (files_from others.now)) }
{
    for i in 0..files.len().min(others.len()) {
        if let Some(found) = file_difference(alloc, &files[i], &others[i])? {
            return Ok(Some(under(Step::File(i as u64), found)?));
        }
    }
    return_unless!(
        alloc,
        files.len() == others.len(),
        DifferenceKind::FileCount
    );
    Ok(None)
}

// Returns where two volumes first differ, with the steps from the innermost out.
#[cycle(differ)]
fn volume_difference(alloc: Global, volume: &VolumeView, other: &VolumeView) -> Found
    ensures { ReturnsDifference result (difference volume.now other.now) }
{
    if let Some(word) = head_difference_kind(volume.head(), other.head()) {
        return Ok(Some(differ_in(alloc, word)));
    }
    files_difference(alloc, volume.files(), other.files())
}

/// Returns where the meanings of two volumes first differ, or None if the volumes have the same
/// meaning.
///
/// The headers are compared first, field by field. Then the files are compared in pairs: file 0 with
/// file 0, file 1 with file 1, as far as both volumes have files. Then the numbers of files are
/// compared. In a file, the name, the type and the attributes are compared, and then the data. If
/// the data are sections, they are compared in pairs too, then the numbers of sections, and then
/// the numbers of bytes after the last section. In a section, the type and the form of the header
/// are compared, then whether it holds bytes, sections or a volume, and then its bytes, its
/// sections or its volume. The work is linear in the size of the two volumes. (PI specification,
/// volume 3, section 3.2.)
///
/// # Errors
///
/// OutOfMemory at 0, only if at least one step leads to the first difference.
#[tactic(auto, using(crate::proofs::DifferenceLaws::volume_same))]
pub fn first_difference(
    alloc: Global,
    a: &VolumeView,
    b: &VolumeView,
) -> Result<Option<Difference>, Fault>
    ensures first { IfOk result (λ o. o ≡ difference a.now b.now) }

    // None means that the volumes have the same meaning.
    ensures same { IfOk result (λ o. IfNone o (a.now ≡ b.now)) }

    // A difference means that they do not.
    ensures differ { IfOk result (λ o. IfSome o (λ _. a.now ≢ b.now)) }

    // Memory runs out only if at least one step leads to the first difference.
    ensures memory { IfErr result (λ _. (a.now ≢ b.now) × (has_steps (difference a.now b.now) ≡ true)) }

    // The only error is OutOfMemory.
    ensures err { IfErr result (λ f. f ≡ out_of_memory) }
{
    let Some(mut found) = volume_difference(alloc, a, b)? else {
        return Ok(None);
    };
    found.steps.as_mut_slice().reverse();
    Ok(Some(found))
}
