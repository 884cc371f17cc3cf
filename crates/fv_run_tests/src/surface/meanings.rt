//! The names of fv_tree and fv_canon, and of the crates that the program consists of.

use fv_arguments::{WordFault, parse_words};
use fv_canon::{
    Layout, Side, body_bytes, canonical, file_bytes, is_canonical, layout, normalise,
    normalise_image, run_compare, run_normalise, write_canonical,
};
use fv_command::{Status, run_plan};
use fv_plan::Plan;
use fv_tree::{
    Body, Content, Difference, DifferenceKind, FileView, FoundVolume, Item, Lookup, Offsets,
    SectionView, Sections, Step, VolumeView, file_by_name, file_by_type, first_difference,
    next_file, read_volume, scan, section_by_type, volumes,
};

// Names the contents of a file, and the bodies of a section.
fn name_parts(content: Content<'_, '_>, body: Body<'_, '_>) {
    match content {
        Content::Plain(_) | Content::Stream(_) => {}
    }
    match body {
        Body::Leaf(_) | Body::Group(_) | Body::Nested(_) => {}
    }
}

// Names the results of looking up a section.
fn name_lookup(lookup: Lookup<'_, '_>) {
    match lookup {
        Lookup::Found(Item::Section(_) | Item::Frame(_)) | Lookup::Absent | Lookup::NotSectioned =>
            {}
    }
}

// Names the steps to a difference, and the kinds of differences.
fn name_difference(step: Step, word: DifferenceKind) {
    match step {
        Step::File(_) | Step::Section(_) => {}
    }
    match word {
        DifferenceKind::ZeroVector
        | DifferenceKind::FileSystem
        | DifferenceKind::Length
        | DifferenceKind::VolumeAttributes
        | DifferenceKind::Reserved
        | DifferenceKind::BlockMap
        | DifferenceKind::ExtendedHeader
        | DifferenceKind::FileCount
        | DifferenceKind::Name
        | DifferenceKind::Type
        | DifferenceKind::Attributes
        | DifferenceKind::Data
        | DifferenceKind::SectionCount
        | DifferenceKind::Tail
        | DifferenceKind::Form
        | DifferenceKind::Shape
        | DifferenceKind::Body => {}
    }
}

/// Names the items of fv_tree.
pub(super) fn name_tree() {
    let _ = (read_volume, next_file, file_by_name, file_by_type);
    let _ = (section_by_type, scan, volumes, first_difference);
    let _ = (VolumeView::head, VolumeView::file_count, VolumeView::file);
    let _ = (FileView::name, FileView::kind, FileView::attributes);
    let _ = (FileView::content, FileView::plain, FileView::data_len);
    let _ = (SectionView::kind, SectionView::extended, SectionView::leaf);
    let _ = (SectionView::body_len, SectionView::body);
    let _ = (Sections::next_section, Sections::tail);
    let _ = (Offsets::as_slice, FoundVolume::bytes);
    let _ = (Difference::steps, Difference::word);
    name_parts(Content::Plain(b""), Body::Leaf(b""));
    name_lookup(Lookup::Absent);
    name_difference(Step::File(0), DifferenceKind::Name);
}

// Names the sides of a comparison.
fn name_sides(side: Side) {
    match side {
        Side::First | Side::Second | Side::Output => {}
    }
}

/// Names the items of fv_canon.
pub(super) fn name_canon() {
    let _ = (layout, Layout::start);
    let _ = (canonical, normalise, is_canonical, normalise_image);
    let _ = (file_bytes, body_bytes, write_canonical::<&mut [u8]>);
    let _ = run_normalise::<&[u8], &mut [u8]>;
    let _ = run_compare::<&[u8], &[u8], &mut [u8]>;
    name_sides(Side::First);
}

// Names the faults of arguments, and the results of a run.
fn name_results(fault: WordFault, status: Status) {
    match fault {
        WordFault::Words | WordFault::OutOfMemory => {}
    }
    match status {
        Status::Done
        | Status::Different
        | Status::Faulty
        | Status::Incomplete
        | Status::Refused
        | Status::WrongArguments => {}
    }
}

// Names the parts of a plan.
fn name_plan(plan: &Plan) {
    let Plan { hex: _, command: _ } = plan;
}

/// Names the items that the program consists of: the calls of fv_arguments and fv_command.
pub(super) fn name_program() {
    let _ = (parse_words, run_plan::<&[u8], &[u8], &mut [u8]>);
    let _ = name_plan;
    name_results(WordFault::Words, Status::Done);
}
