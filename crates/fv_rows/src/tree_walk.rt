//! The walk over the parts of a volume, row by row.

ghost use Rattle.std.specs.Prelude.{◌≡◌, ◌<◌, ◌^◌, [], ◌∷◌, length, IfSome, IfNone};
ghost use Rattle.std.specs.Iterator.{YieldsFirstBy, item_count};
ghost use Rattle.fv_rows.specs.TreeRows.{parts_in, rows_of_sections, tree_rows};
ghost use Rattle.fv_tree.specs.Words.{sections_from};
ghost use Rattle.fv_rows.specs.RowWalks.{part_node, nesting_inside, nodes_of, row_of, rows_inside, rows_of_nodes, PartNestsAt};
ghost use Rattle.std.specs.List.{AllByRecursion};

use arrayvec::ArrayVec;
use fv_tree::{Body, Content, FileView, SectionView, Sections, StreamView, VolumeView};
use std::marker::Model;
use std::mem::replace;

/// A part of a volume: a volume, a file or a section.
#[derive(Drop)]
pub enum Part<'v, 'a> {
    /// A volume.
    Volume(&'v VolumeView<'a>),
    /// A file.
    File(&'v FileView<'a>),
    /// A section.
    Section(SectionView<'v, 'a>),
}

/// A part of a volume, with its place in the tree of the parts.
#[derive(Drop)]
pub struct Row<'v, 'a> {
    /// The number of parts around this part.
    pub depth: usize,
    /// The number of sections around this part.
    pub nesting: u8,
    /// The number of this part in the part that contains it, counted from 0.
    pub number: u64,
    /// The part.
    pub part: Part<'v, 'a>,
}

/// Parts in the same part that are left, in order.
#[derive(Default, Drop)]
pub enum Parts<'v, 'a> {
    /// No part.
    #[default]
    Nothing,
    /// The volume of a section.
    Volume(&'v VolumeView<'a>),
    /// Files of a volume.
    Files(&'v [FileView<'a>]),
    /// Sections of a file or of a group.
    Sections(Sections<'v, 'a>),
}

// The parts that are left at one depth, the number of the first of them, and the number of sections
// around them.
#[derive(Default, Drop)]
struct Level<'v, 'a> {
    number: u64,
    nesting: u8,
    parts: Parts<'v, 'a>,
}

/// Returns the first of some parts, and leaves the others; returns None if there is no part, and
/// again in each later call. Allocates no memory.
#[inline(always)]
pub fn next_part<'v, 'a>(parts: &mut Parts<'v, 'a>) -> Option<Part<'v, 'a>>
    ensures some { IfSome result (λ p. nodes_of parts.old ≡ part_node p ∷ nodes_of parts.new) }

    // None is returned only if no part is left, and no part is left after that.
    ensures none { IfNone result ((nodes_of parts.old ≡ []) × (nodes_of parts.new ≡ [])) }
{
    match parts {
        Parts::Nothing => None,
        Parts::Volume(volume) => {
            let first = *volume;
            *parts = Parts::Nothing;
            Some(Part::Volume(first))
        }
        Parts::Files(files) => {
            let first = files.split_off_first()?;
            Some(Part::File(first))
        }
        Parts::Sections(sections) => {
            let first = sections.next_section()?;
            Some(Part::Section(first))
        }
    }
}

/// Returns the parts that a part contains. Allocates no memory. (PI specification, volume 3, section
/// 3.2.)
#[inline(always)]
pub fn parts_in<'v, 'a>(part: &Part<'v, 'a>) -> Parts<'v, 'a>
    ensures nodes { nodes_of result ≡ parts_in (part_node part.now) }
    ensures few { length (nodes_of result) < 2 ^ 63 }
{
    match part {
        Part::Volume(volume) => {
            let files = volume.files();
            Parts::Files(files)
        }
        Part::File(file) => match file.content() {
            Content::Plain(_) => Parts::Nothing,
            Content::Stream(sections) => {
                sections.known();
                Parts::Sections(sections)
            }
        },
        Part::Section(section) => match section.body() {
            Body::Leaf(_) => Parts::Nothing,
            Body::Group(sections) => {
                sections.known();
                Parts::Sections(sections)
            }
            Body::Nested(volume) => Parts::Volume(volume),
        },
    }
}

/// Computes nothing. After the call, a proof knows that groups and volumes in this part, which was
/// read, nest only so deep that `TreeWalk` has room for a walk over it.
pub fn known(part: &Part<'_, '_>)
    ensures { PartNestsAt 0 (part_node part.now) }
{
    match part {
        Part::Volume(volume) => volume.known(),
        Part::File(file) => file.known(),
        Part::Section(section) => section.known(),
    }
}

// Returns the number of sections around the contents of a part that has `nesting` sections around
// it.
fn nesting_inside(nesting: u8, part: &Part<'_, '_>) -> u8
    requires { nesting < 255 }
    ensures { result ≡ nesting_inside nesting (part_node part.now) }
{
    match part {
        Part::Section(_) => nesting + 1,
        _ => nesting,
    }
}

/// A walk over the parts of a volume in preorder: the volume, its files and their sections, and in
/// the same way each volume that a section contains. Each part is followed by its contents.
/// Contracts see the list of the rows that are left. (PI specification, volume 3, sections 3.2.1,
/// 3.2.3 and 3.2.4.)
#[derive(Drop)]
pub struct TreeWalk<'v, 'a> {
    // The parts that are left at the innermost depth.
    level: Level<'v, 'a>,
    // The parts that are left at each outer depth, from depth 0 inwards.
    outer: ArrayVec<Level<'v, 'a>, 27>,
}

impl<'v, 'a> Model for TreeWalk<'v, 'a> {
    ghost use Rattle.std.specs.Prelude.{List, [], ◌∷◌, ◌++◌};
    ghost use Rattle.std.specs.Coded.{coded_list};
    ghost use Rattle.fv_rows.specs.TreeRows.{TreeRow};
    ghost use Rattle.fv_rows.specs.inner.RowCodes.{row_code};

    ghost Value = { List TreeRow };

    ghost coded = { coded_list row_code };

    ghost use Rattle.fv_rows.specs.RowWalks.{AreRowLevels, rows_left_in};

    ghost view = { λ w. rows_left_in 0 (w.outer.items ++ w.level ∷ []) };

    ghost invariant = { λ w. AreRowLevels 0 (w.outer.items ++ w.level ∷ []) };
}

impl<'v, 'a> TreeWalk<'v, 'a> {
    // Returns a walk over some parts at depth 0, each followed by its contents.
    fn over(parts: Parts<'v, 'a>) -> TreeWalk<'v, 'a>
        requires nest { AllByRecursion (PartNestsAt 0) (nodes_of parts) }
        requires few { length (nodes_of parts) < 2 ^ 63 }
        ensures { result ≡ rows_of_nodes 0 0 0 (nodes_of parts.entry) }
    {
        TreeWalk {
            level: Level {
                number: 0,
                nesting: 0,
                parts,
            },
            outer: ArrayVec::new(),
        }
    }

    /// Returns a walk over all parts of a volume. Allocates no memory. (PI specification, volume 3,
    /// section 3.2.)
    #[tactic(auto, using(crate::proofs::RowWalkLaws::volume_rows))]
    pub fn of(volume: &'v VolumeView<'a>) -> TreeWalk<'v, 'a>
        ensures { result ≡ tree_rows volume.now }
    {
        known(&Part::Volume(volume));
        TreeWalk::over(Parts::Volume(volume))
    }

    /// Returns a walk over the contents of a part: the parts that it contains, each followed by its
    /// own contents. `depth` and `nesting` are counted from the part's contents, so they are 0 for
    /// the parts that it contains itself. Allocates no memory. (PI specification, volume 3, section
    /// 3.2.)
    pub fn inside(part: &Part<'v, 'a>) -> TreeWalk<'v, 'a>
        ensures { result ≡ rows_inside 0 0 (part_node part.now) }
    {
        known(part);
        TreeWalk::over(parts_in(part))
    }

    /// Returns a walk over all parts of a stream: its sections, and in the same way what is in groups
    /// and volumes among them. The sections of the stream are at depth 0. Allocates no memory. (PI
    /// specification, volume 3, section 3.2.4.)
    pub fn of_stream(stream: &'v StreamView<'a>) -> TreeWalk<'v, 'a>
        ensures { result ≡ rows_of_sections 0 0 0 (sections_from stream.now.0) }
    {
        stream.known();
        let sections = stream.sections();
        sections.known();
        TreeWalk::over(Parts::Sections(sections))
    }

    // Returns the first of the rows that are left, if it is the row of a file whose data are plain
    // bytes, and leaves the others. Leaves all rows otherwise. `next` tries this first, because a
    // volume may have many such files, and `next_row` takes longer for each.
    #[inline(always)]
    fn next_plain(&mut self) -> Option<Row<'v, 'a>>
        ensures some { IfSome result (λ row. self.old ≡ row_of row ∷ self.new) }
        ensures none { IfNone result (self.new ≡ self.old) }
    {
        let Parts::Files(files) = &self.level.parts else {
            return None;
        };
        let left = *files;
        let (file, rest) = left.split_first()?;
        let Content::Plain(_) = file.content() else {
            return None;
        };
        self.level.parts = Parts::Files(rest);
        let number = self.level.number;
        self.level.number = number + 1;
        Some(Row {
            depth: self.outer.len(),
            nesting: self.level.nesting,
            number,
            part: Part::File(file),
        })
    }

    // Returns the first of the rows that are left, and leaves the others; returns None after the
    // last row.
    fn next_row(&mut self) -> Option<Row<'v, 'a>>
        ensures { YieldsFirstBy row_of (λ left. left) self.old result self.new }
    {
        loop {
            if let Some(part) = next_part(&mut self.level.parts) {
                let number = self.level.number;
                let nesting = self.level.nesting;
                self.level.number = number + 1;
                let depth = self.outer.len();
                let parts = parts_in(&part);
                let row = Row {
                    depth,
                    nesting,
                    number,
                    part,
                };
                if let Parts::Nothing = parts {
                    return Some(row);
                }
                let inside = Level {
                    number: 0,
                    nesting: nesting_inside(nesting, &row.part),
                    parts,
                };
                let around = replace(&mut self.level, inside);
                self.outer.push(around);
                return Some(row);
            }
            self.level.parts = Parts::Nothing;
            self.level = self.outer.pop()?;
        }
    }
}

/// Returns the first of the rows that are left, and leaves the others; returns None after the last
/// row. Allocates no memory.
impl<'v, 'a> Iterator for TreeWalk<'v, 'a> {
    type Item = Row<'v, 'a>;

    ghost next_gives = { YieldsFirstBy row_of (λ left. left) };

    ghost remaining = { item_count (λ left. left) };

    #[inline(always)]
    fn next(&mut self) -> Option<Row<'v, 'a>> {
        if let Some(row) = self.next_plain() {
            return Some(row);
        }
        self.next_row()
    }
}
