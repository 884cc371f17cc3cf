//! Looking up a packed section by its path in a volume.

ghost use Rattle.std.specs.Prelude.{◌≡◌, option_map, slice_get};
ghost use Rattle.fv_rows.specs.Words.{VolumeNode, nodes_of, part_node};
ghost use Rattle.fv_command.specs.PackedSections.{FindsPacked, numbered_parts, part_at};

use fv_budget::packed_frame;
use fv_rows::{Part, Parts, next_part, parts_in};
use fv_section::Frame;
use fv_tree::{Body, VolumeView};

/// The result of looking for a packed section.
#[derive(Drop)]
pub enum Packed<'a> {
    /// The section.
    Section(Frame<'a>),
    /// The path does not lead to a section.
    NotFound,
    /// The section is neither a compression section nor a GUID-defined section.
    NotPacked,
}

// Returns the parts to which a further number of a path leads from a part.
fn numbered_parts<'v, 'a>(part: &Part<'v, 'a>) -> Parts<'v, 'a>
    ensures { nodes_of result ≡ numbered_parts (part_node part.now) }
{
    match part {
        Part::Section(section) => match section.body() {
            Body::Nested(volume) => parts_in(&Part::Volume(volume)),
            _ => parts_in(part),
        },
        _ => parts_in(part),
    }
}

// Returns the part with this number, counted from 0.
fn nth_part<'v, 'a>(parts: Parts<'v, 'a>, number: u64) -> Option<Part<'v, 'a>>
    ensures { option_map part_node result ≡ slice_get (nodes_of parts.entry) number }
{
    let mut left = parts;
    for _ in 0..number {
        next_part(&mut left)?;
    }
    next_part(&mut left)
}

// Returns the part of a volume at the end of a path.
fn part_at<'v, 'a>(volume: &'v VolumeView<'a>, path: &[u64]) -> Option<Part<'v, 'a>>
    ensures { option_map part_node result ≡ part_at path.now (VolumeNode volume.now) }
{
    let mut part = Part::Volume(volume);
    let mut rest = path;
    while let Some((number, after)) = rest.split_first() {
        part = nth_part(numbered_parts(&part), *number)?;
        rest = after;
    }
    Some(part)
}

/// Looks for the packed section at the end of a path in a volume. Each number of the path counts
/// from 0: first the files of the volume, and then the sections of the file or of the group to which
/// the path has led. After a section that holds a volume, the next number counts the files of this
/// volume. (PI specification, volume 3, sections 3.2.4, 3.2.5.2 and 3.2.5.7.)
pub fn packed_at<'a>(volume: &VolumeView<'a>, path: &[u64]) -> Packed<'a>
    ensures { FindsPacked (part_at path.now (VolumeNode volume.now)) result }
{
    match part_at(volume, path) {
        Some(Part::Section(section)) => match packed_frame(&section) {
            Some(frame) => Packed::Section(frame),
            None => Packed::NotPacked,
        },
        _ => Packed::NotFound,
    }
}
