//! The lines of `list --open`: the lines of `list`, with the contents of packed sections.

ghost use Rattle.std.specs.Prelude.{◌≤◌, ◌+◌, ◌*◌, ℕ, List};
ghost use Rattle.fv_rows.specs.Words.{part_node};
ghost use Rattle.fv_section.specs.Words.{frame_form};
ghost use Rattle.fv_opened.specs.OpenedTexts.{ContentsOver, OpenedListText, PackedText, PartText};
ghost use Rattle.fv_opened.specs.inner.OpenedPuts.{AreShallow, HasRoom, PutsOpenedRows};

use crate::packed_text::{put_spent, put_too_deep, put_unlisted, put_unopened, put_way};
use fv_base::Sink;
use fv_budget::{Budget, NESTING_LIMIT, packed_frame};
use fv_lines::{put_row, put_section_start};
use fv_open::open_frame;
use fv_rows::{Part, Row, TreeWalk};
use fv_section::Frame;
use fv_tree::{VolumeView, whole_stream};
use std::alloc::Global;

// Where rows are listed.
#[derive(Clone, Copy)]
struct Level {
    // The number of further levels by which the lines are indented.
    depth: usize,
    // Packed sections may nest this deep.
    deeper: usize,
}

// Puts the lines of the contents of a packed section, after the way and their length. Returns the
// budget after them. `level` is where the section is listed.
#[cycle(open)]
fn put_contents<S: Sink>(
    alloc: Global,
    out: &mut S,
    bytes: &[u8],
    level: Level,
    budget: Budget,
) -> Budget
    requires room { level.depth + 1 + 27 * level.deeper ≤ 1000 }
    ensures { (text : List ℕ) × ContentsOver (PackedText level.deeper) level.depth budget bytes.now text result
        × S.takes out.old text out.new }
{
    match whole_stream(alloc, bytes) {
        Ok(stream) => {
            out.put(b"\n");
            let inside = Level {
                depth: level.depth + 1,
                deeper: level.deeper,
            };
            put_rows(alloc, out, TreeWalk::of_stream(&stream), inside, budget)
        }
        Err(fault) => {
            put_unlisted(out, fault);
            budget.after_reading(fault)
        }
    }
}

// Puts the rest of the line of a packed section, and the lines of its contents. Returns the budget
// after them.
#[cycle(open)]
fn put_packed<S: Sink>(
    alloc: Global,
    out: &mut S,
    frame: &Frame<'_>,
    level: Level,
    budget: Budget,
) -> Budget
    requires room { level.depth + 27 * level.deeper ≤ 1026 }
    ensures { (text : List ℕ) × PackedText level.deeper level.depth budget (frame_form frame.now) text result
        × S.takes out.old text out.new }
{
    if level.deeper == 0 {
        put_too_deep(out);
        return budget;
    }
    let Some(limit) = budget.limit() else {
        put_spent(out);
        return budget;
    };
    match open_frame(alloc, frame, limit) {
        Ok(opened) => {
            let bytes = opened.contents.as_slice();
            put_way(out, opened.way, bytes.len());
            let inside = Level {
                depth: level.depth,
                deeper: level.deeper - 1,
            };
            put_contents(alloc, out, bytes, inside, budget.after_opening(bytes.len()))
        }
        Err(fault) => {
            put_unopened(out, fault);
            budget.after_fault(fault)
        }
    }
}

// Puts the line of a part or, for a packed section, its line and the lines of its contents. Returns
// the budget after them.
#[cycle(open)]
fn put_part<S: Sink>(
    alloc: Global,
    out: &mut S,
    row: Row<'_, '_>,
    deeper: usize,
    budget: Budget,
) -> Budget
    requires room { row.depth + 27 * deeper ≤ 1026 }
    ensures { (text : List ℕ) × PartText (PackedText deeper) row.entry.depth budget row.entry.number (part_node row.entry.part) text result
        × S.takes out.old text out.new }
{
    if let Part::Section(section) = &row.part {
        if let Some(frame) = packed_frame(section) {
            put_section_start(out, section, row.number, row.depth);
            let level = Level {
                depth: row.depth,
                deeper,
            };
            return put_packed(alloc, out, &frame, level, budget);
        }
    }
    put_row(out, &row, None);
    budget
}

// Puts the lines of some rows, and of the contents of packed sections among them. Returns the budget
// after them.
#[cycle(open)]
fn put_rows<S: Sink>(
    alloc: Global,
    out: &mut S,
    rows: TreeWalk<'_, '_>,
    level: Level,
    budget: Budget,
) -> Budget
    requires room { HasRoom level }
    requires rows { AreShallow rows }
    ensures { PutsOpenedRows S.takes level budget rows.entry out.old out.new result }
{
    let mut left = budget;
    for row in rows {
        let moved = Row {
            depth: level.depth + row.depth,
            nesting: row.nesting,
            number: row.number,
            part: row.part,
        };
        left = put_part(alloc, out, moved, level.deeper, left);
    }
    left
}

/// Puts the lines of `put_list`, in which the line of a compression section or of a GUID-defined
/// section goes on with the way that gave its contents and their length in bytes, and is followed by
/// the lines of the sections in them, indented by two more spaces for each level. If the section is
/// not opened, or its contents are not a stream of sections, its line says why. Returns whether
/// memory ran out, which such a line says too.
///
/// The contents of a section have at most 268,435,456 bytes, and the contents of all sections
/// together at most 1,073,741,824 bytes, where an opened section counts for at least 65,536 bytes, and
/// a section that a decoder rejects for 16,777,216 bytes. Packed sections nest at most 8 deep. A
/// section that exceeds these limits is not opened. An offset that counts from the start of the
/// section, or of its contents, is marked with `+`.
///
/// While the lines of the sections in some contents are put, these contents and the views of the
/// volumes in them are in memory, and so are the contents and views of the packed sections around
/// them. Contents that are not decoded stay where they are: they take no memory. (PI specification,
/// volume 3, sections 3.2.4, 3.2.5.2 and 3.2.5.7.)
pub fn put_opened_list<S: Sink>(alloc: Global, volume: &VolumeView<'_>, out: &mut S) -> bool
    ensures { (text : List ℕ) × OpenedListText volume.now result text × S.takes out.old text out.new }
{
    fv_rows::known(&Part::Volume(volume));
    let level = Level {
        depth: 0,
        deeper: NESTING_LIMIT,
    };
    put_rows(alloc, out, TreeWalk::of(volume), level, Budget::full()).ran_out
}
