//! The lines of `list`: one for each volume, file and section.

ghost use Rattle.std.specs.Prelude.{◌≡◌, ℕ, [], List, None, Option};
ghost use Rattle.fv_tree.specs.Words.{section_kind_of, body_of};
ghost use Rattle.fv_rows.specs.Words.{FileNode, SectionNode, VolumeNode, part_node, tree_rows};
ghost use Rattle.fv_lines.specs.ListTexts.{form_text, system_text, name_text, node_text};
ghost use Rattle.fv_lines.specs.ListTexts.{BodyShown, NodeText, RowsText, ListText, section_start, spaces};

use crate::digest_text::put_digest;
use crate::leaf_text::put_section_body;
use fv_base::{FileSystem, Sink};
use fv_head::VolumeHead;
use fv_rows::{Digests, Part, Row, TreeWalk};
use fv_text::{put_decimal, put_two_digits};
use fv_tree::{FileView, SectionView, VolumeView};

// Puts two spaces for each level.
fn put_indent<S: Sink>(out: &mut S, depth: usize)
    ensures { S.takes out.old (spaces depth) out.new }
{
    let mut left = depth;
    while left > 0 {
        out.put(b"  ");
        left -= 1;
    }
}

// Returns the words for the form of a section's header. The length of the body follows them.
fn form_words(is_extended: bool) -> &'static [u8]
    ensures { result.now ≡ form_text is_extended }
{
    if is_extended {
        b" extended body "
    } else {
        b" short body "
    }
}

/// Puts the start of the line of a section, up to the length of its body. `number` is the section's
/// number in its stream, and `depth` is the number of levels by which the line is indented.
pub fn put_section_start<S: Sink>(
    out: &mut S,
    section: &SectionView<'_, '_>,
    number: u64,
    depth: usize,
)
    ensures { S.takes out.old (section_start depth number section.now) out.new }
{
    put_indent(out, depth);
    out.put(b"section ");
    put_decimal(out, number);
    out.put(b" type ");
    put_two_digits(out, section.kind());
    out.put(form_words(section.extended()));
    put_decimal(out, section.body_len());
}

// Puts the line of a section. `number` is its number in its stream.
fn put_section_line<S: Sink>(
    out: &mut S,
    section: &SectionView<'_, '_>,
    number: u64,
    depth: usize,
    digest: Option<[u8; 32]>,
)
    ensures { (shown : List ℕ) × BodyShown (section_kind_of section.now) (body_of section.now) shown
        × S.takes out.old (node_text depth number (SectionNode section.now) shown digest) out.new }
{
    put_section_start(out, section, number, depth);
    put_section_body(out, section);
    put_digest(out, digest);
    out.put(b"\n");
}

// Puts the line of a file. `number` is its number in its volume.
fn put_file_line<S: Sink>(
    out: &mut S,
    file: &FileView<'_>,
    number: u64,
    depth: usize,
    digest: Option<[u8; 32]>,
)
    ensures { S.takes out.old (node_text depth number (FileNode file.now) [] digest) out.new }
{
    put_indent(out, depth);
    out.put(b"file ");
    put_decimal(out, number);
    out.put(b" ");
    out.put(&file.name().text());
    out.put(b" type ");
    put_two_digits(out, file.kind());
    out.put(b" attributes ");
    put_two_digits(out, file.attributes().byte());
    out.put(b" data ");
    put_decimal(out, file.data_len());
    put_digest(out, digest);
    out.put(b"\n");
}

// Puts the name of a volume, if it has an extended header.
fn put_name<S: Sink>(out: &mut S, head: &VolumeHead<'_>)
    ensures { S.takes out.old (name_text head.now.ext) out.new }
{
    match head.ext() {
        Some(ext) => {
            out.put(b" name ");
            out.put(&ext.name().text());
        }
        None => {}
    }
}

// Returns the words at the start of a volume's line.
fn system_words(system: FileSystem) -> &'static [u8]
    ensures { result.now ≡ system_text system }
{
    match system {
        FileSystem::Ffs2 => b"volume ffs2 length ",
        FileSystem::Ffs3 => b"volume ffs3 length ",
    }
}

// Puts the line of a volume.
fn put_volume_line<S: Sink>(
    out: &mut S,
    volume: &VolumeView<'_>,
    depth: usize,
    digest: Option<[u8; 32]>,
)
    ensures { S.takes out.old (node_text depth 0 (VolumeNode volume.now) [] digest) out.new }
{
    let head = volume.head();
    put_indent(out, depth);
    out.put(system_words(head.file_system()));
    put_decimal(out, head.length());
    out.put(b" files ");
    put_decimal(out, u64::from(volume.file_count()));
    put_name(out, head);
    put_digest(out, digest);
    out.put(b"\n");
}

/// Puts the line of a volume, a file or a section. Allocates no memory. (PI specification, volume 3,
/// section 3.2.)
pub fn put_row<S: Sink>(out: &mut S, row: &Row<'_, '_>, digest: Option<[u8; 32]>)
    ensures { (text : List ℕ) × NodeText row.now.depth row.now.number (part_node row.now.part) digest text
        × S.takes out.old text out.new }
{
    match &row.part {
        Part::Volume(volume) => put_volume_line(out, volume, row.depth, digest),
        Part::File(file) => put_file_line(out, file, row.number, row.depth, digest),
        Part::Section(section) => put_section_line(out, section, row.number, row.depth, digest),
    }
}

/// Puts a line for the volume, for each of its files and for each section of these files, and
/// likewise for the contents of groups and nested volumes. The line of a volume, a file or a leaf
/// section ends with its digest, if there is one. `digests` must cover the rows of the
/// volume. Allocates no memory. (PI specification, volume 3, section 3.2.)
pub fn put_list_with<S: Sink, D: Digests>(volume: &VolumeView<'_>, digests: D, out: &mut S)
    requires { D.covers digests (tree_rows volume.now) }
    ensures { (text : List ℕ) × RowsText D.of_node (tree_rows volume.now) text × S.takes out.old text out.new }
{
    let mut left = digests;
    for row in TreeWalk::of(volume) {
        let digest = left.next_digest(&row);
        put_row(out, &row, digest);
    }
}

// Shows no digests.
#[derive(Clone, Copy)]
struct NoDigests;

// Covers all rows, and shows no digest.
impl Digests for NoDigests {
    ghost covers = { λ _ _. Unit {0} };

    ghost of_node = { λ _ digest. digest ≡ None };

    fn next_digest(&mut self, _row: &Row<'_, '_>) -> Option<[u8; 32]> {
        None
    }
}

/// Puts the lines of `put_list_with`, without digests.
pub fn put_list<S: Sink>(volume: &VolumeView<'_>, out: &mut S)
    ensures { (text : List ℕ) × ListText volume.now text × S.takes out.old text out.new }
{
    put_list_with(volume, NoDigests, out);
}
