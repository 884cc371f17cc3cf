//! Lists the tree of a volume: all parts at every level, with their places in the input.

ghost use Rattle.std.specs.Prelude.{◌≡◌, ◌≢◌, ◌<◌, ◌≤◌, ◌+◌, ◌^◌, ◌++◌, ℕ, List, length, drop, map};
ghost use Rattle.std.specs.Prelude.{IfOk, IfErr, OnOk, false};
ghost use Rattle.std.specs.List.{AllByRecursion};
ghost use Rattle.fv_base.specs.Words.{OrMemory, fault_number, out_of_memory, volume_limit};
ghost use Rattle.fv_base.specs.declared.fault.Fault.{Fault};
ghost use Rattle.fv_tree.specs.Words.{Accepted, BeginWithFiles, NotRead, body_of, content_of, file_form};
ghost use Rattle.fv_c.specs.ReadInputs.{Reads};
ghost use Rattle.fv_c.specs.Reports.{BeginsWithHeader, reported_fault, no_fault};
ghost use Rattle.fv_rows.specs.Words.{PartNestsAt, nodes_of, part_node};
ghost use Rattle.fv_c.specs.TreeParts.{NodeRow};
ghost use Rattle.fv_c.specs.ReportedTree.{HasTreeRows, bytes_at};
ghost use Rattle.fv_c.specs.ReportedSections.{IsStreamNodeIn};
ghost use Rattle.fv_c.specs.ReportedTree.{body_number, content_number};
ghost use Rattle.fv_c.specs.ReportedHeaders.{volume_name};
ghost use Rattle.fv_c.specs.declared.input.Form.TheVariants.{Volume};
ghost use Rattle.fv_c.specs.inner.Trees.{AreAdded, EndsBefore, HasFileNumber, HoldsParts, RowHasFiles, node_in};

use crate::buffer::put_result;
use crate::input::{Form, bytes_read};
use crate::reports::{FvFault, system_number};
use bitflags::Flags;
use fv_base::Fault;
use fv_head::VolumeHead;
use fv_rows::{Part, Parts, TreeWalk, known, next_part, parts_in};
use fv_section::section_header_len;
use fv_tree::{
    Body, Content, FileView, LocatedFile, SectionView, VolumeView, located_files,
    whole_volume_with_files,
};
use std::alloc::{AllocError, Global};

/// A row of the tree of a volume: a volume, a file or a section. (PI specification, volume 3,
/// sections 3.2.1, 3.2.3 and 3.2.4.)
#[repr(C)]
#[derive(Clone, Copy)]
pub struct FvNode {
    /// The offset in bytes in the input of a volume, of a file's data, or of a section's body, as
    /// they are stored.
    pub offset: u64,
    /// The length of the volume, the data or the body, in bytes.
    pub length: u64,
    /// The number of the row that holds this part, or 2^64 - 1 in the first row.
    pub parent: u64,
    /// The number of this part among the parts that its parent holds, counted from 0.
    pub index: u64,
    /// The number of rows around this row.
    pub depth: u32,
    /// The kind of the part: 1 is a volume, 2 a file, 3 a section.
    pub kind: u32,
    /// The contents of the part: 0 is files, 1 bytes, 2 sections, 3 a volume.
    pub content: u32,
    /// `Type` of a file or a section. 0 for a volume.
    pub efi_type: u32,
    /// `Attributes` of a volume, or `Attributes` of a file without `FFS_ATTRIB_LARGE_FILE`. 0 for a
    /// section.
    pub attributes: u32,
    /// The length of the part's header in bytes: `HeaderLength` of a volume, 24 or 32 for a file, 4
    /// or 8 for a section.
    pub header_length: u32,
    /// `FvName` of a volume with an extended header, or `Name` of a file, both as stored. Zeros for
    /// any other part.
    pub guid: [u8; 16],
    /// The file system of a volume: 2 for FFS2, 3 for FFS3. 0 for a file or a section.
    pub file_system: u32,
    /// Always 0.
    pub reserved: [u32; 3],
}

/// The parent of a row that no row holds.
pub(crate) const NO_PARENT: u64 = 0xffff_ffff_ffff_ffff;

// The numbers for the contents of a part.
const FILES: u32 = 0;

const BYTES: u32 = 1;

const SECTIONS: u32 = 2;

const VOLUME: u32 = 3;

// The row of no part.
const NO_NODE: FvNode = FvNode {
    offset: 0,
    length: 0,
    parent: NO_PARENT,
    index: 0,
    depth: 0,
    kind: 0,
    content: FILES,
    efi_type: 0,
    attributes: 0,
    header_length: 0,
    guid: [0; 16],
    file_system: 0,
    reserved: [0; 3],
};

/// A row that holds parts.
#[derive(Drop)]
pub(crate) struct Holder {
    /// The number of the row, or `NO_PARENT` if the whole input, which is a stream, holds the parts.
    pub(crate) row: u64,
    /// The depth of the parts.
    pub(crate) depth: u32,
    /// The offset of the row, as in `FvNode`.
    pub(crate) offset: u64,
    /// The files that are stored in the part of the row, if it is a volume.
    pub(crate) files: Vec<LocatedFile>,
}

// Returns `FvName` of a volume, or zeros if it has no extended header.
fn volume_name(head: &VolumeHead<'_>) -> [u8; 16]
    ensures { result ≡ volume_name head.now.ext }
{
    match head.ext() {
        Some(ext) => ext.name().to_bytes(),
        None => [0; 16],
    }
}

// Returns the number for the content of a file: 1 for plain bytes, 2 for sections.
fn content_number(file: &FileView<'_>) -> u32
    ensures { result ≡ content_number (content_of file.now) }
{
    match file.content() {
        Content::Plain(_) => BYTES,
        Content::Stream(_) => SECTIONS,
    }
}

// Returns the number for the body of a section: 1 for bytes, 2 for sections, 3 for a volume.
fn body_number(section: &SectionView<'_, '_>) -> u32
    ensures { result ≡ body_number (body_of section.now) }
{
    match section.body() {
        Body::Leaf(_) => BYTES,
        Body::Group(_) => SECTIONS,
        Body::Nested(_) => VOLUME,
    }
}

// Returns the row of part number `number` that a row holds, for C. `next` is the number of bytes
// before the part, if it is a section.
#[inline(always)]
fn node_in(holder: &Holder, part: &Part<'_, '_>, number: u64, next: u64) -> FvNode
    requires file { HasFileNumber holder.now number (part_node part.now) }
    requires within { EndsBefore (2 ^ 63) (node_in holder.now number next (part_node part.now)) }
    ensures { result ≡ node_in holder.now number next (part_node part.now) }
{
    let placed = FvNode {
        offset: holder.offset,
        parent: holder.row,
        index: number,
        depth: holder.depth,
        ..NO_NODE
    };
    match part {
        Part::Volume(volume) => {
            let head = volume.head();
            FvNode {
                length: head.length(),
                kind: 1,
                attributes: head.attributes().bits(),
                header_length: u32::from(head.header_len()),
                guid: volume_name(head),
                file_system: system_number(head.file_system()),
                ..placed
            }
        }
        Part::File(file) => {
            let stored = holder.files[number as usize];
            let header_len = stored.header_len();
            FvNode {
                offset: holder.offset + (u64::from(stored.offset) + header_len),
                length: file.data_len(),
                kind: 2,
                content: content_number(file),
                efi_type: u32::from(file.kind()),
                attributes: u32::from(file.attributes().byte()),
                header_length: header_len as u32,
                guid: file.name().to_bytes(),
                ..placed
            }
        }
        Part::Section(section) => {
            let header_len = section_header_len(section.extended());
            FvNode {
                offset: holder.offset + (next + header_len),
                length: section.body_len(),
                kind: 3,
                content: body_number(section),
                efi_type: u32::from(section.kind()),
                header_length: header_len as u32,
                ..placed
            }
        }
    }
}

// Returns the bytes of the input that a row describes.
fn bytes_of_row<'a>(input: &'a [u8], node: &FvNode) -> &'a [u8]
    requires { node.now.offset + node.now.length ≤ length input.now }
    ensures { result.now ≡ bytes_at input.now node.now }
{
    let start = node.offset as usize;
    &input[start..start + node.length as usize]
}

// Returns the files that are stored in the part of a row, if it is a volume.
fn files_in(alloc: Global, input: &[u8], node: &FvNode) -> Result<Vec<LocatedFile>, Fault>
    requires row { (rows : List FvNode) × (r : NodeRow) × IsStreamNodeIn input.now rows node.now r }
    ensures files { IfOk result (λ v. RowHasFiles input.now node.now v.items) }
    ensures err { IfErr result (λ f. f ≡ out_of_memory) }
{
    if node.content != FILES {
        return Ok(Vec::new(alloc));
    }
    located_files(alloc, bytes_of_row(input, node))
}

// Adds the rows of parts that a row holds, each followed by the rows of the parts inside it.
pub(crate) fn put_parts(
    alloc: Global,
    input: &[u8],
    mut parts: Parts<'_, '_>,
    holder: &Holder,
    rows: &mut Vec<FvNode>,
) -> Result<(), Fault>
    requires short { length input.now ≤ volume_limit }
    requires nest { AllByRecursion (PartNestsAt holder.now.depth) (nodes_of parts) }
    requires few { length (nodes_of parts) < 2 ^ 63 }
    requires held { HoldsParts input.now rows.old.items holder.now (nodes_of parts) }
    ensures ok { OnOk result (AreAdded input.now holder.now.row holder.now.depth 0 (nodes_of parts.entry) rows.old.items rows.new.items) }
    ensures err { IfErr result (λ f. f ≡ out_of_memory) }
{
    let mut number = 0;
    let mut next = 0;
    while let Some(part) = next_part(&mut parts) {
        let node = node_in(holder, &part, number, next);
        let row = rows.len() as u64;
        number += 1;
        next = (node.offset - holder.offset + node.length + 3) / 4 * 4;
        rows.push(node)?;
        if node.content == BYTES {
            continue;
        }
        let inside = Holder {
            row,
            depth: holder.depth + 1,
            offset: node.offset,
            files: files_in(alloc, input, &node)?,
        };
        put_parts(alloc, input, parts_in(&part), &inside, rows)?;
    }
    Ok(())
}

// Returns the number of rows of the tree of a volume. The number only says how much memory to
// reserve, so the function has no contract, and a sum that is too large becomes usize::MAX.
fn row_count(volume: &VolumeView<'_>) -> usize {
    let mut count: usize = 1;
    for file in volume.files() {
        count = count.saturating_add(1);
        for section in file.sections() {
            count = count.saturating_add(1);
            let part = Part::Section(section);
            if let Parts::Nothing = parts_in(&part) {
                continue;
            }
            for _row in TreeWalk::inside(&part) {
                count = count.saturating_add(1);
            }
        }
    }
    count
}

// Returns the rows of a volume, which is the input and stores these files, for C.
fn rows_of(
    alloc: Global,
    input: &[u8],
    volume: &VolumeView<'_>,
    stored: Vec<LocatedFile>,
) -> Result<Vec<FvNode>, Fault>
    requires read { Accepted input.now volume.now }
    requires files { BeginWithFiles input.now (map (file_form input.now) stored.items) }
    ensures ok { IfOk result (λ v. HasTreeRows input.now v.items) }
    ensures err { IfErr result (λ f. f ≡ out_of_memory) }
{
    let whole = Part::Volume(volume);
    let around = Holder {
        row: NO_PARENT,
        depth: 0,
        offset: 0,
        files: Vec::new(alloc),
    };
    let mut rows = Vec::with_capacity(alloc, row_count(volume))?;
    rows.push(node_in(&around, &whole, 0, 0))?;
    if volume.file_count() == 0 {
        return Ok(rows);
    }
    known(&whole);
    let holder = Holder {
        row: 0,
        depth: 1,
        offset: 0,
        files: stored,
    };
    put_parts(alloc, input, parts_in(&whole), &holder, &mut rows)?;
    Ok(rows)
}

// Reads the input as a volume, and returns its tree, for C.
fn rows_of_input(alloc: Global, input: &[u8], without_marks: bool) -> Result<Vec<FvNode>, Fault>
    ensures ok { IfOk result (λ v. Reads Volume without_marks input.now (λ b. HasTreeRows b v.items)) }
    ensures err { IfErr result (OrMemory (λ f. Reads Volume without_marks input.now (λ b. NotRead b f))) }
    ensures memory { IfErr result (λ f. f ≡ out_of_memory → without_marks ≡ false → BeginsWithHeader input.now) }
{
    let copied = bytes_read(alloc, Form::Volume, input, without_marks)?;
    let bytes: &[u8] = &copied;
    let (volume, stored) = whole_volume_with_files(alloc, bytes)?;
    rows_of(alloc, bytes, &volume, stored)
}

/// Writes the rows of the tree of a volume, which is the whole input, to the start of `rows`: the
/// volume, its files and their sections, and in the same way each volume that a section holds. Each
/// row is followed by the rows of the parts inside its part. `count` is the number of rows. If
/// `without_marks` is true, the volume is read as if no file at any level were marked as fixed, for
/// which the call makes a copy of the input. Returns 0. The data are read once. To find the offsets
/// of the parts, headers are read again, except the headers of the volume's own files. A file that
/// is marked for update and whose update is in its volume is left out. (PI specification, volume 3,
/// sections 3.2.1, 3.2.3, 3.2.3.1 and 3.2.4.)
///
/// # Errors
///
/// 256 if `rows` has fewer elements than `count`. The number of the first fault, which is in
/// `fault`: a fault of `whole_volume`; 24 if memory runs out. `count` is unchanged then. `rows` is
/// unchanged in both cases.
#[unsafe(no_mangle)]
pub extern "C" fn fvp_volume_tree(
    alloc: Global,
    volume: &[u8],
    without_marks: bool,
    rows: &mut [FvNode],
    count: &mut u64,
    fault: &mut FvFault,
) -> u32
    // The buffer begins with the rows, and is unchanged after them.
    ensures ok { result ≡ 0 → (nodes : List FvNode) × Reads Volume without_marks volume.now (λ b. HasTreeRows b nodes)
        × (count.new ≡ length nodes) × (rows.new ≡ nodes ++ drop (length nodes) rows.old) × (fault.new ≡ no_fault) }

    ensures kept { result ≢ 0 → rows.new ≡ rows.old }
    ensures small { result ≡ 256 → (nodes : List FvNode) × Reads Volume without_marks volume.now (λ b. HasTreeRows b nodes)
        × (count.new ≡ length nodes) × (length rows.old < length nodes) × (fault.new ≡ no_fault) }

    // Any other result is the first fault of the bytes that are read, or out of memory. Memory can
    // run out only if the marks of fixed files are taken away, or if the input begins with the header
    // of a volume.
    ensures err { result ≢ 0 → result ≢ 256 → (f : Fault) × OrMemory (λ f. Reads Volume without_marks volume.now (λ b. NotRead b f)) f
        × (f ≡ out_of_memory → without_marks ≡ false → BeginsWithHeader volume.now)
        × (result ≡ fault_number f.kind) × (fault.new ≡ reported_fault f) × (count.new ≡ count.old) }
{
    put_result(
        rows_of_input(alloc, volume, without_marks),
        rows,
        count,
        fault,
    )
}
