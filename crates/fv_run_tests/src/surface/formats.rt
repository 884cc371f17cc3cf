//! The names of fv_head, fv_file and fv_section.

use fv_base::{FileSystem, Polarity};
use fv_file::{
    Cell, CellWalk, Cells, FileAttributes, FileHead, FileState, HeadBytes, cells, file_head_bytes,
    file_state, pad_head_bytes, verify_ffs_file,
};
use fv_head::{
    BlockMap, ExtEntry, ExtHeader, Extent, FvAttributes, VolumeHead, ext_bytes, head_bytes,
    read_head, verify_fv, write_ext, write_head,
};
use fv_section::{
    Frame, Frames, SectionHead, frames, freeform, next_frame, section_head_bytes, ui_text, version,
};

// Names the parts of an extent.
fn name_extent(extent: Extent) {
    let Extent {
        length: _,
        header_len: _,
        first: _,
        file_system: _,
        polarity: _,
    } = extent;
}

/// Names the items of fv_head.
pub(super) fn name_head() {
    let _ = (verify_fv, read_head, head_bytes, ext_bytes);
    let _ = (write_head::<&mut [u8]>, write_ext::<&mut [u8]>);
    let _ = (VolumeHead::zero_vector, VolumeHead::file_system);
    let _ = (VolumeHead::length, VolumeHead::attributes);
    let _ = (VolumeHead::reserved, VolumeHead::blocks, VolumeHead::ext);
    let _ = (ExtHeader::name, ExtHeader::entries, ExtHeader::tail);
    let _ = (ExtEntry::kind, ExtEntry::payload);
    let _ = (BlockMap::as_slice, FvAttributes::polarity);
    name_extent(Extent {
        length: 0,
        header_len: 0,
        first: 0,
        file_system: FileSystem::Ffs2,
        polarity: Polarity::Ones,
    });
}

// Names the states of a file.
fn name_states(state: FileState) {
    match state {
        FileState::Free
        | FileState::Construction
        | FileState::HeaderValid
        | FileState::DataValid
        | FileState::Marked
        | FileState::Deleted
        | FileState::HeaderInvalid => {}
    }
}

// Names the parts of a file's header.
fn name_file_head(head: FileHead) {
    let FileHead {
        name: _,
        kind: _,
        attributes: _,
        size: _,
        header_len: _,
        header_sum: _,
        file_sum: _,
        state,
    } = head;
    name_states(state);
}

// Names the cells of a volume's body.
fn name_cell(cell: &Cell<'_>) {
    match cell {
        Cell::Valid {
            offset: _,
            head,
            payload: _,
        }
        | Cell::Pad {
            offset: _,
            head,
            payload: _,
        } => name_file_head(*head),
        Cell::Dead {
            offset: _,
            len: _,
            ..
        }
        | Cell::Stub { offset: _, len: _ }
        | Cell::Free { offset: _, len: _ } => {}
    }
}

/// Names the items of fv_file.
pub(super) fn name_file() {
    let _ = (file_state, verify_ffs_file, cells);
    let _ = (file_head_bytes, pad_head_bytes);
    let _ = (CellWalk::of, CellWalk::cell_count, CellWalk::next_cell);
    let _ = (Cells::as_slice, HeadBytes::as_slice, FileAttributes::byte);
    name_cell(&Cell::Free { offset: 0, len: 0 });
}

// Names the parts of a frame.
fn name_frame(frame: Frame<'_>) {
    let Frame {
        offset: _,
        kind: _,
        extended: _,
        body: _,
    } = frame;
}

/// Names the items of fv_section.
pub(super) fn name_section() {
    let _ = (next_frame, frames, section_head_bytes);
    let _ = (ui_text, version, freeform);
    let _ = (Frames::as_slice, Frames::tail, SectionHead::as_slice);
    name_frame(Frame {
        offset: 0,
        kind: 0,
        extended: false,
        body: b"",
    });
}
